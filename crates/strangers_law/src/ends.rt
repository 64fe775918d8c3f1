//! Both ends of a network and the frames of strangers: what holds of both ends alone holds with strangers too.
ghost use Rattle.std.specs.Prelude.{◌≡◌, List, ℕ};
ghost use Rattle.std.specs.List.{AllByRecursion};
ghost use Rattle.device_core.specs.State.{State};
ghost use Rattle.device_core.specs.Steps.{Steps};
ghost use Rattle.device_frames.specs.declared.note.Note.{Note};
ghost use Rattle.network_world.specs.declared.moves.End.{End};
ghost use Rattle.network_world.specs.World.{World};
ghost use Rattle.strangers_law.specs.Controller.{LeavesControllers};
ghost use Rattle.strangers_law.specs.Quiet.{IsQuietAt, IsReturned, heard_in};
ghost use Rattle.strangers_law.specs.Runs.{AnswersAreStrangers, IsStrangerTo, RunsGoOn, Takes};

use flash_model::Flash;
use frame_codec::frames_are_read;

/// What the frames of strangers do to a device, its controller, and all frames that either ever sent to the other. By its octets alone such a frame is
/// no call to the device, no Set that the device carries out, and belongs neither to the device's relation nor to the controller. These are laws of
/// the machines by which each step of either end is specified; the function has no code.
///
/// Each clause of `both_ends` over a run of moves (`AreMade`) holds of the moves of both ends in a run with strangers, with the same worlds: both ends
/// start up (`worlds_start_up`, `later_worlds_begin`), the device shows the outputs of one frame of its controller (`worlds_show_what_is_given`), and
/// the controller takes the alarms of the device in order and lists its diagnoses (`worlds_take_alarms`).
///
/// Premise: a call of a stranger to the device is no such frame. It takes a place of the stored answers, which are those of the last four activities.
/// After calls of four other activities a call that the controller repeats is carried out again, and some of these clauses fail. With calls of at most
/// three others they hold (`callers_leave_both_ends`).
pub fn strangers_leave_both_ends<F: Flash<S>, const S: usize>()
    // A device stays exactly as it is, with its flash, with a relation and without one.
    ensures device { (old new : State F) (octets : List ℕ) (sent : List (List ℕ)) (said : Note)
        → Steps F.Flash old (heard_in old.station.identity octets) sent said new
        → IsQuietAt old octets → new ≡ old }
    // A controller stays exactly as it is, and sends nothing.
    ensures controller { LeavesControllers }
    // Each frame that the device sends at it goes to its sender.
    ensures answers { (old new : State F) (octets : List ℕ) (sent : List (List ℕ)) (said : Note)
        → Steps F.Flash old (heard_in old.station.identity octets) sent said new
        → IsQuietAt old octets → AllByRecursion (IsReturned octets) sent }
    // If the sender is neither end, each frame that the device sends at it is such a frame too, to both ends.
    ensures others { AnswersAreStrangers F.Flash }
    // If an end takes such a frame, the world of both ends stays as it is: the device with its flash, the controller, and the frames of both ends.
    ensures still { (before after : World F) (end : End) (octets : List ℕ)
        → IsStrangerTo before end octets → Takes F.Flash before end octets after → after ≡ before }
    // In any run with strangers the moves of both ends are a run of both ends alone, through the same worlds.
    ensures runs { RunsGoOn F.Flash }
{
    frames_are_read();
}
