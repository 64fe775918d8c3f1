//! The law of the answers to calls.
ghost use Rattle.std.specs.Prelude.{List, ℕ};
ghost use Rattle.std.specs.List.{AllByRecursion};
ghost use Rattle.pn_values.specs.declared.real.Real.{Real};
ghost use Rattle.pn_values.specs.declared.settings.Settings.{Settings};
ghost use Rattle.device_frames.specs.Heard.{Heard};
ghost use Rattle.device_frames.specs.declared.note.Note.{Note};
ghost use Rattle.device_core.specs.Cycle.{started};
ghost use Rattle.device_core.specs.Machine.{heard_step};
ghost use Rattle.device_core.specs.State.{State};
ghost use Rattle.device_core.specs.Steps.{Steps};
ghost use Rattle.end_laws.specs.answers.Whole.{AreStoredWhole, IsAnsweredWhole};

use device_core::application_is_local;
use flash_model::Flash;
use frame_codec::frames_are_read;
use rpc_core::responses_are_read;

/// Every answer of a device to a call is one whole datagram, so no answer has to travel in fragments. These are laws of the
/// machine by which each step of a device is specified.
pub fn answers_are_one_datagram<F: Flash<S>, const S: usize>()
    // A device that has just started stores no answer.
    ensures first { (given : Real) (settings : Settings) (room : ℕ) → AreStoredWhole (started given settings room).rest.calls }
    // If each stored answer is one whole datagram, then in each step, whatever the device hears, also a call that was joined
    // of fragments, and whatever the flash did: each answer that is sent is one whole datagram with at most 1,372 octets of
    // blocks, and each answer that is stored afterwards is one whole datagram.
    ensures step { (old new : State F) (heard : Heard) (sent : List (List ℕ)) (said : Note) → (steps : Steps F.Flash old heard sent said new)
        → AreStoredWhole old.live.rest.calls →
        AllByRecursion (IsAnsweredWhole old.station.identity) (heard_step steps.outcomes old.station old.live heard).sent
        × AreStoredWhole new.live.rest.calls }
{
    frames_are_read();
    responses_are_read();
    application_is_local();
}
