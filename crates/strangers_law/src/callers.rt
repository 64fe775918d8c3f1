//! A device and the calls of other stations: they change nothing but the stored answers and what is asked of the application, and at most three others
//! leave the answer of the controller. Read Implicit do not count for that if their answers are not stored. And what holds of both ends alone holds
//! with such calls too, if the application is not asked them.
ghost use Rattle.std.specs.Prelude.{◌≡◌, ◌⊎◌, map};
ghost use Rattle.relations.specs.declared.phase.Phase.TheVariants.{Exchanging as in_exchange};
ghost use Rattle.end_laws.specs.both.Steps.{IsPart};
ghost use Rattle.end_laws.specs.both.StartUp.{WasExchanging};
ghost use Rattle.both_ends.specs.startup.request.Request.{request_for};
ghost use Rattle.both_ends.specs.startup.Played.{viewed};
ghost use Rattle.both_ends.specs.startup.View.{taken_for};
ghost use Rattle.strangers_law.specs.Calling.{CallsLeave, FourReplace, GoesAlike, OwnAreHeard};
ghost use Rattle.strangers_law.specs.CallingRuns.{RelatesWithCallers, RunsGoOnWithCallers, StartsWithCallers, WasStarted};

use both_ends::worlds_start_up;
use controller_messages::Setup;
use flash_model::Flash;
use pn_values::Identity;

/// What calls of other stations do to a device. By its octets alone such a call goes to the device, has one of the other activities, is no Connect,
/// and does not belong to the device's relation, if it has one. These are laws of the machine by which each step of a device is specified; the
/// function has no code.
///
/// Premise: there are at most three other activities. A device stores the answers of the last four. After calls of four other activities the answer
/// that is stored for the controller can be gone, and a call that the controller repeats is then carried out again. With the option
/// `reads_not_kept` Read Implicit do not count: they may have any activity, and any number of stations may call them.
pub fn callers_leave_a_device<F: Flash<S>, const S: usize>()
    // Such a call changes nothing but the stored answers and what is asked of the application: not the relation, the settings, the flash, the lamp, the
    // log, nor the time. If the application is not asked it, the device remains like any device that it was like before.
    ensures left { CallsLeave F.Flash }
    // At anything but a call, and at a call of the controller's activity, a device takes the same step as one that others do not call: it sends the same
    // frames, with the same note, and both are alike after it.
    ensures alike { GoesAlike F.Flash }
    // If the octets of a frame are no call, or a call with this activity, so is what a device hears in them.
    ensures heard { OwnAreHeard }
    // With four other activities it would not hold: their answers replace the one that was stored before them.
    ensures four { FourReplace }
{}

/// What the calls of other stations do to both ends of this set-up and this device. These are laws of the machines by which each step of
/// either end is specified; the function has no code.
///
/// In a run, moves of both ends, frames of quiet strangers (`strangers_leave_both_ends`) and calls of others may come in any order. Beside it there is a
/// run of both ends alone, with the same moves. After each of them the controller, the frames of both ends, and the flash, the settings and the
/// relation of the device are the same. So a clause of `both_ends` about these holds of the moves in a run with callers too: those of `worlds_start_up`
/// are here, those of outputs, alarms and diagnoses in `callers_leave_exchanges`.
///
/// Premises: the calls of the whole run have at most three other activities, as `callers_leave_a_device` says, not counting Read Implicit if their
/// answers are not stored, and the application is asked none of them, as it never is at a station that names no records. While it is asked one, the
/// device refuses the controller's own call for a record of the application as busy, or, if calls of the relation are asked first, refuses a Read
/// Implicit in its place. In a run of both ends alone it asks the controller's call and refuses none.
pub fn callers_leave_both_ends<F: Flash<S>, const S: usize>(setup: &Setup, identity: &Identity)
    // Beside each run with callers there is a run of both ends alone, in which the worlds differ in the stored answers of the others alone.
    ensures runs { RunsGoOnWithCallers F.Flash setup.now identity.now }
    // So these hold as `worlds_start_up` says them: if the controller exchanges data, it received an ApplicationReady that the device had sent at an
    // earlier point. At that point the device had accepted the plan's Connect and its records.
    ensures starts { StartsWithCallers F.Flash setup.now identity.now }
    // The records that a relation of the device accepted are a part of the plan's, in order, each once, unless that happened before.
    ensures part { RelatesWithCallers F.Flash setup.now identity.now (λ first moves link.
        IsPart link.taken (map taken_for setup.now.plan.records.items) ⊎ WasStarted first moves) }
    // If the device exchanges data, its controller did so at an earlier point.
    ensures device { RelatesWithCallers F.Flash setup.now identity.now (λ first moves link.
        link.phase ≡ in_exchange → WasExchanging (viewed moves)) }
    // A relation of the device is the plan's.
    ensures relation { RelatesWithCallers F.Flash setup.now identity.now (λ first moves link.
        link.request ≡ request_for setup.now.plan setup.now.ar) }
{
    callers_leave_a_device::<F, S>();
    worlds_start_up::<F, S>(setup, identity);
}
