//! A device and the frames of strangers.
ghost use Rattle.std.specs.Prelude.{◌≡◌, List, ℕ, Some};
ghost use Rattle.frame_codec.specs.Outbox.{boxed};
ghost use Rattle.relations.specs.RelationState.{RelationState};
ghost use Rattle.device_frames.specs.Heard.{heard_of};
ghost use Rattle.device_frames.specs.declared.event.Event.{Event};
ghost use Rattle.device_frames.specs.declared.note.Note.{Note};
ghost use Rattle.device_core.specs.State.{State};
ghost use Rattle.device_core.specs.Steps.{Steps};
ghost use Rattle.strangers_law.specs.Device.{AreAnswers, IsLeft, IsStrange, RunsAsAlone};

use device_core::{Device, Event, Note};
use flash_model::Flash;
use frame_codec::{Outbox, frames_are_read};
use rpc_core::responses_are_read;

/// What the frames of strangers do to a device that has a relation. These are laws of the machine by which each step and each run of
/// a device is specified.
pub fn strangers_leave_a_device<F: Flash<S>, const S: usize>()
    // A frame, or a call that was joined, that does not belong to the relation by its octets alone leaves the relation and the settings
    // as they were, in each state of the device.
    ensures left { (old new : State F) (link : RelationState) (event : Event) (sent : List (List ℕ)) (said : Note)
        → Steps F.Flash old (heard_of old.station.identity event) sent said new → old.live.rest.link ≡ Some link → IsStrange old.station link event
        → IsLeft old.live new.live }
    // What is sent at it is no cyclic frame, no alarm frame and no call, or a stored answer again.
    ensures silent { (old new : State F) (link : RelationState) (event : Event) (sent : List (List ℕ)) (said : Note)
        → Steps F.Flash old (heard_of old.station.identity event) sent said new → old.live.rest.link ≡ Some link → IsStrange old.station link event
        → AreAnswers old.live sent }
    // Any number of them among any units of time: the relation goes on as with the units alone, and with each unit the same frames are
    // sent. Only a call that the application was asked, also by a stranger, can have its response with a unit besides.
    ensures alone { RunsAsAlone }
{
    frames_are_read();
    responses_are_read();
}

/// A step of a device (`Device::step`), whatever was done to the device before.
pub fn step_device<F: Flash<S>, const S: usize>(
    device: &mut Device<F, S>,
    event: &Event<'_>,
    outbox: &mut Outbox,
) -> Note
    // An event of a stranger leaves the relation as it was.
    ensures left { (link : RelationState) → device.old.live.rest.link ≡ Some link → IsStrange device.old.station link event.now
        → IsLeft device.old.live device.new.live }
    // What is then sent is no cyclic frame, no alarm frame and no call, or a stored answer again.
    ensures silent { (link : RelationState) → device.old.live.rest.link ≡ Some link → IsStrange device.old.station link event.now
        → AreAnswers device.old.live (boxed outbox.new) }
{
    strangers_leave_a_device::<F, S>();
    device.step(event, outbox)
}
