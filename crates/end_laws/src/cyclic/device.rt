//! The cyclic frames of a device.
ghost use Rattle.std.specs.Prelude.{◌≡◌, [], ℕ, None, Some};
ghost use Rattle.arrayvec.specs.ArrayVec.{ArrayVec};
ghost use Rattle.frame_codec.specs.Outbox.{boxed};
ghost use Rattle.relations.specs.RelationState.{RelationState};
ghost use Rattle.device_frames.specs.declared.event.Event.TheVariants.{Frame, Tick};
ghost use Rattle.field_words.specs.Cyclic.{IsAcceptable};
ghost use Rattle.end_laws.specs.cyclic.Device.{IsExchanging, IsNoAcceptable, accepted_at, consumer_at, cycle_at, held_then, linked, provider_at, running_after};
ghost use Rattle.end_laws.specs.cyclic.Ends.{AreProvided, got_at};

use device_core::{Device, Event, Note};
use flash_model::Flash;
use frame_codec::{Outbox, frames_are_read};

/// A step of a device (`Device::step`), whatever was done to the device before.
pub fn cyclic_device<F: Flash<S>, const S: usize>(
    device: &mut Device<F, S>,
    event: &Event<'_>,
    outbox: &mut Outbox,
) -> Note
    // A frame that is acceptable in the relation is accepted: the places that are read, DataStatus and the counter are those of the
    // frame from then on, the data hold time begins again, nothing else changes, and nothing is sent.
    ensures accepts { (link : RelationState) (frame : ArrayVec ℕ) → device.old.live.rest.link ≡ Some link → event.now ≡ Frame frame
        → IsAcceptable (consumer_at device.old.station link) frame.items → device.new.live ≡ linked (accepted_at frame.items link) device.old.live }
    ensures silent { (link : RelationState) (frame : ArrayVec ℕ) → device.old.live.rest.link ≡ Some link → event.now ≡ Frame frame
        → IsAcceptable (consumer_at device.old.station link) frame.items → boxed outbox.new ≡ [] }
    // Any other event, any other frame among them, leaves what was received, as long as the relation exists.
    ensures leaves { (link next : RelationState) → device.old.live.rest.link ≡ Some link → device.new.live.rest.link ≡ Some next
        → IsNoAcceptable device.old.station link event.now → got_at next.flow.cyclic ≡ got_at link.flow.cyclic }
    // While data is exchanged, the units since the last accepted frame are counted: each unit of time by one, up to the data hold time,
    // and nothing else but an acceptable frame changes their number.
    ensures holds { (link next : RelationState) → device.old.live.rest.link ≡ Some link → device.new.live.rest.link ≡ Some next
        → IsExchanging link → IsNoAcceptable device.old.station link event.now
        → next.flow.cyclic.hearing.held ≡ held_then event.now link.flow.cyclic.hearing.limit link.flow.cyclic.hearing.held }
    // Each cyclic frame that is sent with a unit of time has the octets of the relation, a CycleCounter that counts the units since the
    // start of the device, DataValid and State set, ProviderState as the application said, and StationProblemIndicator by the diagnoses.
    ensures sends { (link : RelationState) → device.old.live.rest.link ≡ Some link → event.now ≡ Tick
        → AreProvided (provider_at device.old.station link) (cycle_at device.old.live) (boxed outbox.new) }
    // Whether the application runs is what it says with an event, and as before with any other event.
    ensures runs { (link next : RelationState) → device.old.live.rest.link ≡ Some link → device.new.live.rest.link ≡ Some next
        → next.flow.is_running ≡ running_after event.now link.flow.is_running }
{
    frames_are_read();
    device.step(event, outbox)
}
