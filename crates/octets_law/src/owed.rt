//! One step of a device, and what it owes.
ghost use Rattle.frame_codec.specs.Outbox.{boxed};
ghost use Rattle.octets_law.specs.Owed.{IsOwed};

use device_core::{Device, Event, Note};
use flash_model::Flash;
use frame_codec::Outbox;

/// A step of a device (`Device::step`), whatever was done to the device before.
pub fn step<F: Flash<S>, const S: usize>(
    device: &mut Device<F, S>,
    event: &Event<'_>,
    outbox: &mut Outbox,
) -> Note
    // A whole Write to the running address that is not repeated or outdated is answered in the step, or, if it is of one record that the
    // station names, the application is asked. So is a whole Read Implicit, repeated or not, if the answers to these are not stored.
    // Whether anything is sent once power is lost is not said here.
    ensures owed { IsOwed device.old.station.options device.old.station.identity.mac device.old.live.values.running.suite.address
        device.old.station.named device.old.live.rest.calls device.old.live.rest.asked event.now (boxed outbox.new)
        device.new.live.rest.asked }
{
    device.step(event, outbox)
}
