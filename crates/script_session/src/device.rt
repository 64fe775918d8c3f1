// Steps of the demo device.
ghost use Rattle.std.specs.Prelude.{◌≡◌, [], OnOk};
ghost use Rattle.device_frames.specs.declared.event.Event.TheVariants as event;
ghost use Rattle.script_session.specs.Ends.{Station, device_run, frames_for_device, octets_of};
ghost use Rattle.script_session.specs.Said.{handed};
ghost use Rattle.script_session.specs.Power.{Runs};
ghost use Rattle.script_session.specs.Session.{IsHandedTo};

use crate::power::DemoStation;
use crate::waiting::append_all;
use device_core::{Event, Octets};
use device_station::StationOutbox;
use flash_model::Flash;
use frame_codec::Frame;
use std::alloc::AllocError;

/// Hands frames to the device, until power is lost. What the device sends waits for the controller.
pub(crate) fn hand_over(
    device: &mut DemoStation<'_>,
    frames: &[Frame],
    outbox: &mut StationOutbox,
    to_controller: &mut Vec<Frame>,
) -> Result<(), AllocError>
    ensures handed { (station : Station) → Runs station device.old →
        OnOk result (IsHandedTo (device_run station (frames_for_device (octets_of frames.now))) device.new to_controller.old.items
        to_controller.new.items) }
    ensures same { device.new.station ≡ device.old.station }
{
    for frame in frames {
        let event = Event::Frame(Octets::of(frame.as_slice()));
        device.step(&event, outbox);
        if device.device().flash().is_lost() {
            return Ok(());
        }
        append_all(outbox, to_controller)?;
    }
    Ok(())
}
