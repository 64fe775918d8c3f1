// The effect of a line at both ends.
ghost use Rattle.std.specs.Prelude.{◌≡◌, ◌≤◌, ◌++◌, false, true, OnOk, replicate};
ghost use Rattle.flash_model.specs.Memory.{is_powerless};
ghost use Rattle.device_frames.specs.declared.event.Event.TheVariants as event;
ghost use Rattle.script_lines.specs.Text.{lost_line};
ghost use Rattle.device_frames.specs.declared.note.Note.{Note};
ghost use Rattle.device_station.specs.State.{in_order};
ghost use Rattle.script_session.specs.Ends.{Network, Station, device_run, due_with, station_in, station_step};
ghost use Rattle.script_session.specs.Said.{deliver_answer, event_answer};
ghost use Rattle.script_session.specs.Off.{Delivers};
ghost use Rattle.script_session.specs.Power.{Runs};
ghost use Rattle.script_session.specs.Session.{IsDone, IsRunOf, IsStepFor, IsTold, IsTurned};

use crate::other_end::OtherEnd;
use crate::power::DemoStation;
use device_core::Event;
use device_station::StationOutbox;
use flash_model::Flash;
use script_lines::render;
use std::alloc::AllocError;

/// Makes a step of the device, and renders the result of the event, or that power was lost. The frames that the device
/// sends are rendered, or wait for the controller once there is one.
pub(crate) fn respond(
    device: &mut DemoStation<'_>,
    event: &Event<'_>,
    outbox: &mut StationOutbox,
    other: &mut OtherEnd,
    text: &mut Vec<u8>,
) -> Result<(), AllocError>
    ensures done { (network : Network) → Runs network.station device.old → other.old ≡ network.other →
        OnOk result (IsDone (event_answer network event.now) device.new other.new text.old.items text.new.items) }
    ensures lost { is_powerless device.new.flash ≡ true →
        OnOk result ((text.new.items ≡ text.old.items ++ lost_line) × (other.new ≡ other.old)) }
    // Whatever the flash does: what is reported is what the step returned.
    ensures told { is_powerless device.new.flash ≡ false →
        (note : Note) × IsStepFor (station_in device.old) event.now device.new outbox.new note
        × OnOk result (IsTold other.old (in_order outbox.new) note other.new text.old.items text.new.items) }
    ensures same { device.new.station ≡ device.old.station }
{
    let note = device.step(event, outbox);
    if device.device().flash().is_lost() {
        return lost(text);
    }
    other.send_all(outbox, text)?;
    render::note(note, text)
}

/// Renders that power was lost.
fn lost(text: &mut Vec<u8>) -> Result<(), AllocError>
    ensures { OnOk result (text.new.items ≡ text.old.items ++ lost_line) }
{
    text.extend_from_slice(b"power lost\n")
}

/// Lets a unit of time pass at the device.
fn tick(
    device: &mut DemoStation<'_>,
    outbox: &mut StationOutbox,
    other: &mut OtherEnd,
    text: &mut Vec<u8>,
) -> Result<(), AllocError>
    ensures ticked { (station : Station) → Runs station device.old →
        OnOk result (IsTurned (station_step station event.Tick) device.new other.old other.new text.old.items
        text.new.items) }
    ensures same { device.new.station ≡ device.old.station }
{
    device.step(&Event::Tick, outbox);
    other.send_all(outbox, text)
}

/// Lets units of time pass at the device.
pub(crate) fn ticks(
    device: &mut DemoStation<'_>,
    units: u32,
    outbox: &mut StationOutbox,
    other: &mut OtherEnd,
    text: &mut Vec<u8>,
) -> Result<(), AllocError>
    ensures ticked { (station : Station) → Runs station device.old →
        OnOk result (IsRunOf (device_run station (replicate units event.Tick)) device.new other.old other.new text.old.items
        text.new.items) }
    ensures same { device.new.station ≡ device.old.station }
{
    let mut left = units;
    while left > 0 {
        tick(device, outbox, other, text)?;
        left -= 1;
    }
    Ok(())
}

/// Lets several units of time pass at the device at once, at most as many as are due.
fn leap(
    device: &mut DemoStation<'_>,
    units: u32,
    outbox: &mut StationOutbox,
    other: &mut OtherEnd,
    text: &mut Vec<u8>,
) -> Result<(), AllocError>
    requires { units ≤ due_with device.old.services device.old.live }
    ensures leapt { (station : Station) → Runs station device.old →
        OnOk result (IsRunOf (device_run station (replicate units event.Tick)) device.new other.old other.new text.old.items
        text.new.items) }
    ensures same { device.new.station ≡ device.old.station }
{
    device.elapse(units, outbox);
    other.send_all(outbox, text)
}

/// Lets units of time pass at the device, by leaps.
pub(crate) fn leaps(
    device: &mut DemoStation<'_>,
    units: u32,
    outbox: &mut StationOutbox,
    other: &mut OtherEnd,
    text: &mut Vec<u8>,
) -> Result<(), AllocError>
    ensures leapt { (station : Station) → Runs station device.old →
        OnOk result (IsRunOf (device_run station (replicate units event.Tick)) device.new other.old other.new text.old.items
        text.new.items) }
    ensures same { device.new.station ≡ device.old.station }
{
    let mut left = units;
    while left > 0 {
        let passing = left.min(device.due());
        leap(device, passing, outbox, other, text)?;
        left -= passing;
    }
    Ok(())
}

/// Hands over the frames that wait at either end, and renders how many they were and the state of the controller, or that
/// power was lost.
pub(crate) fn exchange(
    device: &mut DemoStation<'_>,
    outbox: &mut StationOutbox,
    other: &mut OtherEnd,
    text: &mut Vec<u8>,
) -> Result<(), AllocError>
    ensures done { (network : Network) → Runs network.station device.old → other.old ≡ network.other →
        OnOk result (IsDone (deliver_answer network) device.new other.new text.old.items text.new.items) }
    ensures lost { is_powerless device.new.flash ≡ true →
        OnOk result ((text.new.items ≡ text.old.items ++ lost_line) × Delivers other.old other.new) }
    ensures same { device.new.station ≡ device.old.station }
{
    let to_device = other.hand_over(device, outbox)?;
    if device.device().flash().is_lost() {
        return lost(text);
    }
    let to_controller = other.deliver()?;
    render::moved(to_device, to_controller, text)?;
    other.show(text)
}
