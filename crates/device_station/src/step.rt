//! One step of a station.
ghost use Rattle.std.specs.Prelude.{◌≡◌, ◌≤◌, [], None, false, length};
ghost use Rattle.frame_codec.specs.Outbox.{boxed};
ghost use Rattle.device_frames.specs.declared.event.Event.TheVariants.{Frame as Framed};
ghost use Rattle.device_station.specs.Beside.{beside, has_any, is_dropped, joined_beside};
ghost use Rattle.device_station.specs.Leaps.{due_beside};
ghost use Rattle.device_station.specs.Serving.{disputes, news_in};
ghost use Rattle.device_station.specs.Views.{joined_in, note_in};
ghost use Rattle.device_station.specs.declared.device_services.Attended.TheVariants.{Joined};
ghost use Rattle.device_core.specs.Machine.{step_of};
ghost use Rattle.device_frames.specs.declared.note.Note.TheVariants.{Done};
ghost use Rattle.device_station.specs.Steps.{DeviceSteps, StationSteps, StationTakes, Tells, station_of};

use crate::{Attended, DeviceServices, JoinedCall, StationOutbox};
use device_core::{Device, Event, Note};
use flash_model::Flash;
use frame_codec::Outbox;

/// Handles an event at a device and at the services beside it, and replaces the content of the outbox by the frames to be
/// sent. The neighbour is reported to the device first, if that changed. Then the event goes to the device. The services answer a
/// frame only if the device dropped it, and hear each packet of ARP. They do nothing in a step in which power was lost. A call
/// that the event completed, as its last fragment, is then given to the device.
pub fn step_beside<F: Flash<S>, const S: usize>(
    device: &mut Device<F, S>,
    services: &mut DeviceServices,
    event: &Event<'_>,
    outbox: &mut StationOutbox,
) -> Note
    // The step of the device is a step of the device alone, and the services do what is said of them beside it.
    ensures { StationTakes F.Flash (station_of device.old services.old) event.now outbox.new result (station_of device.new services.new) }
{
    tell_beside(device, services, outbox);
    step_told(device, services, event, outbox)
}

/// The same at a device that knows its neighbour.
fn step_told<F: Flash<S>, const S: usize>(
    device: &mut Device<F, S>,
    services: &mut DeviceServices,
    event: &Event<'_>,
    outbox: &mut StationOutbox,
) -> Note
    ensures { StationSteps F.Flash (station_of device.old services.old) event.now outbox.new result (station_of device.new services.new) }
{
    let (_, attended) = step_both(
        device,
        services,
        event,
        &mut outbox.device,
        &mut outbox.services,
        &mut outbox.call,
    );
    match attended {
        Attended::Noted(note) => note,
        Attended::Joined => {
            let _ = give(device, &outbox.call, &mut outbox.device);
            Note::Done
        }
    }
}

/// The device's step, and what the services do beside it. Returns the note of the device, and what the services made of the
/// event.
fn step_both<F: Flash<S>, const S: usize>(
    device: &mut Device<F, S>,
    services: &mut DeviceServices,
    event: &Event<'_>,
    sent: &mut Outbox,
    outbox: &mut Outbox,
    call: &mut JoinedCall,
) -> (Note, Attended)
    // The device makes its step alone.
    ensures alone { DeviceSteps F.Flash device.old event.now (boxed sent.new) result.0 device.new }
    // The services do what is said of them beside it.
    ensures beside { record { services = services.new; sent = boxed outbox.new; note = note_in result.1 }
        ≡ beside device.old.station.identity services.old device.new.live.values result.0 event.now }
    ensures call { joined_in result.1 call.new ≡ joined_beside services.old device.new.live.values result.0 event.now }
{
    outbox.clear(); // of what the event before sent
    let note = step_device(device, event, sent);
    if device.is_lost() {
        return (note, Attended::Noted(note));
    }
    let has_sent = has_frames(sent);
    let attended = services.attend(device.identity(), event, note, has_sent, outbox, call);
    services.observe(device.running());
    (note, attended)
}

/// Gives a device a call that the services beside it joined from fragments: a step of its own, and the outbox gets its frames.
/// `step_beside` does it; the owner of a device whose flash calls are carried out elsewhere does it after `follow_frame`.
pub fn give<F: Flash<S>, const S: usize>(
    device: &mut Device<F, S>,
    call: &JoinedCall,
    outbox: &mut Outbox,
) -> Note
    ensures { DeviceSteps F.Flash device.old call.now (boxed outbox.new) result device.new }
{
    step_device(device, &call.event(), outbox)
}

/// Reports its neighbour to a device, if it changed since the last report: a step of its own, with the event Neighbour, which
/// sends nothing. `step_beside` and `elapse_beside` do it; the owner of a device whose
/// flash calls are carried out elsewhere does it before the device's step.
pub fn tell_beside<F: Flash<S>, const S: usize>(
    device: &mut Device<F, S>,
    services: &mut DeviceServices,
    outbox: &mut StationOutbox,
)
    ensures tells { Tells F.Flash (station_of device.old services.old) (station_of device.new services.new) }
    // The number of units up to the next one that brings something stays as it is.
    ensures due { due_beside device.new.live services.new ≡ due_beside device.old.live services.old }
{
    if services.has_news() {
        tell(device, services, outbox);
        services.set_told();
    }
}

/// Tells a device of its neighbour, whether that changed or not.
#[inline(never)]
fn tell<F: Flash<S>, const S: usize>(
    device: &mut Device<F, S>,
    services: &DeviceServices,
    outbox: &mut StationOutbox,
)
    ensures alone { DeviceSteps F.Flash device.old (news_in services.now) [] Done device.new }
    ensures state { device.new ≡ record device.old { live = (step_of [] device.old.station device.old.live (news_in services.now)).live } }
{
    let event = services.neighbour_event();
    let _ = step_alone(device, &event, outbox);
}

/// Handles an event at a device without services, and replaces the content of the outbox by the frames to be sent.
pub fn step_alone<F: Flash<S>, const S: usize>(
    device: &mut Device<F, S>,
    event: &Event<'_>,
    outbox: &mut StationOutbox,
) -> Note
    // The step is that of the device alone.
    ensures alone { DeviceSteps F.Flash device.old event.now outbox.new.device result device.new }
    // No frame of services is sent.
    ensures services { outbox.new.services ≡ [] }
{
    outbox.services.clear();
    step_device(device, event, &mut outbox.device)
}

/// Handles an event at a device, and replaces the content of the outbox by the frames to be sent.
fn step_device<F: Flash<S>, const S: usize>(
    device: &mut Device<F, S>,
    event: &Event<'_>,
    outbox: &mut Outbox,
) -> Note
    ensures { DeviceSteps F.Flash device.old event.now (boxed outbox.new) result device.new }
{
    device.step(event, outbox)
}

/// What the services beside a device do with a received frame that the device has handled: it gave the frame this note, and
/// sent frames or none. Replaces the content of the outbox by the frames that they send, and returns the note of the station, or
/// that the frame completed a call, which is written into `call`.
///
/// A device whose flash calls are carried out elsewhere makes its step first, and then this; and then, if a call was completed,
/// that of `give`.
pub fn follow_frame<F: Flash<S>, const S: usize>(
    device: &Device<F, S>,
    services: &mut DeviceServices,
    octets: &[u8],
    note: Note,
    has_sent: bool,
    outbox: &mut Outbox,
    call: &mut JoinedCall,
) -> Attended
    // A conflict was dropped or answered by the device, as `conflicts_are_noticed` says of each step.
    requires { is_dropped note ≡ false → has_sent ≡ false → disputes services.old octets.now ≡ false }
    ensures beside { record { services = services.new; sent = boxed outbox.new; note = note_in result }
        ≡ beside device.now.station.identity services.old device.now.live.values note (Framed (record { items = octets.now })) }
    ensures call { joined_in result call.new
        ≡ joined_beside services.old device.now.live.values note (Framed (record { items = octets.now })) }
    // They send at most one frame, and none if the frame completed a call.
    ensures few { length (boxed outbox.new) ≤ 1 }
    ensures alone { result ≡ Joined → boxed outbox.new ≡ [] }
{
    outbox.clear(); // of what the event before sent
    if device.is_lost() {
        return Attended::Noted(note);
    }
    let attended = services.attend_frame(device.identity(), octets, note, has_sent, outbox, call);
    services.observe(device.running());
    attended
}

/// The same with a frame that the device did not drop, as one that it answered: the services only count a conflict. They send nothing,
/// and the frame completes no call.
pub fn follow_answered<F: Flash<S>, const S: usize>(
    device: &Device<F, S>,
    services: &mut DeviceServices,
    octets: &[u8],
    note: Note,
) -> Note
    requires { is_dropped note ≡ false }
    ensures beside { record { services = services.new; sent = []; note = result }
        ≡ beside device.now.station.identity services.old device.now.live.values note (Framed (record { items = octets.now })) }
    ensures call { None ≡ joined_beside services.old device.now.live.values note (Framed (record { items = octets.now })) }
{
    if device.is_lost() {
        return note;
    }
    let said = services.overhear(octets, note);
    services.observe(device.running());
    said
}

/// Whether there is a frame in the outbox.
fn has_frames(outbox: &Outbox) -> bool
    ensures { result ≡ has_any (boxed outbox.now) }
{
    match outbox.as_slice() {
        [] => false,
        [_, ..] => true,
    }
}
