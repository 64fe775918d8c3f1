//! The services beside the port of a device: what they do with what happens at it.
ghost use Rattle.std.specs.Prelude.{◌≡◌, ◌<◌, ◌≤◌, ℕ, [], None, Some, true};
ghost use Rattle.device_frames.specs.declared.event.Event.TheVariants.{Frame as Framed};
ghost use Rattle.device_station.specs.port.State.{barred};
ghost use Rattle.device_station.specs.port.Steps.{Ticks};
ghost use Rattle.device_station.specs.Beside.{beside, is_dropped, joined_beside};
ghost use Rattle.device_station.specs.Views.{joined_in, note_in};
ghost use Rattle.device_station.specs.declared.device_services.Attended.TheVariants.{Joined};
ghost use Rattle.device_station.specs.port.Pace.{AreCalm, Calm, HasNoNews, IsBehind, TicksBeside, TicksBesideAny, caught_up, soonest as soonest_by};
ghost use Rattle.device_station.specs.port.Served.{due_with};
ghost use Rattle.device_station.specs.port.ServedSteps.{GivesAny, GivesPort, IsBeside, IsNoticed, TellsPort, TellsPortAny, seen_by, services_from};

use crate::port::device::DevicePort;
use crate::port::own::OwnFrames;
use crate::{
    Attended, DeviceServices, JoinedCall, RecordedFlash, due_beside, follow_answered,
    follow_quiet_units, services_due,
};
use device_core::{Device, Note};
use services::NEVER;

// The services begin beside a device that has started, if the station has them. They are large: made in each branch they are written where they
// stay, and the stack that their parts take is free again before anything else is called.
#[inline(never)]
pub(crate) fn begin(services: &mut Option<DeviceServices>, serves: bool, port: &DevicePort)
    ensures { services.new ≡ services_from serves port.now }
{
    if serves {
        let device = port.device();
        *services = Some(DeviceServices::new(device.identity(), device.running()));
    } else {
        *services = None;
    }
}

// Tells services of the units that were only counted for them.
pub(crate) fn catch_up(services: &mut Option<DeviceServices>, behind: u32)
    requires { IsBehind behind services.old }
    ensures { services.new ≡ caught_up behind services.old }
{
    if behind == 0 {
        return;
    }
    if let Some(services) = services {
        services.pass(behind);
    }
}

// ---- frames, and events of the application

// What services do with a frame that the device has handled: it gave the frame this note. Replaces the content of the outbox by
// the frames that they send. The device is then given the call that the frame completed, if it did: a step of its own. Returns the
// note of the station.
#[inline(never)]
pub(crate) fn follow(
    port: &mut DevicePort,
    services: &mut Option<DeviceServices>,
    octets: &[u8],
    note: Note,
    own: &mut OwnFrames,
) -> Note
    requires known { IsNoticed port.old services.old octets.now note }
    requires dropped { is_dropped note ≡ true → barred port.old ≡ None }
    ensures beside { IsBeside services.old port.old.device.station.identity port.old.device.live.values note
        (Framed (record { items = octets.now })) services.new own.new.frames result }
    ensures gives { GivesAny services.old port.old.device.live.values note (Framed (record { items = octets.now })) port.old port.new }
{
    match services {
        Some(services) => follow_of(port, services, octets, note, own),
        None => {
            own.clear();
            note
        }
    }
}

// The same of services that there are. A frame that the device answered is no call, and they do not answer it.
fn follow_of(
    port: &mut DevicePort,
    services: &mut DeviceServices,
    octets: &[u8],
    note: Note,
    own: &mut OwnFrames,
) -> Note
    requires known { IsNoticed port.old (Some services.old) octets.now note }
    requires dropped { is_dropped note ≡ true → barred port.old ≡ None }
    ensures beside { record { services = services.new; sent = own.new.frames; note = result }
        ≡ beside port.old.device.station.identity services.old port.old.device.live.values note (Framed (record { items = octets.now })) }
    ensures gives { GivesPort (joined_beside services.old port.old.device.live.values note (Framed (record { items = octets.now }))) port.old port.new }
{
    if port.has_frames() {
        own.clear();
        return follow_answered(port.device(), services, octets, note);
    }
    let attended = port.attend(services, octets, note, own);
    give(port, own.call(), attended)
}

// The device is given the call that the services joined, if they did. Returns the note of the station.
fn give(port: &mut DevicePort, call: &JoinedCall, attended: Attended) -> Note
    requires { attended ≡ Joined → barred port.old ≡ None }
    ensures gives { GivesPort (joined_in attended call.now) port.old port.new }
    ensures note { result ≡ note_in attended }
{
    match attended {
        Attended::Noted(note) => note,
        Attended::Joined => {
            let _ = port.take(&call.event());
            Note::Done
        }
    }
}

// Services see the running settings of a device that has power.
pub(crate) fn observe(port: &DevicePort, services: &mut Option<DeviceServices>)
    ensures { services.new ≡ seen_by port.now.device.live.values services.old }
{
    if port.device().is_lost() {
        return;
    }
    if let Some(services) = services {
        services.observe(port.device().running());
    }
}

// ---- what is due

// The number of units until something is due of a device or of the services beside it.
pub(crate) fn due_of(port: &DevicePort, services: &Option<DeviceServices>) -> u32
    ensures { result ≡ due_with services.now port.now.device.live }
{
    match services {
        Some(services) => due_beside(port.device(), services),
        None => port.device().due(),
    }
}

// The unit of this number is the next one with which something is due of services that have no frames, and they have nothing to see or
// to tell before; 0 if that is not known.
pub(crate) fn rest_of(port: &DevicePort, services: &Option<DeviceServices>) -> u32
    ensures calm { 0 < result → AreCalm result port.now.device.live.values services.now }
    ensures known { (limit : ℕ) → 1 < limit → AreCalm limit port.now.device.live.values services.now → 1 < result }
{
    match services {
        Some(services) => rest_beside(port.device(), services),
        None => NEVER,
    }
}

// The same of services that there are.
fn rest_beside(device: &Device<RecordedFlash<4096>, 4096>, services: &DeviceServices) -> u32
    ensures calm { 0 < result → Calm result device.now.live.values services.now }
    ensures known { (limit : ℕ) → 1 < limit → Calm limit device.now.live.values services.now → 1 < result }
{
    if device.is_lost() || services.has_news() || !services.knows(device.running()) {
        return 0;
    }
    let due = services.due_in();
    if due == NEVER { 0 } else { due }
}

// What is due of both, if this is due of the device, and the services rest for this many units.
#[inline(always)]
pub(crate) fn soonest(due: u32, rest: u32, services: &Option<DeviceServices>) -> u32
    ensures { result ≡ soonest_by due rest services.now }
{
    match services {
        Some(_) => due.min(rest),
        None => due,
    }
}

// ---- the neighbour

// The neighbour is reported to the device, if that changed.
pub(crate) fn tell_neighbour(port: &mut DevicePort, services: &mut Option<DeviceServices>)
    requires free { barred port.old ≡ None }
    ensures tells { TellsPortAny services.old port.old port.new services.new }
    ensures free { barred port.new ≡ None }
    ensures told { HasNoNews services.new }
{
    if let Some(services) = services {
        tell_of(port, services);
    }
}

// The same of services that there are.
fn tell_of(port: &mut DevicePort, services: &mut DeviceServices)
    requires free { barred port.old ≡ None }
    ensures tells { TellsPort services.old.has_news port.old services.old port.new services.new }
    ensures free { barred port.new ≡ None }
{
    if let Some(event) = services.news() {
        let _ = port.take(&event);
        services.set_told();
    }
}

// ---- units of time

// Lets units of time pass at a port, at least one and at most as many as these, up to the first that sends something.
// Returns how many passed.
fn pass_alone(port: &mut DevicePort, most: u32) -> u32
    requires free { barred port.old ≡ None }
    requires some { 0 < most }
    ensures some { 0 < result }
    ensures most { result ≤ most }
    ensures ticks { Ticks result port.old port.new }
    ensures quiet { port.new.calls ≡ [] }
{
    match port.tick(most) {
        Ok(passed) => most - passed.left,
        Err(_) => most,
    }
}

// The same with the services beside the device, if there are any, up to the first that brings something to these.
pub(crate) fn pass_both(
    port: &mut DevicePort,
    services: &mut Option<DeviceServices>,
    most: u32,
    own: &mut OwnFrames,
) -> u32
    requires free { barred port.old ≡ None }
    requires some { 0 < most }
    ensures some { 0 < result }
    ensures most { result ≤ most }
    ensures ticks { Ticks result port.old port.new }
    ensures quiet { port.new.calls ≡ [] }
    ensures beside { TicksBesideAny result port.new.device.station.identity port.new.device.live.values services.old services.new own.new.frames }
{
    match services {
        Some(services) => pass_beside(port, services, most, own),
        None => {
            own.clear();
            pass_alone(port, most)
        }
    }
}

// The same with services that there are. In the unit with which something is due of them they go first, as long as the outbox of the
// device is free.
fn pass_beside(
    port: &mut DevicePort,
    services: &mut DeviceServices,
    most: u32,
    own: &mut OwnFrames,
) -> u32
    requires free { barred port.old ≡ None }
    requires some { 0 < most }
    ensures some { 0 < result }
    ensures most { result ≤ most }
    ensures ticks { Ticks result port.old port.new }
    ensures quiet { port.new.calls ≡ [] }
    ensures beside { TicksBeside result port.new.device.station.identity port.new.device.live.values services.old services.new own.new.frames }
{
    let device = port.device();
    let due = services_due(device.is_lost(), device.running(), services);
    if due == 1 {
        port.follow_unit(services, own);
        return pass_alone(port, 1);
    }
    own.clear();
    let passed = pass_alone(port, most.min(due - 1));
    follow_quiet_units(port.device(), services, passed);
    passed
}
