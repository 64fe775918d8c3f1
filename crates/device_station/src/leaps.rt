//! Several units of time at once at a station.
ghost use Rattle.std.specs.Prelude.{◌≡◌, ◌<◌, ◌≤◌, ◌-◌, [], length};
ghost use Rattle.device_core.specs.Leaps.{live_due_in, ticks_of as ticks_alone};
ghost use Rattle.frame_codec.specs.Outbox.{boxed};
ghost use Rattle.device_station.specs.Leaps.{FollowsAt, LeapsAreTicks, NoNewsBeside, NoneSendsBeside, OnlyTheLastMeets, OnlyTheLastOfPlain, OnlyTheLastSends, QuietUnitsAreTicks, QuietUnitsBringNoNews, QuietUnitsCount, QuietUnitsCountDown};
ghost use Rattle.device_station.specs.Leaps.{beside_ticks, due_at, due_beside, plain_ticks, services_due, tick_beside, ticks_of};
ghost use Rattle.device_station.specs.State.{in_order};

use crate::step::tell_beside;
use crate::{DeviceServices, IoStation, StationOutbox};
use device_core::{Device, Note};
use flash_model::Flash;
use frame_codec::Outbox;
use pn_values::Settings;
use services::NEVER;

impl<F: Flash<S>, const S: usize> IoStation<F, S> {
    /// The number of units up to and including the next one that brings something to the station: the smaller of the device's and
    /// the services'. 4,294,967,295 if no unit ever does.
    pub fn due(&self) -> u32
        ensures value { result ≡ due_beside self.now.device.live self.now.services }
        ensures some { 0 < result }
    {
        due_beside(&self.device, &self.services)
    }

    /// Lets `units` units of 31.25 microseconds pass at once, at most as many as `due` returns, and replaces the content
    /// of the outbox by the frames to be sent. It has the same effect as that many Tick events, one by one.
    pub fn elapse(&mut self, units: u32, outbox: &mut StationOutbox) -> Note
        requires { units ≤ due_beside self.old.device.live self.old.services }
        // The device, the services and the frames are those after that many Tick events. Only the last of them may send.
        ensures device { self.new.device ≡ record self.old.device {
          live = (ticks_of units self.old.device.station self.old.device.live self.old.services).live;
        } }
        ensures services { self.new.services ≡ (ticks_of units self.old.device.station self.old.device.live self.old.services).services }
        ensures frames { in_order outbox.new ≡ (ticks_of units self.old.device.station self.old.device.live self.old.services).frames }
        ensures last { OnlyTheLastSends units self.old.device.station self.old.device.live self.old.services }
        ensures note { result ≡ Note.Done }
    {
        elapse_beside(&mut self.device, &mut self.services, units, outbox)
    }
}

/// The number of units up to and including the next one that brings something to a device or to the services beside it.
pub fn due_beside<F: Flash<S>, const S: usize>(
    device: &Device<F, S>,
    services: &DeviceServices,
) -> u32
    ensures value { result ≡ due_beside device.now.live services.now }
    ensures some { 0 < result }
{
    device
        .due()
        .min(services_due(device.is_lost(), device.running(), services))
}

/// The same of the services, beside a device with these running settings: the number of units up to and including the next one
/// in which they send a frame or learn other settings. `NEVER` if power is lost, or if no unit brings anything.
pub fn services_due(is_lost: bool, running: &Settings, services: &DeviceServices) -> u32
    ensures value { result ≡ due_at is_lost running.now services.now }
    ensures some { 0 < result }
{
    if is_lost {
        NEVER
    } else if services.knows(running) {
        services.due_in()
    } else {
        1
    }
}

/// Lets units of time pass at a device and at the services beside it, at most as many as `due_beside` returns, and
/// replaces the content of the outbox by the frames to be sent. It has the same effect as that many Tick events, one by one. The
/// neighbour is reported to the device before them, if that changed.
pub fn elapse_beside<F: Flash<S>, const S: usize>(
    device: &mut Device<F, S>,
    services: &mut DeviceServices,
    units: u32,
    outbox: &mut StationOutbox,
) -> Note
    requires { units ≤ due_beside device.old.live services.old }
    // The device, the services and the frames are those after that many Tick events. Only the last of them may send.
    ensures device { device.new ≡ record device.old { live = (ticks_of units device.old.station device.old.live services.old).live } }
    ensures services { services.new ≡ (ticks_of units device.old.station device.old.live services.old).services }
    ensures frames { in_order outbox.new ≡ (ticks_of units device.old.station device.old.live services.old).frames }
    ensures last { OnlyTheLastSends units device.old.station device.old.live services.old }
    ensures note { result ≡ Note.Done }
{
    if units == 0 {
        return elapse_told(device, services, units, outbox);
    }
    tell_beside(device, services, outbox);
    elapse_told(device, services, units, outbox)
}

/// The same at a device that knows its neighbour.
fn elapse_told<F: Flash<S>, const S: usize>(
    device: &mut Device<F, S>,
    services: &mut DeviceServices,
    units: u32,
    outbox: &mut StationOutbox,
) -> Note
    requires { units ≤ due_beside device.old.live services.old }
    ensures device { device.new ≡ record device.old { live = (plain_ticks units device.old.station device.old.live services.old).live } }
    ensures services { services.new ≡ (plain_ticks units device.old.station device.old.live services.old).services }
    ensures frames { in_order outbox.new ≡ (plain_ticks units device.old.station device.old.live services.old).frames }
    ensures last { OnlyTheLastOfPlain units device.old.station device.old.live services.old }
    // Only the last of them may change the neighbour.
    ensures quiet { OnlyTheLastMeets units device.old.station device.old.live services.old }
    ensures note { result ≡ Note.Done }
{
    let note = device.elapse(units, &mut outbox.device);
    if units == 0 {
        outbox.services.clear(); // of what the event before sent
        return note;
    }
    pass_units(
        device.is_lost(),
        device.running(),
        services,
        units,
        &mut outbox.services,
    );
    note
}

/// What the services beside a device do with units of time that have passed at the device: at least one, and at most as many
/// as `services_due` returned. Replaces the content of the outbox by the frames that they send.
pub fn follow_units<F: Flash<S>, const S: usize>(
    device: &Device<F, S>,
    services: &mut DeviceServices,
    units: u32,
    outbox: &mut Outbox,
)
    requires some { 0 < units }
    requires due { units ≤ services_due device.now.live.values services.old }
    // They do what they do beside as many Tick events, one by one. Only the last of them may send.
    ensures state { services.new ≡ beside_ticks device.now.station.identity device.now.live.values units services.old }
    ensures none { NoneSendsBeside (units - 1) device.now.station.identity device.now.live.values services.old }
    // Only the last of them may change the neighbour.
    ensures quiet { NoNewsBeside units device.now.station.identity device.now.live.values services.old }
    ensures frames { boxed outbox.new ≡ (tick_beside device.now.station.identity device.now.live.values
        (beside_ticks device.now.station.identity device.now.live.values (units - 1) services.old)).sent }
    ensures few { length (boxed outbox.new) ≤ 2 }
{
    pass_units(device.is_lost(), device.running(), services, units, outbox);
}

/// The same with fewer units than `services_due` returned: the services send nothing.
pub fn follow_quiet_units<F: Flash<S>, const S: usize>(
    device: &Device<F, S>,
    services: &mut DeviceServices,
    units: u32,
)
    requires { units < services_due device.now.live.values services.old }
    ensures state { services.new ≡ beside_ticks device.now.station.identity device.now.live.values units services.old }
    ensures none { NoneSendsBeside units device.now.station.identity device.now.live.values services.old }
    ensures quiet { NoNewsBeside units device.now.station.identity device.now.live.values services.old }
{
    if device.is_lost() {
        return;
    }
    services.pass(units);
}

/// The same beside a device that has lost its power or not, and has these running settings.
fn pass_units(
    is_lost: bool,
    running: &Settings,
    services: &mut DeviceServices,
    units: u32,
    outbox: &mut Outbox,
)
    requires some { 0 < units }
    requires due { units ≤ due_at is_lost running.now services.old }
    ensures { FollowsAt is_lost running.now units services.old services.new (boxed outbox.new) }
{
    outbox.clear(); // of what the event before sent
    if is_lost {
        return;
    }
    services.pass(units - 1);
    services.tick(outbox);
    services.observe(running);
}

/// Lets units of time pass at a device without services, at most as many as `Device::due` returns, and replaces the content
/// of the outbox by the frames to be sent.
pub fn elapse_alone<F: Flash<S>, const S: usize>(
    device: &mut Device<F, S>,
    units: u32,
    outbox: &mut StationOutbox,
) -> Note
    requires { units ≤ live_due_in device.old.live }
    // The device and the frames are those after that many Tick events, as the device alone makes them.
    ensures device { device.new ≡ record device.old { live = (ticks_alone units device.old.station device.old.live).live } }
    ensures frames { outbox.new.device ≡ (ticks_alone units device.old.station device.old.live).frames }
    // No frame of services is sent.
    ensures services { outbox.new.services ≡ [] }
    ensures note { result ≡ Note.Done }
{
    outbox.services.clear();
    device.elapse(units, &mut outbox.device)
}

/// As long as nothing is due of the services beside a device that has power, units of time are ticks of theirs and send
/// nothing, bring what is due nearer by exactly their number, and do not change the neighbour. So such units may be counted, and
/// the services may learn of them later, all at once. These are laws of the definitions that specify `follow_units`.
pub fn quiet_units_are_ticks()
    ensures ticks { QuietUnitsAreTicks }
    ensures count { QuietUnitsCount }
    ensures down { QuietUnitsCountDown }
    ensures news { QuietUnitsBringNoNews }
{}

/// However a number of units is divided into leaps, the station and the frames, in order, are those of that many Tick
/// events. This is a law of the definitions that specify `IoStation::elapse`; the function has no code.
pub fn leaps_are_ticks()
    ensures { LeapsAreTicks }
{}
