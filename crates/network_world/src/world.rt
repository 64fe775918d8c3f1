//! Both ends, and all frames that either ever sent.
ghost use Rattle.std.specs.Prelude.{◌≡◌, ◌≤◌, ◌<◌, ◌++◌, ◌∷◌, [], ℕ, length, option_map, slice_get, take, OnErr, OnOk};
ghost use Rattle.lldp.specs.Views.{peer_as};
ghost use Rattle.controller_core.specs.Machine.{opening_of, step_of};
ghost use Rattle.device_frames.specs.Heard.{heard_of};
ghost use Rattle.network_world.specs.World.{Comes, Delivers, Happens, IsHeard, Passes, Played, is_cyclic_frame, is_ended, is_skipped};
ghost use Rattle.network_world.specs.World.{world_of};

use crate::sent::SentFrames;
use crate::{End, Move};
use controller_core::{Controller, Event as ControllerEvent, State};
use device_core::{Device, Event as DeviceEvent, Local, Octets};
use flash_model::Flash;
use frame_codec::{Bytes, Frame, Outbox, is_cyclic, read_real_time};
use lldp::Neighbour;
use records::is_relation;
use std::alloc::{AllocError, Global};
use std::marker::Model;

/// A device, its controller, and all frames that either ever sent. The device keeps the flash that it was given, which
/// may fail and may lose power.
#[derive(Drop)]
pub struct World<F: Flash<S>, const S: usize> {
    controller: Controller,
    sent: SentFrames,
    // Last: what is proved of the size of a struct doubles with each field after one of any type.
    device: Device<F, S>,
}

impl<F: Flash<S>, const S: usize> Model for World<F, S> {
    ghost use Rattle.network_world.specs.World.{World, world_of};

    ghost Value = { World F };

    ghost view = { λ world. world_of world.device world.controller world.sent };
}

/// A buffer with these octets, for an event.
fn bytes_of(octets: &[u8]) -> Bytes
    requires { length octets.now ≤ 1519 }
    ensures { result.items ≡ octets.now }
{
    let mut bytes = Bytes::new();
    let _ = bytes.try_extend_from_slice(octets);
    bytes
}

/// Whether this is a cyclic frame, to any destination.
#[tactic(auto, unfolding(crate::specs::World::is_cyclic_frame))]
fn is_cyclic_frame(octets: &[u8]) -> bool
    ensures { result ≡ is_cyclic_frame octets.now }
{
    match read_real_time(octets) {
        Some(frame) => is_cyclic(frame.frame_id),
        None => false,
    }
}

/// Whether a controller has left its relation.
fn is_ended(state: State) -> bool
    ensures { result ≡ is_ended state }
{
    matches!(state, State::Ended(_))
}

/// Whether a frame that is delivered to an end is skipped: a cyclic frame to an end that has left the relation of this
/// controller.
fn is_skipped<F: Flash<S>, const S: usize>(
    device: &Device<F, S>,
    controller: &Controller,
    end: End,
    octets: &[u8],
) -> bool
    ensures { result ≡ is_skipped device.now controller.now end octets.now }
{
    if !is_cyclic_frame(octets) {
        return false;
    }
    match end {
        End::Device => !is_relation(device.ar(), &controller.ar()),
        End::Controller => is_ended(controller.state()),
    }
}

/// Handles an event at the device. There must be room for what it sends.
fn happen_at_device<F: Flash<S>, const S: usize>(
    device: &mut Device<F, S>,
    sent: &mut SentFrames,
    event: &DeviceEvent<'_>,
)
    requires room { 4 ≤ sent.old.room }
    ensures { IsHeard F.Flash device.old sent.old.frames (heard_of device.old.station.identity event.now) device.new
        sent.new.frames }
{
    let mut outbox = Outbox::new();
    let _ = device.step(event, &mut outbox);
    sent.keep(&outbox);
}

/// Handles an event at the controller. There must be room for what it sends.
fn happen_at_controller(controller: &mut Controller, sent: &mut SentFrames, event: &ControllerEvent)
    requires room { 4 ≤ sent.old.room }
    ensures state { controller.new ≡ (step_of controller.old event.now).controller }
    ensures frames { sent.new.frames ≡ sent.old.frames ++ (step_of controller.old event.now).frames }
{
    let mut outbox = Outbox::new();
    controller.step(event, &mut outbox);
    sent.keep(&outbox);
}

/// Delivers a frame to an end, unless it is skipped.
fn come<F: Flash<S>, const S: usize>(
    device: &mut Device<F, S>,
    controller: &mut Controller,
    sent: &mut SentFrames,
    end: End,
    bytes: Bytes,
)
    requires room { 4 ≤ sent.old.room }
    ensures { Comes F.Flash (is_skipped device.old controller.old end bytes.items)
        (world_of device.old controller.old sent.old) end bytes.items (world_of device.new controller.new sent.new) }
{
    if is_skipped(device, controller, end, bytes.as_slice()) {
        return;
    }
    match end {
        End::Device => happen_at_device(
            device,
            sent,
            &DeviceEvent::Frame(Octets::of(bytes.as_slice())),
        ),
        End::Controller => happen_at_controller(controller, sent, &ControllerEvent::Frame(bytes)),
    }
}

/// Lets a unit of time pass at an end.
fn pass<F: Flash<S>, const S: usize>(
    device: &mut Device<F, S>,
    controller: &mut Controller,
    sent: &mut SentFrames,
    end: End,
)
    requires room { 4 ≤ sent.old.room }
    ensures { Passes F.Flash (world_of device.old controller.old sent.old) end
        (world_of device.new controller.new sent.new) }
{
    match end {
        End::Device => happen_at_device(device, sent, &DeviceEvent::Tick),
        End::Controller => happen_at_controller(controller, sent, &ControllerEvent::Tick),
    }
}

/// Delivers the frame with this number to an end, if it exists.
fn deliver<F: Flash<S>, const S: usize>(
    device: &mut Device<F, S>,
    controller: &mut Controller,
    sent: &mut SentFrames,
    end: End,
    number: usize,
)
    requires room { 4 ≤ sent.old.room }
    ensures { Delivers F.Flash (slice_get sent.old.frames number) (world_of device.old controller.old sent.old) end
        (world_of device.new controller.new sent.new) }
{
    let bytes = match sent.at(number) {
        Some(frame) => bytes_of(frame.as_slice()),
        None => return,
    };
    come(device, controller, sent, end, bytes);
}

/// A copy of a neighbour, if there is one.
fn copied(neighbour: &Option<Neighbour>) -> Option<Neighbour>
    ensures { option_map peer_as result ≡ option_map peer_as neighbour.now }
{
    match neighbour {
        Some(neighbour) => Some(neighbour.copy()),
        None => None,
    }
}

/// What the application says, with its octets borrowed.
fn borrowed(local: &Local<Bytes>) -> Local<Octets<'_, 1519>>
    ensures { result ≡ local.now }
{
    match local {
        Local::Input(slot, subslot, value) => {
            Local::Input(*slot, *subslot, Octets::of(value.as_slice()))
        }
        Local::Alarm(slot, subslot, octets) => {
            Local::Alarm(*slot, *subslot, Octets::of(octets.as_slice()))
        }
        Local::Status(slot, subslot, is_good) => Local::Status(*slot, *subslot, *is_good),
        Local::Diagnosis(slot, subslot, channel, error, appears) => {
            Local::Diagnosis(*slot, *subslot, *channel, *error, *appears)
        }
        Local::Pull(slot, subslot) => Local::Pull(*slot, *subslot),
        Local::PullModule(slot) => Local::PullModule(*slot),
        Local::Plug(slot, ident, submodule) => Local::Plug(*slot, *ident, submodule.copy()),
        Local::ReadyAt(slot, subslot) => Local::ReadyAt(*slot, *subslot),
        Local::Ready => Local::Ready,
        Local::ProviderState(is_running) => Local::ProviderState(*is_running),
        Local::Answer(number, octets) => Local::Answer(*number, Octets::of(octets.as_slice())),
        Local::Written(number) => Local::Written(*number),
        Local::Refuse(number, code1, code2) => Local::Refuse(*number, *code1, *code2),
    }
}

/// Makes a move. There must be room for what it sends.
fn happen<F: Flash<S>, const S: usize>(
    device: &mut Device<F, S>,
    controller: &mut Controller,
    sent: &mut SentFrames,
    one: &Move,
)
    requires room { 4 ≤ sent.old.room }
    ensures { Happens F.Flash (world_of device.old controller.old sent.old) one.now
        (world_of device.new controller.new sent.new) }
{
    match one {
        Move::Deliver(end, number) => deliver(device, controller, sent, *end, *number),
        Move::Tick(end) => pass(device, controller, sent, *end),
        Move::Application(local) => {
            let said = DeviceEvent::Application(borrowed(local));
            happen_at_device(device, sent, &said);
        }
        Move::Neighbour(neighbour) => {
            let met = DeviceEvent::Neighbour(copied(neighbour));
            happen_at_device(device, sent, &met);
        }
        Move::Give(slot, subslot, value) => {
            let output = ControllerEvent::Give(*slot, *subslot, bytes_of(value.as_slice()));
            happen_at_controller(controller, sent, &output);
        }
        Move::OutputStatus(slot, subslot, is_good) => {
            let status = ControllerEvent::Status(*slot, *subslot, *is_good);
            happen_at_controller(controller, sent, &status);
        }
        Move::Read(slot, subslot, index) => {
            let read = ControllerEvent::Read(*slot, *subslot, *index);
            happen_at_controller(controller, sent, &read);
        }
        Move::Write(slot, subslot, index, octets) => {
            let write = ControllerEvent::Write(
                *slot,
                *subslot,
                *index,
                bytes_of(octets.as_slice()),
            );
            happen_at_controller(controller, sent, &write);
        }
        Move::Stop => happen_at_controller(controller, sent, &ControllerEvent::Stop),
    }
}

impl<F: Flash<S>, const S: usize> World<F, S> {
    /// A world in which only the opening frame of the controller was sent. It needs no memory.
    pub fn new(alloc: Global, device: Device<F, S>, controller: Controller) -> Self
        ensures { result ≡ record { device = device; controller = controller; sent = opening_of controller ∷ [] } }
    {
        let opening = controller.opening();
        World {
            device,
            controller,
            sent: SentFrames::new(alloc, opening),
        }
    }

    /// The device.
    pub fn device(&self) -> &Device<F, S>
        ensures { result.now ≡ self.now.device }
    {
        &self.device
    }

    /// The device, without the controller and what was sent. The next controller may begin with it.
    pub fn into_device(self) -> Device<F, S>
        ensures { result ≡ self.device }
    {
        self.device
    }

    /// Its controller.
    pub fn controller(&self) -> &Controller
        ensures { result.now ≡ self.now.controller }
    {
        &self.controller
    }

    /// The frame with this number among all that either end ever sent, if it exists. They are counted from 0, in the
    /// order in which they were sent.
    pub fn sent(&self, number: usize) -> Option<&Frame>
        ensures { option_map (λ frame. frame.now.items) result ≡ slice_get self.now.sent number }
    {
        self.sent.at(number)
    }

    /// Plays moves, one after the other, whatever the flash does. If memory runs out, it stops before a move, and the
    /// moves before it are kept.
    pub fn play(&mut self, moves: &[Move]) -> Result<(), AllocError>
        // On success every move was made, one after the other.
        ensures played { OnOk result (Played F.Flash self.old moves.now self.new) }
        // If memory ran out, a prefix of the moves was made, which lacks at least the last one.
        ensures front { OnErr result ((count : ℕ) × (count < length moves.now)
            × Played F.Flash self.old (take count moves.now) self.new) }
    {
        for one in moves {
            self.make(one)?;
        }
        Ok(())
    }

    // Makes one move, if there is memory for all that it may send.
    fn make(&mut self, one: &Move) -> Result<(), AllocError>
        ensures made { OnOk result (Happens F.Flash self.old one.now self.new) }
        ensures same { OnErr result (self.new ≡ self.old) }
    {
        self.sent.make_room()?;
        happen(&mut self.device, &mut self.controller, &mut self.sent, one);
        Ok(())
    }
}
