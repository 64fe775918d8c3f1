//! Both ends, the frames that are under way between them, and rounds.
ghost use Rattle.std.specs.Prelude.{◌≡◌, ◌++◌, ◌∷◌, [], IfOk, IsOk, OnOk};
ghost use Rattle.settings_journal.specs.Image.{LeftByDevice};
ghost use Rattle.device_frames.specs.declared.event.Event.TheVariants.{Frame as comes};
ghost use Rattle.device_frames.specs.Heard.{Ticks, heard_of};
ghost use Rattle.device_core.specs.Cycle.{IsStartedFrom};
ghost use Rattle.controller_core.specs.declared.stored.event.Event.TheVariants.{Frame as received, Tick};
ghost use Rattle.controller_core.specs.Machine.{fresh_with, opening_of, step_of};
ghost use Rattle.network_world.specs.Sent.{octets_of};
ghost use Rattle.rounds_law.specs.Rounds.{Adds, IsReliable, Round, Takes, hears_all, under_way_to, with_device, without};

use controller_core::{Controller, Event as ControllerEvent};
use controller_messages::Setup;
use device_core::{Device, Event as DeviceEvent, Octets};
use flash_model::Flash;
use frame_codec::{Bytes, Frame, Outbox};
use network_world::End;
use settings_journal::BootFault;
use std::alloc::{AllocError, Global};
use std::marker::Model;

/// A device with its flash, its controller, and the frames that are under way to each, in order.
#[derive(Drop)]
pub struct Net<F: Flash<S>, const S: usize> {
    controller: Controller,
    to_device: Vec<Frame>,
    to_controller: Vec<Frame>,
    /// What the device answers within a round.
    answers: Vec<Frame>,
    // Last: what is proved of the size of a struct doubles with each field after one of any type.
    device: Device<F, S>,
}

impl<F: Flash<S>, const S: usize> Model for Net<F, S> {
    ghost use Rattle.network_world.specs.Sent.{octets_of};
    ghost use Rattle.rounds_law.specs.Rounds.{Net};

    ghost Value = { Net F };

    ghost view = { λ net. record {
      device = net.device;
      controller = net.controller;
      to_device = octets_of net.to_device.items;
      to_controller = octets_of net.to_controller.items;
    } };
}

/// The octets of a frame, for an event.
fn bytes_of(frame: &Frame) -> Bytes
    ensures { result.items ≡ frame.now.items }
{
    let mut bytes = Bytes::new();
    let _ = bytes.try_extend_from_slice(frame.as_slice());
    bytes
}

/// A copy of a frame.
fn copy_of(frame: &Frame) -> Frame
    ensures { result.items ≡ frame.now.items }
{
    let mut copy = Frame::new();
    copy.copy(frame);
    copy
}

/// Appends copies of frames.
fn append(all: &mut Vec<Frame>, frames: &[Frame]) -> Result<(), AllocError>
    ensures { OnOk result (octets_of all.new.items ≡ octets_of all.old.items ++ octets_of frames.now) }
{
    for frame in frames {
        all.push(copy_of(frame))?;
    }
    Ok(())
}

/// A frame arrives at a device. What it sends is appended.
fn hear_at_device<F: Flash<S>, const S: usize>(
    device: &mut Device<F, S>,
    frame: &Frame,
    sent: &mut Vec<Frame>,
) -> Result<(), AllocError>
    ensures { OnOk result (IsReliable F.Flash device.old
        → Adds F.Flash device.old (heard_of device.old.station.identity (comes (record { items = frame.now.items }))) (octets_of sent.old.items)
        device.new (octets_of sent.new.items)) }
{
    let mut outbox = Outbox::new();
    let _ = device.step(
        &DeviceEvent::Frame(Octets::of(frame.as_slice())),
        &mut outbox,
    );
    append(sent, outbox.as_slice())?;
    Ok(())
}

/// A unit passes at a device. What it sends is appended.
fn pass_at_device<F: Flash<S>, const S: usize>(
    device: &mut Device<F, S>,
    sent: &mut Vec<Frame>,
) -> Result<(), AllocError>
    ensures { OnOk result (IsReliable F.Flash device.old
        → Adds F.Flash device.old Ticks (octets_of sent.old.items) device.new (octets_of sent.new.items)) }
{
    let mut outbox = Outbox::new();
    let _ = device.step(&DeviceEvent::Tick, &mut outbox);
    append(sent, outbox.as_slice())?;
    Ok(())
}

/// Frames arrive at a device, one after another. What it sends is appended.
fn arrive_at_device<F: Flash<S>, const S: usize>(
    device: &mut Device<F, S>,
    frames: &[Frame],
    sent: &mut Vec<Frame>,
) -> Result<(), AllocError>
    ensures { OnOk result (IsReliable F.Flash device.old
        → Takes F.Flash device.old (octets_of frames.now) (octets_of sent.old.items) device.new (octets_of sent.new.items)) }
{
    for frame in frames {
        hear_at_device(device, frame, sent)?;
    }
    Ok(())
}

/// An event happens at a controller. What it sends is appended.
fn happen_at_controller(
    controller: &mut Controller,
    event: &ControllerEvent,
    sent: &mut Vec<Frame>,
) -> Result<(), AllocError>
    ensures state { OnOk result (controller.new ≡ (step_of controller.old event.now).controller) }
    ensures frames { OnOk result (octets_of sent.new.items ≡ octets_of sent.old.items ++ (step_of controller.old event.now).frames) }
{
    let mut outbox = Outbox::new();
    controller.step(event, &mut outbox);
    append(sent, outbox.as_slice())?;
    Ok(())
}

/// A frame arrives at a controller. What it sends is appended.
fn hear_at_controller(
    controller: &mut Controller,
    frame: &Frame,
    sent: &mut Vec<Frame>,
) -> Result<(), AllocError>
    ensures state { OnOk result (controller.new ≡ (step_of controller.old (received (record { items = frame.now.items }))).controller) }
    ensures frames { OnOk result (octets_of sent.new.items
        ≡ octets_of sent.old.items ++ (step_of controller.old (received (record { items = frame.now.items }))).frames) }
{
    happen_at_controller(controller, &ControllerEvent::Frame(bytes_of(frame)), sent)?;
    Ok(())
}

/// Frames arrive at a controller, one after another. What it sends is appended.
fn arrive_at_controller(
    controller: &mut Controller,
    frames: &[Frame],
    sent: &mut Vec<Frame>,
) -> Result<(), AllocError>
    ensures state { OnOk result (controller.new ≡ (hears_all controller.old (octets_of frames.now)).controller) }
    ensures frames { OnOk result (octets_of sent.new.items ≡ octets_of sent.old.items ++ (hears_all controller.old (octets_of frames.now)).frames) }
{
    for frame in frames {
        hear_at_controller(controller, frame, sent)?;
    }
    Ok(())
}

impl<F: Flash<S>, const S: usize> Net<F, S> {
    /// Both ends at a start: the Identify of a controller that is made from this set-up is under way to the device.
    pub fn start(alloc: Global, device: Device<F, S>, setup: Setup) -> Result<Self, AllocError>
        ensures { IfOk result (λ net. net ≡ record {
          device = device;
          controller = fresh_with setup.plan setup.ar setup.activity setup.options;
          to_device = opening_of (fresh_with setup.plan setup.ar setup.activity setup.options) ∷ [];
          to_controller = [];
        }) }
    {
        let controller = Controller::new_with(setup.plan, setup.ar, setup.activity, setup.options);
        let mut to_device = Vec::new(alloc);
        to_device.push(controller.opening())?;
        Ok(Net {
            controller,
            to_device,
            to_controller: Vec::new(alloc),
            answers: Vec::new(alloc),
            device,
        })
    }

    /// A round: everything that is under way arrives, and then a unit passes at either end. If memory runs out, the round is not
    /// complete.
    pub fn round(&mut self) -> Result<(), AllocError>
        // Over a flash that never fails it is a round, and the flash stays so.
        ensures { OnOk result (IsReliable F.Flash self.old.device → Round F.Flash self.old self.new × IsReliable F.Flash self.new.device) }
    {
        self.answers.clear();
        arrive_at_device(
            &mut self.device,
            self.to_device.as_slice(),
            &mut self.answers,
        )?;
        self.to_device.clear();
        arrive_at_controller(
            &mut self.controller,
            self.to_controller.as_slice(),
            &mut self.to_device,
        )?;
        arrive_at_controller(
            &mut self.controller,
            self.answers.as_slice(),
            &mut self.to_device,
        )?;
        self.to_controller.clear();
        pass_at_device(&mut self.device, &mut self.to_controller)?;
        happen_at_controller(
            &mut self.controller,
            &ControllerEvent::Tick,
            &mut self.to_device,
        )?;
        Ok(())
    }

    /// Loses all frames that are under way to an end.
    pub fn lose(&mut self, end: End)
        ensures { self.new ≡ without end self.old }
    {
        match end {
            End::Device => self.to_device.clear(),
            End::Controller => self.to_controller.clear(),
        }
    }

    /// The device alone loses its power, and has it back at once: its flash stays as it is, and all else that it had is lost. The controller
    /// and the frames that are under way stay as they are; `lose` loses those.
    pub fn restart_device(&mut self) -> Result<(), BootFault>
        // Only the device changes.
        ensures others { self.new ≡ with_device self.new.device self.old }
        // It has just started, with the settings of its flash.
        ensures started { OnOk result (IsStartedFrom F.Flash self.old.device.station self.old.device.flash self.new.device) }
        // Over a flash that never fails, what a device left there starts again, and the flash stays so.
        ensures reliable { F.is_reliable self.old.device.flash → LeftByDevice (F.image self.old.device.flash)
            → IsOk result × IsReliable F.Flash self.new.device }
    {
        self.device.load()
    }

    /// The device.
    pub fn device(&self) -> &Device<F, S>
        ensures { result.now ≡ self.now.device }
    {
        &self.device
    }

    /// The device alone. The next controller may begin with it.
    pub fn into_device(self) -> Device<F, S>
        ensures { result ≡ self.device }
    {
        self.device
    }

    /// Its controller.
    pub fn controller(&self) -> &Controller
        ensures { result.now ≡ self.now.controller }
    {
        &self.controller
    }

    /// The frames that are under way to an end, in order.
    pub fn under_way(&self, end: End) -> &[Frame]
        ensures { octets_of result.now ≡ under_way_to end self.now }
    {
        match end {
            End::Device => self.to_device.as_slice(),
            End::Controller => self.to_controller.as_slice(),
        }
    }
}
