//! A station: a device, and the services beside it.
ghost use Rattle.std.specs.Prelude.{◌≡◌};
ghost use Rattle.device_station.specs.Serving.{serving_at};
ghost use Rattle.device_station.specs.Steps.{StationTakes};

use crate::step::step_beside;
use crate::{DeviceServices, StationOutbox};
use device_core::{Device, Event, Note};
use flash_model::Flash;
use lldp::Link;
use std::marker::Model;

/// The services at the start of a device.
pub(crate) fn services_of<F: Flash<S>, const S: usize>(device: &Device<F, S>) -> DeviceServices
    ensures { result ≡ serving_at device.now.station.identity device.now.live.values.running }
{
    DeviceServices::new(device.identity(), device.running())
}

/// A station: a PROFINET IO device, and the services beside it. Clauses see it as these two.
#[derive(Drop)]
pub struct IoStation<F: Flash<S>, const S: usize> {
    pub(crate) services: DeviceServices,
    pub(crate) device: Device<F, S>,
}

impl<F: Flash<S>, const S: usize> Model for IoStation<F, S> {
    ghost use Rattle.device_station.specs.State.{State};

    ghost Value = { State F };

    ghost view = { λ station. record { device = station.device; services = station.services } };
}

impl<F: Flash<S>, const S: usize> IoStation<F, S> {
    /// The station of a device. Its services begin here, with the device's running settings.
    pub fn new(device: Device<F, S>) -> IoStation<F, S>
        // The device is the given one.
        ensures device { result.device ≡ device }
        // The services are those of a device at its start: they announce its address.
        ensures services { result.services ≡ serving_at device.station.identity device.live.values.running }
    {
        let services = services_of(&device);
        IoStation { device, services }
    }

    /// Handles an event, and replaces the content of the outbox by the frames to be sent. The neighbour is reported to the device
    /// first, if that changed.
    pub fn step(&mut self, event: &Event<'_>, outbox: &mut StationOutbox) -> Note
        // The step of the device is a step of the device alone: the same device, the same frames in the same order, and all
        // that the contract of `Device::step` says. The services know, send and note what is said of them beside it. In the
        // step of a frame the services send at most one frame, and none if the device sends one; in a tick they send at most
        // two, and otherwise none.
        ensures { StationTakes F.Flash self.old event.now outbox.new result self.new }
    {
        step_beside(&mut self.device, &mut self.services, event, outbox)
    }

    /// What the host says of the link: whether it is up, and which link it is, if that is known. Without this the link is up.
    pub fn set_link(&mut self, is_up: bool, link: Option<Link>)
        ensures device { self.new.device ≡ self.old.device }
        ensures services { self.new.services ≡ record self.old.services { is_up = is_up; link = link } }
    {
        self.services.set_link(is_up, link);
    }

    /// The device.
    pub fn device(&self) -> &Device<F, S>
        ensures { result.now ≡ self.now.device }
    {
        &self.device
    }

    /// The services.
    pub fn services(&self) -> &DeviceServices
        ensures { result.now ≡ self.now.services }
    {
        &self.services
    }

    /// Returns the device.
    pub fn into_device(self) -> Device<F, S>
        ensures { result ≡ self.device }
    {
        let IoStation {
            device,
            services: _,
        } = self;
        device
    }
}
