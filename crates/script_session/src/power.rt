// The demo station and its power.
ghost use Rattle.std.specs.Prelude.{◌≡◌, ◌≤◌, ◌<◌, ℕ, [], ◌∷◌, false};
ghost use Rattle.pn_values.specs.Settings.{factory_settings};
ghost use Rattle.pn_values.specs.declared.settings.Settings.{Settings};
ghost use Rattle.flash_model.specs.Image.{erased};
ghost use Rattle.flash_model.specs.Memory.{image_of, IsReliable};
ghost use Rattle.settings_journal.specs.Image.{StartsWith, LeftByDevice, capacity};
ghost use Rattle.device_station.specs.Serving.{serving_at};

use crate::demo::DemoOptions;
use device_core::{Device, Event, Note};
use device_station::{
    DeviceServices, StationOutbox, due_beside, elapse_alone, elapse_beside, step_alone, step_beside,
};
use flash_model::{Flash, Lent, MemoryFlash, Order};
use settings_journal::BootFault;
use std::marker::Model;

/// The flash of the demo device. The device borrows it: it is large, and is not moved.
pub(crate) type DemoFlash<'a> = Lent<'a, MemoryFlash<4096>>;

/// The demo device.
pub(crate) type DemoDevice<'a> = Device<DemoFlash<'a>, 4096>;

/// The demo station: the device, and the services beside it, once there are any. In clauses it is these, and the device's
/// flash.
#[derive(Drop)]
pub(crate) struct DemoStation<'a> {
    device: DemoDevice<'a>,
    services: Option<DeviceServices>,
}

impl<'a> Model for DemoStation<'a> {
    ghost use Rattle.script_session.specs.Ends.{Running};

    ghost Value = { Running };

    ghost view = { λ demo. record { flash = demo.device.flash; station = demo.device.station; live = demo.device.live; services = demo.services } };
}

/// The services at the start of a device.
fn services_of(device: &DemoDevice<'_>) -> DeviceServices
    ensures { result ≡ serving_at device.now.station.identity device.now.live.values.running }
{
    DeviceServices::new(device.identity(), device.running())
}

impl<'a> DemoStation<'a> {
    ghost use Rattle.flash_model.specs.Asked.{IsAsked};
    ghost use Rattle.flash_model.specs.Calls.{Arms};
    ghost use Rattle.std.specs.Prelude.{replicate};
    ghost use Rattle.device_frames.specs.declared.event.Event.TheVariants as event;
    ghost use Rattle.script_session.specs.Ends.{Station, begun, device_run, due_with, station_in, station_step};
    ghost use Rattle.script_session.specs.Power.{Runs};
    ghost use Rattle.script_session.specs.Said.{served};
    ghost use Rattle.script_session.specs.Session.{IsLeapt, IsStepFor, IsStepped};

    /// The station of a device that starts, with services that begin with it or without any.
    fn begin(device: DemoDevice<'a>, serves: bool) -> DemoStation<'a>
        ensures { result ≡ begun serves device.entry }
    {
        let services = if serves {
            Some(services_of(&device))
        } else {
            None
        };
        DemoStation { device, services }
    }

    /// Makes a step.
    pub(crate) fn step(&mut self, event: &Event<'_>, outbox: &mut StationOutbox) -> Note
        ensures steps { (station : Station) → Runs station self.old → IsStepped (station_step station event.now) self.new outbox.new result }
        // Whatever the flash does.
        ensures any { IsStepFor (station_in self.old) event.now self.new outbox.new result }
        ensures same { self.new.station ≡ self.old.station }
    {
        match &mut self.services {
            Some(services) => step_beside(&mut self.device, services, event, outbox),
            None => step_alone(&mut self.device, event, outbox),
        }
    }

    /// The number of units of time up to and including the next one that brings something.
    pub(crate) fn due(&self) -> u32
        ensures value { result ≡ due_with self.now.services self.now.live }
        ensures some { 0 < result }
    {
        match &self.services {
            Some(services) => due_beside(&self.device, services),
            None => self.device.due(),
        }
    }

    /// Lets several units of time pass at once, at most as many as are due.
    pub(crate) fn elapse(&mut self, units: u32, outbox: &mut StationOutbox)
        requires { units ≤ due_with self.old.services self.old.live }
        ensures leapt { (station : Station) → Runs station self.old →
            IsLeapt (device_run station (replicate units event.Tick)) self.new outbox.new }
        ensures same { self.new.station ≡ self.old.station }
    {
        match &mut self.services {
            Some(services) => elapse_beside(&mut self.device, services, units, outbox),
            None => elapse_alone(&mut self.device, units, outbox),
        };
    }

    /// Starts the services, if there are none yet.
    fn serve(&mut self)
        ensures runs { (station : Station) → Runs station self.old → Runs (served station.services station) self.new }
        ensures same { self.new.station ≡ self.old.station }
    {
        if self.services.is_none() {
            self.services = Some(services_of(&self.device));
        }
    }

    /// The device.
    pub(crate) fn device(&self) -> &DemoDevice<'a>
        ensures { result.now ≡ record { flash = self.now.flash; station = self.now.station; live = self.now.live } }
    {
        &self.device
    }

    /// Orders the flash to fail at a later call.
    pub(crate) fn arm(&mut self, order: Order)
        ensures armed { IsAsked self.old.flash (Arms order ∷ []) self.new.flash }
        ensures station { self.new.station ≡ self.old.station }
        ensures live { self.new.live ≡ self.old.live }
        ensures services { self.new.services ≡ self.old.services }
    {
        self.device.arm(order);
    }

    /// Returns the flash.
    fn into_flash(self) -> DemoFlash<'a>
        ensures { result ≡ self.entry.flash }
    {
        let DemoStation {
            device,
            services: _,
        } = self;
        device.into_flash()
    }
}

/// The running demo station, or why its device did not start and the flash that it left.
#[derive(Drop)]
pub(crate) enum Power<'a> {
    On(DemoStation<'a>),
    Off(BootFault, DemoFlash<'a>),
    /// In the middle of a restart: the flash is passed to the start.
    Away,
}

impl<'a> Power<'a> {
    ghost use Rattle.script_session.specs.Ends.{Station};
    ghost use Rattle.script_session.specs.Said.{demo_started, served};
    ghost use Rattle.script_session.specs.Power.{IsDemo, IsRunning, IsBack, IsOver, is_off, refusal_of};

    /// Starts the device with these options from the content of a flash, with services that begin with it or without any.
    pub(crate) fn start(options: DemoOptions, serves: bool, flash: DemoFlash<'a>) -> Power<'a>
        ensures stored { (settings : Settings) (room : ℕ) → IsReliable flash.entry → LeftByDevice (image_of flash.entry) →
            StartsWith (image_of flash.entry) settings room →
            IsRunning (demo_started options serves settings room) result }
        ensures blank { IsReliable flash.entry → image_of flash.entry ≡ record { first = erased 4096; second = erased 4096 } →
            IsRunning (demo_started options serves factory_settings (capacity 4096)) result }
        ensures back { IsOver options serves flash.entry result }
    {
        let (identity, modules) = (pn_values::demo_identity(), pn_values::demo_modules());
        let mut device = Device::unstarted_named(
            identity,
            modules,
            options.device,
            options.records(),
            flash,
        );
        match device.load() {
            Ok(()) => Power::On(DemoStation::begin(device, serves)),
            Err(fault) => Power::Off(fault, device.into_flash()),
        }
    }

    /// Switches the device's power off and on again. It has these options then, and services that begin with it or none.
    pub(crate) fn restart(self, options: DemoOptions, serves: bool) -> Power<'a>
        ensures runs { (station : Station) → IsRunning station self.entry →
            IsRunning (demo_started options serves station.live.values.stored station.live.values.room) result }
        ensures back { IsBack options serves self.entry result }
    {
        match self {
            Power::On(demo) => {
                // The flash holds what is stored.
                let _ = demo.device.stored();
                Power::with_power(options, serves, demo.into_flash())
            }
            Power::Off(_, flash) => Power::with_power(options, serves, flash),
            Power::Away => Power::Away,
        }
    }

    /// Switches the power of a flash on again, and starts the device with these options. A pending order stays armed.
    fn with_power(options: DemoOptions, serves: bool, flash: DemoFlash<'a>) -> Power<'a>
        ensures runs { (settings : Settings) (room : ℕ) → IsReliable flash.entry → LeftByDevice (image_of flash.entry) →
            StartsWith (image_of flash.entry) settings room →
            IsRunning (demo_started options serves settings room) result }
        ensures back { IsOver options serves flash.entry result }
    {
        let mut flash = flash;
        flash.power_up();
        Power::start(options, serves, flash)
    }

    /// Starts the services beside the device, if it runs and there are none yet.
    pub(crate) fn serve(&mut self)
        ensures runs { (station : Station) → IsRunning station self.old → IsRunning (served station.services station) self.new }
        ensures demo { IsDemo self.old → IsDemo self.new }
    {
        match self {
            Power::On(demo) => demo.serve(),
            Power::Off(_, _) | Power::Away => {}
        }
    }

    /// Whether the device did not start, or its flash lost power.
    pub(crate) fn is_off(&self) -> bool
        ensures { result ≡ is_off self.now }
    {
        match self {
            Power::On(demo) => demo.device().flash().is_lost(),
            Power::Off(_, _) | Power::Away => true,
        }
    }

    /// The reason why the device did not start, or `None` if it started.
    pub(crate) fn refusal(&self) -> Option<BootFault>
        ensures { result ≡ refusal_of self.now }
    {
        match self {
            Power::On(_) | Power::Away => None,
            Power::Off(fault, _) => Some(*fault),
        }
    }
}
