//! The headline of a station: what a restart after a power failure finds.
ghost use Rattle.std.specs.Prelude.{◌≡◌, ℕ, List, IsOk, IfOk, IfErr};
ghost use Rattle.pn_values.specs.declared.settings.Settings.{Settings};
ghost use Rattle.settings_journal.specs.Image.{StartsWith, LeftByDevice};
ghost use Rattle.device_core.specs.Cycle.{IsStarted, IsStartedFrom, RefusesAfter, Restarts};
ghost use Rattle.device_core.specs.State.{State, Station, plain, station_named, station_with};
ghost use Rattle.device_core.specs.Steps.{Runs};
ghost use Rattle.device_station.specs.Runs.{IsStationRefused, StationRestarts, ServesFrom};

use crate::IoStation;
use crate::station::services_of;
use asked_records::NamedRecords;
use device_core::{Device, Event, Sink, restart};
use flash_model::Flash;
use pn_values::{Identity, Real};
use relations::DeviceOptions;
use settings_journal::BootFault;

/// Runs a cycle of a station and the start after it: boots a device, runs the events with the services beside it, and
/// boots again from what they left in the flash, at whatever point its power was lost. `power_up` restores the power of
/// the flash. A refused start returns the flash.
pub fn cycle<F: Flash<S>, const S: usize, K: Sink, P: FnOnce(F) -> F>(
    identity: Identity,
    real: Real,
    flash: F,
    events: &[Event<'_>],
    sink: &mut K,
    power_up: P,
) -> Result<IoStation<F, S>, (BootFault, F)>
    // Restoring the power changes no byte.
    requires powers { P.IsAlwaysCallable power_up }
    requires keeps { (lost flash : F) → P.post power_up lost flash → F.image flash ≡ F.image lost }

    // What `device_core::cycle` says of a device holds of the station's device and flash, word for word: the services store
    // nothing and make no flash call. The frames of the cycle are those of the device; the sink also accepted those of the
    // services.
    ensures headline { LeftByDevice (F.image flash) → (first : Settings) (room : ℕ) → StartsWith (F.image flash) first room →
        IfOk result (λ station. StationRestarts F.Flash (P.post power_up) (plain identity real) flash
        first room events.now (K.taken sink.old) (K.taken sink.new) station) }
    ensures fresh { IfOk result (λ station. IsStarted F.Flash (plain identity real) station.device) }
    ensures left { LeftByDevice (F.image flash) → IfErr result (λ refused. refused.0 ≡ BootFault.FlashFault) }
    ensures refused { IfErr result (λ refused. IsStationRefused F.Flash (P.post power_up)
        (plain identity real) flash events.now (K.taken sink.old) (K.taken sink.new) refused.0 refused.1) }
    ensures reliable { F.is_reliable flash → ((lost flash : F) → P.post power_up lost flash → F.is_reliable lost → F.is_reliable flash) →
        LeftByDevice (F.image flash) → IsOk result }
    // The services of the restarted station begin again.
    ensures services { IfOk result (λ station. ServesFrom station.device station.services) }
{
    cycle_with(
        identity,
        real,
        DeviceOptions::default(),
        flash,
        events,
        sink,
        power_up,
    )
}

/// Runs a cycle of a station with these options, and the start after it.
pub fn cycle_with<F: Flash<S>, const S: usize, K: Sink, P: FnOnce(F) -> F>(
    identity: Identity,
    real: Real,
    options: DeviceOptions,
    flash: F,
    events: &[Event<'_>],
    sink: &mut K,
    power_up: P,
) -> Result<IoStation<F, S>, (BootFault, F)>
    // Restoring the power changes no byte.
    requires powers { P.IsAlwaysCallable power_up }
    requires keeps { (lost flash : F) → P.post power_up lost flash → F.image flash ≡ F.image lost }

    // What `device_core::cycle_with` says of a device holds of the station's device and flash, word for word: the services store
    // nothing and make no flash call. The frames of the cycle are those of the device; the sink also accepted those of the
    // services.
    ensures headline { LeftByDevice (F.image flash) → (first : Settings) (room : ℕ) → StartsWith (F.image flash) first room →
        IfOk result (λ station. StationRestarts F.Flash (P.post power_up) (station_with identity real options) flash
        first room events.now (K.taken sink.old) (K.taken sink.new) station) }
    ensures fresh { IfOk result (λ station. IsStarted F.Flash (station_with identity real options) station.device) }
    ensures left { LeftByDevice (F.image flash) → IfErr result (λ refused. refused.0 ≡ BootFault.FlashFault) }
    ensures refused { IfErr result (λ refused. IsStationRefused F.Flash (P.post power_up)
        (station_with identity real options) flash events.now (K.taken sink.old) (K.taken sink.new) refused.0 refused.1) }
    ensures reliable { F.is_reliable flash → ((lost flash : F) → P.post power_up lost flash → F.is_reliable lost → F.is_reliable flash) →
        LeftByDevice (F.image flash) → IsOk result }
    // The services of the restarted station begin again.
    ensures services { IfOk result (λ station. ServesFrom station.device station.services) }
{
    cycle_named(
        identity,
        real,
        options,
        NamedRecords::new(),
        flash,
        events,
        sink,
        power_up,
    )
}

/// Runs a cycle of a station with these options, whose application answers these records, and the start after it.
pub fn cycle_named<F: Flash<S>, const S: usize, K: Sink, P: FnOnce(F) -> F>(
    identity: Identity,
    real: Real,
    options: DeviceOptions,
    named: NamedRecords,
    flash: F,
    events: &[Event<'_>],
    sink: &mut K,
    power_up: P,
) -> Result<IoStation<F, S>, (BootFault, F)>
    // Restoring the power changes no byte.
    requires powers { P.IsAlwaysCallable power_up }
    requires keeps { (lost flash : F) → P.post power_up lost flash → F.image flash ≡ F.image lost }

    // What `device_core::cycle_with` says of a device that names no records holds of the station's device and flash, word for word: the services store
    // nothing and make no flash call. The frames of the cycle are those of the device; the sink also accepted those of the
    // services.
    ensures headline { LeftByDevice (F.image flash) → (first : Settings) (room : ℕ) → StartsWith (F.image flash) first room →
        IfOk result (λ station. StationRestarts F.Flash (P.post power_up) (station_named identity real options named) flash
        first room events.now (K.taken sink.old) (K.taken sink.new) station) }
    ensures fresh { IfOk result (λ station. IsStarted F.Flash (station_named identity real options named) station.device) }
    ensures left { LeftByDevice (F.image flash) → IfErr result (λ refused. refused.0 ≡ BootFault.FlashFault) }
    ensures refused { IfErr result (λ refused. IsStationRefused F.Flash (P.post power_up)
        (station_named identity real options named) flash events.now (K.taken sink.old) (K.taken sink.new) refused.0 refused.1) }
    ensures reliable { F.is_reliable flash → ((lost flash : F) → P.post power_up lost flash → F.is_reliable lost → F.is_reliable flash) →
        LeftByDevice (F.image flash) → IsOk result }
    // The services of the restarted station begin again.
    ensures services { IfOk result (λ station. ServesFrom station.device station.services) }
{
    let device = Device::boot_named(identity, real, options, named, flash)?;
    let services = services_of(&device);
    let mut station = IoStation { device, services };
    station.run(events, sink);
    station.restart(power_up)
}

impl<F: Flash<S>, const S: usize> IoStation<F, S> {
    /// Restores the power of the flash, and starts the station again from what its device left there, with the same
    /// options and named records. A refused start returns the flash.
    pub fn restart<P: FnOnce(F) -> F>(self, power_up: P) -> Result<IoStation<F, S>, (BootFault, F)>
        // Restoring the power changes no byte.
        requires powers { P.IsAlwaysCallable power_up }
        requires keeps { (lost flash : F) → P.post power_up lost flash → F.image flash ≡ F.image lost }

        // What `device_core::restart` says of a device holds of the station's device, word for word.
        ensures headline { (station : Station) (flash : F) (first : Settings) (room : ℕ) (begun : State F)
            (events : List Event) (before now : List (List ℕ)) → LeftByDevice (F.image flash) → StartsWith (F.image flash) first room →
            IsStartedFrom F.Flash station flash begun → Runs F.Flash begun events before now self.device →
            IfOk result (λ again. Restarts F.Flash (P.post power_up) station flash first room events before now
            again.device) }
        ensures refused { (station : Station) (flash : F) (begun : State F)
            (events : List Event) (before now : List (List ℕ)) →
            IsStartedFrom F.Flash station flash begun → Runs F.Flash begun events before now self.device →
            IfErr result (λ refused. RefusesAfter F.Flash (P.post power_up) station flash events before now
            refused.0 refused.1) }
        ensures fresh { (station : Station) → self.device.station ≡ station →
            IfOk result (λ again. IsStarted F.Flash station again.device) }
        ensures left { LeftByDevice (F.image self.device.flash) → IfErr result (λ refused. refused.0 ≡ BootFault.FlashFault) }
        ensures reliable { F.is_reliable self.device.flash → ((lost flash : F) → P.post power_up lost flash → F.is_reliable lost → F.is_reliable flash) →
            LeftByDevice (F.image self.device.flash) → IsOk result }
        // The services begin again.
        ensures services { IfOk result (λ again. ServesFrom again.device again.services) }
    {
        let IoStation {
            device,
            services: _,
        } = self;
        match restart(device, power_up) {
            Ok(device) => {
                let services = services_of(&device);
                Ok(IoStation { device, services })
            }
            Err(refused) => Err(refused),
        }
    }
}
