// The headline: what a restart after a power failure finds.
ghost use Rattle.std.specs.Prelude.{◌≡◌, ℕ, List, IsOk, IfOk, IfErr};
ghost use Rattle.pn_values.specs.declared.settings.Settings.{Settings};
ghost use Rattle.settings_journal.specs.Image.{StartsWith, LeftByDevice};
ghost use Rattle.device_core.specs.Cycle.{IsRefused, IsStarted, IsStartedFrom, RefusesAfter, Restarts};
ghost use Rattle.device_core.specs.State.{State, Station, plain, station_with};
ghost use Rattle.device_core.specs.Steps.{Runs};

use crate::{Device, Event, Sink};
use flash_model::Flash;
use pn_values::{Identity, Real};
use relations::DeviceOptions;
use settings_journal::BootFault;

/// Runs a cycle and the start after it: boots a device, runs the events, and boots again from what they left in the
/// flash, at whatever point its power was lost. `power_up` restores the power of the flash; it is a closure, since the
/// `Flash` trait has no such call. A refused start returns the flash.
pub fn cycle<F: Flash<S>, const S: usize, K: Sink, P: FnOnce(F) -> F>(
    identity: Identity,
    real: Real,
    flash: F,
    events: &[Event<'_>],
    sink: &mut K,
    power_up: P,
) -> Result<Device<F, S>, (BootFault, F)>
    // Restoring the power changes no byte.
    requires powers { P.IsAlwaysCallable power_up }
    requires keeps { (lost flash : F) → P.post power_up lost flash → F.image flash ≡ F.image lost }

    // If this device wrote the content of the flash, then for any frames, ticks and flash faults, even if power is lost
    // inside a flash call: the settings of the restarted device are the first values of the cycle changed by all accepted
    // commands of the cycle, or by all but a last one that was not answered positively.
    ensures headline { LeftByDevice (F.image flash) → (first : Settings) (room : ℕ) → StartsWith (F.image flash) first room →
        IfOk result (λ device. Restarts F.Flash (P.post power_up) (plain identity real) flash
        first room events.now (K.taken sink.old) (K.taken sink.new) device) }

    // A device that is returned has just started, whoever wrote the content of the flash.
    ensures fresh { IfOk result (IsStarted F.Flash (plain identity real)) }

    // If this device wrote the content of the flash, a start fails only with FlashFault, and FlashFault means that the
    // flash's failure counter rose during the start or is saturated. If the flash is also reliable, and `power_up` keeps
    // it so, no start fails.
    ensures left { LeftByDevice (F.image flash) → IfErr result (λ refused. refused.0 ≡ BootFault.FlashFault) }
    ensures refused { IfErr result (λ refused. IsRefused F.Flash (P.post power_up)
        (plain identity real) flash events.now (K.taken sink.old) (K.taken sink.new) refused.0 refused.1) }
    ensures reliable { F.is_reliable flash → ((lost flash : F) → P.post power_up lost flash → F.is_reliable lost → F.is_reliable flash) →
        LeftByDevice (F.image flash) → IsOk result }
{
    cycle_with(
        identity,
        real,
        DeviceOptions::default(),
        flash,
        events,
        sink,
        power_up,
    )
}

/// Runs a cycle of a device with these options, and the start after it.
pub fn cycle_with<F: Flash<S>, const S: usize, K: Sink, P: FnOnce(F) -> F>(
    identity: Identity,
    real: Real,
    options: DeviceOptions,
    flash: F,
    events: &[Event<'_>],
    sink: &mut K,
    power_up: P,
) -> Result<Device<F, S>, (BootFault, F)>
    // Restoring the power changes no byte.
    requires powers { P.IsAlwaysCallable power_up }
    requires keeps { (lost flash : F) → P.post power_up lost flash → F.image flash ≡ F.image lost }

    // If this device wrote the content of the flash, then for any frames, ticks and flash faults, even if power is lost
    // inside a flash call: the settings of the restarted device are the first values of the cycle changed by all accepted
    // commands of the cycle, or by all but a last one that was not answered positively.
    ensures headline { LeftByDevice (F.image flash) → (first : Settings) (room : ℕ) → StartsWith (F.image flash) first room →
        IfOk result (λ device. Restarts F.Flash (P.post power_up) (station_with identity real options) flash
        first room events.now (K.taken sink.old) (K.taken sink.new) device) }

    // A device that is returned has just started, whoever wrote the content of the flash.
    ensures fresh { IfOk result (IsStarted F.Flash (station_with identity real options)) }

    // If this device wrote the content of the flash, a start fails only with FlashFault, and FlashFault means that the
    // flash's failure counter rose during the start or is saturated. If the flash is also reliable, and `power_up` keeps
    // it so, no start fails.
    ensures left { LeftByDevice (F.image flash) → IfErr result (λ refused. refused.0 ≡ BootFault.FlashFault) }
    ensures refused { IfErr result (λ refused. IsRefused F.Flash (P.post power_up)
        (station_with identity real options) flash events.now (K.taken sink.old) (K.taken sink.new) refused.0 refused.1) }
    ensures reliable { F.is_reliable flash → ((lost flash : F) → P.post power_up lost flash → F.is_reliable lost → F.is_reliable flash) →
        LeftByDevice (F.image flash) → IsOk result }
{
    let mut device = Device::boot_with(identity, real, options, flash)?;
    device.run(events, sink);
    restart(device, power_up)
}

/// Restores the power of a device's flash, and starts the device again from what it left there, with the same options and named records. A
/// refused start returns the flash. `cycle` ends with it; so does whoever makes the steps of a device itself.
pub fn restart<F: Flash<S>, const S: usize, P: FnOnce(F) -> F>(
    device: Device<F, S>,
    power_up: P,
) -> Result<Device<F, S>, (BootFault, F)>
    // Restoring the power changes no byte.
    requires powers { P.IsAlwaysCallable power_up }
    requires keeps { (lost flash : F) → P.post power_up lost flash → F.image flash ≡ F.image lost }

    // What is said of a cycle, of any device that was started from a flash and then run, whoever made its steps.
    ensures headline { (station : Station) (flash : F) (first : Settings) (room : ℕ) (begun : State F)
        (events : List Event) (before now : List (List ℕ)) → LeftByDevice (F.image flash) → StartsWith (F.image flash) first room →
        IsStartedFrom F.Flash station flash begun → Runs F.Flash begun events before now device →
        IfOk result (λ again. Restarts F.Flash (P.post power_up) station flash first room events before now again) }
    ensures refused { (station : Station) (flash : F) (begun : State F)
        (events : List Event) (before now : List (List ℕ)) →
        IsStartedFrom F.Flash station flash begun → Runs F.Flash begun events before now device →
        IfErr result (λ refused. RefusesAfter F.Flash (P.post power_up) station flash events before now
        refused.0 refused.1) }

    // The device has just started, whatever was done to it before.
    ensures fresh { (station : Station) → device.station ≡ station →
        IfOk result (IsStarted F.Flash station) }
    // Content that this device wrote is refused only with FlashFault. If the flash is also reliable, and `power_up` keeps it
    // so, the start does not fail.
    ensures left { LeftByDevice (F.image device.flash) → IfErr result (λ refused. refused.0 ≡ BootFault.FlashFault) }
    ensures reliable { F.is_reliable device.flash → ((lost flash : F) → P.post power_up lost flash → F.is_reliable lost → F.is_reliable flash) →
        LeftByDevice (F.image device.flash) → IsOk result }
{
    let (identity, real, options, named, flash) = device.into_parts();
    Device::boot_named(identity, real, options, named, power_up(flash))
}
