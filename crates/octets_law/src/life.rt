//! The life of a device, from a blank chip on.
ghost use Rattle.std.specs.Prelude.{◌≡◌, ◌<◌, ◌++◌, [], ◌∷◌, ℕ, List, map, get_or, IfOk, IfErr, if◌then◌else◌};
ghost use Rattle.flash_model.specs.Image.{erased};
ghost use Rattle.frame_codec.specs.Outbox.{boxed};
ghost use Rattle.pn_values.specs.declared.identity.Identity.{Identity};
ghost use Rattle.pn_values.specs.declared.real.Real.{Real};
ghost use Rattle.pn_values.specs.declared.settings.Settings.{Settings};
ghost use Rattle.settings_journal.specs.Image.{LeftByDevice};
ghost use Rattle.asked_records.specs.declared.names.RecordName.{RecordName};
ghost use Rattle.device_core.specs.State.{station_named};
ghost use Rattle.octets_law.specs.Headline.{IsLife, Told};
ghost use Rattle.octets_law.specs.Turns.{IsReady, IsSmall, Lives, Turns, TurnsAll};

use asked_records::NamedRecords;
use device_core::{Device, Event};
use flash_model::Flash;
use frame_codec::Outbox;
use pn_values::{Identity, Real};
use relations::DeviceOptions;
use settings_journal::BootFault;

/// Who learns what a device was given and what it sent.
pub trait Witness {
    /// The events, each with the frames that were sent at it, in order.
    ghost told: { Self → List Told };

    /// The device was given this event, and sent these frames at it.
    fn tell(&mut self, event: &Event<'_>, frames: &Outbox)
        ensures { told self.new ≡ told self.old ++ (event.now, boxed frames.now) ∷ [] };
}

/// What a device is: its identity, what is plugged, and the records that its application answers, the same at each start.
pub trait Product {
    /// The identity.
    ghost identity_of: { Self → Identity };

    /// The modules.
    ghost real_of: { Self → Real };

    /// The records that the application answers.
    ghost named_of: { Self → List RecordName };

    /// Makes the identity.
    fn identity(&self) -> Identity
        ensures { result ≡ identity_of self.now };

    /// Makes the modules.
    fn real(&self) -> Real
        ensures { result ≡ real_of self.now };

    /// Makes the list of the records that the application answers.
    fn named(&self) -> NamedRecords
        ensures { result ≡ named_of self.now };
}

/// Starts a device on a blank chip and lets it live: in each cycle it starts on what the cycle before left, is given the
/// events, and loses its power, if it did not lose it in a call of the flash before. Then it starts once more. A refused start
/// returns the flash.
pub fn live<F: Flash<S>, const S: usize, T: Product, W: Witness, P: Fn(F) -> F>(
    product: &T,
    options: DeviceOptions,
    flash: F,
    cycles: &[Vec<Event<'_>>],
    witness: &mut W,
    power_up: P,
) -> Result<Device<F, S>, (BootFault, F)>
    // Restoring the power changes no byte.
    requires powers { P.IsAlwaysCallable power_up }
    requires keeps { (lost flash : F) → P.post power_up lost flash → F.image flash ≡ F.image lost }

    // From a blank chip on, whatever the flash does: what was reported is a life of these cycles, and the device has its settings.
    ensures octets { F.image flash ≡ record { first = erased S; second = erased S } →
        IfOk result (λ device. IsLife options (T.identity_of product.now).mac (map (λ events. events.items) cycles.now)
        (W.told witness.old) (W.told witness.new) device.live.values.running) }
    // A start is refused only if the flash cannot be read.
    ensures left { F.image flash ≡ record { first = erased S; second = erased S } → IfErr result (λ refused. refused.0 ≡ BootFault.FlashFault) }
{
    let mut device = Device::boot_named(
        product.identity(),
        product.real(),
        options,
        product.named(),
        flash,
    )?;
    for events in cycles {
        device = live_once(
            product,
            options,
            device,
            events.as_slice(),
            witness,
            &power_up,
        )?;
    }
    Ok(device)
}

// One cycle: the events, the loss of power, and a start from the flash.
fn live_once<F: Flash<S>, const S: usize, T: Product, W: Witness, P: Fn(F) -> F>(
    product: &T,
    options: DeviceOptions,
    device: Device<F, S>,
    events: &[Event<'_>],
    witness: &mut W,
    power_up: &P,
) -> Result<Device<F, S>, (BootFault, F)>
    requires powers { P.IsAlwaysCallable power_up.now }
    requires keeps { (lost flash : F) → P.post power_up.now lost flash → F.image flash ≡ F.image lost }
    ensures lives { (first : Settings) →
        IsReady F.Flash (station_named (T.identity_of product.now) (T.real_of product.now) options (T.named_of product.now)) first device →
        IfOk result (λ again. Lives F.Flash (station_named (T.identity_of product.now) (T.real_of product.now) options (T.named_of product.now)) first
        events.now (W.told witness.old) (W.told witness.new) again) }
    ensures left { LeftByDevice (F.image device.flash) → IfErr result (λ refused. refused.0 ≡ BootFault.FlashFault) }
{
    let mut device = device;
    turn_all(&mut device, events, witness);
    let flash = power_up(device.into_flash());
    Device::boot_named(
        product.identity(),
        product.real(),
        options,
        product.named(),
        flash,
    )
}

// The events of a cycle.
fn turn_all<F: Flash<S>, const S: usize, W: Witness>(
    device: &mut Device<F, S>,
    events: &[Event<'_>],
    witness: &mut W,
)
    ensures { TurnsAll F.Flash device.old events.now (W.told witness.old) (W.told witness.new) device.new }
{
    let _ = device.stored();
    let mut outbox = Outbox::new();
    for event in events {
        turn(device, event, &mut outbox, witness);
    }
}

// One event.
fn turn<F: Flash<S>, const S: usize, W: Witness>(
    device: &mut Device<F, S>,
    event: &Event<'_>,
    outbox: &mut Outbox,
    witness: &mut W,
)
    ensures { Turns F.Flash device.old event.now (W.told witness.old) (W.told witness.new) device.new }
{
    fits(event);
    let _ = device.step(event, outbox);
    // A step in which power was lost has sent nothing that anybody can rely on.
    forget_if(device.is_lost(), outbox);
    witness.tell(event, outbox);
}

fn forget_if(is_lost: bool, outbox: &mut Outbox)
    ensures { boxed outbox.new ≡ (if is_lost then [] else boxed outbox.old) }
{
    if is_lost {
        outbox.clear();
    }
}

// A Xid of four octets fits 32 bits.
fn fits(event: &Event<'_>)
    ensures { IsSmall event.now }
{
    if let Event::Frame(frame) = event {
        are_octets(frame.as_slice());
    }
}

fn are_octets(octets: &[u8])
    ensures { (k : ℕ) → get_or octets.now k 0 < 256 }
{
    let _ = octets;
}
