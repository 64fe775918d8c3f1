//! The station of a catalogue over the smallest flash, and its controller: a world that meets what the laws require.
ghost use Rattle.std.specs.Prelude.{◌≡◌, IfSome};
ghost use Rattle.pn_values.specs.demo.Demo.{demo};
ghost use Rattle.both_ends.specs.startup.Played.{Begins};
ghost use Rattle.both_ends.specs.startup.Lawful.{IsLawful};

use crate::startup::{begin_world, can_meet, nothing_is_named};
use arrayvec::ArrayVec;
use configurator::plan_from_json;
use controller_messages::{ControllerOptions, Setup};
use device_core::{Device, Event, Note, Octets};
use flash_model::{MemoryFlash, Order};
use frame_codec::Outbox;
use network_world::World;
use plans::Plan;
use pn_values::{ParameterRecord, Real, RealModule, RealSubmodule, demo_identity};
use std::alloc::Global;
use uuid::Uuid;

/// A device over the smallest flash.
type Station = Device<MemoryFlash<768>, 768>;

/// The permanent Set of the station name "pump-1".
const SET: [u8; 38] =
    *b"\x02\x00\x00\x00\x00\x01\x02\x00\x00\x00\x00\x02\x88\x92\xfe\xfd\x04\x00\x00\x00\x00\x02\x00\x00\x00\x0c\
    \x02\x02\x00\x08\x00\x01pump-1";

/// The world: over the smallest flash.
pub type Net = World<MemoryFlash<768>, 768>;

/// A world in which nothing has happened yet.
#[derive(Drop)]
pub struct Fresh {
    pub net: Net,
    /// The number of records that its controller writes.
    pub records: usize,
}

fn copied_parameters(parameters: &[ParameterRecord]) -> ArrayVec<ParameterRecord, 2> {
    let mut copied = ArrayVec::new();
    for parameter in parameters {
        let _ = copied.try_push(*parameter);
    }
    copied
}

fn copied_submodules(submodules: &[RealSubmodule]) -> ArrayVec<RealSubmodule, 4> {
    let mut copied = ArrayVec::new();
    for submodule in submodules {
        let _ = copied.try_push(RealSubmodule {
            subslot: submodule.subslot,
            ident: submodule.ident,
            input: submodule.input,
            output: submodule.output,
            parameters: copied_parameters(submodule.parameters.as_slice()),
        });
    }
    copied
}

/// Nothing is plugged.
fn no_modules() -> Real {
    Real {
        modules: ArrayVec::new(),
    }
}

/// The same modules.
fn copied(real: &Real) -> Real {
    let mut modules = ArrayVec::new();
    for module in real.modules.as_slice() {
        let _ = modules.try_push(RealModule {
            slot: module.slot,
            ident: module.ident,
            submodules: copied_submodules(module.submodules.as_slice()),
        });
    }
    Real { modules }
}

/// The plan of a catalogue. The function has no contract, so that the proofs of its callers do not read the contract of
/// the reader.
fn plan_of(alloc: Global, catalogue: &str) -> Option<Plan> {
    plan_from_json(alloc, catalogue.as_bytes()).ok()
}

/// What a station makes of an event. It has no contract: what a step promises is read here alone.
fn step(device: &mut Station, event: &Event<'_>, outbox: &mut Outbox) -> Note {
    device.step(event, outbox)
}

/// A flash that keeps the station name "pump-1".
fn named_flash() -> Option<MemoryFlash<768>> {
    let mut device: Station = Device::boot(
        demo_identity(),
        no_modules(),
        MemoryFlash::blank(),
    ).ok()?;
    let _ = step(
        &mut device,
        &Event::Frame(Octets::of(&SET)),
        &mut Outbox::new(),
    );
    Some(device.into_flash())
}

/// Makes the flash fail at the call after this number of calls, if one is given.
fn arm(device: &mut Station, fault: Option<u32>)
    ensures live { device.new.live ≡ device.old.live }
    ensures station { device.new.station ≡ device.old.station }
{
    match fault {
        None => (),
        Some(after) => device.arm(Order::Fault {
            after,
            mask: [0x55; 8],
        }),
    }
}

/// The world of a station that starts with these modules from this flash, and of a controller that was just made.
fn begun(
    alloc: Global,
    real: Real,
    flash: MemoryFlash<768>,
    fault: Option<u32>,
    setup: Setup,
) -> Option<Net>
    ensures begins { IfSome result (λ world. Begins setup demo world) }
{
    let Ok(mut device) = Device::boot(demo_identity(), real, flash) else {
        return None
    };
    arm(&mut device, fault);
    nothing_is_named();
    Some(begin_world(alloc, device, setup))
}

/// The station "pump-1" with the modules of a catalogue, and a controller of its plan that was just made. If `fault` is
/// given, the flash fails at the call after that number of calls. `None` if the catalogue has no plan, if its plan is not
/// one for which the law of a start-up is stated, or if there is no memory to read it.
pub fn fresh_world(alloc: Global, catalogue: &str, fault: Option<u32>) -> Option<Fresh>
    // A world that is returned meets what the law of a start-up requires at its beginning, and of both ends.
    ensures begins { IfSome result (λ fresh. IsLawful demo fresh.net) }
{
    let plan = plan_of(alloc, catalogue)?;
    let (records, real) = (plan.records().len(), copied(plan.real()));
    let setup = Setup {
        plan,
        ar: Uuid::from_bytes([1; 16]),
        activity: Uuid::from_bytes([2; 16]),
        options: ControllerOptions::default(),
    };
    if !can_meet(&setup, &demo_identity()) {
        return None;
    }
    let net = begun(alloc, real, named_flash()?, fault, setup)?;
    Some(Fresh { net, records })
}
