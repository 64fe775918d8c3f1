//! A world that meets the premises of the law of a start-up.
ghost use Rattle.std.specs.Prelude.{◌≡◌, ◌≤◌, ◌↔◌, [], IsTrue, List, None};
ghost use Rattle.std.specs.List.{AllByRecursion};
ghost use Rattle.connect_blocks.specs.ArBlock.{is_some_uuid};
ghost use Rattle.rpc_core.specs.Cache.{kept_of};
ghost use Rattle.asked_records.specs.Asked.{question_in};
ghost use Rattle.asked_records.specs.Names.{last_index};
ghost use Rattle.plans.specs.declared.parts.PlanRecord.{PlanRecord as Planned};
ghost use Rattle.both_ends.specs.startup.Played.{AreUnnamed, Begins, CanMeet, IsParameter, IsUnnamed};

use asked_records::RecordName;
use controller_core::Controller;
use controller_messages::Setup;
use device_core::Device;
use flash_model::Flash;
use network_world::World;
use plans::PlanRecord;
use pn_values::Identity;
use std::alloc::Global;
use uuid::Uuid;

/// Whether an ARUUID is not zero (IEC 61158-6-10, 5.2.4.1).
fn is_named(ar: &Uuid) -> bool
    ensures { result ≡ is_some_uuid ar.now }
{
    *ar.as_bytes() != [0; 16]
}

/// Whether the index of each record is in the manufacturer-specific range.
fn are_parameters(records: &[PlanRecord]) -> bool
    ensures { IsTrue result ↔ AllByRecursion IsParameter records.now }
{
    records.iter().all(|entry| entry.index < 0x8000)
}

/// Whether the law of a start-up applies to this set-up and a device of this identity: their MAC addresses differ, the
/// ARUUID is not zero, and the records of the plan are parameter records.
pub fn can_meet(setup: &Setup, identity: &Identity) -> bool
    // The result is true if and only if the law applies.
    ensures { IsTrue result ↔ CanMeet setup.now identity.now }
{
    identity.mac != setup.plan.controller().mac
        && is_named(&setup.ar)
        && are_parameters(setup.plan.records())
}

/// Whether the index of each record of the application is in the manufacturer-specific range.
fn are_low(names: &[RecordName]) -> bool
    ensures { IsTrue result ↔ AllByRecursion (λ name. name.index ≤ last_index) names.now }
{
    names.iter().all(|name| name.index <= 0x7FFF)
}

/// Whether the application answers no record with the place and the index of this one.
fn is_unnamed(names: &[RecordName], entry: &PlanRecord) -> bool
    ensures { IsTrue result ↔ IsUnnamed names.now entry.now }
{
    for name in names {
        if name.is_for(entry.slot, entry.subslot, entry.index) {
            return false;
        }
    }
    true
}

/// Whether the law of a start-up applies to a plan with these records and a station whose application answers the records with
/// these names: none of them is a record of the plan.
pub fn are_unnamed(names: &[RecordName], records: &[PlanRecord]) -> bool
    // The result is true if and only if the law applies.
    ensures { IsTrue result ↔ AreUnnamed names.now records.now }
{
    are_low(names) && records.iter().all(|entry| is_unnamed(names, entry))
}

/// A station whose application answers no records meets this premise for each plan. This is a law of the definitions.
pub fn nothing_is_named()
    ensures { (records : List Planned) → AreUnnamed [] records }
{}

/// The world of a device that has no relation and has stored no answer to a call of the activity of this set-up, and of a
/// controller that was just made from this set-up. The application of the device answers no record of the plan, and nothing is asked
/// of it. It meets the premises of the law of a start-up. The device may have had any relations before.
pub fn begin_world<F: Flash<S>, const S: usize>(
    alloc: Global,
    device: Device<F, S>,
    setup: Setup,
) -> World<F, S>
    requires uncalled { kept_of setup.activity device.live.rest.calls ≡ None }
    requires unrelated { device.live.rest.link ≡ None }
    requires unasked { question_in device.live.rest.asked ≡ None }
    requires unnamed { AreUnnamed device.station.named setup.plan.records.items }
    // The world begins as the law of a start-up requires.
    ensures begins { Begins setup device.station.identity result }
    // The device of the world is the given one.
    ensures device { result.device ≡ device }
{
    World::new(
        alloc,
        device,
        Controller::new_with(setup.plan, setup.ar, setup.activity, setup.options),
    )
}
