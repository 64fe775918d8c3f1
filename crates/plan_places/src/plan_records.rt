// The records of a plan for a place.
ghost use Rattle.std.specs.Prelude.{◌≡◌};
ghost use Rattle.plan_places.specs.Records.{is_record_of, record_from};

use plans::{Plan, PlanRecord};

/// Whether a record of a plan is one of this submodule.
fn is_record_of(slot: u16, subslot: u16, entry: &PlanRecord) -> bool
    ensures { result ≡ is_record_of slot subslot entry.now }
{
    entry.slot == slot && entry.subslot == subslot
}

/// The number of the first record of the plan for this submodule, of those from this number on, if there is one.
pub fn record_from(plan: &Plan, slot: u16, subslot: u16, from: u32) -> Option<u16>
    ensures { result ≡ record_from plan.now slot subslot from }
{
    let records = plan.records();
    for number in from..records.len() as u32 {
        if is_record_of(slot, subslot, &records[number as usize]) {
            return Some(number as u16);
        }
    }
    None
}
