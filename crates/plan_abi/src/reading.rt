//! Reads a catalogue into a plan.
ghost use Rattle.std.specs.Prelude.{◌≡◌, ◌≢◌};
ghost use Rattle.configurator.specs.Planned.{IsPlanOf};
ghost use Rattle.plan_abi.specs.Readings.{IsBlank, IsFault, IsWritten};
ghost use Rattle.controller_abi.specs.Plans.{parts_of};

use crate::written::{clear, put};
use c_layout::{BAD_ABI, PLAN_FAULT};
use configurator::plan_or_place;
use controller_abi::WrittenPlan;
use std::alloc::Global;

/// The size of a plan in octets.
const PLAN: usize = 4336;

/// Reads a catalogue into a plan. Returns 0, or the number of the catalogue's first fault: then all of the plan is zero. `size` is the size of
/// a plan in octets as the host has it: if it is not 4,336, the function returns 2 and the plan stays as it was.
pub fn read(alloc: Global, text: &[u8], size: usize, plan: &mut WrittenPlan) -> u32
    ensures planned { result ≡ 0 → IsPlanOf text.now (parts_of plan.new) }
    ensures written { result ≡ 0 → IsWritten text.now plan.new }
    ensures refused { result ≢ 0 → result ≢ 2 → IsFault text.now result }
    ensures nothing { result ≢ 0 → result ≢ 2 → IsBlank plan.new }
    ensures kept { result ≡ 2 → plan.new ≡ plan.old }
    ensures fits { size ≡ 4336 → result ≢ 2 }
    ensures other { size ≢ 4336 → result ≡ 2 }
{
    if size != PLAN {
        return BAD_ABI;
    }
    clear(plan);
    match plan_or_place(alloc, text) {
        Ok((planned, found)) => {
            let station_type = found.access_point.station_type.as_str().as_bytes();
            put(plan, &planned, station_type);
            0
        }
        Err(refusal) => PLAN_FAULT + u32::from(refusal.fault.number()),
    }
}
