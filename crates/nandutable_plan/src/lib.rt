//! The library that reads the catalogue of a station for C. `include/nandutable_controller.h` says how it is used. It
//! allocates with the C library, and frees all of its memory before it returns.
#![tactic(auto)]

ghost use Rattle.std.specs.Prelude.{◌≡◌, ◌≢◌, ◌≤◌, length};
ghost use Rattle.configurator.specs.Planned.{IsPlanOf};
ghost use Rattle.controller_abi.specs.Plans.{parts_of};
ghost use Rattle.plan_abi.specs.Places.{HasNone, IsReported};
ghost use Rattle.plan_abi.specs.Readings.{IsBlank, IsFault, IsWritten};

use controller_abi::WrittenPlan;
use plan_abi::{read, show};
use std::alloc::Global;

/// Reads a catalogue into a plan. Returns 0, or the number of the first fault, and then all of the plan is zero.
/// Returns 2 if `size` is not the size of a plan, and then the plan is unchanged.
#[unsafe(no_mangle)]
pub extern "C" fn pn_plan_make(
    text: &[u8],
    size: usize,
    plan: &mut WrittenPlan,
    alloc: Global,
) -> u32
    ensures planned { result ≡ 0 → IsPlanOf text.now (parts_of plan.new) }
    ensures written { result ≡ 0 → IsWritten text.now plan.new }
    ensures refused { result ≢ 0 → result ≢ 2 → IsFault text.now result }
    ensures nothing { result ≢ 0 → result ≢ 2 → IsBlank plan.new }
    ensures kept { result ≡ 2 → plan.new ≡ plan.old }
    ensures fits { size ≡ 4336 → result ≢ 2 }
    ensures other { size ≢ 4336 → result ≡ 2 }
{
    read(alloc, text, size, plan)
}

/// Writes the key at which the first fault of a catalogue is, followed by a zero. Returns 1 if it wrote one, 2 if no key is at fault or there is no room for
/// it, and 0 if there was not enough memory, and only then.
#[unsafe(no_mangle)]
pub extern "C" fn pn_plan_show(text: &[u8], room: &mut [u8], alloc: Global) -> u32
    ensures length { length room.new ≡ length room.old }
    ensures kept { result ≢ 1 → room.new ≡ room.old }
    ensures reported { result ≡ 1 → IsReported text.now room.old room.new }
    // Nothing is shown only if there is nothing to show.
    ensures nothing { result ≡ 2 → HasNone text.now room.old }
    ensures few { result ≤ 2 }
{
    show(alloc, text, room)
}
