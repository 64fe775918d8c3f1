//! The controller of a station with five calls, and six calls of a tool that works before a controller starts.
//! `include/nandutable_controller.h` says how they are used.
//!
//! Each call is proved down to its raw pointer: the content of the memory before the call, and its content after it.
#![tactic(auto)]

ghost use Rattle.std.specs.Prelude.{◌≡◌, ◌≢◌, take, true};
ghost use Rattle.std.specs.Borrow.{full_share};
ghost use base.Logic.{ex};
ghost use types.Logic.{sem};
ghost use denote.RawPtr.{lies_at, room_at};
ghost use Rattle.controller_station.specs.Served.{begun};
ghost use Rattle.controller_abi.specs.State.{IsUnstarted, State, opened};
ghost use Rattle.controller_abi.specs.contracts.port.Port.{the_row as Row};
ghost use Rattle.controller_abi.specs.Plans.{fault_of, is_plan, options_in, parts_of, why_not_made};
ghost use Rattle.controller_abi.specs.Serves.{Serves, operation_of};
ghost use Rattle.c_layout.specs.Places.{place_in};
ghost use Rattle.commissioning.specs.Named.{named_by};
ghost use Rattle.commissioning.specs.Place.{IsTidy, after_frame, name_of, place_of};
ghost use Rattle.commissioning.specs.Record.{record_heard};
ghost use Rattle.controller_abi.specs.Tool.{IsFind, IsName, IsOutcome, IsRead, IsRecord, index_in, tool_in};

use c_layout::Op;
use commissioning::Search;
use controller_abi::{
    Port, WrittenPlan, WrittenTarget, WrittenTool, fault_in, find, hear, judge, name, outcome,
    read, record, serve, start, unstarted,
};

/// Returns the first fault of a plan, with the number that a catalogue with this fault has, or 0.
#[unsafe(no_mangle)]
pub extern "C" fn pn_plan_judge(plan: &WrittenPlan) -> u32
    ensures { result ≡ fault_of plan.now }
{
    fault_in(plan)
}

/// Returns why no controller can be made from this plan with this ARUUID in a memory of `size` octets, or 0.
#[unsafe(no_mangle)]
pub extern "C" fn pn_controller_judge(
    size: usize,
    abi: u32,
    op_size: usize,
    plan: &WrittenPlan,
    ar: &[u8; 16],
) -> u32
    ensures { result ≡ why_not_made size abi op_size plan.now ar.now }
{
    judge(size, abi, op_size, plan, ar)
}

/// Makes the controller of a plan in the memory at `room`, from a plan for which `pn_controller_judge` returned 0. It has
/// not started: `pn_controller_begin` comes next. They are two calls so that the stack never holds what both need.
#[unsafe(no_mangle)]
pub unsafe extern "C" fn pn_controller_put(
    room: *mut u8,
    plan: &WrittenPlan,
    ar: &[u8; 16],
    activity: &[u8; 16],
)
    requires* { sem 𝓛 (room_at Row room) ∗ ⌜ is_plan plan.now ≡ true ⌝ }
    ensures* { ex 𝓤 (λ (port : State). sem 𝓛 (lies_at Row full_share room port) ∗ ⌜ IsUnstarted (record { plan = parts_of plan.now; ar = ar.now; activity = activity.now; options = options_in plan.now }) port ⌝) }
{
    unsafe { std::ptr::write(room as *mut Port, unstarted(plan, ar, activity)) };
}

/// Starts the controller that `pn_controller_put` made in the memory at `room`. Its opening frame waits to be fetched.
#[unsafe(no_mangle)]
pub unsafe extern "C" fn pn_controller_begin(room: *mut u8)
    ghost port: { State }
    requires* { sem 𝓛 (lies_at Row full_share room port) }
    ensures* { ex 𝓤 (λ (new : State). sem 𝓛 (lies_at Row full_share room new) ∗ ⌜ new ≡ opened (begun port.controller.setup) ⌝) }
{
    start(unsafe { &mut *(room as *mut Port) });
}

/// Carries out one operation on the controller in the memory at `room`. Returns 0, or why nothing changed. Before
/// `pn_controller_begin` nothing changes, and it returns 17.
#[unsafe(no_mangle)]
pub unsafe extern "C" fn pn_controller_step(room: *mut u8, op: &mut Op, given: &[u8]) -> u32
    ghost port: { State }
    requires* { sem 𝓛 (lies_at Row full_share room port) }
    ensures* { ex 𝓤 (λ (new : State). sem 𝓛 (lies_at Row full_share room new) ∗ ⌜ Serves (operation_of op.old.what) port op.old given.now result new op.new ⌝) }
{
    serve(unsafe { &mut *(room as *mut Port) }, op, given)
}

/// Begins a search: writes the frame by which a tool asks all stations which one has this name by its place, with the tool's next number.
/// Returns 0, or why not.
#[unsafe(no_mangle)]
pub extern "C" fn pn_tool_find(
    tool: &mut WrittenTool,
    search: &mut Search,
    op: &mut Op,
    alias: &[u8],
) -> u32
    ensures { IsFind tool.old search.old alias.now op.old result tool.new search.new op.new }
{
    find(tool, search, alias, op)
}

/// Hears a received frame: only an answer to the question of this search counts, by its number.
#[unsafe(no_mangle)]
pub extern "C" fn pn_tool_hear(tool: &WrittenTool, search: &mut Search, given: &[u8])
    ensures place { place_of search.new ≡ after_frame (tool_in tool.now) search.old.xid (place_of search.old) (take 1519 given.now) }
    // It goes on to ask by this number.
    ensures number { search.new.xid ≡ search.old.xid }
    // A host finds no more than was reported.
    ensures tidy { IsTidy search.old → IsTidy search.new }
    // After the answer of a second station the name is still that of the first one.
    ensures kept { search.old.stations ≢ 0 → search.new.stations ≢ 1 → name_of search.new ≡ name_of search.old }
{
    hear(tool, search, given);
}

/// Writes the frame by which the station at the place gets this name, with the tool's next number. Returns 0, or why not.
#[unsafe(no_mangle)]
pub extern "C" fn pn_tool_name(
    tool: &mut WrittenTool,
    search: &Search,
    op: &mut Op,
    text: &[u8],
) -> u32
    ensures { IsName tool.old (place_of search.now) text.now op.old result tool.new op.new }
{
    name(tool, search, text, op)
}

/// Reads what a received frame answers to that Set. Returns 0, or that it answers nothing.
#[unsafe(no_mangle)]
pub extern "C" fn pn_tool_outcome(
    tool: &WrittenTool,
    search: &Search,
    op: &mut Op,
    given: &[u8],
) -> u32
    ensures { IsOutcome (named_by (tool_in tool.now) tool.now.xid (place_of search.now) (take 1519 given.now)) op.old result op.new }
{
    outcome(tool, search, given, op)
}

/// Writes the frame by which a tool reads a record of a station. Returns 0, or why not.
#[unsafe(no_mangle)]
pub extern "C" fn pn_tool_read(
    tool: &WrittenTool,
    target: &WrittenTarget,
    activity: &[u8; 16],
    op: &mut Op,
) -> u32
    ensures { IsRead (place_in op.old.slot op.old.subslot) (index_in op.old.index) tool.now target.now activity.now op.old result op.new }
{
    read(tool, target, activity, op)
}

/// Reads what a received frame answers to that read. Returns 0, or that it answers nothing.
#[unsafe(no_mangle)]
pub extern "C" fn pn_tool_record(
    tool: &WrittenTool,
    activity: &[u8; 16],
    op: &mut Op,
    given: &[u8],
) -> u32
    ensures { IsRecord (record_heard (tool_in tool.now) activity.now (take 1519 given.now)) op.old result op.new }
{
    record(tool, activity, given, op)
}
