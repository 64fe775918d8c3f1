//! The library that firmware links: a PROFINET IO device with four calls. `include/nandutable.h` says how they are
//! used.
//!
//! Each call is proved down to its raw pointer: the content of the memory before the call, and its content after it.
#![tactic(auto)]

ghost use Rattle.std.specs.Prelude.{◌≡◌, true, ℕ, List};
ghost use Rattle.std.specs.Borrow.{full_share};
ghost use base.Logic.{ex};
ghost use types.Logic.{sem};
ghost use denote.RawPtr.{lies_at, room_at};
ghost use Rattle.device_station.specs.contracts.port.served.Port.{the_row as Row};
ghost use Rattle.device_abi.specs.Made.{IsMade, why_not_made};
ghost use Rattle.device_station.specs.port.State.{closed};
ghost use Rattle.device_station.specs.port.Served.{Served};
ghost use Rattle.device_abi.specs.Serves.{HandsOut, Serves, operation_of};
ghost use Rattle.device_abi.specs.Stations.{is_station};
ghost use Rattle.nandutable.specs.Handed.{Lends};

use c_layout::Op;
use device_abi::{Station, hand_out, judge, port_of, serve};
use device_station::Port;

/// Returns why no device can be made from this station in a memory of `size` octets, or 0.
#[unsafe(no_mangle)]
pub extern "C" fn pn_judge(size: usize, abi: u32, op_size: usize, station: &Station) -> u32
    ensures { result ≡ why_not_made size abi op_size station.now }
{
    judge(size, abi, op_size, station)
}

/// Makes a device that did not start in the memory at `room`, from a station for which `pn_judge` returned 0.
#[unsafe(no_mangle)]
pub unsafe extern "C" fn pn_put(room: *mut u8, station: &Station)
    requires* { sem 𝓛 (room_at Row room) ∗ ⌜ is_station station.now ≡ true ⌝ }
    ensures* { ex 𝓤 (λ (port : Served). sem 𝓛 (lies_at Row full_share room port) ∗ ⌜ IsMade station.now port ⌝) }
{
    unsafe { std::ptr::write(room as *mut Port, port_of(station)) };
}

/// Carries out one operation on the device in the memory at `room`. Returns 0, or why nothing changed.
#[unsafe(no_mangle)]
pub unsafe extern "C" fn pn_step(room: *mut u8, op: &mut Op, given: &[u8]) -> u32
    ghost port: { Served }
    requires* { sem 𝓛 (lies_at Row full_share room port) }
    ensures* { ex 𝓤 (λ (new : Served). sem 𝓛 (lies_at Row full_share room new) ∗ ⌜ Serves (operation_of op.old.what) port op.old given.now result new op.new ⌝) }
{
    serve(unsafe { &mut *(room as *mut Port) }, op, given)
}

/// Hands out the next piece of work of the device in the memory at `room`: `octets` becomes the place in that memory where
/// its octets lie. `answer` is 0, or why nothing was handed out.
///
/// The memory is lent for a lifetime, as long as C wants to read these octets. When the lifetime is over, and no later than
/// with the next call, the device lies there again.
#[unsafe(no_mangle)]
pub unsafe extern "C" fn pn_fetch(
    room: *mut u8,
    op: &mut Op,
    answer: &mut u32,
    octets: &mut *const u8,
)
    ghost port: { Served }
    requires* { sem 𝓛 (lies_at Row full_share room port) }
    ensures* { ex 𝓤 (λ (new : Served). ex 𝓤 (λ (handed : List ℕ). Lends 𝓛 Row room new octets.new handed ∗ ⌜ HandsOut (closed port.port.stage) port op.old answer.new handed new op.new ⌝)) }
{
    let handed = hand_out(unsafe { &mut *(room as *mut Port) }, op, answer);
    *octets = handed.as_ptr();
}
