//! The place of a catalogue's first fault, as text for a message.
ghost use Rattle.std.specs.Prelude.{◌≡◌, ◌≢◌, ◌≤◌, Bool, length, not, if◌then◌else◌};
ghost use Rattle.configurator.specs.declared.fault.PlanFault.TheVariants.{OutOfMemory};
ghost use Rattle.plan_abi.specs.Places.{HasNone, IsReported, IsTold, ended, is_memory, spelled, told_at, told_of};

use crate::spelled::spelled;
use catalogue::Step;
use configurator::{PlanFault, Refusal, plan_or_place};
use std::alloc::Global;

/// There was not enough memory.
const NO_MEMORY: u32 = 0;

/// The place was written.
const SHOWN: u32 = 1;

/// There is nothing to show.
const NONE: u32 = 2;

/// Writes the place of a catalogue's first fault, with a zero octet after it. A place that is too long for the room is cut off. Returns 1 if it
/// wrote a place. Returns 2 and writes nothing if the catalogue has a plan, its fault is not at one key, or the room has no octets. Returns 0
/// and writes nothing if there was not enough memory, and only then.
pub fn show(alloc: Global, text: &[u8], room: &mut [u8]) -> u32
    ensures length { length room.new ≡ length room.old }
    ensures kept { result ≢ 1 → room.new ≡ room.old }
    ensures reported { result ≡ 1 → IsReported text.now room.old room.new }
    // Nothing is shown only if there is nothing to show.
    ensures nothing { result ≡ 2 → HasNone text.now room.old }
    ensures few { result ≤ 2 }
{
    match plan_or_place(alloc, text) {
        Ok((_plan, _catalogue)) => NONE,
        Err(refusal) => tell(&refusal, room),
    }
}

// Whether there was not enough memory: then the place has no meaning.
fn is_memory(fault: PlanFault) -> bool
    ensures { result ≡ is_memory fault }
{
    matches!(fault, PlanFault::OutOfMemory)
}

/// Writes the place of a refusal: each place, however deep it is, however long its text, and into any room that has an octet. Returns 1 if it
/// wrote it, 2 if the refusal has no place or the room no octet, and 0 if there was not enough memory to read the text.
pub fn tell(refusal: &Refusal, room: &mut [u8]) -> u32
    ensures answer { result ≡ told_of refusal.now room.old }
    ensures written { IsTold result refusal.now.place.items room.old room.new }
{
    if is_memory(refusal.fault) {
        return NO_MEMORY;
    }
    tell_place(refusal.place.as_slice(), room)
}

// Writes a place.
fn tell_place(place: &[Step], room: &mut [u8]) -> u32
    requires { length place.now ≤ 8 }
    ensures answer { result ≡ told_at place.now room.old }
    ensures written { IsTold result place.now room.old room.new }
{
    if room.is_empty() {
        return NONE;
    }
    let text = spelled(place);
    match text.as_slice().split_first() {
        // Without the dot before the first key.
        Some((_, shown)) => {
            put(shown, room);
            SHOWN
        }
        None => NONE,
    }
}

// Writes as many octets as there is room for, and a zero octet after them.
fn put(shown: &[u8], room: &mut [u8])
    requires { 1 ≤ length room.old }
    ensures length { length room.new ≡ length room.old }
    ensures value { room.new ≡ ended shown.now room.old }
{
    let count = shown.len().min(room.len() - 1);
    room[..count].copy_from_slice(&shown[..count]);
    room[count] = 0;
}
