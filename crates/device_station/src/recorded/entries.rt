// The list of the last calls.
ghost use Rattle.std.specs.Prelude.{◌≡◌, ◌+◌, ◌-◌, ◌<◌, ◌≤◌, ◌∷◌, ◌++◌, [], Some, drop, length, slice_get, take};
ghost use Rattle.device_station.specs.recorded.Pushed.{pushed};

use crate::recorded::entry::Entry;
use arrayvec::ArrayVec;

/// Appends an entry, and drops the oldest one if there is no room for it.
pub fn push(entries: &mut ArrayVec<Entry, 48>, entry: Entry)
    ensures { entries.new.items ≡ pushed entries.old.items entry }
{
    make_room(entries);
    entries.push(entry);
}

// Drops the oldest entry if there is no room for one more.
fn make_room(entries: &mut ArrayVec<Entry, 48>)
    ensures dropped { entries.new.items ≡ drop (length entries.old.items - 47) entries.old.items }
    ensures room { length entries.new.items ≤ 47 }
{
    if entries.len() == 48 {
        let _ = entries.remove(0);
    }
}

/// The entry at this position.
pub fn entry_at(entries: &[Entry], index: usize) -> &Entry
    requires few { length entries.now ≤ 48 }
    requires some { index < length entries.now }
    ensures { slice_get entries.now index ≡ Some result.now }
{
    &entries[index]
}

/// That many of these bytes, from this position on.
pub fn part(octets: &[u8], start: usize, size: usize) -> &[u8]
    requires { start + size ≤ length octets.now }
    ensures { result.now ≡ take size (drop start octets.now) }
{
    let rest = &octets[start..];
    &rest[..size]
}
