//! The octets of a frame: which are occupied, and what they hold at a place.
ghost use Rattle.std.specs.Prelude.{◌≡◌, ◌+◌, ◌-◌, ◌<◌, ◌≤◌, ℕ, true, false, length, get_or, slice_range, replicate, option_map, IfSome};
ghost use Rattle.std.specs.Prelude.{MatchBool};
ghost use Rattle.std.specs.List.{list_any, AllByRecursion};
ghost use Rattle.cyclic_data.specs.Layout.{IsInside, IsSolid, DoMeet, AreAllApart};
ghost use Rattle.cyclic_data.specs.Marked.{IsTaken, IsFree, IsMarkedWith};
ghost use Rattle.cyclic_data.specs.Held.{IsWritten};
ghost use Rattle.cyclic_data.specs.declared.place.PlaceKind.TheVariants.{Data};
ghost use Rattle.cyclic_data.specs.Image.{place_at, value_in, status_in};

use crate::place::{Place, PlaceKind};

/// Whether one of these marks is set.
fn is_any(marked: &[bool]) -> bool
    ensures { result ≡ list_any (λ mark. mark) marked.now }
{
    marked.iter().any(|mark| *mark)
}

/// Sets all of these marks.
fn mark_all(marked: &mut [bool])
    ensures len { length marked.new ≡ length marked.old }
    ensures each { (k : ℕ) → k < length marked.old → get_or marked.new k false ≡ true }
{
    for mark in marked.iter_mut() {
        *mark = true;
    }
}

/// Marks `size` octets from `start` on if none of them was marked. Returns whether one was.
fn mark(marked: &mut [bool], start: usize, size: usize) -> bool
    requires { start + size ≤ length marked.old }
    ensures free { MatchBool result (IsTaken marked.old start size) (IsFree marked.old start size) }
    ensures marked { result ≡ false → IsMarkedWith marked.old marked.new start size }
{
    let part = &mut marked[start..start + size];
    if is_any(part) {
        return true;
    }
    mark_all(part);
    false
}

/// Whether two of these places overlap. All places must be inside the longest frame.
pub(crate) fn has_overlap(places: &[Place]) -> bool
    requires { AllByRecursion (IsInside 1440) places.now }
    ensures { MatchBool result (DoMeet places.now) (AreAllApart places.now) }
{
    let mut marked = [false; 1440];
    for place in places {
        if mark(&mut marked, place.offset as usize, place.size as usize) {
            return true;
        }
    }
    false
}

/// Writes octets from `start` on, and leaves the others as they are.
pub(crate) fn write_at(octets: &mut [u8], start: usize, value: &[u8])
    requires { start + length value.now ≤ length octets.old }
    ensures { IsWritten octets.old octets.new start value.now }
{
    octets[start..start + value.len()].copy_from_slice(value);
}

/// The octets of an empty frame: zeros.
pub(crate) fn blank() -> [u8; 1440]
    ensures { result ≡ replicate 1440 0 }
{
    [0; 1440]
}

/// The place of a kind and submodule, or `None` if there is no such place.
pub(crate) fn place_at(places: &[Place], kind: PlaceKind, slot: u16, subslot: u16) -> Option<Place>
    ensures { result ≡ place_at kind slot subslot places.now }
{
    for place in places {
        if place.is_of(kind, slot, subslot) {
            return Some(*place);
        }
    }
    None
}

/// The `size` octets from `start` on.
fn part(octets: &[u8], start: usize, size: usize) -> &[u8]
    requires { start + size ≤ length octets.now }
    ensures { result.now ≡ slice_range octets.now start (start + size) }
{
    &octets[start..start + size]
}

/// The octets at the place of a submodule's data, or `None` if there is no such place.
pub(crate) fn value_at<'a>(
    octets: &'a [u8],
    places: &[Place],
    slot: u16,
    subslot: u16,
) -> Option<&'a [u8]>
    requires inside { AllByRecursion (IsInside (length octets.now)) places.now }
    requires solid { AllByRecursion IsSolid places.now }
    ensures { option_map (λ value. value.now) result ≡ option_map (value_in octets.now) (place_at Data slot subslot places.now) }
{
    let place = place_at(places, PlaceKind::Data, slot, subslot)?;
    Some(part(octets, place.offset as usize, place.size as usize - 1))
}

/// The octets at the place of a submodule's data and its IOPS, or `None` if there is no such place.
pub(crate) fn rated_value_at<'a>(
    octets: &'a [u8],
    places: &[Place],
    slot: u16,
    subslot: u16,
) -> Option<(&'a [u8], u8)>
    requires inside { AllByRecursion (IsInside (length octets.now)) places.now }
    requires solid { AllByRecursion IsSolid places.now }
    ensures value { option_map (λ rated. rated.0.now) result ≡ option_map (value_in octets.now) (place_at Data slot subslot places.now) }
    ensures status { option_map (λ rated. rated.1) result ≡ option_map (status_in octets.now) (place_at Data slot subslot places.now) }
{
    let place = place_at(places, PlaceKind::Data, slot, subslot)?;
    let value = part(octets, place.offset as usize, place.size as usize - 1);
    Some((
        value,
        octets[place.offset as usize + place.size as usize - 1],
    ))
}

/// The status at a place, or `None` if there is no such place.
pub(crate) fn status_at(
    octets: &[u8],
    places: &[Place],
    kind: PlaceKind,
    slot: u16,
    subslot: u16,
) -> Option<u8>
    requires inside { AllByRecursion (IsInside (length octets.now)) places.now }
    requires solid { AllByRecursion IsSolid places.now }
    ensures { result ≡ option_map (status_in octets.now) (place_at kind slot subslot places.now) }
{
    let place = place_at(places, kind, slot, subslot)?;
    Some(octets[place.offset as usize + place.size as usize - 1])
}
