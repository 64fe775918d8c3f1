//! The places of submodules in cyclic frames, packed.
ghost use Rattle.std.specs.Prelude.{◌≡◌, ◌+◌, ◌*◌, ◌≤◌, ◌++◌, [], length, map, max};
ghost use Rattle.arrayvec.specs.ArrayVec.{array_vec_len};
ghost use Rattle.cyclic_data.specs.declared.place.PlaceKind.TheVariants.{Data, Iocs};
ghost use Rattle.cyclic_data.specs.Places.{taken};
ghost use Rattle.plans.specs.Packed.{frame_octets, object_of, octets_in, octets_of, packed, place_at};

use arrayvec::ArrayVec;
use block_codec::{IoObject, IocrType};
use cyclic_data::{ExpectedData, PlaceKind};

/// The octets of a submodule in the frames of a direction, as data or as an IOCS. 0 if it has none.
fn octets_in(direction: IocrType, kind: PlaceKind, sub: &ExpectedData) -> u32
    ensures value { result ≡ octets_in direction kind sub.now }
    ensures few { result ≤ 65536 }
{
    sub.taken(direction, kind).unwrap_or(0)
}

/// The sum for at most 64 submodules.
fn octets_of(direction: IocrType, kind: PlaceKind, subs: &[ExpectedData]) -> u32
    requires { length subs.now ≤ 64 }
    ensures value { result ≡ octets_of direction kind subs.now }
    ensures few { result ≤ 4194304 }
{
    let mut sum = 0;
    for sub in subs {
        sum += octets_in(direction, kind, sub);
    }
    sum
}

/// The sum for data and IOCS together.
pub(crate) fn frame_octets(direction: IocrType, subs: &[ExpectedData]) -> u32
    requires { length subs.now ≤ 64 }
    ensures value { result ≡ frame_octets direction subs.now }
    ensures few { result ≤ 8388608 }
{
    octets_of(direction, PlaceKind::Data, subs) + octets_of(direction, PlaceKind::Iocs, subs)
}

/// DataLength: the octets of the places, at least 40.
pub(crate) fn data_length(direction: IocrType, subs: &[ExpectedData]) -> u16
    requires few { length subs.now ≤ 64 }
    requires short { frame_octets direction subs.now ≤ 1440 }
    ensures { result ≡ max 40 (frame_octets direction subs.now) }
{
    (frame_octets(direction, subs) as u16).max(40)
}

/// The places of submodules in the frames of a direction.
#[derive(Drop)]
pub(crate) struct Places {
    /// The places of the data objects.
    pub(crate) io_data_objects: ArrayVec<IoObject, 256>,
    /// The places of the IOCS.
    pub(crate) iocs: ArrayVec<IoObject, 256>,
}

/// Appends the place of a submodule at an offset, if it has one. Returns the offset after it. The list must have room for it.
fn push_place(
    objects: &mut ArrayVec<IoObject, 256>,
    offset: u16,
    direction: IocrType,
    kind: PlaceKind,
    sub: &ExpectedData,
) -> u16
    requires room { array_vec_len objects.old ≤ 255 }
    requires short { offset + octets_in direction kind sub.now ≤ 1440 }
    ensures items { objects.new.items ≡ objects.old.items
        ++ map object_of (place_at kind offset sub.now (taken direction kind sub.now.io_data)) }
    ensures few { array_vec_len objects.new ≤ array_vec_len objects.old + 1 }
    ensures offset { result ≡ offset + octets_in direction kind sub.now }
{
    match sub.taken(direction, kind) {
        Some(size) => {
            objects.push(IoObject {
                slot_number: sub.slot,
                subslot_number: sub.subslot,
                frame_offset: offset,
            });
            offset + size as u16
        }
        None => offset,
    }
}

/// Appends the places of submodules to an empty list, one after another from an offset on. Returns the offset after them.
fn pack(
    objects: &mut ArrayVec<IoObject, 256>,
    start: u16,
    direction: IocrType,
    kind: PlaceKind,
    subs: &[ExpectedData],
) -> u16
    requires none { objects.old.items ≡ [] }
    requires few { length subs.now ≤ 64 }
    requires short { start + octets_of direction kind subs.now ≤ 1440 }
    ensures items { objects.new.items ≡ map object_of (packed direction kind start subs.now) }
    ensures offset { result ≡ start + octets_of direction kind subs.now }
{
    let mut offset = start;
    for sub in subs {
        offset = push_place(objects, offset, direction, kind, sub);
    }
    offset
}

impl Places {
    /// No places.
    #[inline(always)]
    pub(crate) fn none() -> Places
        ensures io_data { result.io_data_objects.items ≡ [] }
        ensures iocs { result.iocs.items ≡ [] }
    {
        Places {
            io_data_objects: ArrayVec::new(),
            iocs: ArrayVec::new(),
        }
    }

    /// Appends to no places those of at most 64 submodules: the data objects from offset 0 on, and the IOCS after them. It is done in place,
    /// since a compiler may keep room for a second list if it is returned.
    pub(crate) fn fill(&mut self, direction: IocrType, subs: &[ExpectedData])
        requires no_data { self.old.io_data_objects.items ≡ [] }
        requires no_iocs { self.old.iocs.items ≡ [] }
        requires few { length subs.now ≤ 64 }
        requires short { frame_octets direction subs.now ≤ 1440 }
        ensures io_data { self.new.io_data_objects.items ≡ map object_of (packed direction Data 0 subs.now) }
        ensures iocs { self.new.iocs.items ≡ map object_of (packed direction Iocs (octets_of direction Data subs.now) subs.now) }
    {
        let behind = pack(
            &mut self.io_data_objects,
            0,
            direction,
            PlaceKind::Data,
            subs,
        );
        let _ = pack(&mut self.iocs, behind, direction, PlaceKind::Iocs, subs);
    }
}
