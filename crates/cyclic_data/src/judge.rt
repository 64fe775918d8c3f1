//! The checks of the places of a layout.
ghost use Rattle.std.specs.Prelude.{◌≡◌, ◌+◌, ◌<◌, ◌≤◌, ◌++◌, length, map, OnOk, IfOk, IfErr, IfSome, unwrap_or};
ghost use Rattle.std.specs.List.{AllByRecursion};
ghost use Rattle.arrayvec.specs.ArrayVec.{array_vec_len};
ghost use Rattle.cyclic_data.specs.declared.fault.LayoutFault.TheVariants.{Outside};
ghost use Rattle.cyclic_data.specs.Places.{found_from, taken_at, place_of};
ghost use Rattle.cyclic_data.specs.Rising.{rises};
ghost use Rattle.cyclic_data.specs.Layout.{IsInside, IsOutside, AnyByRecursion};
ghost use Rattle.cyclic_data.specs.Seen.{mark_in, mark_of, has_unknown, seen_behind, lacks, has_missing};

use crate::fault::LayoutFault;
use crate::place::{ExpectedData, Place, PlaceKind, find, taken};
use arrayvec::ArrayVec;
use connect_blocks::{IoObject, IoObjects, IocrType, SubmoduleData};

/// What the places of a communication relation are checked against.
#[derive(Clone, Copy)]
pub(crate) struct Judge<'a> {
    pub(crate) direction: IocrType,
    /// DataLength, in octets.
    pub(crate) data_length: u16,
    pub(crate) expected: &'a [ExpectedData],
    /// Whether the submodules are in the order of their slots and subslots.
    pub(crate) rising: bool,
    ghost known: { rising ≡ rises expected.now },
}

/// The mark for the data or the IOCS of the submodule with this index.
fn mark_in(kind: PlaceKind, index: usize) -> usize
    requires { index < 64 }
    ensures { result ≡ mark_in kind index }
{
    match kind {
        PlaceKind::Data => index,
        PlaceKind::Iocs => index + 64,
    }
}

impl<'a> Judge<'a> {
    /// The submodule that is expected in a subslot: its index and its data. If the submodules are in order, the search
    /// starts after the one found last, because places are mostly in the same order.
    fn find(&self, slot: u16, subslot: u16, last: &mut usize) -> Option<(usize, SubmoduleData)>
        ensures found { result ≡ found_from slot subslot 0 self.now.expected.now }
        ensures below { IfSome result (λ found. found.0 < length self.now.expected.now) }
    {
        let from = if self.rising { *last } else { 0 };
        let (index, io_data) = match find(self.expected, from, slot, subslot) {
            Some(found) => found,
            None => find(self.expected, 0, slot, subslot)?,
        };
        *last = index;
        Some((index, io_data))
    }

    /// The number of octets of a place; one if no such place is expected.
    fn size_of(&self, kind: PlaceKind, slot: u16, subslot: u16, last: &mut usize) -> u32
        ensures value { result ≡ unwrap_or (taken_at self.now.direction self.now.expected.now kind slot subslot) 1 }
        ensures few { result ≤ 65536 }
    {
        match self.find(slot, subslot, last) {
            Some((_, io_data)) => taken(self.direction, kind, io_data).unwrap_or(1),
            // An object of no submodule is reported as Unknown only if all places are inside the frame, so here it gets
            // the smallest size.
            None => 1,
        }
    }

    /// The place of an object. Fails if it does not end within the frame.
    fn place_of(
        &self,
        kind: PlaceKind,
        object: IoObject,
        last: &mut usize,
    ) -> Result<Place, LayoutFault>
        ensures ok { IfOk result (λ place. place ≡ place_of self.now.direction self.now.expected.now kind object) }
        ensures inside { OnOk result (IsInside self.now.data_length (place_of self.now.direction self.now.expected.now kind object)) }
        ensures err { IfErr result (λ fault. (fault ≡ Outside)
            × IsOutside self.now.data_length (place_of self.now.direction self.now.expected.now kind object)) }
    {
        let size = self.size_of(kind, object.slot_number, object.subslot_number, last);
        if u32::from(object.frame_offset) + size > u32::from(self.data_length) {
            return Err(LayoutFault::Outside);
        }
        Ok(Place {
            kind,
            slot: object.slot_number,
            subslot: object.subslot_number,
            offset: object.frame_offset,
            size: size as u16,
        })
    }

    /// Appends the places of all objects of a kind, at most 256. Fails if one does not end within the frame.
    pub(crate) fn place_all(
        &self,
        kind: PlaceKind,
        objects: &IoObjects,
        places: &mut ArrayVec<Place, 512>,
    ) -> Result<(), LayoutFault>
        requires { array_vec_len places.old ≤ 256 }
        ensures items { OnOk result (places.new.items ≡ places.old.items
            ++ map (place_of self.now.direction self.now.expected.now kind) objects.now) }
        ensures len { OnOk result (array_vec_len places.new ≤ array_vec_len places.old + 256) }
        ensures inside { OnOk result (AllByRecursion (IsInside self.now.data_length)
            (map (place_of self.now.direction self.now.expected.now kind) objects.now)) }
        ensures err { IfErr result (λ fault. (fault ≡ Outside)
            × AnyByRecursion (IsOutside self.now.data_length) (map (place_of self.now.direction self.now.expected.now kind) objects.now)) }
    {
        let mut last = 0;
        for index in 0..objects.len() {
            if let Some(object) = objects.get(index) {
                places.push(self.place_of(kind, object, &mut last)?);
            }
        }
        Ok(())
    }

    /// The mark of a place, or `None` if no such place is expected.
    fn mark_of(&self, kind: PlaceKind, slot: u16, subslot: u16, last: &mut usize) -> Option<usize>
        requires { length self.now.expected.now ≤ 64 }
        ensures value { result ≡ mark_of self.now.direction self.now.expected.now kind slot subslot }
        ensures below { IfSome result (λ mark. mark < 128) }
    {
        let (index, io_data) = self.find(slot, subslot, last)?;
        // The size is not needed here: a place that takes no octets has no mark.
        let _size = taken(self.direction, kind, io_data)?;
        Some(mark_in(kind, index))
    }

    /// Whether one of the places is not expected or was seen before. Marks the places that it sees.
    pub(crate) fn has_unknown(&self, places: &[Place], seen: &mut [bool; 128]) -> bool
        requires { length self.now.expected.now ≤ 64 }
        ensures value { result ≡ has_unknown self.now.direction self.now.expected.now seen.old places.now }
        ensures seen { seen.new ≡ seen_behind self.now.direction self.now.expected.now seen.old places.now }
    {
        let mut last = 0;
        for place in places {
            match self.mark_of(place.kind, place.slot, place.subslot, &mut last) {
                Some(mark) if !seen[mark] => seen[mark] = true,
                _ => return true,
            }
        }
        false
    }

    /// Whether a place of the submodule with this index is expected and was not seen.
    fn lacks(&self, kind: PlaceKind, index: usize, sub: &ExpectedData, seen: &[bool; 128]) -> bool
        requires { length self.now.expected.now ≤ 64 }
        ensures { result ≡ lacks seen.now (mark_of self.now.direction self.now.expected.now kind sub.now.slot sub.now.subslot) }
    {
        let mut last = index;
        match self.mark_of(kind, sub.slot, sub.subslot, &mut last) {
            Some(mark) => !seen[mark],
            None => false,
        }
    }

    /// Whether an expected place was not seen.
    pub(crate) fn has_missing(&self, seen: &[bool; 128]) -> bool
        requires { length self.now.expected.now ≤ 64 }
        ensures { result ≡ has_missing self.now.direction self.now.expected.now seen.now self.now.expected.now }
    {
        for (index, sub) in self.expected.iter().enumerate() {
            if self.lacks(PlaceKind::Data, index, sub, seen)
                || self.lacks(PlaceKind::Iocs, index, sub, seen)
            {
                return true;
            }
        }
        false
    }
}
