//! Why the IOPS that a controller sends with its outputs are not good.
ghost use Rattle.std.specs.Prelude.{◌≡◌, ◌≤◌, length, map};
ghost use Rattle.cyclic_data.specs.Layout.{is_of};
ghost use Rattle.cyclic_data.specs.declared.place.PlaceKind.TheVariants.{Data};
ghost use Rattle.controller_core.specs.stored.Outputs.{awaits, change_by, first_mark, iops_by, iops_of, mark_at, marked};

use arrayvec::ArrayVec;
use cyclic_data::{GOOD, Place, PlaceKind};

/// Why the IOPS at a place of the outputs is not good, if it is not.
#[derive(Clone, Copy, Default)]
pub struct OutputMark {
    /// The place.
    pub place: Place,
    /// No value was given yet.
    pub is_awaited: bool,
    /// The application says that the output is bad.
    pub is_bad: bool,
}

impl OutputMark {
    /// The first mark of a place.
    fn first(place: &Place) -> OutputMark
        ensures { result ≡ first_mark place.now }
    {
        OutputMark {
            place: *place,
            is_awaited: true,
            is_bad: false,
        }
    }

    /// Whether it is that of the output of this submodule.
    fn is_of(&self, slot: u16, subslot: u16) -> bool
        ensures { result ≡ is_of Data slot subslot self.now.place }
    {
        matches!(self.place.kind, PlaceKind::Data)
            && self.place.slot == slot
            && self.place.subslot == subslot
    }

    /// The IOPS: good if nothing is against it.
    fn iops(&self) -> u8
        ensures { result ≡ iops_by self.now }
    {
        if self.is_awaited || self.is_bad {
            0
        } else {
            GOOD
        }
    }

    /// The mark after a value was given, or after a status.
    fn changed(self, status: Option<bool>) -> OutputMark
        ensures { result ≡ change_by status self }
    {
        match status {
            None => OutputMark {
                is_awaited: false,
                ..self
            },
            Some(is_good) => OutputMark {
                is_bad: !is_good,
                ..self
            },
        }
    }
}

/// Replaces the marks by the first ones of these places.
pub(crate) fn begin(marks: &mut ArrayVec<OutputMark, 128>, places: &[Place])
    requires { length places.now ≤ 128 }
    ensures { marks.new.items ≡ map first_mark places.now }
{
    marks.clear();
    for place in places {
        marks.push(OutputMark::first(place));
    }
}

/// Changes the marks of the output of a submodule: a value was given, or this status.
pub fn change(marks: &mut ArrayVec<OutputMark, 128>, slot: u16, subslot: u16, status: Option<bool>)
    ensures { marks.new.items ≡ marked slot subslot (change_by status) marks.old.items }
{
    let mut next = ArrayVec::new();
    for mark in marks.as_slice() {
        next.push(if mark.is_of(slot, subslot) {
            mark.changed(status)
        } else {
            *mark
        });
    }
    *marks = next;
}

/// The IOPS of the output of a submodule, by the first of its marks; 0 without a mark.
pub fn iops_in(marks: &[OutputMark], slot: u16, subslot: u16) -> u8
    ensures { result ≡ iops_of (mark_at slot subslot marks.now) }
{
    for mark in marks {
        if mark.is_of(slot, subslot) {
            return mark.iops();
        }
    }
    0
}

/// Whether the first value of the output of a submodule is awaited.
pub fn awaits(marks: &[OutputMark], slot: u16, subslot: u16) -> bool
    ensures { result ≡ awaits slot subslot marks.now }
{
    for mark in marks {
        if mark.is_of(slot, subslot) {
            return mark.is_awaited;
        }
    }
    false
}
