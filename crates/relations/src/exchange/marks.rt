//! Why the IOPS that a device sends are not good.
ghost use Rattle.std.specs.Prelude.{◌≡◌, ◌≤◌, length, map};
ghost use Rattle.relations.specs.exchange.Marks.{Starting as Begins, awaits, change_by, first_mark, iops_by, iops_of, mark_at, marked};
ghost use Rattle.relations.specs.exchange.Modules.{renewed_mark, renewed_marks, restated_mark, restated_marks};
ghost use Rattle.cyclic_data.specs.Layout.{is_of};
ghost use Rattle.cyclic_data.specs.declared.place.PlaceKind.TheVariants.{Data};

use crate::exchange::statuses::{InputStatus, is_bad};
use arrayvec::ArrayVec;
use cyclic_data::{GOOD, Place, PlaceKind};
use diagnosis::Diagnoses;
use expected_places::Plugs;
use module_diff::{Affected, DiffRows};

/// Why the IOPS at a place of the inputs is not good, if it is not.
#[derive(Clone, Copy, Default)]
pub struct Mark {
    /// The place.
    pub place: Place,
    /// What is plugged there is not what is expected.
    pub differs: bool,
    /// Something was pulled or plugged there, and it was not released since.
    pub is_touched: bool,
    /// The first input of the relation is awaited.
    pub is_awaited: bool,
    /// The application says that the inputs are bad.
    pub is_bad: bool,
}

/// What a relation begins with: what the application says of its inputs, the time, and the number of the relation.
#[derive(Clone, Copy)]
pub struct Starting<'a> {
    /// Whether the IOPS of a submodule with inputs is bad until the first input is given.
    pub begin_bad: bool,
    /// Whether the application runs (`true`) or is stopped.
    pub is_running: bool,
    /// The statuses that it gave.
    pub statuses: &'a [InputStatus],
    /// The units since the start of the device.
    pub units: u64,
    /// The diagnoses that exist.
    pub diagnoses: &'a Diagnoses,
    /// The number of the relation.
    pub number: u16,
}

impl Mark {
    /// The first mark of a place.
    fn first(place: &Place, rows: &DiffRows, starting: Starting<'_>) -> Mark
        ensures { result ≡ first_mark (record { begin_bad = starting.entry.begin_bad; is_running = starting.entry.is_running; statuses = starting.entry.statuses.now; units = starting.entry.units; diagnoses = starting.entry.diagnoses.now; number = starting.entry.number }) rows.now place.now }
    {
        Mark {
            place: *place,
            differs: rows.is_listed(place.slot, place.subslot),
            is_touched: false,
            is_awaited: starting.begin_bad && place.size > 1,
            is_bad: is_bad(starting.statuses, place.slot, place.subslot),
        }
    }

    /// Whether it is that of the inputs of this submodule.
    fn is_of(&self, slot: u16, subslot: u16) -> bool
        ensures { result ≡ is_of Data slot subslot self.now.place }
    {
        // Most places differ in the slot.
        self.place.slot == slot
            && matches!(self.place.kind, PlaceKind::Data)
            && self.place.subslot == subslot
    }

    /// The IOPS: good if nothing is against it.
    fn iops(&self) -> u8
        ensures { result ≡ iops_by self.now }
    {
        if self.differs || self.is_touched || self.is_awaited || self.is_bad {
            0
        } else {
            GOOD
        }
    }

    /// The mark after an input was given, or after a status.
    fn changed(self, status: Option<bool>) -> Mark
        ensures { result ≡ change_by status self }
    {
        match status {
            None => Mark {
                is_awaited: false,
                ..self
            },
            Some(is_good) => Mark {
                is_bad: !is_good,
                ..self
            },
        }
    }

    /// The mark while these places differ or are touched.
    fn restated(self, plugs: &Plugs) -> Mark
        ensures { result ≡ restated_mark plugs.now self }
    {
        Mark {
            differs: plugs.differs(self.place.slot, self.place.subslot),
            is_touched: plugs.is_touched(self.place.slot, self.place.subslot),
            ..self
        }
    }

    /// The mark after something was pulled or plugged at these places: begun again, if its place is affected.
    fn renewed(self, affected: Affected, begin_bad: bool) -> Mark
        ensures { result ≡ renewed_mark affected begin_bad self }
    {
        if !affected.covers(self.place.slot, self.place.subslot) {
            return self;
        }
        Mark {
            is_awaited: begin_bad && self.place.size > 1,
            is_bad: false,
            ..self
        }
    }
}

/// Replaces the marks by the first ones of these places.
pub(crate) fn begin(
    marks: &mut ArrayVec<Mark, 128>,
    places: &[Place],
    rows: &DiffRows,
    starting: Starting<'_>,
)
    requires { length places.now ≤ 128 }
    ensures { marks.new.items
        ≡ map (first_mark (record { begin_bad = starting.entry.begin_bad; is_running = starting.entry.is_running; statuses = starting.entry.statuses.now; units = starting.entry.units; diagnoses = starting.entry.diagnoses.now; number = starting.entry.number }) rows.now) places.now }
{
    marks.clear();
    for place in places {
        marks.push(Mark::first(place, rows, starting));
    }
}

/// Changes the marks of the inputs of a submodule: an input was given, or this status.
pub(crate) fn change(marks: &mut ArrayVec<Mark, 128>, slot: u16, subslot: u16, status: Option<bool>)
    ensures { marks.new.items ≡ marked slot subslot (change_by status) marks.old.items }
{
    let mut next = ArrayVec::new();
    for mark in marks.as_slice() {
        next.push(if mark.is_of(slot, subslot) {
            mark.changed(status)
        } else {
            *mark
        });
    }
    *marks = next;
}

/// Says which marks are of places that differ or are touched now.
pub(crate) fn restate(marks: &mut [Mark], plugs: &Plugs)
    ensures { marks.new ≡ restated_marks plugs.now marks.old }
{
    for mark in marks.iter_mut() {
        *mark = mark.restated(plugs);
    }
}

/// Begins the marks of affected places again: no input was given there, and no status, since the submodule came.
pub(crate) fn renew(marks: &mut [Mark], affected: Affected, begin_bad: bool)
    ensures { marks.new ≡ renewed_marks affected begin_bad marks.old }
{
    for mark in marks.iter_mut() {
        *mark = mark.renewed(affected, begin_bad);
    }
}

/// The IOPS of the inputs of a submodule, by the first of its marks; 0 without a mark.
pub(crate) fn iops_in(marks: &[Mark], slot: u16, subslot: u16) -> u8
    ensures { result ≡ iops_of (mark_at slot subslot marks.now) }
{
    for mark in marks {
        if mark.is_of(slot, subslot) {
            return mark.iops();
        }
    }
    0
}

/// Whether the first input of a submodule is awaited.
pub(crate) fn awaits(marks: &[Mark], slot: u16, subslot: u16) -> bool
    ensures { result ≡ awaits slot subslot marks.now }
{
    for mark in marks {
        if mark.is_of(slot, subslot) {
            return mark.is_awaited;
        }
    }
    false
}
