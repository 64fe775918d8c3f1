//! The parameter records that are passed on and not kept.
ghost use Rattle.std.specs.Prelude.{◌≡◌, ◌≤◌, length};
ghost use Rattle.relations.specs.Passed.{none_passed, passed_more};

use arrayvec::ArrayVec;
use records::TakenRecord;
use std::marker::Model;

/// The number of records that wait for the application: as many as one Write can have.
const MOST: usize = 16;

/// The parameter records of a relation that are passed on: the last 16, and how many there were.
#[derive(Drop)]
pub(crate) struct PassedRecords {
    last: ArrayVec<TakenRecord, MOST>,
    count: u32,
}

// Its model: the records, the oldest first, and their number.
impl Model for PassedRecords {
    ghost use Rattle.relations.specs.Passed.{PassedOn};

    ghost Value = { PassedOn };

    ghost view = { λ all. record { last = all.last.items; count = all.count } };
}

impl PassedRecords {
    /// No records.
    pub(crate) fn new() -> PassedRecords
        ensures { result ≡ none_passed }
    {
        PassedRecords {
            last: ArrayVec::new(),
            count: 0,
        }
    }

    /// Forgets all records.
    pub(crate) fn clear(&mut self)
        ensures { self.new ≡ none_passed }
    {
        self.last.clear();
        self.count = 0;
    }

    /// Passes on a record. If 16 wait, the oldest one is dropped.
    pub(crate) fn add(&mut self, parameter: TakenRecord)
        ensures { self.new ≡ passed_more parameter self.old }
    {
        if self.last.is_full() {
            self.last.remove(0);
        }
        self.last.push(parameter);
        self.count = self.count.wrapping_add(1);
    }

    /// The last records, at most 16, the oldest first.
    pub(crate) fn as_slice(&self) -> &[TakenRecord]
        ensures value { result.now ≡ self.now.last }
        ensures few { length result.now ≤ 16 }
    {
        self.last.as_slice()
    }

    /// How many records were passed on, modulo 2^32.
    pub(crate) fn count(&self) -> u32
        ensures { result ≡ self.now.count }
    {
        self.count
    }
}
