//! The parameter records that a relation has accepted.
ghost use Rattle.std.specs.Prelude.{◌≡◌, [], IfErr, IfOk, Err, Ok};
ghost use Rattle.records.specs.writes.Taken.{forgotten_at, is_at, keep_of};

use crate::CallFault;
use arrayvec::ArrayVec;
use std::marker::Model;

/// A parameter record that was written.
#[derive(Default, Drop)]
pub struct TakenRecord {
    /// SlotNumber of the submodule.
    pub slot: u16,
    /// SubslotNumber of the submodule.
    pub subslot: u16,
    /// Index of the record.
    pub index: u16,
    /// Its octets: as many as the submodule requires.
    pub value: ArrayVec<u8, 64>,
}

impl TakenRecord {
    /// Whether it is of the submodule in this slot and subslot.
    fn is_at(&self, slot: u16, subslot: u16) -> bool
        ensures { result ≡ is_at slot subslot self.now }
    {
        self.slot == slot && self.subslot == subslot
    }
}

/// The parameter records that a relation has accepted, in their order: at most 64. A record that is written again is
/// listed again.
#[derive(Drop)]
pub struct TakenRecords {
    records: ArrayVec<TakenRecord, 64>,
}

impl Model for TakenRecords {
    ghost use Rattle.std.specs.Prelude.{List};
    ghost use Rattle.records.specs.declared.writes.taken.TakenRecord.{TakenRecord};

    ghost Value = { List TakenRecord };

    ghost view = { λ all. all.records.items };
}

impl TakenRecords {
    /// An empty list.
    pub fn new() -> Self
        ensures { result ≡ [] }
    {
        TakenRecords {
            records: ArrayVec::new(),
        }
    }

    /// Removes all records.
    pub fn clear(&mut self)
        ensures { self.new ≡ [] }
    {
        self.records.clear();
    }

    /// Appends a record. Fails with TooManyRecords if there are 64 already.
    #[tactic(auto, unfolding(crate::specs::writes::Taken::keep_of))]
    pub fn keep(&mut self, taken: TakenRecord) -> Result<(), CallFault>
        // If the call succeeds, the record is appended to the others.
        ensures kept { IfOk result (λ _. keep_of taken self.old ≡ Ok self.new) }
        // If the call is refused, the fault is the one that the definition `keep_of` gives, and the records stay as they
        // were.
        ensures refused { IfErr result (λ fault. (keep_of taken self.old ≡ Err fault) × (self.new ≡ self.old)) }
    {
        if self.records.is_full() {
            return Err(CallFault::TooManyRecords);
        }
        // This also holds if the same record is in the list: a parameter may be written twice, and both are listed in
        // their order.
        self.records.push(taken);
        Ok(())
    }

    /// Removes the records of a submodule. The others keep their order.
    pub fn forget_at(&mut self, slot: u16, subslot: u16)
        ensures { self.new ≡ forgotten_at slot subslot self.old }
    {
        self.records.retain(|taken| !taken.is_at(slot, subslot));
    }

    /// The records, in the order in which they were accepted.
    pub fn as_slice(&self) -> &[TakenRecord]
        ensures { result.now ≡ self.now }
    {
        self.records.as_slice()
    }
}
