//! The records that the application answers, as the station names them.
ghost use Rattle.std.specs.Prelude.{◌≡◌, ◌≤◌, IfSome, [], length};
ghost use Rattle.std.specs.List.{list_any};
ghost use Rattle.asked_records.specs.Names.{IsName, fault_beside, is_named, name_number, named_at, named_of, own_fault};

use arrayvec::ArrayVec;
use std::marker::Model;

/// The most records of the application.
const MOST_NAMES: usize = 16;
/// The greatest index of a record of the application.
const LAST_INDEX: u16 = 0x7FFF;
/// The most octets of a record.
const MOST_OCTETS: u16 = 1308;

/// A record that the application answers.
#[derive(Clone, Copy, Debug, Default, PartialEq, Eq)]
pub struct RecordName {
    /// SlotNumber of its submodule.
    pub slot: u16,
    /// SubslotNumber of its submodule.
    pub subslot: u16,
    /// Index of the record, at most 0x7FFF.
    pub index: u16,
    /// Its greatest length, 1 to 1,308 octets.
    pub greatest_length: u16,
    /// Whether it can be read.
    pub is_readable: bool,
    /// Whether it can be written.
    pub is_writable: bool,
}

/// Why a list of records is refused. The first fault in the order of the list is returned; a record has the first of its
/// faults in this order.
#[derive(Clone, Copy, Debug, PartialEq, Eq)]
pub enum NameFault {
    /// There are more than 16 records.
    TooMany,
    /// An index is 0x8000 or above.
    Index,
    /// A greatest length is 0 or above 1,308.
    Length,
    /// A record can be neither read nor written.
    Access,
    /// Two records have the same slot, subslot and index.
    Twice,
}

impl NameFault {
    /// The number of the fault, from 1.
    pub fn number(self) -> u8
        ensures { result ≡ name_number self }
    {
        match self {
            NameFault::TooMany => 1,
            NameFault::Index => 2,
            NameFault::Length => 3,
            NameFault::Access => 4,
            NameFault::Twice => 5,
        }
    }
}

impl RecordName {
    /// Whether it is the record with this index in this slot and subslot.
    pub fn is_for(&self, slot: u16, subslot: u16, index: u16) -> bool
        ensures { result ≡ is_named slot subslot index self.now }
    {
        self.slot == slot && self.subslot == subslot && self.index == index
    }

    /// The first of its faults, without those of the list.
    fn own_fault(&self) -> Option<NameFault>
        ensures { result ≡ own_fault self.now }
    {
        if self.index > LAST_INDEX {
            return Some(NameFault::Index);
        }
        if self.greatest_length == 0 || self.greatest_length > MOST_OCTETS {
            return Some(NameFault::Length);
        }
        if !self.is_readable && !self.is_writable {
            return Some(NameFault::Access);
        }
        None
    }
}

/// The records that the application answers: at most 16, each without a fault.
#[derive(Drop)]
pub struct NamedRecords {
    names: ArrayVec<RecordName, 16>,
}

// Its model: the records, in the order in which they were given.
impl Model for NamedRecords {
    ghost use Rattle.std.specs.Prelude.{◌≡◌, List, [], None};
    ghost use Rattle.asked_records.specs.declared.names.RecordName.{RecordName};
    ghost use Rattle.asked_records.specs.Names.{first_fault};

    ghost Value = { List RecordName };

    ghost view = { λ named. named.names.items };

    ghost invariant = { λ named. first_fault [] named.names.items ≡ None };
}

impl NamedRecords {
    /// No records.
    pub fn new() -> NamedRecords
        ensures { result ≡ [] }
    {
        NamedRecords {
            names: ArrayVec::new(),
        }
    }

    /// These records, or the first fault.
    pub fn of(names: &[RecordName]) -> Result<NamedRecords, NameFault>
        ensures { result ≡ named_of names.now }
    {
        if names.len() > MOST_NAMES {
            return Err(NameFault::TooMany);
        }
        let mut named = ArrayVec::new();
        for name in names {
            if let Some(fault) = fault_beside(named.as_slice(), name) {
                return Err(fault);
            }
            named.push(*name);
        }
        Ok(NamedRecords { names: named })
    }

    /// The records, in the order in which they were given.
    pub fn as_slice(&self) -> &[RecordName]
        ensures value { result.now ≡ self.now }
        ensures few { length result.now ≤ 16 }
    {
        self.names.as_slice()
    }

    /// The record with this index in this slot and subslot, if there is one.
    pub fn named_at(&self, slot: u16, subslot: u16, index: u16) -> Option<RecordName>
        ensures value { result ≡ named_at slot subslot index self.now }
        ensures valid { IfSome result IsName }
    {
        find_name(self.names.as_slice(), slot, subslot, index)
    }
}

/// The first fault of a record that comes after these.
fn fault_beside(earlier: &[RecordName], name: &RecordName) -> Option<NameFault>
    ensures { result ≡ fault_beside earlier.now name.now }
{
    if let Some(fault) = name.own_fault() {
        return Some(fault);
    }
    if is_any(earlier, name) {
        return Some(NameFault::Twice);
    }
    None
}

/// Whether one of these records has the place and the index of another.
fn is_any(names: &[RecordName], other: &RecordName) -> bool
    ensures { result ≡ list_any (is_named other.now.slot other.now.subslot other.now.index) names.now }
{
    names
        .iter()
        .any(|name| name.is_for(other.slot, other.subslot, other.index))
}

/// The first of the records with this index in this slot and subslot.
fn find_name(names: &[RecordName], slot: u16, subslot: u16, index: u16) -> Option<RecordName>
    ensures { result ≡ named_at slot subslot index names.now }
{
    for name in names {
        if name.is_for(slot, subslot, index) {
            return Some(*name);
        }
    }
    None
}
