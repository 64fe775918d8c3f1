//! The records that are written to the station.
ghost use Rattle.std.specs.Prelude.{◌≡◌, ◌≤◌, ◌+◌, ◌++◌, true, length, map};
ghost use Rattle.std.specs.List.{AllByRecursion};
ghost use Rattle.arrayvec.specs.ArrayVec.{array_vec_len};
ghost use Rattle.catalogue.specs.Kept.{AreSlotsShort};
ghost use Rattle.configurator.specs.Few.{are_records_few, are_slots_low};
ghost use Rattle.configurator.specs.Planned.{record_at, records_of};

use arrayvec::ArrayVec;
use catalogue::{RecordItem, SlotItem};
use plans::PlanRecord;

/// A copy of at most 64 octets.
fn octets_of(octets: &[u8]) -> ArrayVec<u8, 64>
    requires { length octets.now ≤ 64 }
    ensures { result.items ≡ octets.now }
{
    let mut copy = ArrayVec::new();
    copy.try_extend_from_slice(octets).unwrap();
    copy
}

/// A record that is written to a slot.
fn record_at(slot: u16, item: &RecordItem) -> PlanRecord
    requires { length item.now.octets ≤ 64 }
    ensures { result ≡ record_at slot item.now }
{
    PlanRecord {
        slot,
        subslot: item.subslot,
        index: item.index,
        data: octets_of(item.octets.as_slice()),
    }
}

/// Appends the records of a slot. The list must have room for them.
fn push_records(records: &mut ArrayVec<PlanRecord, 32>, slot: u16, items: &[RecordItem])
    requires short { AllByRecursion (λ item. length item.octets ≤ 64) items.now }
    requires room { array_vec_len records.old + length items.now ≤ 32 }
    ensures items { records.new.items ≡ records.old.items ++ map (record_at slot) items.now }
    ensures len { array_vec_len records.new ≡ array_vec_len records.old + length items.now }
{
    for item in items {
        records.push(record_at(slot, item));
    }
}

/// All records, in the order of the text. There must be at most 32.
pub(crate) fn records_of(slots: &[SlotItem]) -> ArrayVec<PlanRecord, 32>
    requires low { are_slots_low slots.now ≡ true }
    requires short { AreSlotsShort slots.now }
    requires few { are_records_few slots.now ≡ true }
    ensures { result.items ≡ records_of slots.now }
{
    let mut records = ArrayVec::new();
    for entry in slots {
        push_records(&mut records, entry.slot as u16, entry.records.as_slice());
    }
    records
}
