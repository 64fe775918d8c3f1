//! RecordInputDataObjectElement and RecordOutputDataObjectElement.
ghost use Rattle.std.specs.Prelude.{◌≡◌, ◌+◌, ◌*◌, ◌≤◌, ◌++◌, ◌∷◌, [], None, Some, if◌then◌else◌, length};
ghost use Rattle.arrayvec.specs.ArrayVec.{array_vec_len};
ghost use Rattle.wire.specs.Formats.{big_bytes};
ghost use Rattle.device_records.specs.Elements.{input_element, input_of, output_element, output_of, substitute};

use crate::own::Own;
use arrayvec::ArrayVec;
use cyclic_data::{CyclicExchange, PlaceKind, zeros};
use wire::{append, append_u8, append_u16};

/// The status of good data.
const GOOD: u8 = 0x80;

/// Appends the header of a block of version 1.0 with this many octets of fields. There must be room.
pub(crate) fn put_header<const N: usize>(out: &mut ArrayVec<u8, N>, block_type: u16, size: u16)
    requires room { array_vec_len out.old + 6 ≤ N }
    requires few { size ≤ 65533 }
    ensures items { out.new.items ≡ out.old.items ++ big_bytes 2 block_type ++ big_bytes 2 (2 + size) ++ 1 ∷ 0 ∷ [] }
    ensures len { array_vec_len out.new ≡ array_vec_len out.old + 6 }
{
    append_u16(out, block_type);
    append_u16(out, 2 + size);
    append(out, &[1, 0]);
}

/// Puts a RecordInputDataObjectElement into an empty list.
#[tactic(auto, unfolding(crate::specs::Elements::input_element))]
fn put_input_element(out: &mut Own, iocs: u8, value: &[u8], iops: u8)
    requires empty { out.old.items ≡ [] }
    requires short { length value.now ≤ 1440 }
    ensures { out.new.items ≡ input_element iocs value.now iops }
{
    let size = value.len() as u16;
    put_header(out, 0x0015, 6 + size);
    append(out, &[1, iocs, 1, iops]);
    append_u16(out, size);
    append(out, value);
}

/// Appends a SubstituteValue of this many octets of data. There must be room.
#[tactic(auto, unfolding(crate::specs::Elements::substitute))]
fn put_substitute(out: &mut Own, iocs: u8, size: u16)
    requires room { array_vec_len out.old + 10 + size ≤ 2912 }
    requires short { size ≤ 1440 }
    ensures { out.new.items ≡ out.old.items ++ substitute iocs size }
{
    put_header(out, 0x0014, 4 + size);
    append(out, &[0, 0, iocs]);
    append(out, zeros(size as usize));
    append_u8(out, GOOD);
}

/// Puts a RecordOutputDataObjectElement into an empty list.
#[tactic(auto, unfolding(crate::specs::Elements::output_element))]
fn put_output_element(out: &mut Own, iocs: u8, value: &[u8], iops: u8)
    requires empty { out.old.items ≡ [] }
    requires short { length value.now ≤ 1440 }
    ensures { out.new.items ≡ output_element iocs value.now iops }
{
    let size = value.len() as u16;
    put_header(out, 0x0016, 18 + 2 * size);
    append(out, &[0, 0, 1, 1]);
    append_u16(out, size);
    append_u8(out, iocs);
    append(out, value);
    append_u8(out, iops);
    put_substitute(out, iocs, size);
}

/// Puts the record of the input of a submodule into an empty list, and returns whether it has input in the relation.
#[tactic(auto, using(crate::proofs::Cells::input_made))]
pub(crate) fn put_input(out: &mut Own, cyclic: &CyclicExchange, slot: u16, subslot: u16) -> bool
    requires { out.old.items ≡ [] }
    ensures { (if result then Some out.new.items else None) ≡ input_of cyclic.now slot subslot }
{
    let (sent, received) = (cyclic.sent(), cyclic.received());
    let Some(value) = sent.get(slot, subslot) else {
        return false;
    };
    let iops = sent.status(PlaceKind::Data, slot, subslot).unwrap_or(0);
    let iocs = received.status(PlaceKind::Iocs, slot, subslot).unwrap_or(0);
    put_input_element(out, iocs, value, iops);
    true
}

/// Puts the record of the output of a submodule into an empty list, and returns whether it has output in the relation.
#[tactic(auto, using(crate::proofs::Cells::output_made))]
pub(crate) fn put_output(out: &mut Own, cyclic: &CyclicExchange, slot: u16, subslot: u16) -> bool
    requires { out.old.items ≡ [] }
    ensures { (if result then Some out.new.items else None) ≡ output_of cyclic.now slot subslot }
{
    let (sent, received) = (cyclic.sent(), cyclic.received());
    let Some(value) = received.get(slot, subslot) else {
        return false;
    };
    let iops = received.status(PlaceKind::Data, slot, subslot).unwrap_or(0);
    let iocs = sent.status(PlaceKind::Iocs, slot, subslot).unwrap_or(0);
    put_output_element(out, iocs, value, iops);
    true
}
