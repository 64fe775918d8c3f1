//! DiagnosisData, the record that tells what exists.
ghost use Rattle.std.specs.Prelude.{◌≡◌, ◌++◌, ◌+◌, ◌*◌, ◌≤◌, [], length, take};
ghost use Rattle.std.specs.List.{filter};
ghost use Rattle.arrayvec.specs.ArrayVec.{array_vec_len};
ghost use Rattle.diagnosis.specs.Existing.{is_at};
ghost use Rattle.diagnosis.specs.Record.{channels_bytes, block_bytes, head_bytes, record_bytes, slot_bytes, submodule_bytes};

use crate::{Change, Diagnoses, Diagnosis, Places};
use arrayvec::ArrayVec;
use pn_values::{Real, RealSubmodule};
use wire::{append, at_most};

/// Replaces the octets by DiagnosisData: a block for each submodule that is one of these places and has a diagnosis, in the
/// order of the plugged modules. What exceeds the room is left out.
pub fn put_diagnosis_data<P: Places>(
    octets: &mut ArrayVec<u8, 1308>,
    diagnoses: &Diagnoses,
    real: &Real,
    places: &P,
)
    ensures { octets.new.items ≡ record_bytes (P.has_of places.now) diagnoses.now real.now.modules.items }
{
    octets.clear();
    for entry in real.modules.as_slice() {
        put_slot(
            octets,
            diagnoses,
            places,
            entry.slot,
            entry.submodules.as_slice(),
        );
    }
}

/// Appends the blocks of the submodules of a slot.
fn put_slot<P: Places>(
    octets: &mut ArrayVec<u8, 1308>,
    diagnoses: &Diagnoses,
    places: &P,
    slot: u16,
    parts: &[RealSubmodule],
)
    requires few { length octets.old.items ≤ 1308 }
    ensures items { octets.new.items ≡ take 1308 (octets.old.items ++ slot_bytes (P.has_of places.now) diagnoses.now slot parts.now) }
    ensures few { length octets.new.items ≤ 1308 }
{
    for part in parts {
        put_submodule(octets, diagnoses, places, slot, part.subslot);
    }
}

/// Appends the block of a submodule, if it is one of these places and has a diagnosis.
fn put_submodule<P: Places>(
    octets: &mut ArrayVec<u8, 1308>,
    diagnoses: &Diagnoses,
    places: &P,
    slot: u16,
    subslot: u16,
)
    requires few { length octets.old.items ≤ 1308 }
    ensures items { octets.new.items ≡ take 1308 (octets.old.items ++ submodule_bytes (P.has_of places.now) diagnoses.now slot subslot) }
    ensures few { length octets.new.items ≤ 1308 }
{
    if places.has(slot, subslot) {
        let mut own = ArrayVec::new();
        fill_own(&mut own, diagnoses, slot, subslot);
        put_block(octets, slot, subslot, own.as_slice());
    }
}

/// Fills an empty list with the diagnoses of a submodule.
fn fill_own(own: &mut ArrayVec<Diagnosis, 32>, diagnoses: &Diagnoses, slot: u16, subslot: u16)
    requires { own.old.items ≡ [] }
    ensures { own.new.items ≡ filter (is_at slot subslot) diagnoses.now }
{
    for diagnosis in diagnoses.as_slice() {
        if diagnosis.is_at(slot, subslot) {
            own.push(*diagnosis);
        }
    }
}

/// Appends the block of a submodule with these diagnoses, if there are any.
fn put_block(octets: &mut ArrayVec<u8, 1308>, slot: u16, subslot: u16, own: &[Diagnosis])
    requires own { length own.now ≤ 32 }
    requires few { length octets.old.items ≤ 1308 }
    ensures items { octets.new.items ≡ take 1308 (octets.old.items ++ block_bytes slot subslot own.now) }
    ensures few { length octets.new.items ≤ 1308 }
{
    if own.is_empty() {
        return;
    }
    append_cut(octets, &head_octets(slot, subslot, own.len() as u16));
    put_channels(octets, own);
}

/// Appends ChannelNumber, ChannelProperties and ChannelErrorType of each.
fn put_channels(octets: &mut ArrayVec<u8, 1308>, own: &[Diagnosis])
    requires few { length octets.old.items ≤ 1308 }
    ensures items { octets.new.items ≡ take 1308 (octets.old.items ++ channels_bytes own.now) }
    ensures few { length octets.new.items ≤ 1308 }
{
    for diagnosis in own {
        let change = Change {
            diagnosis: *diagnosis,
            appears: true,
        };
        append_cut(octets, &change.octets());
    }
}

/// The octets of a block with this number of diagnoses, up to the first of them.
fn head_octets(slot: u16, subslot: u16, count: u16) -> [u8; 20]
    requires { count ≤ 32 }
    ensures { result ≡ head_bytes slot subslot count }
{
    let length = (16 + 6 * count).to_be_bytes();
    let slot = slot.to_be_bytes();
    let subslot = subslot.to_be_bytes();
    [
        0x00, 0x10, length[0], length[1], 1, 1, 0, 0, 0, 0, slot[0], slot[1], subslot[0],
        subslot[1], 0x80, 0x00, 0x08, 0x00, 0x80, 0x00,
    ]
}

/// Appends as many of these octets as there is room for.
fn append_cut(octets: &mut ArrayVec<u8, 1308>, more: &[u8])
    ensures items { octets.new.items ≡ take 1308 (octets.old.items ++ more.now) }
    ensures few { length octets.new.items ≤ 1308 }
{
    let room = 1308 - octets.len();
    append(octets, at_most(more, room));
}
