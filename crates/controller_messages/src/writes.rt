//! The Writes of a start-up: each carries one record, or a list of them (MultipleWrite; IEC 61158-6-10, 5.2.3).
ghost use Rattle.std.specs.Prelude.{◌≡◌, ◌+◌, ◌*◌, ◌<◌, ◌≤◌, ◌++◌, [], Some, length};
ghost use Rattle.std.specs.List.{slice_get};
ghost use Rattle.arrayvec.specs.ArrayVec.{array_vec_len};
ghost use Rattle.controller_messages.specs.Requests.{blocks_of, entries_bytes, entry_bytes, first_of, group_of, list_blocks, padding_of, per_call, write_blocks, write_count};

use crate::request::Request;
use crate::setup::Setup;
use arrayvec::ArrayVec;
use block_codec::{Block, IodWriteReq, RecordHeader, write_block};
use plans::{Plan, PlanRecord};
use record_blocks::iod_write_req_len;
use wire::append;

/// The index of a Write that carries a list.
const LIST: u16 = 0xE040;

/// The number of records of a list: with their blocks they fit a frame.
const LISTED: u16 = 10;

/// The number of records that a Write carries, but the last one.
fn per_call(plan: &Plan) -> u16
    ensures value { result ≡ per_call plan.now }
    ensures few { result ≤ 10 }
{
    if plan.has_multiple_write() { LISTED } else { 1 }
}

/// The number of Writes of a start-up.
pub fn write_count(plan: &Plan) -> u32
    ensures value { result ≡ write_count plan.now }
    ensures few { result ≤ 32 }
{
    let count = plan.records().len() as u32;
    if plan.has_multiple_write() {
        count.div_ceil(10)
    } else {
        count
    }
}

/// The number of the first record of the Write with this number.
pub fn first_of(plan: &Plan, number: u16) -> u32
    ensures value { result ≡ first_of plan.now number }
    ensures least { number ≤ result }
    ensures few { result ≤ 655350 }
{
    if plan.has_multiple_write() {
        u32::from(number) * 10
    } else {
        u32::from(number)
    }
}

/// The records of the Write with this number, in order: at most ten.
#[tactic(auto, using(crate::proofs::Groups::none_left))]
pub fn group_of(plan: &Plan, number: u16) -> &[PlanRecord]
    // They are those of the definition.
    ensures value { result.now ≡ group_of plan.now number }
    // There are at most ten.
    ensures few { length result.now ≤ 10 }
    // If there is one, the number of the Write is less than 32.
    ensures within { 0 < length result.now → number < 32 }
{
    let records = plan.records();
    let first = first_of(plan, number) as usize;
    if first >= records.len() {
        return &[];
    }
    let rest = &records[first..];
    let count = (per_call(plan) as usize).min(rest.len());
    &rest[..count]
}

/// Appends the block of a Write, and the record after it. There must be room.
#[tactic(auto, unfolding(block_codec::specs::Block::block_size, block_codec::specs::Block::fields_of, wire::specs::blocks::Fields::body, wire::specs::blocks::Fields::version))]
fn put_record(setup: &Setup, number: u16, entry: &PlanRecord, blocks: &mut ArrayVec<u8, 1372>)
    requires few { number < 65535 }
    requires room { array_vec_len blocks.old + 128 ≤ 1372 }
    ensures items { blocks.new.items ≡ blocks.old.items ++ write_blocks setup.now number (Some entry.now) }
    ensures len { array_vec_len blocks.new ≡ array_vec_len blocks.old + 64 + length entry.now.data.items }
    ensures short { length entry.now.data.items ≤ 64 }
{
    let octets = entry.data.as_slice();
    let block = IodWriteReq {
        header: RecordHeader {
            // SeqNumber of a Write counts within the relation, and the Connect has 0.
            seq_number: number + 1,
            ar_uuid: setup.ar,
            api: 0,
            slot_number: entry.slot,
            subslot_number: entry.subslot,
            index: entry.index,
            record_data_length: octets.len() as u32,
        },
    };
    // The function that counts its octets guarantees that there is room for them.
    let _size = iod_write_req_len(&block);
    write_block(blocks, &Block::IodWriteReq(block));
    append(blocks, octets);
}

/// Appends the zeros after a record of this many octets. There must be room.
fn put_padding(size: usize, blocks: &mut ArrayVec<u8, 1372>)
    requires short { size ≤ 64 }
    requires room { array_vec_len blocks.old + 3 ≤ 1372 }
    ensures items { blocks.new.items ≡ blocks.old.items ++ padding_of size }
    ensures len { array_vec_len blocks.new + size ≤ array_vec_len blocks.old + 64 }
{
    let zeros = [0; 3];
    append(blocks, &zeros[..size.div_ceil(4) * 4 - size]);
}

/// Appends a record of a list: its block, its octets, and the padding. There must be room.
fn put_entry(setup: &Setup, number: u16, entry: &PlanRecord, blocks: &mut ArrayVec<u8, 1372>)
    requires few { number < 65535 }
    requires room { array_vec_len blocks.old + 128 ≤ 1280 }
    ensures items { blocks.new.items ≡ blocks.old.items ++ entry_bytes setup.now number entry.now }
    ensures len { array_vec_len blocks.new ≤ array_vec_len blocks.old + 128 }
{
    put_record(setup, number, entry, blocks);
    put_padding(entry.data.len(), blocks);
}

/// Writes the records of a list into an empty list of octets.
fn put_entries(setup: &Setup, number: u16, group: &[PlanRecord], blocks: &mut ArrayVec<u8, 1372>)
    requires number { number < 65535 }
    requires few { length group.now ≤ 10 }
    requires empty { blocks.old.items ≡ [] }
    ensures items { blocks.new.items ≡ entries_bytes setup.now number group.now }
    ensures len { array_vec_len blocks.new ≤ 1280 }
{
    for entry in group {
        put_entry(setup, number, entry, blocks);
    }
}

/// Writes the block of a list and its records into an empty list of octets; nothing if there are no records.
#[inline(never)]
#[tactic(auto, unfolding(block_codec::specs::Block::block_size, block_codec::specs::Block::fields_of, wire::specs::blocks::Fields::body, wire::specs::blocks::Fields::version))]
fn put_list(setup: &Setup, number: u16, group: &[PlanRecord], blocks: &mut ArrayVec<u8, 1372>)
    requires number { 0 < length group.now → number < 32 }
    requires few { length group.now ≤ 10 }
    requires empty { blocks.old.items ≡ [] }
    ensures { blocks.new.items ≡ list_blocks setup.now number group.now }
{
    if group.is_empty() {
        return;
    }
    let mut entries = ArrayVec::new();
    put_entries(setup, number, group, &mut entries);
    let block = IodWriteReq {
        header: RecordHeader {
            seq_number: number + 1,
            ar_uuid: setup.ar,
            // A list is not at one place.
            api: u32::MAX,
            slot_number: u16::MAX,
            subslot_number: u16::MAX,
            index: LIST,
            record_data_length: entries.len() as u32,
        },
    };
    // The function that counts its octets guarantees that there is room for them.
    let _size = iod_write_req_len(&block);
    write_block(blocks, &Block::IodWriteReq(block));
    append(blocks, entries.as_slice());
}

/// Writes the blocks of a Write into an empty list of octets, if the plan has its records.
#[inline(never)]
pub(crate) fn put_write(setup: &Setup, number: u16, blocks: &mut ArrayVec<u8, 1372>)
    requires empty { blocks.old.items ≡ [] }
    ensures { blocks.new.items ≡ blocks_of setup.now (Request.Write number) }
{
    if setup.plan.has_multiple_write() {
        put_list(setup, number, group_of(&setup.plan, number), blocks);
        return;
    }
    if let Some(entry) = setup.plan.records().get(number as usize) {
        put_record(setup, number, entry, blocks);
    }
}
