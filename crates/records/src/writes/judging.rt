//! The checks of a Write.
ghost use Rattle.std.specs.Prelude.{◌≡◌, ◌≤◌, IfOk, length};
ghost use Rattle.std.specs.Option.{option_map};
ghost use Rattle.records.specs.writes.Handled.{effect_of, is_known, handled_request, kept, stored, targeted, written};
ghost use Rattle.records.specs.writes.Asked.{IsShort, handled_writing, several_of, writing_of};
ghost use Rattle.records.specs.writes.Several.{most_entries};

use crate::writes::entries::is_several;
use crate::writes::{Effect, Entries, TakenRecord, Write, Writing};
use crate::{CallFault, check_place, check_relation, parameter_length, single_block};
use arrayvec::ArrayVec;
use block_codec::{Block, BlockType, IodWriteReq};
use im_records::{is_read_only, is_writable, read_write};
use pn_values::{Command, Real};
use wire::Uuid;

/// Returns what a Write asks for, or why it is refused. `standing` is the ARUUID of the active relation, if there is one.
/// The first fault in the order of the checks is reported.
#[tactic(auto, unfolding(crate::specs::writes::Asked::writing_of))]
pub fn judge_write<'a>(
    blocks: &'a [u8],
    standing: Option<&Uuid>,
    real: &Real,
) -> Result<Writing<'a>, CallFault>
    // The result is what the definition `writing_of` gives.
    ensures value { result ≡ writing_of (option_map (λ uuid. uuid.now) standing.entry) real.now blocks.now }
    // A list has at most 16 records.
    ensures few { IfOk result IsShort }
{
    let (block, behind) = single_block(blocks, BlockType::IodWriteReq)?;
    match block {
        Block::IodWriteReq(request) => judge_request(standing, real, &request, behind),
        _ => Err(CallFault::BlockForm),
    }
}

/// Returns what a request asks for. `behind` is the octets after its header.
fn judge_request<'a>(
    standing: Option<&Uuid>,
    real: &Real,
    request: &IodWriteReq,
    behind: &'a [u8],
) -> Result<Writing<'a>, CallFault>
    ensures value { result ≡ handled_writing (option_map (λ uuid. uuid.now) standing.entry) real.now request.now behind.now }
    ensures few { IfOk result IsShort }
{
    if is_several(request) {
        let entries = judge_list(standing, request, behind)?;
        return Ok(Writing::Each(*request, entries));
    }
    match judge_record(standing, real, request, behind) {
        Ok(write) => Ok(Writing::One(write)),
        Err(fault) => Err(fault),
    }
}

/// Returns the records of a list. `behind` is the octets after the header of its request.
#[tactic(auto, unfolding(crate::specs::writes::Asked::several_of))]
fn judge_list<'a>(
    standing: Option<&Uuid>,
    request: &IodWriteReq,
    behind: &'a [u8],
) -> Result<Entries<'a>, CallFault>
    ensures value { result ≡ several_of (option_map (λ uuid. uuid.now) standing.entry) request.now behind.now }
    ensures few { IfOk result (λ entries. length entries ≤ most_entries) }
{
    let header = &request.header;
    check_relation(standing, &header.ar_uuid)?;
    let size = header.record_data_length as usize;
    if size > behind.len() {
        return Err(CallFault::WriteLength);
    }
    match Entries::read(&behind[..size]) {
        Some(entries) => Ok(entries),
        None => Err(CallFault::WriteLength),
    }
}

/// Returns what a request for one record asks for. `behind` is the octets after its header.
#[tactic(auto, unfolding(crate::specs::writes::Handled::handled_request))]
pub fn judge_record(
    standing: Option<&Uuid>,
    real: &Real,
    request: &IodWriteReq,
    behind: &[u8],
) -> Result<Write, CallFault>
    ensures { result ≡ handled_request (option_map (λ uuid. uuid.now) standing.entry) real.now request.now behind.now }
{
    // The relation is checked first: a caller without the relation learns nothing about records.
    check_target(standing, real, request)?;
    match check_record(real, request, behind) {
        Ok(effect) => Ok(Write {
            request: *request,
            effect,
        }),
        Err(fault) => Err(fault),
    }
}

/// Checks that a request names the active relation, API 0 and, if its index needs one, a submodule that is plugged.
#[tactic(auto, unfolding(crate::specs::writes::Handled::targeted))]
fn check_target(
    standing: Option<&Uuid>,
    real: &Real,
    request: &IodWriteReq,
) -> Result<(), CallFault>
    ensures { result ≡ targeted (option_map (λ uuid. uuid.now) standing.entry) real.now request.now }
{
    check_relation(standing, &request.header.ar_uuid)?;
    check_place(
        real,
        request.header.api,
        request.header.slot_number,
        request.header.subslot_number,
        request.header.index,
    )
}

/// Returns what a request with a valid place asks for. `behind` is the octets after its header.
#[tactic(auto, unfolding(crate::specs::writes::Handled::written))]
fn check_record(real: &Real, request: &IodWriteReq, behind: &[u8]) -> Result<Effect, CallFault>
    ensures { result ≡ written real.now request.now behind.now }
{
    let size = request.header.record_data_length as usize;
    if !is_known(real, request) {
        return Err(CallFault::Index);
    }
    if is_read_only(request.header.index) {
        return Err(CallFault::Access);
    }
    // This comes after the checks of index and access, so that a wrong record is reported as such even if its octets are
    // missing.
    if behind.len() < size {
        return Err(CallFault::WriteLength);
    }
    match effect_of(real, request, &behind[..size]) {
        Some(effect) => Ok(effect),
        None => Err(CallFault::WriteLength),
    }
}

/// Whether there is a record with this index at the valid place of the request.
fn is_known(real: &Real, request: &IodWriteReq) -> bool
    ensures { result ≡ is_known real.now request.now }
{
    let (slot, subslot, index) = (
        request.header.slot_number,
        request.header.subslot_number,
        request.header.index,
    );
    is_read_only(index)
        || is_writable(index, slot, subslot)
        || parameter_length(real, slot, subslot, index).is_some()
}

/// What a request with this record asks for, or `None` if the record is not whole.
fn effect_of(real: &Real, request: &IodWriteReq, octets: &[u8]) -> Option<Effect>
    ensures { result ≡ effect_of real.now request.now octets.now }
{
    let header = &request.header;
    if is_writable(header.index, header.slot_number, header.subslot_number) {
        stored(request.header.index, octets)
    } else {
        kept(real, request, octets)
    }
}

/// The I&M text of a record, or `None` if the record is not whole.
fn stored(index: u16, octets: &[u8]) -> Option<Effect>
    ensures { result ≡ stored index octets.now }
{
    match read_write(index, octets) {
        Ok(Command::SetIm(value)) => Some(Effect::Stores(value)),
        _ => None,
    }
}

/// The parameter record to store, or `None` if it does not have the length that the submodule requires.
fn kept(real: &Real, request: &IodWriteReq, octets: &[u8]) -> Option<Effect>
    ensures { result ≡ kept real.now request.now octets.now }
{
    let (slot, subslot, index) = (
        request.header.slot_number,
        request.header.subslot_number,
        request.header.index,
    );
    let length = parameter_length(real, slot, subslot, index)?;
    if octets.len() != length as usize {
        return None;
    }
    let mut value = ArrayVec::new();
    match value.try_extend_from_slice(octets) {
        Ok(()) => Some(Effect::Keeps(TakenRecord {
            slot,
            subslot,
            index,
            value,
        })),
        Err(_full) => None,
    }
}
