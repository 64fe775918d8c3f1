//! What a Connect asks for, stored in place.
ghost use Rattle.std.specs.Prelude.{◌≡◌, ℕ, None, Some, Err, IfOk};
ghost use Rattle.wire.specs.Codec.{Gives};
ghost use Rattle.block_codec.specs.Block.{block_of};
ghost use Rattle.connects.specs.requests.Pieces.{behind, piece_at, pieces_in};
ghost use Rattle.connects.specs.requests.Handled.{asked_initiator, asked_uuid, conflict, ar_in, request_with, request_within};
ghost use Rattle.connects.specs.requests.Drafts.{AreAccepted, behind_within, pieces_within, sofar_of};
ghost use Rattle.connects.specs.requests.Request.{IsAlarmCr, IsAr, IsIocr};

use crate::requests::draft::{Draft, block_at};
use crate::requests::expected::{Room, clear, fill_data};
use crate::requests::layouts::fill_layouts;
use crate::requests::parts::{AlarmCr, Ar, Iocr, ar_of};
use arrayvec::ArrayVec;
use block_codec::{Block, BlockType};
use module_diff::Expected;
use pn_values::Mac;
use records::CallFault;
use std::marker::Model;
use wire::{Uuid, u16_at};

/// What a Connect asks for, with each number in the range of its field. It is large and is filled in place.
#[derive(Drop)]
pub struct ConnectRequest {
    ar: Ar,
    input_first: bool,
    input: Iocr,
    output: Iocr,
    alarm: AlarmCr,
    expected: Expected,
}

impl Model for ConnectRequest {
    ghost use Rattle.connects.specs.requests.Request.{Request};

    ghost Value = { Request };

    ghost view = { λ inside. record {
      ar = inside.ar;
      input_first = inside.input_first;
      input = inside.input;
      output = inside.output;
      alarm = inside.alarm;
      expected = inside.expected;
    } };

    ghost use Rattle.connects.specs.requests.Request.{IsRequest};

    ghost invariant = { λ inside. IsRequest (record {
      ar = inside.ar;
      input_first = inside.input_first;
      input = inside.input;
      output = inside.output;
      alarm = inside.alarm;
      expected = inside.expected;
    }) };
}

/// Reads the ARBlockReq, which is the first block. Returns it and the octets after it.
#[tactic(auto, using(crate::proofs::RequestsAccepted::ar_in_range), unfolding(crate::specs::requests::Handled::ar_in))]
fn first_block(bytes: &[u8]) -> Result<(Ar, &[u8]), CallFault>
    ensures ar { Gives (λ x. x.0) result (ar_in (piece_at bytes.now)) }
    ensures accepted { IfOk result (λ x. IsAr x.0) }
    ensures behind { IfOk result (λ x. x.1.now ≡ behind (block_of bytes.now)) }
{
    if bytes.len() < 4 {
        return Err(CallFault::BlockHeader);
    }
    let (number, _fields) = u16_at(bytes, CallFault::BlockHeader)?;
    if number != BlockType::ArBlockReq.number() {
        return Err(CallFault::BlockType);
    }
    let (block, rest) = block_at(number, bytes)?;
    match block {
        Block::ArBlockReq(block) => Ok((ar_of(block), rest)),
        _ => Err(CallFault::BlockType),
    }
}

/// The fault of a Connect that asks for a relation while one exists: the same relation, or another one.
fn conflict(standing: &Uuid, asked: &Uuid) -> CallFault
    ensures { result ≡ conflict standing.now asked.now }
{
    // The same ARUUID means that the Connect was sent twice; another one means a second controller.
    if asked.into_bytes() == standing.into_bytes() {
        CallFault::RelationExists
    } else {
        CallFault::OtherRelationExists
    }
}

/// Why a Connect with these blocks is refused while the relation with this ARUUID exists, whatever the smallest interval
/// is.
pub fn refuse(standing: &Uuid, blocks: &[u8]) -> CallFault
    ensures { (smallest : ℕ) → request_within smallest (Some standing.now) blocks.now ≡ Err result }
{
    if blocks.is_empty() {
        return CallFault::BlockMissing;
    }
    match first_block(blocks) {
        Ok((ar, _others)) => conflict(standing, &ar.uuid),
        Err(fault) => fault,
    }
}

/// The ARUUID of a Connect with these blocks: that of its first block, zeros if that cannot be read.
#[tactic(auto, unfolding(crate::specs::requests::Handled::asked_uuid))]
pub fn asked_uuid(blocks: &[u8]) -> Uuid
    ensures { result ≡ asked_uuid blocks.now }
{
    match first_block(blocks) {
        Ok((ar, _others)) => ar.uuid,
        Err(_) => Uuid::from_bytes([0; 16]),
    }
}

/// Adds all blocks in the octets to an empty draft, at most `most`. The room for the modules and submodules of a block takes seven
/// thousand octets of stack, which are free again when the layouts are checked.
#[inline(never)]
fn add_all<'a>(
    draft: &mut Draft<'a>,
    smallest: u32,
    others: &'a [u8],
    most: usize,
    expected: &mut Expected,
) -> Result<(), CallFault>
    ensures pieces { Gives (λ _. sofar_of draft.new expected.new) result
        (pieces_within smallest (sofar_of draft.old expected.old) (pieces_in most others.now)) }
    ensures accepted { AreAccepted draft.old → AreAccepted draft.new }
{
    let mut room = Room::new();
    draft.add_pieces(smallest, others, most, &mut room, expected)
}

/// CMInitiatorMacAdd of a Connect with these blocks, if its first block can be read.
#[tactic(auto, unfolding(crate::specs::requests::Handled::asked_initiator))]
pub fn asked_initiator(blocks: &[u8]) -> Option<Mac>
    ensures { result ≡ asked_initiator blocks.now }
{
    match first_block(blocks) {
        Ok((ar, _others)) => Some(ar.initiator),
        Err(_) => None,
    }
}

impl ConnectRequest {
    /// An empty request, to be filled by `read`.
    pub fn new() -> ConnectRequest {
        ConnectRequest {
            ar: Ar::blank(),
            input_first: false,
            input: Iocr::blank(),
            output: Iocr::blank(),
            alarm: AlarmCr::blank(),
            expected: Expected {
                modules: ArrayVec::new(),
                submodules: ArrayVec::new(),
            },
        }
    }

    /// Reads what the blocks of a Connect ask for while no relation exists. An IOCRBlockReq with a smaller interval than
    /// `smallest`, in units of 31.25 microseconds, is refused. Returns the first fault in the order of the statuses; after
    /// a fault the stored content must not be used.
    pub fn read(&mut self, smallest: u32, blocks: &[u8]) -> Result<(), CallFault>
        ensures { Gives (λ _. self.new) result (request_within smallest None blocks.now) }
    {
        if blocks.is_empty() {
            return Err(CallFault::BlockMissing);
        }
        match first_block(blocks) {
            Ok((ar, others)) => self.read_others(smallest, ar, others, blocks.len() - 1),
            Err(fault) => Err(fault),
        }
    }

    /// Reads the blocks after the ARBlockReq, at most `most`.
    fn read_others(
        &mut self,
        smallest: u32,
        ar: Ar,
        others: &[u8],
        most: usize,
    ) -> Result<(), CallFault>
        requires { IsAr ar }
        ensures { Gives (λ _. self.new) result (behind_within smallest ar (pieces_in most others.now)) }
    {
        let mut draft = Draft::new();
        clear(&mut self.expected);
        add_all(&mut draft, smallest, others, most, &mut self.expected)?;
        self.finish(ar, &draft)
    }

    /// Stores what was read, if no block is missing and the layouts are valid.
    #[inline(never)]
    #[tactic(auto, using(crate::proofs::RequestsAccepted::iocr_in_range), unfolding(crate::specs::requests::Handled::request_with))]
    fn finish(&mut self, ar: Ar, draft: &Draft) -> Result<(), CallFault>
        requires ar { IsAr ar }
        requires draft { AreAccepted draft.now }
        ensures { Gives (λ _. self.new) result (request_with ar (sofar_of draft.now self.old.expected)) }
    {
        // Missing blocks are checked after all blocks are read: until then any of them may still follow.
        if !draft.has_expected {
            return Err(CallFault::BlockMissing);
        }
        let Some(input) = &draft.input else {
            return Err(CallFault::IocrMissing);
        };
        let Some(output) = &draft.output else {
            return Err(CallFault::IocrMissing);
        };
        let Some(alarm) = draft.alarm else {
            return Err(CallFault::AlarmCrMissing);
        };
        let mut parts = ArrayVec::new();
        fill_data(&mut parts, &self.expected);
        fill_layouts(
            draft.input_first,
            input,
            output,
            parts.as_slice(),
            &mut self.input.layout,
            &mut self.output.layout,
        )?;
        self.ar = ar;
        self.input_first = draft.input_first;
        self.input.fill(input);
        self.output.fill(output);
        self.alarm = alarm;
        Ok(())
    }

    /// The application relation.
    pub fn ar(&self) -> &Ar
        ensures value { result.now ≡ self.now.ar }
        ensures accepted { IsAr result.now }
    {
        &self.ar
    }

    /// Whether the IOCRBlockReq of inputs came before that of outputs.
    pub fn input_first(&self) -> bool
        ensures { result ≡ self.now.input_first }
    {
        self.input_first
    }

    /// The communication relation of inputs, from the device to the controller.
    pub fn input(&self) -> &Iocr
        ensures value { result.now ≡ self.now.input }
        ensures accepted { IsIocr result.now }
    {
        &self.input
    }

    /// The communication relation of outputs, from the controller to the device.
    pub fn output(&self) -> &Iocr
        ensures value { result.now ≡ self.now.output }
        ensures accepted { IsIocr result.now }
    {
        &self.output
    }

    /// The communication relation of alarms.
    pub fn alarm(&self) -> &AlarmCr
        ensures value { result.now ≡ self.now.alarm }
        ensures accepted { IsAlarmCr result.now }
    {
        &self.alarm
    }

    /// The modules and submodules that are expected.
    pub fn expected(&self) -> &Expected
        ensures { result.now ≡ self.now.expected }
    {
        &self.expected
    }
}
