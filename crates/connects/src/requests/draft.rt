//! The blocks that follow the ARBlockReq.
ghost use Rattle.std.specs.Prelude.{◌≡◌, ◌*◌, IfOk, nat_lt};
ghost use Rattle.wire.specs.Codec.{Gives};
ghost use Rattle.wire.specs.Formats.{big_number};
ghost use Rattle.block_codec.specs.Block.{block_of, IsAccepted};
ghost use Rattle.connects.specs.requests.Pieces.{behind, block_in, piece_at, pieces_in};
ghost use Rattle.connects.specs.requests.Handled.{faulty, field_of, has_iocr, is_further, is_short, nothing, well_formed, with_block};
ghost use Rattle.connects.specs.requests.Drafts.{AreAccepted, piece_within, pieces_within, sofar_of};

use crate::requests::expected::{Room, add_modules};
use crate::requests::parts::{AlarmCr, alarm_of};
use block_codec::{
    Block, BlockFault, BlockType, IocrBlockReq, IocrType, read_block, read_expected,
};
use module_diff::Expected;
use records::CallFault;
use wire::u16_at;

/// What was read so far, except for the modules and submodules that are expected.
#[derive(Drop)]
pub(crate) struct Draft<'a> {
    pub(crate) input: Option<IocrBlockReq<'a>>,
    pub(crate) output: Option<IocrBlockReq<'a>>,
    pub(crate) input_first: bool,
    pub(crate) alarm: Option<AlarmCr>,
    pub(crate) has_expected: bool,
}

/// The number of the field that a block's fault is in.
fn field_of(fault: BlockFault) -> u8
    ensures { result ≡ field_of fault }
{
    match fault {
        BlockFault::Version(field) | BlockFault::Field(field) => field,
        // A fault that belongs to no single field is reported as one of BlockLength, field 1, which counts all of them.
        BlockFault::Truncated | BlockFault::Kind | BlockFault::Length | BlockFault::Count => 1,
    }
}

/// The fault of a Connect if one of its blocks, of this BlockType, has this fault.
pub(crate) fn faulty(number: u16, fault: BlockFault) -> CallFault
    ensures { result ≡ faulty number fault }
{
    let field = field_of(fault);
    if number == BlockType::ArBlockReq.number() {
        CallFault::ArField(field)
    } else if number == BlockType::IocrBlockReq.number() {
        CallFault::IocrField(field)
    } else if number == BlockType::AlarmCrBlockReq.number() {
        CallFault::AlarmCrField(field)
    } else {
        CallFault::ExpectedField(field)
    }
}

/// Reads the block at the start of the octets, which has this BlockType. Returns it and the octets after it.
pub(crate) fn block_at(number: u16, bytes: &[u8]) -> Result<(Block<'_>, &[u8]), CallFault>
    ensures block { Gives (λ x. x.0) result (well_formed number (block_in (block_of bytes.now))) }
    ensures behind { IfOk result (λ x. x.1.now ≡ behind (block_of bytes.now)) }
    ensures accepted { IfOk result (λ x. IsAccepted x.0) }
{
    match read_block(bytes) {
        Ok(front) => Ok(front),
        Err(fault) => Err(faulty(number, fault)),
    }
}

/// The same, with room for an ExpectedSubmoduleBlockReq. The room is made once for all blocks: one for each block costs
/// ten times as much.
fn block_within<'a>(
    number: u16,
    bytes: &'a [u8],
    room: &mut Room,
) -> Result<(Block<'a>, &'a [u8]), CallFault>
    requires { big_number 2 bytes.now ≡ number }
    ensures block { Gives (λ x. x.0) result (well_formed number (block_in (block_of bytes.now))) }
    ensures behind { IfOk result (λ x. x.1.now ≡ behind (block_of bytes.now)) }
    ensures accepted { IfOk result (λ x. IsAccepted x.0) }
{
    if number != BlockType::ExpectedSubmoduleBlockReq.number() {
        return block_at(number, bytes);
    }
    match read_expected(bytes, &mut room.modules, &mut room.submodules) {
        Ok((block, rest)) => Ok((Block::ExpectedSubmoduleBlockReq(block), rest)),
        Err(fault) => Err(faulty(number, fault)),
    }
}

/// Whether a block of this type may follow the ARBlockReq.
fn is_further(number: u16) -> bool
    ensures { result ≡ is_further number }
{
    number == BlockType::IocrBlockReq.number()
        || number == BlockType::AlarmCrBlockReq.number()
        || number == BlockType::ExpectedSubmoduleBlockReq.number()
}

/// Whether an IOCRBlockReq asks for a smaller interval than this.
#[tactic(auto, using(crate::proofs::RequestsAccepted::interval_fits))]
fn is_too_short(block: &IocrBlockReq<'_>, smallest: u32) -> bool
    ensures { result ≡ nat_lt (block.now.send_clock_factor * block.now.reduction_ratio) smallest }
{
    u32::from(block.send_clock_factor) * u32::from(block.reduction_ratio) < smallest
}

/// Whether a block asks for a smaller interval than this.
fn is_short(block: &Block<'_>, smallest: u32) -> bool
    ensures { result ≡ is_short smallest block.now }
{
    match block {
        Block::IocrBlockReq(block) => is_too_short(block, smallest),
        _ => false,
    }
}

impl<'a> Draft<'a> {
    /// An empty draft.
    pub(crate) fn new() -> Draft<'a>
        ensures nothing { (expected : Expected) → sofar_of result expected ≡ record nothing { expected = expected } }
        ensures accepted { AreAccepted result }
    {
        Draft {
            input: None,
            output: None,
            input_first: false,
            alarm: None,
            has_expected: false,
        }
    }

    /// Whether there was an IOCRBlockReq of this type.
    fn has_iocr(&self, iocr_type: IocrType) -> bool
        ensures { (expected : Expected) → result ≡ has_iocr (sofar_of self.now expected) iocr_type }
    {
        match iocr_type {
            IocrType::Input => self.input.is_some(),
            IocrType::Output => self.output.is_some(),
        }
    }

    /// Adds one more IOCRBlockReq. Each type may occur once.
    fn add_iocr(&mut self, block: IocrBlockReq<'a>) -> Result<(), CallFault>
        ensures added { (expected : Expected) →
            Gives (λ _. sofar_of self.new expected) result (with_block (sofar_of self.old expected) (Block.IocrBlockReq block.entry)) }
        ensures accepted { AreAccepted self.old → IsAccepted (Block.IocrBlockReq block.entry) → AreAccepted self.new }
    {
        // One input and one output: this device supports no multicast and no further data in a relation.
        if self.has_iocr(block.iocr_type) {
            return Err(CallFault::IocrField(4));
        }
        match block.iocr_type {
            IocrType::Input => {
                self.input_first = self.output.is_none();
                self.input = Some(block);
            }
            IocrType::Output => self.output = Some(block),
        }
        Ok(())
    }

    /// Adds one more block that was read without a fault.
    #[tactic(auto, using(crate::proofs::RequestsAccepted::alarm_in_range))]
    fn add_block(
        &mut self,
        block: Block<'a>,
        room: &mut Room,
        expected: &mut Expected,
    ) -> Result<(), CallFault>
        ensures added { Gives (λ _. sofar_of self.new expected.new) result (with_block (sofar_of self.old expected.old) block.entry) }
        ensures accepted { AreAccepted self.old → IsAccepted block.entry → AreAccepted self.new }
    {
        match block {
            Block::IocrBlockReq(block) => self.add_iocr(block),
            Block::AlarmCrBlockReq(block) => {
                self.alarm = Some(alarm_of(&block));
                Ok(())
            }
            Block::ExpectedSubmoduleBlockReq(block) => {
                self.has_expected = true;
                add_modules(&block, room, expected)
            }
            _ => Err(CallFault::BlockType),
        }
    }

    /// Adds the block at the start of the octets, if it does not ask for a smaller interval than `smallest`. Returns the
    /// octets after it.
    #[tactic(auto, unfolding(crate::specs::requests::Handled::with_piece))]
    fn add_piece(
        &mut self,
        smallest: u32,
        bytes: &'a [u8],
        room: &mut Room,
        expected: &mut Expected,
    ) -> Result<&'a [u8], CallFault>
        ensures piece { Gives (λ _. sofar_of self.new expected.new) result
            (piece_within smallest (sofar_of self.old expected.old) (piece_at bytes.now)) }
        ensures behind { IfOk result (λ rest. rest.now ≡ behind (block_of bytes.now)) }
        ensures accepted { AreAccepted self.old → AreAccepted self.new }
    {
        if bytes.len() < 4 {
            return Err(CallFault::BlockHeader);
        }
        let (number, _fields) = u16_at(bytes, CallFault::BlockHeader)?;
        if !is_further(number) {
            return Err(CallFault::BlockType);
        }
        // This is checked before the block is read: a second one is refused whatever it contains.
        if number == BlockType::AlarmCrBlockReq.number() && self.alarm.is_some() {
            return Err(CallFault::AlarmCrRepeated);
        }
        let (block, rest) = block_within(number, bytes, room)?;
        let is_refused = is_short(&block, smallest);
        self.add_block(block, room, expected)?;
        // This is checked last: each other fault of the block comes first.
        if is_refused {
            return Err(CallFault::IocrField(10));
        }
        Ok(rest)
    }

    /// Adds all blocks in the octets, at most `most`, if none asks for a smaller interval than `smallest`.
    pub(crate) fn add_pieces(
        &mut self,
        smallest: u32,
        bytes: &'a [u8],
        most: usize,
        room: &mut Room,
        expected: &mut Expected,
    ) -> Result<(), CallFault>
        ensures pieces { Gives (λ _. sofar_of self.new expected.new) result
            (pieces_within smallest (sofar_of self.old expected.old) (pieces_in most bytes.now)) }
        ensures accepted { AreAccepted self.old → AreAccepted self.new }
    {
        let mut rest = bytes;
        for _index in 0..most {
            if rest.is_empty() {
                return Ok(());
            }
            rest = self.add_piece(smallest, rest, room, expected)?;
        }
        Ok(())
    }
}
