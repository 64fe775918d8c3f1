// Reading responses.
ghost use Rattle.std.specs.Prelude.{◌≡◌, ◌++◌, ℕ, List, Option, IfOk, Ok};
ghost use Rattle.std.specs.List.{list_all};
ghost use Rattle.std.specs.Option.{option_map};
ghost use Rattle.pn_values.specs.declared.identity.Identity.{Identity};
ghost use Rattle.pn_values.specs.declared.settings.Settings.{Settings};
ghost use Rattle.pn_values.specs.declared.set_item.BlockError.{BlockError};
ghost use Rattle.dcp_core.specs.Request.{Asked};
ghost use Rattle.dcp_core.specs.Response.{Answered};
ghost use Rattle.dcp_core.specs.Identify.{identify_bytes};
ghost use Rattle.dcp_core.specs.Get.{get_bytes};
ghost use Rattle.dcp_core.specs.Set.{set_bytes};
ghost use Rattle.dcp_core.specs.Reported.{IsSent, identify_said, get_said, set_said};
ghost use Rattle.dcp_core.specs.Answered.{answered, answered_block, blocks_left, value_among, is_done, is_positive, is_agreed};
ghost use Rattle.dcp_core.specs.Answer.{outcome_of, outcome_in, value_in, said_by, answer_block, answer_blocks, answered_service};
ghost use Rattle.dcp_core.specs.Answer.{is_supported_by, IsAnswer, answer_of};
ghost use Rattle.dcp_core.specs.Reading.{Gives};

use crate::reading::kind_at;
use crate::{DcpFault, Kind, Outcome, Response, ResponseBlock, ResponseBlocks, Service};
use pn_values::BlockError;
use wire::{skip, split, u8_at, u16_at, u32_at};

/// Reads the response after a FrameID. The octets after it are padding. The first fault is returned: Length, then
/// Service, then Block. The response may have any number of blocks.
pub fn read_answer<'a>(frame_id: u16, bytes: &'a [u8]) -> Result<Response<'a>, DcpFault>
    // On success the octets spell the response that is returned.
    ensures found { IfOk result (λ response. IsAnswer frame_id bytes.now (answered response)) }
    // If the octets spell a response, that response is returned.
    ensures only { (said : Answered) → IsAnswer frame_id bytes.now said → Gives answered result (Ok said) }
    // The same holds with anything after the response.
    ensures behind { (first more : List ℕ) (said : Answered) → IsAnswer frame_id first said → bytes.now ≡ first ++ more →
        Gives answered result (Ok said) }
    // The result is exactly the response of the octets, or their first fault.
    ensures exact { Gives answered result (answer_of frame_id bytes.now) }
    // A response to an Identify that this crate writes is read as what it says.
    ensures identify { (identity : Identity) (settings : Settings) (xid : ℕ) → frame_id ≡ 0xFEFF →
        IsSent xid (identify_bytes identity settings xid) bytes.now
        → Gives answered result (Ok (identify_said identity settings xid)) }
    // A response to a Get that this crate writes is read as what it says.
    ensures get { (identity : Identity) (settings : Settings) (alias : Option (List ℕ)) (request : Asked) → frame_id ≡ 0xFEFD →
        IsSent request.xid (get_bytes identity settings alias request) bytes.now
        → Gives answered result (Ok (get_said identity settings alias request)) }
    // A response to a Set that this crate writes is read as what it says.
    ensures set { (request : Asked) (answers : List BlockError) → frame_id ≡ 0xFEFD →
        IsSent request.xid (set_bytes request answers) bytes.now
        → Gives answered result (Ok (set_said request answers)) }
{
    response_at(frame_id, bytes)
}

#[tactic(auto, unfolding(crate::specs::Answer::answer_of, crate::specs::Answer::answer, crate::specs::Answer::answer_header_and_data, crate::specs::Answer::answer_data))]
fn response_at<'a>(frame_id: u16, bytes: &'a [u8]) -> Result<Response<'a>, DcpFault>
    ensures { Gives answered result (answer_of frame_id bytes.now) }
{
    let (id, rest) = u8_at(bytes, DcpFault::Length)?;
    let (service_type, rest) = u8_at(rest, DcpFault::Length)?;
    let (xid, rest) = u32_at(rest, DcpFault::Length)?;
    // This is ResponseDelay in a request. In a response it is reserved.
    let (_reserved, rest) = u16_at(rest, DcpFault::Length)?;
    let (length, rest) = u16_at(rest, DcpFault::Length)?;
    let (data, _behind) = split(rest, length as usize, DcpFault::Length)?;
    let service = answered_by(frame_id, id)?;
    let is_supported = supported_by(service_type)?;
    let blocks = blocks_at(data)?;
    Ok(Response {
        service,
        is_supported,
        xid,
        blocks,
    })
}

/// The service whose response this FrameID and ServiceID name.
fn answered_by(frame_id: u16, id: u8) -> Result<Service, DcpFault>
    ensures { result ≡ answered_service frame_id id }
{
    match (frame_id, id) {
        (0xFEFD, 3) => Ok(Service::Get),
        (0xFEFD, 4) => Ok(Service::Set),
        (0xFEFF, 5) => Ok(Service::Identify),
        _ => Err(DcpFault::Service),
    }
}

/// Whether ServiceType says that the service is supported.
fn supported_by(service_type: u8) -> Result<bool, DcpFault>
    ensures { result ≡ is_supported_by service_type }
{
    match service_type {
        1 => Ok(true),
        5 => Ok(false),
        _ => Err(DcpFault::Service),
    }
}

/// The blocks of a response, if each one is complete.
fn blocks_at(bytes: &[u8]) -> Result<ResponseBlocks<'_>, DcpFault>
    ensures { Gives blocks_left result (answer_blocks.read bytes.now) }
{
    let mut rest = bytes;
    while !rest.is_empty() {
        // Each block is judged here, so that reading them in place later cannot fail.
        let (_block, behind) = block_at(rest)?;
        rest = behind;
    }
    Ok(ResponseBlocks { bytes })
}

/// One block, and the bytes after it.
#[tactic(auto, unfolding(crate::specs::Answer::answer_block, crate::specs::Format::block))]
fn block_at(bytes: &[u8]) -> Result<(ResponseBlock<'_>, &[u8]), DcpFault>
    ensures { Gives (λ x. (answered_block x.0, x.1.now)) result (answer_block.read bytes.now) }
{
    let (kind, rest) = kind_at(bytes)?;
    let (length, rest) = u16_at(rest, DcpFault::Block)?;
    let (contents, rest) = split(rest, length as usize, DcpFault::Block)?;
    // The padding octet of the last block may be missing, and its value is ignored: stations differ in both.
    let rest = skip(rest, contents.len() % 2);
    let block = said_in(kind, contents)?;
    Ok((block, rest))
}

/// What a block of this kind says.
fn said_in(kind: Kind, contents: &[u8]) -> Result<ResponseBlock<'_>, DcpFault>
    ensures { Gives answered_block result (said_by kind contents.now) }
{
    match kind {
        Kind::Response => outcome_at(contents),
        kind => value_at(kind, contents),
    }
}

/// The outcome of a block or pair.
fn outcome_at(contents: &[u8]) -> Result<ResponseBlock<'_>, DcpFault>
    ensures { Gives answered_block result (outcome_in contents.now) }
{
    let [option, suboption, number] = contents else {
        return Err(DcpFault::Block);
    };
    let kind = Kind::of(*option, *suboption);
    let outcome = Outcome::of(*number);
    Ok(ResponseBlock::Outcome { kind, outcome })
}

/// A value after its BlockInfo.
fn value_at(kind: Kind, contents: &[u8]) -> Result<ResponseBlock<'_>, DcpFault>
    ensures { Gives answered_block result (value_in kind contents.now) }
{
    let (info, value) = u16_at(contents, DcpFault::Block)?;
    Ok(ResponseBlock::Value { kind, info, value })
}

impl Outcome {
    /// The outcome that a BlockError names.
    pub fn of(number: u8) -> Outcome
        ensures { result ≡ outcome_of number }
    {
        match number {
            0 => Outcome::Known(BlockError::Done),
            1 => Outcome::Known(BlockError::Option),
            2 => Outcome::Known(BlockError::Suboption),
            3 => Outcome::Known(BlockError::Value),
            4 => Outcome::Known(BlockError::Exhausted),
            5 => Outcome::Known(BlockError::Local),
            6 => Outcome::Known(BlockError::InOperation),
            number => Outcome::Other(number),
        }
    }

    /// Whether the outcome is success.
    pub fn is_done(self) -> bool
        ensures { result ≡ is_done self }
    {
        matches!(self, Outcome::Known(BlockError::Done))
    }
}

impl<'a> Iterator for ResponseBlocks<'a> {
    ghost use Rattle.std.specs.Iterator.{YieldsFirstBy, item_count};
    ghost use Rattle.dcp_core.specs.Answered.{answered_block, blocks_left};

    type Item = ResponseBlock<'a>;

    ghost next_gives = { YieldsFirstBy answered_block blocks_left };

    ghost remaining = { item_count blocks_left };

    fn next(&mut self) -> Option<ResponseBlock<'a>> {
        match block_at(self.bytes) {
            Ok((block, rest)) => {
                self.bytes = rest;
                Some(block)
            }
            // This is the end of the blocks: each block was judged when the response was read.
            Err(_) => None,
        }
    }
}

impl<'a> Response<'a> {
    /// The first value of a kind in the response, without its BlockInfo.
    pub fn value(&self, kind: Kind) -> Option<&'a [u8]>
        ensures { option_map (λ value. value.now) result ≡ value_among kind (blocks_left self.now.blocks) }
    {
        for block in self.blocks {
            if let ResponseBlock::Value {
                kind: found,
                value,
                ..
            } = block
                && kind.is_same(found)
            {
                return Some(value);
            }
        }
        None
    }

    /// Whether the response is positive: the service is supported, and no block or pair was refused. There need not be
    /// any block.
    pub fn is_positive(&self) -> bool
        ensures { result ≡ is_agreed (answered self.now) }
    {
        self.is_supported && self.refuses_nothing()
    }

    /// Whether no block or pair was refused.
    fn refuses_nothing(&self) -> bool
        ensures { result ≡ list_all is_positive (blocks_left self.now.blocks) }
    {
        let mut blocks = self.blocks;
        blocks.all(|block| is_positive(&block))
    }
}

/// Whether a block reports success or has a value.
fn is_positive(block: &ResponseBlock<'_>) -> bool
    ensures { result ≡ is_positive (answered_block block.now) }
{
    match block {
        ResponseBlock::Value { .. } => true,
        ResponseBlock::Outcome { outcome, .. } => outcome.is_done(),
    }
}
