// Reading requests.
ghost use Rattle.std.specs.Prelude.{◌≡◌, ◌∷◌, ◌++◌, ℕ, List, [], IfOk, IfSome, Ok, map};
ghost use Rattle.dcp_core.specs.Request.{Asked, asked, asked_block};
ghost use Rattle.dcp_core.specs.Format.{kind, block, block_of, blocks_of, service_of};
ghost use Rattle.dcp_core.specs.Reading.{Gives, IsRequest, request_of};

use crate::{Block, DcpFault, Kind, Request, Service};
use arrayvec::ArrayVec;
use wire::{skip, split, u8_at, u16_at, u32_at};

/// Reads the request after a FrameID. The octets after it are padding. The first fault is returned: Length, then
/// Service, then Block.
pub fn read_request<'a>(frame_id: u16, bytes: &'a [u8]) -> Result<Request<'a>, DcpFault>
    // On success the octets spell the request that is returned.
    ensures found { IfOk result (λ request. IsRequest frame_id bytes.now (asked request)) }
    // If the octets spell a request, that request is returned.
    ensures only { (request : Asked) → IsRequest frame_id bytes.now request → Gives asked result (Ok request) }
    // The same holds with anything after the request.
    ensures behind { (first more : List ℕ) (request : Asked) → IsRequest frame_id first request → bytes.now ≡ first ++ more →
        Gives asked result (Ok request) }
    // The result is exactly the request of the octets, or their first fault.
    ensures exact { Gives asked result (request_of frame_id bytes.now) }
{
    request_at(frame_id, bytes)
}

#[tactic(auto, unfolding(crate::specs::Reading::request_of, crate::specs::Format::request, crate::specs::Format::header_and_data, crate::specs::Format::data_of))]
fn request_at<'a>(frame_id: u16, bytes: &'a [u8]) -> Result<Request<'a>, DcpFault>
    ensures { Gives asked result (request_of frame_id bytes.now) }
{
    let (id, rest) = u8_at(bytes, DcpFault::Length)?;
    let (service_type, rest) = u8_at(rest, DcpFault::Length)?;
    let (xid, rest) = u32_at(rest, DcpFault::Length)?;
    // ResponseDelay spreads the responses of many stations. This station responds at once, which is within any delay.
    let (_delay, rest) = u16_at(rest, DcpFault::Length)?;
    let (length, rest) = u16_at(rest, DcpFault::Length)?;
    let (data, _behind) = split(rest, length as usize, DcpFault::Length)?;
    let service = service_at(frame_id, id, service_type)?;
    // Most requests have one block. Its request is made where it stays; a longer list is made and then moved.
    if let Some(block) = only_block(service, data) {
        let mut blocks = ArrayVec::new();
        blocks.push(block);
        return Ok(Request {
            service,
            xid,
            blocks,
        });
    }
    let mut blocks = ArrayVec::new();
    read_blocks(service, data, &mut blocks)?;
    Ok(Request {
        service,
        xid,
        blocks,
    })
}

/// The block or pair that these bytes are, if they are one and nothing else.
#[inline(always)]
#[tactic(auto, using(crate::proofs::One::one_block))]
fn only_block(service: Service, bytes: &[u8]) -> Option<Block<'_>>
    ensures { IfSome result (λ block. (blocks_of service).read bytes.now ≡ Ok (asked_block block ∷ [])) }
{
    if bytes.is_empty() {
        return None;
    }
    let Ok((block, rest)) = block_at(service, bytes) else {
        return None;
    };
    if rest.is_empty() { Some(block) } else { None }
}

/// The service that FrameID, ServiceID and ServiceType name.
fn service_at(frame_id: u16, id: u8, service_type: u8) -> Result<Service, DcpFault>
    ensures { result ≡ service_of frame_id id service_type }
{
    match (frame_id, id, service_type) {
        (0xFEFD, 3, 0) => Ok(Service::Get),
        (0xFEFD, 4, 0) => Ok(Service::Set),
        (0xFEFE, 5, 0) => Ok(Service::Identify),
        _ => Err(DcpFault::Service),
    }
}

/// Reads all blocks or pairs into an empty list.
fn read_blocks<'a>(
    service: Service,
    bytes: &'a [u8],
    found: &mut ArrayVec<Block<'a>, 16>,
) -> Result<(), DcpFault>
    requires { found.old.items ≡ [] }
    ensures { Gives (λ _. map asked_block found.new.items) result ((blocks_of service).read bytes.now) }
{
    let mut rest = bytes;
    while !rest.is_empty() {
        if found.is_full() {
            return Err(DcpFault::Block);
        }
        let (block, behind) = block_at(service, rest)?;
        found.push(block);
        rest = behind;
    }
    Ok(())
}

/// One block or pair, and the bytes after it.
#[inline(always)]
#[tactic(auto, unfolding(crate::specs::Format::block_of, crate::specs::Format::pair, crate::specs::Format::block))]
fn block_at(service: Service, bytes: &[u8]) -> Result<(Block<'_>, &[u8]), DcpFault>
    ensures { Gives (λ x. (asked_block x.0, x.1.now)) result ((block_of service).read bytes.now) }
{
    let (kind, rest) = kind_at(bytes)?;
    if matches!(service, Service::Get) {
        let contents = &[];
        return Ok((Block { kind, contents }, rest));
    }
    let (length, rest) = u16_at(rest, DcpFault::Block)?;
    let (contents, rest) = split(rest, length as usize, DcpFault::Block)?;
    // Each block of a Set begins with its BlockQualifier.
    if matches!(service, Service::Set) && contents.len() < 2 {
        return Err(DcpFault::Block);
    }
    Ok((Block { kind, contents }, skip(rest, contents.len() % 2)))
}

/// A kind, and the bytes after it.
#[inline(always)]
#[tactic(auto, unfolding(crate::specs::Format::kind))]
pub(crate) fn kind_at(bytes: &[u8]) -> Result<(Kind, &[u8]), DcpFault>
    ensures { Gives (λ x. (x.0, x.1.now)) result (kind.read bytes.now) }
{
    let (option, rest) = u8_at(bytes, DcpFault::Block)?;
    let (suboption, rest) = u8_at(rest, DcpFault::Block)?;
    Ok((Kind::of(option, suboption), rest))
}
