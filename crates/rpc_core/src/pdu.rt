//! What calls and responses have in common.
ghost use Rattle.std.specs.Prelude.{◌≡◌};
ghost use Rattle.wire.specs.Codec.{Gives};
ghost use Rattle.rpc_core.specs.Pdu.{cut_off, pdu, is_served, is_version, is_whole};
ghost use Rattle.rpc_core.specs.Body.{counts, blocks_in};
ghost use Rattle.std.specs.Option.{option_map};

use crate::fields::{Order, u32_at};
use crate::header::{Head, head_at};
use crate::{Interface, RpcFault};
use wire::split;

/// How the blocks of a body are counted.
#[derive(Clone, Copy)]
pub(crate) struct Counts {
    pub(crate) length: u32,
    pub(crate) maximum: u32,
    pub(crate) offset: u32,
    pub(crate) actual: u32,
}

/// The header, the body that its length counts, and the octets after that.
#[tactic(auto, unfolding(crate::specs::Pdu::cut_off))]
fn cut_off_at(bytes: &[u8]) -> Result<(Head, &[u8], &[u8]), RpcFault>
    ensures { Gives (λ x. ((x.0, x.1.now), x.2.now)) result (cut_off.read bytes.now) }
{
    let (head, rest) = head_at(bytes)?;
    if head.extent.length < 20 {
        return Err(RpcFault::Short);
    }
    let (body, rest) = split(rest, head.extent.length as usize, RpcFault::Short)?;
    Ok((head, body, rest))
}

/// Whether the version is 4, the packet type is this one, and there is no authentication.
fn has_version(packet_type: u8, head: &Head) -> bool
    ensures { result ≡ is_version packet_type head.now }
{
    head.opening.version == 4
        && head.opening.packet_type == packet_type
        && head.extent.authentication == 0
}

/// Whether the datagram is not a fragment.
fn is_complete(head: &Head) -> bool
    ensures { result ≡ is_whole head.now }
{
    (head.opening.flags / 4).is_multiple_of(2) && head.extent.fragment == 0
}

/// Whether the interface is the one that is served, if one is given.
fn serves(interface: Option<Interface>, head: &Head) -> bool
    ensures { result ≡ is_served interface head.now }
{
    match interface {
        // A response is identified by its activity, and stations differ in which interface they name.
        None => true,
        Some(served) => head.names.interface == served.uuid().into_bytes(),
    }
}

/// A header that passes its tests, its body, and the octets after that.
#[tactic(auto, unfolding(crate::specs::Pdu::pdu))]
pub(crate) fn pdu_at(
    packet_type: u8,
    interface: Option<Interface>,
    bytes: &[u8],
) -> Result<(Head, &[u8], &[u8]), RpcFault>
    ensures { Gives (λ x. ((x.0, x.1.now), x.2.now)) result ((pdu packet_type interface).read bytes.now) }
{
    let (head, body, rest) = cut_off_at(bytes)?;
    if !has_version(packet_type, &head) {
        return Err(RpcFault::Version);
    }
    // Numbers before it were read in big endian if it is neither, so that a short or foreign datagram is reported as
    // such.
    if head.opening.representation / 16 >= 2 {
        return Err(RpcFault::Representation);
    }
    if !is_complete(&head) {
        return Err(RpcFault::Fragment);
    }
    if !serves(interface, &head) {
        return Err(RpcFault::Interface);
    }
    Ok((head, body, rest))
}

/// ArgsLength, MaximumCount, Offset and ActualCount, and the octets after them.
#[tactic(auto, unfolding(crate::specs::Body::counts))]
pub(crate) fn counts_at(order: Order, bytes: &[u8]) -> Result<(Counts, &[u8]), RpcFault>
    ensures { Gives (λ x. (x.0, x.1.now)) result ((counts order).read bytes.now) }
{
    let (length, rest) = u32_at(order, bytes)?;
    let (maximum, rest) = u32_at(order, rest)?;
    let (offset, rest) = u32_at(order, rest)?;
    let (actual, rest) = u32_at(order, rest)?;
    Ok((
        Counts {
            length,
            maximum,
            offset,
            actual,
        },
        rest,
    ))
}

/// The blocks at the front of the octets, if Offset is 0, ArgsLength equals ActualCount, and all blocks are present.
pub(crate) fn blocks_of<'a>(counts: &Counts, bytes: &'a [u8]) -> Option<&'a [u8]>
    ensures { option_map (λ blocks. blocks.now) result ≡ blocks_in counts.now bytes.now }
{
    if counts.offset == 0 && counts.length == counts.actual {
        bytes.get(..counts.length as usize)
    } else {
        None
    }
}
