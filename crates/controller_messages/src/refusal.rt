//! The packets by which a station refuses a call: reject and fault (C706, 12.5.2.3 and 12.5.2.6).
ghost use Rattle.std.specs.Prelude.{◌≡◌, []};
ghost use Rattle.wire.specs.Codec.{Gives};
ghost use Rattle.wire.specs.Checks.{fixed};
ghost use Rattle.rpc_core.specs.Fields.{any};
ghost use Rattle.controller_messages.specs.Refusal.{extent, in_order, is_little as is_little_by, is_refusal as is_refusal_by, is_whole as is_whole_by, opening, packet, refusal_in, refusal_of, uuid_in, word};
ghost use Rattle.std.specs.List.{slice_get};

use byteorder::{ByteOrder, LittleEndian};
use rpc_core::{RpcFault, Status, Uuid};
use wire::{octets_at, split, u8_at, u16_at, u32_at};

/// Packet type of a fault.
const FAULT: u8 = 3;

/// Packet type of a reject.
const REJECT: u8 = 6;

/// A call that was refused, and why.
#[derive(Clone, Copy, Debug, PartialEq, Eq)]
pub struct Refusal {
    /// The activity of the call.
    pub activity: Uuid,
    /// Its number within the activity.
    pub sequence: u32,
    /// The status of the packet.
    pub status: Status,
}

/// The fields before the identifiers.
#[derive(Clone, Copy)]
pub(crate) struct Opening {
    pub(crate) flags: u8,
    pub(crate) representation: u8,
}

/// The length and kind of what follows the header.
#[derive(Clone, Copy)]
pub(crate) struct Extent {
    pub(crate) length: u16,
    pub(crate) fragment: u16,
    pub(crate) authentication: u8,
}

/// The fields that are read of the header of a refusal.
#[derive(Clone, Copy)]
pub(crate) struct Packet {
    pub(crate) opening: Opening,
    pub(crate) activity: [u8; 16],
    pub(crate) sequence: u32,
    pub(crate) extent: Extent,
}

/// Whether numbers have the lowest octet first.
fn is_little(representation: u8) -> bool
    ensures { result ≡ is_little_by representation }
{
    representation / 16 == 1
}

/// The octets after `size` octets that are ignored.
fn any_at(bytes: &[u8], size: usize) -> Result<&[u8], RpcFault>
    ensures { Gives (λ x. (tt, x.now)) result ((any size []).read bytes.now) }
{
    let (_any, rest) = split(bytes, size, RpcFault::Short)?;
    Ok(rest)
}

/// The octets after the version, which must be 4.
fn version_at(bytes: &[u8]) -> Result<&[u8], RpcFault>
    ensures { Gives (λ x. (tt, x.now)) result ((fixed RpcFault.Version 1 4).read bytes.now) }
{
    let (version, rest) = u8_at(bytes, RpcFault::Version)?;
    if version != 4 {
        return Err(RpcFault::Version);
    }
    Ok(rest)
}

/// A number of two octets, and the octets after it.
#[tactic(auto, unfolding(crate::specs::Refusal::in_order))]
fn two_at(little: bool, bytes: &[u8]) -> Result<(u16, &[u8]), RpcFault>
    ensures { Gives (λ x. (x.0, x.1.now)) result ((in_order little 2).read bytes.now) }
{
    match little {
        true => {
            let (octets, rest) = split(bytes, 2, RpcFault::Short)?;
            Ok((LittleEndian::read_u16(octets), rest))
        }
        false => u16_at(bytes, RpcFault::Short),
    }
}

/// A number of four octets, and the octets after it.
#[tactic(auto, unfolding(crate::specs::Refusal::in_order))]
fn four_at(little: bool, bytes: &[u8]) -> Result<(u32, &[u8]), RpcFault>
    ensures { Gives (λ x. (x.0, x.1.now)) result ((in_order little 4).read bytes.now) }
{
    match little {
        true => {
            let (octets, rest) = split(bytes, 4, RpcFault::Short)?;
            Ok((LittleEndian::read_u32(octets), rest))
        }
        false => u32_at(bytes, RpcFault::Short),
    }
}

/// The octets of an identifier with the highest octet of each number first, and the octets after it.
#[tactic(auto, unfolding(crate::specs::Refusal::uuid_in))]
fn uuid_at(little: bool, bytes: &[u8]) -> Result<([u8; 16], &[u8]), RpcFault>
    ensures { Gives (λ x. (x.0, x.1.now)) result ((uuid_in little).read bytes.now) }
{
    let (octets, rest) = octets_at::<16, RpcFault>(bytes, RpcFault::Short)?;
    match little {
        true => Ok((Uuid::from_bytes_le(octets).into_bytes(), rest)),
        false => Ok((octets, rest)),
    }
}

/// Flags and representation, and the octets after them.
#[tactic(auto, unfolding(crate::specs::Refusal::opening))]
fn opening_at(bytes: &[u8]) -> Result<(Opening, &[u8]), RpcFault>
    ensures { Gives (λ x. (x.0, x.1.now)) result (opening.read bytes.now) }
{
    let rest = version_at(bytes)?;
    let rest = any_at(rest, 1)?;
    let (flags, rest) = u8_at(rest, RpcFault::Short)?;
    let rest = any_at(rest, 1)?;
    let (representation, rest) = u8_at(rest, RpcFault::Short)?;
    let rest = any_at(rest, 3)?;
    Ok((
        Opening {
            flags,
            representation,
        },
        rest,
    ))
}

/// The body's length, the fragment's number and the authentication, and the octets after them.
#[tactic(auto, unfolding(crate::specs::Refusal::extent))]
fn extent_at(little: bool, bytes: &[u8]) -> Result<(Extent, &[u8]), RpcFault>
    ensures { Gives (λ x. (x.0, x.1.now)) result ((extent little).read bytes.now) }
{
    let (length, rest) = two_at(little, bytes)?;
    let (fragment, rest) = two_at(little, rest)?;
    let (authentication, rest) = u8_at(rest, RpcFault::Short)?;
    let rest = any_at(rest, 1)?;
    Ok((
        Extent {
            length,
            fragment,
            authentication,
        },
        rest,
    ))
}

/// The header, and the octets after it.
#[tactic(auto, unfolding(crate::specs::Refusal::packet))]
fn packet_at(bytes: &[u8]) -> Result<(Packet, &[u8]), RpcFault>
    ensures { Gives (λ x. (x.0, x.1.now)) result (packet.read bytes.now) }
{
    let (opening, rest) = opening_at(bytes)?;
    let little = is_little(opening.representation);
    let rest = any_at(rest, 32)?;
    let (activity, rest) = uuid_at(little, rest)?;
    let rest = any_at(rest, 8)?;
    let (sequence, rest) = four_at(little, rest)?;
    let rest = any_at(rest, 6)?;
    let (extent, rest) = extent_at(little, rest)?;
    Ok((
        Packet {
            opening,
            activity,
            sequence,
            extent,
        },
        rest,
    ))
}

/// Whether the packet type is that of a reject or a fault.
fn is_refusal(bytes: &[u8]) -> bool
    ensures { result ≡ is_refusal_by (slice_get bytes.now 1) }
{
    match bytes.get(1) {
        Some(kind) => *kind == FAULT || *kind == REJECT,
        None => false,
    }
}

/// Whether a packet is whole and in a known representation.
fn is_whole(packet: &Packet) -> bool
    ensures { result ≡ is_whole_by packet.now }
{
    packet.opening.representation / 16 < 2
        && (packet.opening.flags / 4).is_multiple_of(2)
        && packet.extent.fragment == 0
        && packet.extent.authentication == 0
}

/// The status at the front of a body.
#[tactic(auto, unfolding(crate::specs::Refusal::word))]
fn word_at(little: bool, bytes: &[u8]) -> Result<(Status, &[u8]), RpcFault>
    ensures { Gives (λ x. (x.0, x.1.now)) result ((word little).read bytes.now) }
{
    let (first, rest) = u8_at(bytes, RpcFault::Short)?;
    let (second, rest) = u8_at(rest, RpcFault::Short)?;
    let (third, rest) = u8_at(rest, RpcFault::Short)?;
    let (fourth, rest) = u8_at(rest, RpcFault::Short)?;
    let (code, decode, code1, code2) = match little {
        true => (fourth, third, second, first),
        false => (first, second, third, fourth),
    };
    Ok((
        Status {
            code,
            decode,
            code1,
            code2,
        },
        rest,
    ))
}

/// Reads a packet of either type. Octets after the status are ignored.
#[tactic(auto, unfolding(crate::specs::Refusal::refusal_in))]
fn refusal_in(bytes: &[u8]) -> Result<Refusal, RpcFault>
    ensures { Gives (λ x. x) result (refusal_in bytes.now) }
{
    let (packet, rest) = packet_at(bytes)?;
    if !is_whole(&packet) {
        return Err(RpcFault::Version);
    }
    let (body, _rest) = split(rest, packet.extent.length as usize, RpcFault::Short)?;
    let (status, _rest) = word_at(is_little(packet.opening.representation), body)?;
    Ok(Refusal {
        activity: Uuid::from_bytes(packet.activity),
        sequence: packet.sequence,
        status,
    })
}

/// Reads a reject or a fault from a datagram, for any interface.
#[tactic(auto, unfolding(crate::specs::Refusal::refusal_of))]
pub(crate) fn read_refusal(bytes: &[u8]) -> Result<Refusal, RpcFault>
    ensures { Gives (λ x. x) result (refusal_of bytes.now) }
{
    if !is_refusal(bytes) {
        return Err(RpcFault::Version);
    }
    refusal_in(bytes)
}
