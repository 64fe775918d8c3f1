//! The header of calls and responses, 80 octets (C706, 12.5).
ghost use Rattle.std.specs.Prelude.{◌≡◌};
ghost use Rattle.wire.specs.Codec.{Gives};
ghost use Rattle.rpc_core.specs.Header.{opening, names, turn, extent, head, order_of, header_of};

use crate::RpcFault;
use crate::fields::{Order, any_at, u8_at, u16_at, u32_at, uuid_at};
use uuid::Uuid;

/// The fields that a call and its response share.
#[derive(Clone, Copy, Debug, PartialEq, Eq)]
pub struct CallHeader {
    /// The object that is called. It is not checked.
    pub object: Uuid,
    /// The interface that is called.
    pub interface: Uuid,
    /// The activity: the caller and its series of calls.
    pub activity: Uuid,
    /// The number of the call within its activity.
    pub sequence: u32,
    /// The operation that is called.
    pub operation: u16,
}

/// The fields before the identifiers.
#[derive(Clone, Copy)]
pub(crate) struct Opening {
    pub(crate) version: u8,
    pub(crate) packet_type: u8,
    pub(crate) flags: u8,
    pub(crate) representation: u8,
}

/// The octets of the identifiers, in big endian.
#[derive(Clone, Copy)]
pub(crate) struct Names {
    pub(crate) object: [u8; 16],
    pub(crate) interface: [u8; 16],
    pub(crate) activity: [u8; 16],
}

/// The number of the call, and its operation.
#[derive(Clone, Copy)]
pub(crate) struct Turn {
    pub(crate) sequence: u32,
    pub(crate) operation: u16,
}

/// The length and kind of what follows the header.
#[derive(Clone, Copy)]
pub(crate) struct Extent {
    pub(crate) length: u16,
    pub(crate) fragment: u16,
    pub(crate) authentication: u8,
}

/// All fields that are read of a header.
#[derive(Clone, Copy)]
pub(crate) struct Head {
    pub(crate) opening: Opening,
    pub(crate) names: Names,
    pub(crate) turn: Turn,
    pub(crate) extent: Extent,
}

impl Head {
    /// The fields that a call and its response share.
    pub(crate) fn header(&self) -> CallHeader
        ensures { result ≡ header_of self.now }
    {
        CallHeader {
            object: Uuid::from_bytes(self.names.object),
            interface: Uuid::from_bytes(self.names.interface),
            activity: Uuid::from_bytes(self.names.activity),
            sequence: self.turn.sequence,
            operation: self.turn.operation,
        }
    }
}

/// The byte order under the first octet of a representation.
pub(crate) fn order_under(representation: u8) -> Order
    ensures { result ≡ order_of representation }
{
    // An unknown representation is read as big endian, and refused when the header is judged.
    if representation / 16 == 1 {
        Order::Little
    } else {
        Order::Big
    }
}

/// Version, packet type, flags and representation, and the octets after them.
#[tactic(auto, unfolding(crate::specs::Header::opening))]
fn opening_at(bytes: &[u8]) -> Result<(Opening, &[u8]), RpcFault>
    ensures { Gives (λ x. (x.0, x.1.now)) result (opening.read bytes.now) }
{
    let (version, rest) = u8_at(bytes)?;
    let (packet_type, rest) = u8_at(rest)?;
    let (flags, rest) = u8_at(rest)?;
    let rest = any_at(rest, 1)?;
    let (representation, rest) = u8_at(rest)?;
    let rest = any_at(rest, 3)?;
    Ok((
        Opening {
            version,
            packet_type,
            flags,
            representation,
        },
        rest,
    ))
}

/// Object, interface and activity, and the octets after them.
#[tactic(auto, unfolding(crate::specs::Header::names))]
fn names_at(order: Order, bytes: &[u8]) -> Result<(Names, &[u8]), RpcFault>
    ensures { Gives (λ x. (x.0, x.1.now)) result ((names order).read bytes.now) }
{
    let (object, rest) = uuid_at(order, bytes)?;
    let (interface, rest) = uuid_at(order, rest)?;
    let (activity, rest) = uuid_at(order, rest)?;
    Ok((
        Names {
            object,
            interface,
            activity,
        },
        rest,
    ))
}

/// Sequence number and operation, and the octets after them.
#[tactic(auto, unfolding(crate::specs::Header::turn))]
fn turn_at(order: Order, bytes: &[u8]) -> Result<(Turn, &[u8]), RpcFault>
    ensures { Gives (λ x. (x.0, x.1.now)) result ((turn order).read bytes.now) }
{
    let rest = any_at(bytes, 8)?;
    let (sequence, rest) = u32_at(order, rest)?;
    let (operation, rest) = u16_at(order, rest)?;
    Ok((
        Turn {
            sequence,
            operation,
        },
        rest,
    ))
}

/// The body's length, the fragment's number and the authentication, and the octets after them.
#[tactic(auto, unfolding(crate::specs::Header::extent))]
fn extent_at(order: Order, bytes: &[u8]) -> Result<(Extent, &[u8]), RpcFault>
    ensures { Gives (λ x. (x.0, x.1.now)) result ((extent order).read bytes.now) }
{
    let rest = any_at(bytes, 4)?;
    let (length, rest) = u16_at(order, rest)?;
    let (fragment, rest) = u16_at(order, rest)?;
    let (authentication, rest) = u8_at(rest)?;
    let rest = any_at(rest, 1)?;
    Ok((
        Extent {
            length,
            fragment,
            authentication,
        },
        rest,
    ))
}

/// The header, and the octets after it.
#[tactic(auto, unfolding(crate::specs::Header::head))]
pub(crate) fn head_at(bytes: &[u8]) -> Result<(Head, &[u8]), RpcFault>
    ensures { Gives (λ x. (x.0, x.1.now)) result (head.read bytes.now) }
{
    let (opening, rest) = opening_at(bytes)?;
    let order = order_under(opening.representation);
    let (names, rest) = names_at(order, rest)?;
    let (turn, rest) = turn_at(order, rest)?;
    let (extent, rest) = extent_at(order, rest)?;
    Ok((
        Head {
            opening,
            names,
            turn,
            extent,
        },
        rest,
    ))
}
