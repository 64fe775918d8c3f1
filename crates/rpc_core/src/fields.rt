//! Readers of fields in either byte order.
ghost use Rattle.std.specs.Prelude.{[]};
ghost use Rattle.wire.specs.Codec.{Gives};
ghost use Rattle.rpc_core.specs.Fields.{one, ordered, uuid, any};

use crate::RpcFault;
use byteorder::{ByteOrder, LittleEndian};
use uuid::Uuid;
use wire::{octets_at, split};

/// The byte order of a number (C706, 14.1).
#[derive(Clone, Copy, Debug, PartialEq, Eq)]
pub(crate) enum Order {
    /// The highest octet first.
    Big,
    /// The lowest octet first.
    Little,
}

/// A number of one octet, and the octets after it.
pub(crate) fn u8_at(bytes: &[u8]) -> Result<(u8, &[u8]), RpcFault>
    ensures { Gives (λ x. (x.0, x.1.now)) result (one.read bytes.now) }
{
    wire::u8_at(bytes, RpcFault::Short)
}

/// A number of two octets, and the octets after it.
#[tactic(auto, unfolding(crate::specs::Fields::ordered))]
pub(crate) fn u16_at(order: Order, bytes: &[u8]) -> Result<(u16, &[u8]), RpcFault>
    ensures { Gives (λ x. (x.0, x.1.now)) result ((ordered order 2).read bytes.now) }
{
    match order {
        Order::Big => wire::u16_at(bytes, RpcFault::Short),
        Order::Little => {
            let (octets, rest) = split(bytes, 2, RpcFault::Short)?;
            Ok((LittleEndian::read_u16(octets), rest))
        }
    }
}

/// A number of four octets, and the octets after it.
#[tactic(auto, unfolding(crate::specs::Fields::ordered))]
pub(crate) fn u32_at(order: Order, bytes: &[u8]) -> Result<(u32, &[u8]), RpcFault>
    ensures { Gives (λ x. (x.0, x.1.now)) result ((ordered order 4).read bytes.now) }
{
    match order {
        Order::Big => wire::u32_at(bytes, RpcFault::Short),
        Order::Little => {
            let (octets, rest) = split(bytes, 4, RpcFault::Short)?;
            Ok((LittleEndian::read_u32(octets), rest))
        }
    }
}

/// The octets of an identifier in big endian, and the octets after it.
#[tactic(auto, unfolding(crate::specs::Fields::uuid))]
pub(crate) fn uuid_at(order: Order, bytes: &[u8]) -> Result<([u8; 16], &[u8]), RpcFault>
    ensures { Gives (λ x. (x.0, x.1.now)) result ((uuid order).read bytes.now) }
{
    let (octets, rest) = octets_at::<16, RpcFault>(bytes, RpcFault::Short)?;
    match order {
        Order::Big => Ok((octets, rest)),
        Order::Little => Ok((Uuid::from_bytes_le(octets).into_bytes(), rest)),
    }
}

/// The octets after `size` octets that are ignored.
pub(crate) fn any_at(bytes: &[u8], size: usize) -> Result<&[u8], RpcFault>
    ensures { Gives (λ x. (tt, x.now)) result ((any size []).read bytes.now) }
{
    let (_any, rest) = split(bytes, size, RpcFault::Short)?;
    Ok(rest)
}
