//! What a lookup asks.
ghost use Rattle.std.specs.Prelude.{◌≡◌};
ghost use Rattle.wire.specs.Codec.{Gives};
ghost use Rattle.rpc_core.specs.call_headers.Call.{in_order};
ghost use Rattle.rpc_services.specs.endpoint_mapper.Lookup.{gets_entry, lookup, reference};

use byteorder::{ByteOrder, LittleEndian};
use rpc_core::RpcFault;
use wire::{octets_at, split, u32_at};

/// A lookup of the endpoints of a station (C706, `ept_lookup`).
#[derive(Clone, Copy)]
pub struct Lookup {
    /// InquiryType: 0 asks for all entries.
    pub inquiry: u32,
    /// The handle: zeros begin a lookup, and others continue one.
    pub handle: [u8; 20],
    /// MaxEntries: how many entries there is room for.
    pub most: u32,
}

/// A number of four octets in this byte order, and the octets after it.
#[tactic(auto, unfolding(rpc_core::specs::call_headers::Call::in_order))]
fn long_at(little: bool, bytes: &[u8]) -> Result<(u32, &[u8]), RpcFault>
    ensures { Gives (λ x. (x.0, x.1.now)) result ((in_order little 4).read bytes.now) }
{
    match little {
        true => {
            let (octets, rest) = split(bytes, 4, RpcFault::Short)?;
            Ok((LittleEndian::read_u32(octets), rest))
        }
        false => u32_at(bytes, RpcFault::Short),
    }
}

/// The octets after a reference and what it refers to.
#[tactic(auto, unfolding(crate::specs::endpoint_mapper::Lookup::reference))]
fn reference_at(little: bool, bytes: &[u8], size: usize) -> Result<&[u8], RpcFault>
    ensures { Gives (λ x. (tt, x.now)) result ((reference little size).read bytes.now) }
{
    let (number, rest) = long_at(little, bytes)?;
    if number == 0 {
        return Ok(rest);
    }
    let (_referred, rest) = split(rest, size, RpcFault::Short)?;
    Ok(rest)
}

/// A lookup, and the octets after it.
#[tactic(auto, unfolding(crate::specs::endpoint_mapper::Lookup::lookup))]
pub(crate) fn lookup_at(little: bool, bytes: &[u8]) -> Result<(Lookup, &[u8]), RpcFault>
    ensures { Gives (λ x. (x.0, x.1.now)) result ((lookup little).read bytes.now) }
{
    let (inquiry, rest) = long_at(little, bytes)?;
    let rest = reference_at(little, rest, 16)?;
    let rest = reference_at(little, rest, 20)?;
    // All versions of an interface are asked for: there is one entry.
    let (_option, rest) = split(rest, 4, RpcFault::Short)?;
    let (handle, rest) = octets_at::<20, RpcFault>(rest, RpcFault::Short)?;
    let (most, rest) = long_at(little, rest)?;
    Ok((
        Lookup {
            inquiry,
            handle,
            most,
        },
        rest,
    ))
}

/// Whether a lookup gets the entry.
pub(crate) fn has_entry(asked: &Lookup) -> bool
    ensures { result ≡ gets_entry asked.now }
{
    asked.inquiry == 0 && asked.handle == [0; 20] && asked.most != 0
}
