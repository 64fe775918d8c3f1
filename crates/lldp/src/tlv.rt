//! The TLVs of LLDP (IEEE 802.1AB, 8.4 and 8.5).
ghost use Rattle.std.specs.Prelude.{◌<◌, ◌≤◌, IfOk, length};
ghost use Rattle.wire.specs.Codec.{Gives};
ghost use Rattle.lldp.specs.Tlv.{tlv, typed, id, lifetime, chassis_mac};
ghost use Rattle.lldp.specs.Views.{tlv_as, id_as};

use crate::LldpFault;
use pn_values::Mac;
use wire::{octets_at, split, u8_at, u16_at, u32_at};

/// ChassisID, the first TLV.
pub(crate) const CHASSIS: u16 = 1;

/// PortID, the second TLV.
pub(crate) const PORT: u16 = 2;

/// The time to live, the third TLV.
pub(crate) const LIFETIME: u16 = 3;

/// The number of TLVs' lengths: the type is above the nine bits of the length.
pub(crate) const TYPE: u16 = 512;

/// A TLV of any type.
#[derive(Clone, Copy)]
pub(crate) struct Tlv<'a> {
    /// Its type and its length.
    pub(crate) head: u16,
    pub(crate) octets: &'a [u8],
}

/// An identifier of a chassis or of a port.
#[derive(Clone, Copy)]
pub(crate) struct Id<'a> {
    /// How it is meant: 4 is a MAC address, 7 a name.
    pub(crate) subtype: u8,
    pub(crate) octets: &'a [u8],
}

/// A TLV of any type and the octets after it.
#[tactic(auto, unfolding(crate::specs::Tlv::tlv))]
pub(crate) fn tlv_at(bytes: &[u8]) -> Result<(Tlv<'_>, &[u8]), LldpFault>
    ensures { Gives (λ x. (tlv_as x.0, x.1.now)) result (tlv.read bytes.now) }
{
    let (head, rest) = u16_at(bytes, LldpFault::Short)?;
    let (octets, rest) = split(rest, (head % TYPE) as usize, LldpFault::Short)?;
    Ok((Tlv { head, octets }, rest))
}

/// The length of a TLV that must have this type, and the octets after its head.
#[tactic(auto, unfolding(crate::specs::Tlv::typed))]
fn typed_at(bytes: &[u8], kind: u16) -> Result<(u16, &[u8]), LldpFault>
    requires { kind < 128 }
    ensures { Gives (λ x. (x.0, x.1.now)) result ((typed kind).read bytes.now) }
{
    let (head, rest) = u16_at(bytes, LldpFault::Short)?;
    if head / TYPE != kind {
        return Err(LldpFault::Order);
    }
    Ok((head - kind * TYPE, rest))
}

/// An identifier of this type and the octets after it.
pub(crate) fn id_at(bytes: &[u8], kind: u16) -> Result<(Id<'_>, &[u8]), LldpFault>
    requires { kind < 128 }
    ensures gives { Gives (λ x. (id_as x.0, x.1.now)) result ((id kind).read bytes.now) }
    // It fits its buffer.
    ensures most { IfOk result (λ x. length x.0.octets.now ≤ 255) }
{
    id_within(bytes, kind)
}

/// An identifier of this type and the octets after it.
#[tactic(auto, unfolding(crate::specs::Tlv::id, crate::specs::Tlv::id_octets))]
fn id_within(bytes: &[u8], kind: u16) -> Result<(Id<'_>, &[u8]), LldpFault>
    requires { kind < 128 }
    ensures { Gives (λ x. (id_as x.0, x.1.now)) result ((id kind).read bytes.now) }
{
    let (size, rest) = typed_at(bytes, kind)?;
    if !(2..=256).contains(&size) {
        return Err(LldpFault::Length);
    }
    let (inside, rest) = split(rest, size as usize, LldpFault::Short)?;
    let (subtype, octets) = u8_at(inside, LldpFault::Short)?;
    Ok((Id { subtype, octets }, rest))
}

/// The time to live in seconds and the octets after it.
#[tactic(auto, unfolding(crate::specs::Tlv::lifetime))]
pub(crate) fn lifetime_at(bytes: &[u8]) -> Result<(u16, &[u8]), LldpFault>
    ensures { Gives (λ x. (x.0, x.1.now)) result (lifetime.read bytes.now) }
{
    let (size, rest) = typed_at(bytes, LIFETIME)?;
    let (inside, rest) = split(rest, size as usize, LldpFault::Short)?;
    let (seconds, _more) = u16_at(inside, LldpFault::Short)?;
    Ok((seconds, rest))
}

/// The MAC address of the chassis, if these are the octets of the TLV that tells it.
#[tactic(auto, unfolding(crate::specs::Tlv::chassis_mac))]
pub(crate) fn chassis_mac_at(bytes: &[u8]) -> Result<Mac, LldpFault>
    ensures { Gives (λ mac. mac) result (chassis_mac.read bytes.now) }
{
    let (kind, rest) = u32_at(bytes, LldpFault::Short)?;
    if kind != 0x000E_CF05 {
        return Err(LldpFault::Short);
    }
    let (octets, rest) = octets_at::<6, LldpFault>(rest, LldpFault::Short)?;
    if !rest.is_empty() {
        return Err(LldpFault::Short);
    }
    Ok(Mac { octets })
}
