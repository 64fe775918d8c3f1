//! Messages of LLDP (IEEE 802.1AB, 8.2).
ghost use Rattle.std.specs.Prelude.{◌≡◌, ◌≤◌, length, IfOk};
ghost use Rattle.std.specs.Option.{option_map};
ghost use Rattle.wire.specs.Codec.{Gives};
ghost use Rattle.lldp.specs.Message.{next_of};
ghost use Rattle.lldp.specs.Peer.{mac_behind, mac_or, mac_told, told_from};
ghost use Rattle.lldp.specs.Views.{tlv_as, told_as};

use crate::LldpFault;
use crate::tlv::{CHASSIS, Id, PORT, TYPE, Tlv, chassis_mac_at, id_at, lifetime_at, tlv_at};
use pn_values::Mac;

/// The type of TLVs whose meaning an organization defines.
const ORGANIZATION: u16 = 127;

/// What a message says of the station that sent it.
#[derive(Clone, Copy)]
pub(crate) struct Message<'a> {
    pub(crate) chassis: Id<'a>,
    pub(crate) port: Id<'a>,
    /// For how many seconds it holds.
    pub(crate) lifetime: u16,
    /// The MAC address of the chassis.
    pub(crate) mac: Mac,
}

/// The next TLV and the octets after it, if the message does not end here.
#[tactic(auto, unfolding(crate::specs::Message::next_of))]
fn next_at(bytes: &[u8]) -> Result<Option<(Tlv<'_>, &[u8])>, LldpFault>
    ensures { Gives (option_map (λ x. (tlv_as x.0, x.1.now))) result (next_of bytes.now) }
{
    if bytes.is_empty() {
        return Ok(None);
    }
    let (tlv, rest) = tlv_at(bytes)?;
    let kind = tlv.head / TYPE;
    if kind == 0 {
        return Ok(None);
    }
    if kind <= 3 {
        return Err(LldpFault::Repeated);
    }
    Ok(Some((tlv, rest)))
}

/// The MAC address of the chassis, if this TLV tells it.
fn chassis_in(tlv: &Tlv<'_>) -> Option<Mac>
    ensures { result ≡ mac_told (tlv_as tlv.now) }
{
    if tlv.head / TYPE != ORGANIZATION {
        return None;
    }
    chassis_mac_at(tlv.octets).ok()
}

/// The first MAC address in the TLVs.
fn first_told(found: Option<Mac>, tlv: &Tlv<'_>) -> Option<Mac>
    ensures { (other : Mac) → mac_or result other ≡ mac_or found (mac_or (mac_told (tlv_as tlv.now)) other) }
{
    match found {
        Some(mac) => Some(mac),
        None => chassis_in(tlv),
    }
}

/// The MAC address of the chassis, which one of the TLVs after the first three may tell; else the source address.
fn mac_at(bytes: &[u8], source: Mac) -> Result<Mac, LldpFault>
    ensures { Gives (λ mac. mac) result (mac_behind source bytes.now) }
{
    let mut rest = bytes;
    let mut found = None;
    while let Some((tlv, behind)) = next_at(rest)? {
        found = first_told(found, &tlv);
        rest = behind;
    }
    Ok(match found {
        Some(mac) => mac,
        None => source,
    })
}

/// What a message from this source address says.
#[tactic(auto, unfolding(crate::specs::Message::message))]
pub(crate) fn message_at(bytes: &[u8], source: Mac) -> Result<Message<'_>, LldpFault>
    ensures gives { Gives told_as result (told_from source bytes.now) }
    // The identifiers fit their buffers.
    ensures chassis { IfOk result (λ m. length m.chassis.octets.now ≤ 255) }
    ensures port { IfOk result (λ m. length m.port.octets.now ≤ 255) }
{
    let (chassis, rest) = id_at(bytes, CHASSIS)?;
    let (port, rest) = id_at(rest, PORT)?;
    let (lifetime, rest) = lifetime_at(rest)?;
    let mac = mac_at(rest, source)?;
    Ok(Message {
        chassis,
        port,
        lifetime,
        mac,
    })
}
