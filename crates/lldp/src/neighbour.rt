//! A neighbour, and the name that a station has by it.
ghost use Rattle.std.specs.Prelude.{◌≡◌, ◌*◌, ◌≤◌, ◌<◌, ◌==◌, ◌&&◌, length, nat_eq};
ghost use Rattle.std.specs.List.{flat_map, list_any};
ghost use Rattle.std.specs.Cmp.Lexicographic.{pointwise};
ghost use Rattle.pn_values.specs.StationName.{dot};
ghost use Rattle.lldp.specs.Peer.{alias_of, chassis_text as text_of_chassis, dashed_octet, digit as digit_of, is_same as is_same_peer};
ghost use Rattle.lldp.specs.Views.{id_as, notice_as, peer_as, told_as};

use crate::message::Message;
use crate::tlv::Id;
use arrayvec::ArrayVec;
use pn_values::Mac;
use wire::{append, append_u8};

/// The subtype of an identifier that is a MAC address.
const MAC_ADDRESS: u8 = 4;

/// A neighbour: the station at the other end of the cable.
#[derive(Drop)]
pub struct Neighbour {
    /// The text of its ChassisID: mostly its station name. A MAC address reads as `02-00-00-00-00-01`.
    pub chassis: ArrayVec<u8, 255>,
    /// The text of its PortID.
    pub port: ArrayVec<u8, 255>,
    /// The MAC address of its chassis.
    pub mac: Mac,
}

/// What a message tells.
#[derive(Drop)]
pub(crate) struct Notice {
    pub(crate) neighbour: Neighbour,
    /// For how many seconds the neighbour is valid (TTL).
    pub(crate) lifetime: u16,
}

/// A hexadecimal digit in lower case.
fn digit(number: u8) -> u8
    requires { number < 16 }
    ensures { result ≡ digit_of number }
{
    if number < 10 {
        b'0' + number
    } else {
        87 + number
    }
}

/// A hyphen and two hexadecimal digits for each octet.
pub(crate) fn hyphenated(octets: &[u8]) -> ArrayVec<u8, 18>
    requires { length octets.now ≤ 6 }
    ensures items { result.items ≡ flat_map dashed_octet octets.now }
    ensures len { length result.items ≡ 3 * length octets.now }
{
    let mut text = ArrayVec::new();
    for octet in octets {
        append(&mut text, &[b'-', digit(*octet / 16), digit(*octet % 16)]);
    }
    text
}

/// The text of a ChassisID.
fn chassis_text(id: &Id<'_>) -> ArrayVec<u8, 255>
    requires { length id.now.octets.now ≤ 255 }
    ensures { result.items ≡ text_of_chassis (id_as id.now) }
{
    let mut text = ArrayVec::new();
    if id.subtype == MAC_ADDRESS && id.octets.len() == 6 {
        append(&mut text, &hyphenated(id.octets).as_slice()[1..]);
    } else {
        append(&mut text, id.octets);
    }
    text
}

impl Notice {
    /// What a message tells.
    pub(crate) fn of(message: &Message<'_>) -> Notice
        requires chassis { length message.now.chassis.octets.now ≤ 255 }
        requires port { length message.now.port.octets.now ≤ 255 }
        ensures { notice_as result ≡ told_as message.now }
    {
        let mut port = ArrayVec::new();
        append(&mut port, message.port.octets);
        Notice {
            neighbour: Neighbour {
                chassis: chassis_text(&message.chassis),
                port,
                mac: message.mac,
            },
            lifetime: message.lifetime,
        }
    }
}

impl Neighbour {
    /// A copy of the neighbour. It is not `Clone`: a clone may run out of memory, and this cannot.
    pub fn copy(&self) -> Neighbour
        ensures { peer_as result ≡ peer_as self.now }
    {
        let mut chassis = ArrayVec::new();
        append(&mut chassis, self.chassis.as_slice());
        let mut port = ArrayVec::new();
        append(&mut port, self.port.as_slice());
        Neighbour {
            chassis,
            port,
            mac: self.mac,
        }
    }

    /// Whether two messages are of the same chassis and port.
    pub(crate) fn is_same(&self, other: &Neighbour) -> bool
        ensures { result ≡ is_same_peer (peer_as self.now) (peer_as other.now) }
    {
        self.chassis.as_slice() == other.chassis.as_slice()
            && self.port.as_slice() == other.port.as_slice()
    }

    /// Whether two messages are of the same chassis and port, with the same MAC address.
    pub(crate) fn is_exactly(&self, other: &Neighbour) -> bool
        ensures { result ≡ (is_same_peer (peer_as self.now) (peer_as other.now) && pointwise nat_eq self.now.mac.octets other.now.mac.octets) }
    {
        self.is_same(other) && self.mac.is(&other.mac)
    }

    /// The name of the station by its place (AliasName): the PortID of its neighbour if it has a dot, else the PortID, a
    /// dot and the ChassisID.
    pub fn alias(&self) -> ArrayVec<u8, 511>
        ensures { result.items ≡ alias_of (peer_as self.now) }
    {
        let mut text = ArrayVec::new();
        append(&mut text, self.port.as_slice());
        if !self.has_dot() {
            append_u8(&mut text, b'.');
            append(&mut text, self.chassis.as_slice());
        }
        text
    }

    /// Whether the PortID has a dot.
    fn has_dot(&self) -> bool
        ensures { result ≡ list_any (λ byte. byte == dot) self.now.port.items }
    {
        self.port.as_slice().contains(&b'.')
    }
}
