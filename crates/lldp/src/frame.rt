//! Frames that carry LLDP (IEEE 802.1AB, 7).
ghost use Rattle.std.specs.Prelude.{◌≡◌};
ghost use Rattle.std.specs.Option.{option_map};
ghost use Rattle.wire.specs.Codec.{Gives};
ghost use Rattle.frame_codec.specs.Frame.{longest, mac, tag_and_type};
ghost use Rattle.lldp.specs.Frame.{is_lldp as is_lldp_by, link, told_in as told_of};
ghost use Rattle.lldp.specs.Peer.{told_from, value_of};
ghost use Rattle.lldp.specs.Views.{notice_as};

use crate::message::message_at;
use crate::neighbour::Notice;
use frame_codec::FrameFault;
use pn_values::Mac;
use wire::{octets_at, u16_at};

/// The EtherType that a VLAN tag begins with (IEEE 802.1Q, 9.4).
const VLAN: u16 = 0x8100;

/// The EtherType of LLDP.
pub(crate) const LLDP: u16 = 0x88CC;

/// The address of all stations at the other end of a cable: no bridge forwards it (IEEE 802.1AB, 7.1).
pub(crate) const NEAREST: Mac = Mac {
    octets: [0x01, 0x80, 0xC2, 0x00, 0x00, 0x0E],
};

/// The Ethernet header.
#[derive(Clone, Copy)]
pub(crate) struct Header {
    pub(crate) destination: Mac,
    pub(crate) source: Mac,
    pub(crate) tag: Option<u16>,
    pub(crate) ether_type: u16,
}

/// The maximum length of a frame, in octets.
fn longest_of(tag: Option<u16>) -> usize
    ensures { result ≡ longest tag }
{
    match tag {
        None => 1514,
        Some(_) => 1518,
    }
}

/// A MAC address and the octets after it.
#[tactic(auto, unfolding(frame_codec::specs::Frame::mac))]
fn mac_at(bytes: &[u8]) -> Result<(Mac, &[u8]), FrameFault>
    ensures { Gives (λ x. (x.0, x.1.now)) result (mac.read bytes.now) }
{
    let (octets, rest) = octets_at::<6, FrameFault>(bytes, FrameFault::TooShort)?;
    Ok((Mac { octets }, rest))
}

/// The word of the tag, if there is one, the EtherType, and the octets after it.
#[tactic(auto, unfolding(frame_codec::specs::Frame::tag_and_type))]
fn tag_and_type_at(bytes: &[u8]) -> Result<(Option<u16>, u16, &[u8]), FrameFault>
    ensures { Gives (λ x. ((x.0, x.1), x.2.now)) result (tag_and_type.read bytes.now) }
{
    let (first, rest) = u16_at(bytes, FrameFault::TooShort)?;
    if first != VLAN {
        return Ok((None, first, rest));
    }
    let (tag, rest) = u16_at(rest, FrameFault::TooShort)?;
    let (ether_type, rest) = u16_at(rest, FrameFault::TooShort)?;
    Ok((Some(tag), ether_type, rest))
}

/// The Ethernet header and the octets after it.
#[tactic(auto, unfolding(crate::specs::Frame::link))]
fn header_at(bytes: &[u8]) -> Result<(Header, &[u8]), FrameFault>
    ensures { Gives (λ x. (x.0, x.1.now)) result (link.read bytes.now) }
{
    let (destination, rest) = mac_at(bytes)?;
    let (source, rest) = mac_at(rest)?;
    let (tag, ether_type, rest) = tag_and_type_at(rest)?;
    Ok((
        Header {
            destination,
            source,
            tag,
            ether_type,
        },
        rest,
    ))
}

/// Whether a frame of this length carries LLDP of another station than this one.
fn is_lldp(own: Mac, size: usize, header: &Header) -> bool
    ensures { result ≡ is_lldp_by own size header.now }
{
    size <= longest_of(header.tag)
        && header.destination.is(&NEAREST)
        && header.ether_type == LLDP
        && !header.source.is(&own)
}

/// What a message from this source address tells, if it is one.
fn notice_of(source: Mac, bytes: &[u8]) -> Option<Notice>
    ensures { option_map notice_as result ≡ value_of (told_from source bytes.now) }
{
    match message_at(bytes, source) {
        Ok(read) => Some(Notice::of(&read)),
        Err(_) => None,
    }
}

/// What a frame tells the station of this MAC address of a neighbour, if it carries a message of one.
#[tactic(auto, unfolding(crate::specs::Frame::told_in))]
pub(crate) fn told_in(own: Mac, bytes: &[u8]) -> Option<Notice>
    ensures { option_map notice_as result ≡ told_of own bytes.now }
{
    let Ok((header, rest)) = header_at(bytes) else {
        return None;
    };
    if !is_lldp(own, bytes.len(), &header) {
        return None;
    }
    notice_of(header.source, rest)
}
