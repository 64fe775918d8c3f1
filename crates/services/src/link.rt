//! The Ethernet header and its VLAN tag.
ghost use Rattle.std.specs.Prelude.{◌≡◌, ◌+◌, ◌≤◌, [], ◌++◌, None};
ghost use Rattle.std.specs.Option.{option_map};
ghost use Rattle.arrayvec.specs.ArrayVec.{array_vec_len};
ghost use Rattle.wire.specs.Codec.{Gives};
ghost use Rattle.frame_codec.specs.Frame.{mac, tag_and_type, longest};
ghost use Rattle.services.specs.Concern.{opened};
ghost use Rattle.services.specs.Echo.{internet_link, link};

use arrayvec::ArrayVec;
use frame_codec::FrameFault;
use pn_values::Mac;
use wire::{append, append_u16, octets_at, u16_at};

/// The EtherType that a VLAN tag begins with (IEEE 802.1Q, 9.4).
const VLAN: u16 = 0x8100;

/// The EtherType of IPv4.
pub(crate) const INTERNET: u16 = 0x0800;

/// The EtherType of ARP.
pub(crate) const ADDRESS_RESOLUTION: u16 = 0x0806;

/// The EtherType of PROFINET.
pub(crate) const PROFINET: u16 = 0x8892;

/// The addresses, the word of the tag if there is one, and the EtherType.
#[derive(Clone, Copy)]
pub(crate) struct LinkHeader {
    pub(crate) destination: Mac,
    pub(crate) source: Mac,
    pub(crate) tag: Option<u16>,
    pub(crate) ether_type: u16,
}

/// The maximum length of a frame, in octets.
fn longest_of(tag: Option<u16>) -> usize
    ensures { result ≡ longest tag }
{
    match tag {
        None => 1514,
        Some(_) => 1518,
    }
}

/// A MAC address and the octets after it.
#[tactic(auto, unfolding(frame_codec::specs::Frame::mac))]
fn mac_at(bytes: &[u8]) -> Result<(Mac, &[u8]), FrameFault>
    ensures { Gives (λ x. (x.0, x.1.now)) result (mac.read bytes.now) }
{
    let (octets, rest) = octets_at::<6, FrameFault>(bytes, FrameFault::TooShort)?;
    Ok((Mac { octets }, rest))
}

/// The word of the tag, if there is one, the EtherType, and the octets after it.
#[tactic(auto, unfolding(frame_codec::specs::Frame::tag_and_type))]
fn tag_and_type_at(bytes: &[u8]) -> Result<(Option<u16>, u16, &[u8]), FrameFault>
    ensures { Gives (λ x. ((x.0, x.1), x.2.now)) result (tag_and_type.read bytes.now) }
{
    let (first, rest) = u16_at(bytes, FrameFault::TooShort)?;
    if first != VLAN {
        return Ok((None, first, rest));
    }
    let (tag, rest) = u16_at(rest, FrameFault::TooShort)?;
    let (ether_type, rest) = u16_at(rest, FrameFault::TooShort)?;
    Ok((Some(tag), ether_type, rest))
}

/// The Ethernet header and the octets after it.
#[tactic(auto, unfolding(crate::specs::Echo::link))]
fn link_at(bytes: &[u8]) -> Result<(LinkHeader, &[u8]), FrameFault>
    ensures { Gives (λ x. (x.0, x.1.now)) result (link.read bytes.now) }
{
    let (destination, rest) = mac_at(bytes)?;
    let (source, rest) = mac_at(rest)?;
    let (tag, ether_type, rest) = tag_and_type_at(rest)?;
    Ok((
        LinkHeader {
            destination,
            source,
            tag,
            ether_type,
        },
        rest,
    ))
}

/// The Ethernet header of a frame and the octets after it, unless the header is incomplete or the frame too long.
#[tactic(auto, unfolding(crate::specs::Concern::opened))]
pub(crate) fn open(bytes: &[u8]) -> Option<(LinkHeader, &[u8])>
    ensures { option_map (λ x. (x.0, x.1.now)) result ≡ opened bytes.now }
{
    let Ok((link, content)) = link_at(bytes) else {
        return None;
    };
    if bytes.len() > longest_of(link.tag) {
        return None;
    }
    Some((link, content))
}

/// Appends the Ethernet header of a packet of IPv4, without a tag.
#[tactic(auto, unfolding(crate::specs::Echo::link, frame_codec::specs::Frame::mac, frame_codec::specs::Frame::tag_and_type))]
pub(crate) fn put_link<const N: usize>(out: &mut ArrayVec<u8, N>, destination: Mac, source: Mac)
    requires { array_vec_len out.old + 14 ≤ N }
    ensures items { out.new.items ≡ out.old.items ++ link.write (internet_link destination source) [] }
    ensures len { array_vec_len out.new ≡ array_vec_len out.old + 14 }
{
    append(out, &destination.octets);
    append(out, &source.octets);
    append_u16(out, INTERNET);
}
