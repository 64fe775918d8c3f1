//! The header of a packet of IPv4 (RFC 791) that carries ICMP (RFC 792).
ghost use Rattle.std.specs.Prelude.{◌≡◌, ◌+◌, ◌≤◌, [], ◌++◌, IfOk};
ghost use Rattle.arrayvec.specs.ArrayVec.{array_vec_len};
ghost use Rattle.wire.specs.Codec.{Gives};
ghost use Rattle.wire.specs.Checks.{fixed};
ghost use Rattle.frame_codec.specs.Internet.{internet_size, size_behind};
ghost use Rattle.services.specs.Message.{icmp_way, icmp_packet, packet_sealed};

use arrayvec::ArrayVec;
use frame_codec::{FrameFault, ones_sum};
use wire::{append, append_u8, append_u16, octets_at, u8_at, u16_at};

/// Version 4, and a header of five words of 32 bits.
const VERSION_AND_LENGTH: u8 = 0x45;

/// 'Do not fragment', and the offset 0.
const DO_NOT_FRAGMENT: u16 = 0x4000;

/// The time to live that is sent: how many stations may forward the packet.
const TIME_TO_LIVE: u8 = 64;

/// The protocol number of ICMP.
const ICMP: u8 = 1;

/// The fields of a header that depend on the packet.
#[derive(Clone, Copy)]
pub(crate) struct IcmpPacket {
    /// The number of octets after the header.
    pub(crate) size: u16,
    pub(crate) checksum: u16,
    pub(crate) source: [u8; 4],
    pub(crate) destination: [u8; 4],
}

/// The octets after a number of one octet that must have this value.
pub(crate) fn fixed_u8_at(bytes: &[u8], value: u8) -> Result<&[u8], FrameFault>
    ensures { Gives (λ x. (tt, x.now)) result ((fixed FrameFault.IpHeader 1 value).read bytes.now) }
{
    let (number, rest) = u8_at(bytes, FrameFault::IpHeader)?;
    if number != value {
        return Err(FrameFault::IpHeader);
    }
    Ok(rest)
}

/// How many octets follow a header of 20 octets, and the octets after the total length.
#[tactic(auto, unfolding(frame_codec::specs::Internet::size_behind))]
fn size_behind_at(bytes: &[u8]) -> Result<(u16, &[u8]), FrameFault>
    ensures { Gives (λ x. (x.0, x.1.now)) result ((size_behind FrameFault.IpHeader 20 28).read bytes.now) }
{
    let (length, rest) = u16_at(bytes, FrameFault::IpHeader)?;
    if length < 28 {
        return Err(FrameFault::IpHeader);
    }
    Ok((length - 20, rest))
}

/// How many octets follow the header, and the octets after the identification.
#[tactic(auto, unfolding(frame_codec::specs::Internet::internet_size))]
fn size_at(bytes: &[u8]) -> Result<(u16, &[u8]), FrameFault>
    ensures { Gives (λ x. (x.0, x.1.now)) result (internet_size.read bytes.now) }
{
    let rest = fixed_u8_at(bytes, VERSION_AND_LENGTH)?;
    // The type of service concerns the routers on the way. The receiver ignores it.
    let (_service, rest) = u8_at(rest, FrameFault::IpHeader)?;
    let (size, rest) = size_behind_at(rest)?;
    let (_identification, rest) = u16_at(rest, FrameFault::IpHeader)?;
    Ok((size, rest))
}

/// The octets after the protocol field. The packet is not a fragment and carries ICMP.
#[tactic(auto, unfolding(crate::specs::Message::icmp_way))]
fn way_at(bytes: &[u8]) -> Result<&[u8], FrameFault>
    ensures { Gives (λ x. (tt, x.now)) result (icmp_way.read bytes.now) }
{
    let (fragment, rest) = u16_at(bytes, FrameFault::IpHeader)?;
    // 'Do not fragment' and the reserved bit are ignored: only 'more fragments' and the offset are judged.
    if fragment % 0x4000 != 0 {
        return Err(FrameFault::IpHeader);
    }
    // The packet has arrived, so the remaining time to live is ignored.
    let (_life, rest) = u8_at(rest, FrameFault::IpHeader)?;
    fixed_u8_at(rest, ICMP)
}

/// A header and the octets after it. Its checksum is not judged.
#[tactic(auto, unfolding(crate::specs::Message::icmp_packet))]
pub(crate) fn packet_at(bytes: &[u8]) -> Result<(IcmpPacket, &[u8]), FrameFault>
    ensures { Gives (λ x. (x.0, x.1.now)) result (icmp_packet.read bytes.now) }
{
    let (size, rest) = size_at(bytes)?;
    let rest = way_at(rest)?;
    let (checksum, rest) = u16_at(rest, FrameFault::IpHeader)?;
    let (source, rest) = octets_at::<4, FrameFault>(rest, FrameFault::IpHeader)?;
    let (destination, rest) = octets_at::<4, FrameFault>(rest, FrameFault::IpHeader)?;
    Ok((
        IcmpPacket {
            size,
            checksum,
            source,
            destination,
        },
        rest,
    ))
}

/// Appends the fields before the fragment word.
#[tactic(auto, unfolding(frame_codec::specs::Internet::internet_size, frame_codec::specs::Internet::size_behind))]
fn put_size<const N: usize>(out: &mut ArrayVec<u8, N>, size: u16)
    requires room { array_vec_len out.old + 6 ≤ N }
    requires least { 8 ≤ size }
    requires most { size ≤ 1480 }
    ensures items { out.new.items ≡ out.old.items ++ internet_size.write size [] }
    ensures len { array_vec_len out.new ≡ array_vec_len out.old + 6 }
    ensures fits { internet_size.Fits size }
{
    append_u8(out, VERSION_AND_LENGTH);
    append_u8(out, 0);
    append_u16(out, size + 20);
    append_u16(out, 0);
}

/// Appends the fragment word, the time to live and the protocol.
#[tactic(auto, unfolding(crate::specs::Message::icmp_way))]
fn put_way<const N: usize>(out: &mut ArrayVec<u8, N>)
    requires room { array_vec_len out.old + 4 ≤ N }
    ensures items { out.new.items ≡ out.old.items ++ icmp_way.write tt [] }
    ensures len { array_vec_len out.new ≡ array_vec_len out.old + 4 }
    ensures fits { icmp_way.Fits tt }
{
    append_u16(out, DO_NOT_FRAGMENT);
    append_u8(out, TIME_TO_LIVE);
    append_u8(out, ICMP);
}

/// Appends a header with the checksum that it holds.
#[tactic(auto, unfolding(crate::specs::Message::icmp_packet))]
pub(crate) fn put_packet<const N: usize>(out: &mut ArrayVec<u8, N>, header: &IcmpPacket)
    requires room { array_vec_len out.old + 20 ≤ N }
    requires least { 8 ≤ header.now.size }
    requires most { header.now.size ≤ 1480 }
    ensures items { out.new.items ≡ out.old.items ++ icmp_packet.write header.now [] }
    ensures len { array_vec_len out.new ≡ array_vec_len out.old + 20 }
    ensures fits { icmp_packet.Fits header.now }
{
    put_size(out, header.size);
    put_way(out);
    append_u16(out, header.checksum);
    append(out, &header.source);
    append(out, &header.destination);
}

impl IcmpPacket {
    /// The header with its checksum in place of the 0 in that field.
    pub(crate) fn seal(self) -> IcmpPacket
        requires least { 8 ≤ self.size }
        requires most { self.size ≤ 1480 }
        ensures { result ≡ packet_sealed self }
    {
        let mut octets = ArrayVec::<u8, 20>::new();
        put_packet(&mut octets, &self);
        IcmpPacket {
            checksum: 0xFFFF - ones_sum(octets.as_slice()),
            ..self
        }
    }
}
