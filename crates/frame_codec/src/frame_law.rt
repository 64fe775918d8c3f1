//! The laws of frames.
ghost use Rattle.std.specs.Prelude.{◌≡◌, ◌<◌, ◌++◌, IsErr, List, ℕ, length, Ok, Option};
ghost use Rattle.pn_values.specs.declared.mac.Mac.{Mac};
ghost use Rattle.frame_codec.specs.declared.arp.Arp.{Arp};
ghost use Rattle.frame_codec.specs.declared.udp.Endpoint.{Endpoint};
ghost use Rattle.frame_codec.specs.Meaning.{ArpPacket, Meaning, RealTime, UdpDatagram};
ghost use Rattle.frame_codec.specs.Frame.{IsReadBack, frame_bytes, frame_of, padding_of};
ghost use Rattle.frame_codec.specs.Sendable.{CanBeSent, IsMac, IsRealTimeOrNone, IsTag, carrying};

use crate::law::{fitting_frames_are_read, formats_are_sound};

/// A written frame is read back. These are laws of the definitions. No code is involved.
pub fn frames_are_read()
    // Whatever a frame that can be sent carries, it has at least 60 octets and at most as many as a frame may have. It
    // is read as the given meaning with its padding added, also with more octets after it, up to the limit.
    ensures back { (meaning : Meaning) → CanBeSent meaning → IsReadBack meaning }
    // Real-time data that can be sent is read with the padding at its end.
    ensures real_time { (destination source : Mac) (tag : Option ℕ) (frame_id : ℕ) (body : List ℕ)
        → CanBeSent (carrying destination source tag (RealTime frame_id body))
        → frame_of (frame_bytes (carrying destination source tag (RealTime frame_id body)))
        ≡ Ok (carrying destination source tag (RealTime frame_id (body
        ++ padding_of (carrying destination source tag (RealTime frame_id body))))) }
    // A packet of ARP that can be sent is read back without the padding, since its own length says where it ends.
    ensures arp { (destination source : Mac) (tag : Option ℕ) (packet : Arp)
        → CanBeSent (carrying destination source tag (ArpPacket packet))
        → frame_of (frame_bytes (carrying destination source tag (ArpPacket packet)))
        ≡ Ok (carrying destination source tag (ArpPacket packet)) }
    // A datagram of UDP that can be sent is read back without the padding, since its own lengths say where it ends.
    ensures udp { (destination source : Mac) (tag : Option ℕ) (from to : Endpoint) (body : List ℕ)
        → CanBeSent (carrying destination source tag (UdpDatagram from to body))
        → frame_of (frame_bytes (carrying destination source tag (UdpDatagram from to body)))
        ≡ Ok (carrying destination source tag (UdpDatagram from to body)) }
    // Real-time data of any length and FrameID is never read as a packet of ARP or as a datagram.
    ensures alone { (destination source : Mac) (tag : Option ℕ) (frame_id : ℕ) (body : List ℕ) → IsMac destination → IsMac source →
        IsTag tag
        → IsRealTimeOrNone (frame_of (frame_bytes (carrying destination source tag (RealTime frame_id body)))) }
    // A datagram that does not fit a frame is never read.
    ensures long { (destination source : Mac) (tag : Option ℕ) (from to : Endpoint) (body : List ℕ) → IsMac destination → IsMac source →
        IsTag tag
        → length from.address ≡ 4 → length to.address ≡ 4 → 1472 < length body
        → IsErr (frame_of (frame_bytes (carrying destination source tag (UdpDatagram from to body)))) }
{
    fitting_frames_are_read();
    formats_are_sound();
}
