//! What a frame means to a device.
ghost use Rattle.std.specs.Prelude.{◌≡◌, ◌==◌, ◌&&◌, ◌||◌, IfNone, IfSome, List, ℕ, nat_eq};
ghost use Rattle.std.specs.Cmp.Lexicographic.{pointwise};
ghost use Rattle.device_frames.specs.Heard.{Unreadable, broadcast, heard_content, heard_of, is_own as is_own_by, is_taken as is_taken_by};
ghost use Rattle.device_frames.specs.Hearing.{heard_as, heard_in};
ghost use Rattle.device_frames.specs.declared.event.Event.TheVariants.{Frame};
ghost use Rattle.frame_codec.specs.Calls.{call_port};
ghost use Rattle.frame_codec.specs.Frame.{frame_of};
ghost use Rattle.frame_codec.specs.Meaning.{IsNoRealTime, RealTime};
ghost use Rattle.frame_codec.specs.declared.ethernet.ContentKind.TheVariants as kind;

use frame_codec::{
    DCP_GET_SET, DCP_IDENTIFY_REQUEST, OpenFrame, RPC_PORT, RealTimeFrame, is_alarm, is_cyclic,
    open, read_real_time,
};
use pn_values::{Identity, Mac};

/// The multicast address of Identify requests (IEC 61158-6-10, 4.3.1.3.1).
const IDENTIFY_MULTICAST: Mac = Mac {
    octets: [0x01, 0x0E, 0xCF, 0x00, 0x00, 0x00],
};

/// The broadcast address (IEEE 802, 8.2.2).
const BROADCAST: Mac = Mac { octets: [0xFF; 6] };

/// Reads a frame of EtherType 0x8892, if it is one.
#[inline(always)]
#[tactic(auto, unfolding(crate::specs::Heard::heard_of))]
pub fn real_time_in(octets: &[u8]) -> Option<RealTimeFrame<'_>>
    ensures found { IfSome result (λ frame. (identity : Identity) →
        heard_of identity (Frame (record { items = octets.now }))
        ≡ heard_content identity frame.destination frame.source (RealTime frame.frame_id frame.body.now)) }
    // `None` is returned only for octets that are not a frame of real-time data.
    ensures none { IfNone result (IsNoRealTime (frame_of octets.now)) }
{
    read_real_time(octets)
}

/// Reads the Ethernet header of a frame. Returns `None` if it cannot be read.
#[inline(always)]
#[tactic(auto, using(crate::proofs::Unread::other_is_unread), unfolding(crate::specs::Heard::heard_of))]
pub fn open_frame(octets: &[u8]) -> Option<OpenFrame<'_>>
    ensures said { (identity : Identity) → heard_of identity (Frame (record { items = octets.now })) ≡ heard_in identity result }
    // A frame with EtherType 0x8892 that carries no real-time data cannot be read: its FrameID is incomplete.
    ensures short { IfSome result (λ frame. IsNoRealTime (frame_of octets.now) → frame.kind ≡ kind.RealTime →
        (identity : Identity) → heard_of identity (Frame (record { items = octets.now })) ≡ Unreadable) }
{
    open(octets).ok()
}

/// What a frame of EtherType 0x8892 means to a device.
#[derive(Clone, Copy)]
pub enum RealTimeKind {
    /// A DCP request that the device accepts.
    Request,
    /// An alarm frame to this station.
    Alarm,
    /// A cyclic frame to this station.
    Cyclic,
    /// A frame for another station, or of a kind that a device does not accept.
    Elsewhere,
}

/// What a frame with this destination and FrameID is.
#[inline(always)]
pub fn kind_of(identity: &Identity, destination: Mac, frame_id: u16) -> RealTimeKind
    ensures { (source : Mac) (body : List ℕ) → heard_content identity.now destination source (RealTime frame_id body)
        ≡ heard_as result source frame_id body }
{
    if !is_own(identity, destination) {
        // Only an Identify may ask all stations: a Set would give each of them the same name, and cyclic data and
        // alarms go to one station.
        if frame_id == DCP_IDENTIFY_REQUEST && destination.is(&IDENTIFY_MULTICAST) {
            return RealTimeKind::Request;
        }
        return RealTimeKind::Elsewhere;
    }
    if is_cyclic(frame_id) {
        return RealTimeKind::Cyclic;
    }
    if is_alarm(frame_id) {
        return RealTimeKind::Alarm;
    }
    match frame_id {
        DCP_GET_SET | DCP_IDENTIFY_REQUEST => RealTimeKind::Request,
        _ => RealTimeKind::Elsewhere,
    }
}

/// Whether an ARP packet with this destination is for the device: to its own address or to all stations.
pub fn is_asked(identity: &Identity, destination: Mac) -> bool
    ensures { result ≡ (is_own_by identity.now destination || pointwise nat_eq destination.octets broadcast) }
{
    is_own(identity, destination) || destination.is(&BROADCAST)
}

/// Whether a datagram with this destination and port is for the device: to its own address and to the port of calls.
pub fn is_called(identity: &Identity, destination: Mac, port: u16) -> bool
    ensures { result ≡ (is_own_by identity.now destination && port == call_port) }
{
    is_own(identity, destination) && port == RPC_PORT
}

// Whether a frame with this destination is for this device only.
fn is_own(identity: &Identity, destination: Mac) -> bool
    ensures { result ≡ is_own_by identity.now destination }
{
    destination.is(&identity.mac)
}
