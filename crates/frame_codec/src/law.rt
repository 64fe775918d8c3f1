//! Laws of the formats.
ghost use Rattle.std.specs.Prelude.{◌≡◌, ◌≤◌, ◌<◌, List, ℕ, length};
ghost use Rattle.wire.specs.Codec.{IsSound, IsSoundWhole};
ghost use Rattle.frame_codec.specs.declared.udp.Endpoint.{Endpoint};
ghost use Rattle.frame_codec.specs.Meaning.{Meaning, UdpDatagram};
ghost use Rattle.frame_codec.specs.Frame.{FitsFrame, IsReadBack, datagram, layers, ethernet};

/// What fits the formats is read back after it is written. These are laws of the definitions. No code is involved.
pub fn fitting_frames_are_read()
    // A frame whose layers and length fit is read back.
    ensures back { (meaning : Meaning) → FitsFrame meaning → layers.Fits meaning → IsReadBack meaning }
    // A datagram fits if its addresses, ports and body do: its computed lengths and checksums always fit.
    ensures datagram { (from to : Endpoint) (body : List ℕ) → length from.address ≡ 4 → length to.address ≡ 4 → from.port < 65536 →
        to.port < 65536
        → length body ≤ 1472 → datagram.Fits (UdpDatagram from to body) }
{}

/// Reading, writing and spelling agree. These are laws of the definitions. No code is involved.
pub fn formats_are_sound()
    // The format of the Ethernet header is sound, whatever follows it.
    ensures ethernet { IsSound ethernet }
    // The format of all layers together is sound.
    ensures layers { IsSoundWhole layers }
{}
