// The faults of a frame.
ghost use Rattle.std.specs.Prelude.{◌≡◌};
ghost use Rattle.frame_codec.specs.FrameFault.{number_of};

/// Why octets are not a frame. The outermost layer is judged first.
#[derive(Clone, Copy, Debug, PartialEq, Eq)]
pub enum FrameFault {
    /// The Ethernet header, its tag or the FrameID is incomplete.
    TooShort = 1,
    /// More than 1,514 octets, or 1,518 with a tag.
    TooLong = 2,
    /// A second tag follows the first.
    Tag = 3,
    /// This station does not read the EtherType.
    EtherType = 4,
    /// This station does not read the packet of IPv4: another version, header or protocol, a fragment, or a total
    /// length that is below 28 octets or above the number of octets received.
    IpHeader = 5,
    /// The ones' complement sum of the IPv4 header is not all ones.
    IpChecksum = 6,
    /// The length of the datagram of UDP is below 8 octets or above the length that the packet holds.
    UdpLength = 7,
    /// The datagram of UDP has a checksum, and the ones' complement sum of its octets and the pseudo header is not all
    /// ones.
    UdpChecksum = 8,
    /// The packet of ARP is incomplete, is not for Ethernet and IPv4, or is neither a request nor a reply.
    Arp = 9,
}

impl FrameFault {
    /// The number of the fault, 1 to 9.
    pub fn number(self) -> u8
        ensures { result ≡ number_of self }
    {
        self as u8
    }
}
