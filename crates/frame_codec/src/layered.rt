use crate::{Arp, ContentKind, Udp};
use pn_values::Mac;

/// A frame, layer by layer.
#[derive(Clone, Copy, Debug, PartialEq, Eq)]
pub struct Layered<'a> {
    /// The destination address.
    pub destination: Mac,
    /// The source address.
    pub source: Mac,
    /// The tag control information of its VLAN tag (IEEE 802.1Q, 9.6), if it has one.
    pub tag: Option<u16>,
    /// What it carries.
    pub payload: Payload<'a>,
}

/// The content of a frame.
#[derive(Clone, Copy, Debug, PartialEq, Eq)]
pub enum Payload<'a> {
    /// EtherType 0x8892: the FrameID and all octets after it, including padding.
    RealTime { frame_id: u16, body: &'a [u8] },
    /// EtherType 0x0806: a packet of ARP.
    Arp(Arp),
    /// EtherType 0x0800: a datagram of UDP in a packet of IPv4.
    Udp(Udp<'a>),
}

/// A frame whose Ethernet header has been read and whose length has been judged. Its content is not read yet.
#[derive(Clone, Copy, Debug, PartialEq, Eq)]
pub struct OpenFrame<'a> {
    /// The destination address.
    pub destination: Mac,
    /// The source address.
    pub source: Mac,
    /// The tag control information of its VLAN tag (IEEE 802.1Q, 9.6), if it has one.
    pub tag: Option<u16>,
    /// The kind of content that its EtherType names.
    pub kind: ContentKind,
    /// All octets after the EtherType, including padding.
    pub content: &'a [u8],
}

/// A frame of EtherType 0x8892, layer by layer.
#[derive(Clone, Copy, Debug, PartialEq, Eq)]
pub struct RealTimeFrame<'a> {
    /// The destination address.
    pub destination: Mac,
    /// The source address.
    pub source: Mac,
    /// The tag control information of its VLAN tag (IEEE 802.1Q, 9.6), if it has one.
    pub tag: Option<u16>,
    /// The FrameID.
    pub frame_id: u16,
    /// All octets after the FrameID, including padding.
    pub body: &'a [u8],
}

/// A frame of EtherType 0x8892 to be written, with its body in two pieces, so that they need not be copied together
/// first.
#[derive(Clone, Copy, Debug, PartialEq, Eq)]
pub struct Pieces<'a> {
    /// The destination address.
    pub destination: Mac,
    /// The source address.
    pub source: Mac,
    /// The tag control information of its VLAN tag (IEEE 802.1Q, 9.6), if it has one.
    pub tag: Option<u16>,
    /// The FrameID.
    pub frame_id: u16,
    /// The first octets after the FrameID.
    pub front: &'a [u8],
    /// The octets after `front`.
    pub behind: &'a [u8],
}
