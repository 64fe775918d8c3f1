//! What of a frame concerns the services.
use crate::{Called, EchoRequest};
use frame_codec::Arp;
use pn_values::Mac;

/// What of a frame concerns the services of a station. The frame is read once, and no further than it concerns them.
#[derive(Clone, Copy)]
pub enum Concern<'a> {
    /// Nothing.
    Nothing,
    /// Nothing. It is a frame of another EtherType than those of PROFINET, ARP and IPv4.
    OtherType,
    /// It carries a packet of ARP.
    Packet {
        /// The destination address of the frame.
        destination: Mac,
        /// The source address of the frame.
        source: Mac,
        /// The packet.
        packet: Arp,
    },
    /// It brings a call to the station.
    Call(Called<'a>),
    /// It carries an echo request that the station answers.
    Echo(EchoRequest<'a>),
}
