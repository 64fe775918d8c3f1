//! The faults of a message.

/// Why octets are no message of LLDP (IEEE 802.1AB, 9.2.7.7.1). Such a message is dropped as a whole.
#[derive(Clone, Copy, Debug, PartialEq, Eq)]
pub enum LldpFault {
    /// A TLV is not complete.
    Short,
    /// The first three TLVs are not ChassisID, PortID and the time to live.
    Order,
    /// An identifier has not 2 to 256 octets.
    Length,
    /// One of the first three TLVs comes again.
    Repeated,
}
