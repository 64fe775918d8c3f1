/// What the host knows of the link (IEEE 802.3, 30.6.1 and 30.5.1.1.2).
#[derive(Clone, Copy, Debug, PartialEq, Eq)]
pub struct Link {
    /// Whether autonegotiation is supported (1) and enabled (2).
    pub support: u8,
    /// What is advertised: the bits of `ifAutoNegCapAdvertised`.
    pub capability: u16,
    /// `dot3MauType`, as 16 for 100BASE-TX in full duplex.
    pub mau_type: u16,
}
