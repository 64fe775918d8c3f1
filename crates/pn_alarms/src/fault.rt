/// Why octets are not a PDU of an alarm, or do not carry a block of the expected type. If a PDU has several faults, the
/// leftmost counts.
#[derive(Clone, Copy, Debug, PartialEq, Eq)]
pub enum AlarmFault {
    /// The header of 12 octets is incomplete, or fewer octets than VarPartLen counts follow it.
    Short,
    /// PDUType is not one of the four types.
    Type,
    /// An ERR has fewer than the four octets of its PNIOStatus.
    Cause,
    /// Data does not begin with a complete block of the expected type.
    Block,
}
