//! PDUs of alarms as values.
ghost use Rattle.std.specs.Prelude.{◌≡◌};
ghost use Rattle.pn_alarms.specs.Format.{octet_of, kind_of, flags_of, frame_id_of, is_long};

/// The type of a PDU (PDUType, IEC 61158-6-10, 4.8).
#[derive(Clone, Copy, Debug, PartialEq, Eq)]
pub enum PduType {
    /// 0x11: it carries a block, has a number, and is acknowledged.
    Data,
    /// 0x12: data was refused.
    Nack,
    /// 0x13: data was accepted, now or before.
    Ack,
    /// 0x14: ERR, which ends the relation and carries the reason.
    Error,
}

impl PduType {
    /// The type with this octet, if there is one.
    pub(crate) fn of(octet: u8) -> Option<PduType>
        ensures { result ≡ kind_of octet }
    {
        match octet {
            0x11 => Some(PduType::Data),
            0x12 => Some(PduType::Nack),
            0x13 => Some(PduType::Ack),
            0x14 => Some(PduType::Error),
            _ => None,
        }
    }

    /// The octet of this type.
    pub fn octet(self) -> u8
        ensures { result ≡ octet_of self }
    {
        match self {
            PduType::Data => 0x11,
            PduType::Nack => 0x12,
            PduType::Ack => 0x13,
            PduType::Error => 0x14,
        }
    }

    /// AddFlags: the window size 1 and, for data, the request to acknowledge it.
    pub(crate) fn flags(self) -> u8
        ensures { result ≡ flags_of self }
    {
        match self {
            PduType::Data => 0x11,
            _ => 0x01,
        }
    }

    /// The FrameID of the frame: ERR is sent as an alarm of low priority, the other types as alarms of high priority.
    pub fn frame_id(self) -> u16
        ensures { result ≡ frame_id_of self }
    {
        match self {
            PduType::Error => 0xFE01,
            _ => 0xFC01,
        }
    }

    /// Whether a body of this many octets is long enough for this type.
    pub(crate) fn is_long(self, size: usize) -> bool
        ensures { result ≡ is_long self size }
    {
        match self {
            PduType::Error => size >= 4,
            _ => true,
        }
    }
}

/// The fields before the body of a PDU.
#[derive(Clone, Copy, Debug, PartialEq, Eq)]
pub struct Header {
    /// AlarmDstEndpoint: the relation of the receiver that the PDU belongs to.
    pub destination: u16,
    /// AlarmSrcEndpoint: the relation of the sender that the PDU belongs to.
    pub source: u16,
    pub kind: PduType,
    /// SendSeqNum: the number of the last data that the sender sent.
    pub send_number: u16,
    /// AckSeqNum: the number of the last data that the sender accepted.
    pub ack_number: u16,
}

/// A PDU of an alarm: the octets that follow the FrameID.
#[derive(Clone, Copy)]
pub struct Pdu<'a> {
    pub header: Header,
    /// The VarPartLen octets of the body: the block of data, or the PNIOStatus of an ERR.
    pub body: &'a [u8],
}
