//! The PDU that ends a relation.
ghost use Rattle.std.specs.Prelude.{◌≡◌, ◌<◌, length, true};
ghost use Rattle.pn_alarms.specs.Format.{said, is_long};
ghost use Rattle.pn_alarms.specs.Abort.{code_of, abort_of, status_of};

use crate::{Header, Pdu, PduType};
use rpc_core::Status;

/// Why a station ends its relation (IEC 61158-6-10, 5.2.6: ErrorCode2 under CF 81 FD).
#[derive(Clone, Copy, Debug, PartialEq, Eq)]
pub enum Abort {
    /// 5: no cyclic frame arrived within the data hold time.
    DataHold,
    /// 6: no call arrived within the activity timeout.
    Activity,
    /// 13: any other reason.
    Other,
}

impl Abort {
    /// The ErrorCode2 of this reason.
    pub fn code(self) -> u8
        ensures { result ≡ code_of self }
    {
        match self {
            Abort::DataHold => 5,
            Abort::Activity => 6,
            Abort::Other => 13,
        }
    }

    /// PNIOStatus of the ERR with this reason: CF 81 FD and the ErrorCode2.
    pub fn status(self) -> Status
        ensures { result ≡ status_of self }
    {
        Status {
            code: 0xCF,
            decode: 0x81,
            code1: 0xFD,
            code2: self.code(),
        }
    }

    /// The ERR that ends a relation for this reason, with these endpoints and the numbers of the last data that was
    /// sent and of the last data that was accepted. It carries PNIOStatus CF 81 FD and the ErrorCode2.
    pub fn pdu(
        self,
        destination: u16,
        source: u16,
        send_number: u16,
        ack_number: u16,
    ) -> Pdu<'static>
        ensures exact { said result ≡ abort_of self destination source send_number ack_number }
        // It can be encoded: its body has 4 octets, which is long enough for its type.
        ensures few { length result.body.now ≡ 4 }
        ensures long { is_long result.header.kind (length result.body.now) ≡ true }
    {
        let header = Header {
            destination,
            source,
            kind: PduType::Error,
            send_number,
            ack_number,
        };
        let body: &'static [u8] = match self {
            Abort::DataHold => &[0xCF, 0x81, 0xFD, 5],
            Abort::Activity => &[0xCF, 0x81, 0xFD, 6],
            Abort::Other => &[0xCF, 0x81, 0xFD, 13],
        };
        Pdu { header, body }
    }
}
