//! How a relation ends.
ghost use Rattle.std.specs.Prelude.{◌≡◌, length, true};
ghost use Rattle.pn_alarms.specs.Format.{is_long, said};
ghost use Rattle.relations.specs.Farewells.{farewell_by, said_by};

use connects::ConnectRequest;
use pn_alarms::{Abort, Header, Pdu};
use pn_values::Mac;
use uuid::Uuid;

/// The ERR with which a device ends a relation: a frame of low priority.
#[derive(Clone, Copy, Debug, PartialEq, Eq)]
pub struct Farewell {
    /// The ARUUID of the relation that ends.
    pub uuid: Uuid,
    /// The destination: CMInitiatorMacAdd.
    pub initiator: Mac,
    /// The tag of the frame: AlarmCRTagHeaderLow.
    pub tag: u16,
    /// The endpoint of the controller: its LocalAlarmReference.
    pub reference: u16,
    /// The endpoint of the device: the LocalAlarmReference of its answer.
    pub endpoint: u16,
    /// SendSeqNum of the last alarm that was sent, 0xFFFF if none was sent.
    pub send_number: u16,
    /// SendSeqNum of the last data that was accepted, 0xFFFE if none was accepted.
    pub ack_number: u16,
    /// The reason.
    pub reason: Abort,
}

impl Farewell {
    /// The ERR of a relation with this request, from the endpoint of this header, and with its numbers.
    pub(crate) fn of(request: &ConnectRequest, header: &Header, reason: Abort) -> Farewell
        ensures { result ≡ farewell_by reason request.now header.now }
    {
        let alarm = request.alarm();
        Farewell {
            uuid: request.ar().uuid,
            initiator: request.ar().initiator,
            tag: alarm.tag_low,
            reference: alarm.reference,
            endpoint: header.source,
            send_number: header.send_number,
            ack_number: header.ack_number,
            reason,
        }
    }

    /// The PDU of this ERR.
    pub fn pdu(&self) -> Pdu<'static>
        ensures exact { said result ≡ said_by self.now }
        // It can be encoded: its body has 4 octets, which is long enough for its type.
        ensures few { length result.body.now ≡ 4 }
        ensures long { is_long result.header.kind (length result.body.now) ≡ true }
    {
        self.reason.pdu(
            self.reference,
            self.endpoint,
            self.send_number,
            self.ack_number,
        )
    }
}
