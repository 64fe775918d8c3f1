//! What a PDU says to the station that receives it.
ghost use Rattle.std.specs.Prelude.{◌≡◌, ◌≤◌, length, true};
ghost use Rattle.pn_alarms.specs.Format.{is_long, said};
ghost use Rattle.pn_alarms.specs.Message.{message_in, message_of, status_in};

use crate::{AlarmFault, Header, Pdu, PduType, read_ack, read_pdu};
use block_codec::AlarmAck;
use rpc_core::Status;

/// What a PDU says to the station that receives it. `B` is the type of block that this station reads from data.
#[derive(Clone, Copy)]
pub enum Notice<B> {
    /// Data of this number, and the block that it carries.
    Data(u16, B),
    /// Data was refused.
    Nack,
    /// The partner received the data of this number.
    Ack(u16),
    /// The partner ends the relation, with this PNIOStatus.
    Abort(Status),
}

/// What a PDU says to a device: data carries the AlarmAck of an alarm that the controller accepted.
pub type Message = Notice<AlarmAck>;

/// The PNIOStatus of an ERR: the first four octets of its body.
pub fn status_in(body: &[u8]) -> Status
    requires { 4 ≤ length body.now }
    ensures { result ≡ status_in body.now }
{
    Status {
        code: body[0],
        decode: body[1],
        code1: body[2],
        code2: body[3],
    }
}

/// What this PDU says.
fn message_in_pdu(pdu: &Pdu) -> Result<Message, AlarmFault>
    requires { is_long pdu.now.header.kind (length pdu.now.body.now) ≡ true }
    ensures { result ≡ message_in pdu.now.header.kind (said pdu.now) }
{
    match pdu.header.kind {
        PduType::Data => {
            let ack = read_ack(pdu.body)?;
            Ok(Message::Data(pdu.header.send_number, ack))
        }
        PduType::Nack => Ok(Message::Nack),
        PduType::Ack => Ok(Message::Ack(pdu.header.ack_number)),
        PduType::Error => Ok(Message::Abort(status_in(pdu.body))),
    }
}

/// Reads the octets that follow the FrameID of a frame to a device. Returns the header and what the PDU says. Data
/// without a complete AlarmAck is a fault. The octets after the PNIOStatus of an ERR are ignored.
pub fn read_message(bytes: &[u8]) -> Result<(Header, Message), AlarmFault>
    ensures { result ≡ message_of bytes.now }
{
    let pdu = read_pdu(bytes)?;
    let message = message_in_pdu(&pdu)?;
    Ok((pdu.header, message))
}
