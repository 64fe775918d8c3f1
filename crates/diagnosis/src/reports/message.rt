//! What a PDU says to a controller, and what one of low priority says to a device.
ghost use Rattle.std.specs.Prelude.{◌≡◌, length, true};
ghost use Rattle.pn_alarms.specs.Format.{is_long, said};
ghost use Rattle.diagnosis.specs.reports.Message.{alarm_in, alarm_of, low_message_in, low_message_of};

use crate::reports::report::{Report, read_low_ack, read_report};
use pn_alarms::{AlarmFault, Header, Message, Notice, Pdu, PduType, read_pdu, status_in};

/// What this PDU of low priority says to a device.
fn low_message_in_pdu(pdu: &Pdu) -> Result<Message, AlarmFault>
    requires { is_long pdu.now.header.kind (length pdu.now.body.now) ≡ true }
    ensures { result ≡ low_message_in pdu.now.header.kind (said pdu.now) }
{
    match pdu.header.kind {
        PduType::Data => {
            let ack = read_low_ack(pdu.body)?;
            Ok(Message::Data(pdu.header.send_number, ack))
        }
        PduType::Nack => Ok(Message::Nack),
        PduType::Ack => Ok(Message::Ack(pdu.header.ack_number)),
        PduType::Error => Ok(Message::Abort(status_in(pdu.body))),
    }
}

/// Reads the octets that follow the FrameID of a frame of low priority to a device. Returns the header and what the PDU says.
/// Data without a complete AlarmAck of low priority is a fault. The octets after the PNIOStatus of an ERR are ignored.
pub fn read_low_message(bytes: &[u8]) -> Result<(Header, Message), AlarmFault>
    ensures { result ≡ low_message_of bytes.now }
{
    let pdu = read_pdu(bytes)?;
    let message = low_message_in_pdu(&pdu)?;
    Ok((pdu.header, message))
}

/// What this PDU says to a controller.
fn alarm_in_pdu<'a>(pdu: &Pdu<'a>) -> Result<Notice<Report<'a>>, AlarmFault>
    requires { is_long pdu.now.header.kind (length pdu.now.body.now) ≡ true }
    ensures { result ≡ alarm_in pdu.now.header.kind (said pdu.now) }
{
    match pdu.header.kind {
        PduType::Data => {
            let alarm = read_report(pdu.body)?;
            Ok(Notice::Data(pdu.header.send_number, alarm))
        }
        PduType::Nack => Ok(Notice::Nack),
        PduType::Ack => Ok(Notice::Ack(pdu.header.ack_number)),
        PduType::Error => Ok(Notice::Abort(status_in(pdu.body))),
    }
}

/// Reads the octets that follow the FrameID of a frame to a controller. Returns the header and what the PDU says. Data
/// without a complete AlarmNotification, of either priority, is a fault. The octets after the PNIOStatus of an ERR are
/// ignored.
pub fn read_alarm(bytes: &[u8]) -> Result<(Header, Notice<Report<'_>>), AlarmFault>
    ensures { result ≡ alarm_of bytes.now }
{
    let pdu = read_pdu(bytes)?;
    let notice = alarm_in_pdu(&pdu)?;
    Ok((pdu.header, notice))
}
