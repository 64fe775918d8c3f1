//! The laws of PDUs.
ghost use Rattle.std.specs.Prelude.{◌≡◌, ◌++◌, ◌+◌, List, [], ℕ, length, Ok};
ghost use Rattle.record_blocks.specs.declared.alarm_ack.AlarmAck.{AlarmAck};
ghost use Rattle.record_blocks.specs.declared.alarm_notification.AlarmNotification.{AlarmNotification};
ghost use Rattle.block_codec.specs.declared.block.Block.TheVariants.{AlarmAck as ack_block, AlarmNotification as alarm_block};
ghost use Rattle.block_codec.specs.Block.{block_bytes};
ghost use Rattle.pn_alarms.specs.declared.abort.Abort.{Abort};
ghost use Rattle.pn_alarms.specs.declared.message.Notice.TheVariants as notice;
ghost use Rattle.pn_alarms.specs.declared.pdu.Header.{Header};
ghost use Rattle.pn_alarms.specs.declared.pdu.PduType.TheVariants as pdu;
ghost use Rattle.pn_alarms.specs.Abort.{abort_of, status_of};
ghost use Rattle.pn_alarms.specs.Carried.{alarm_pdu};
ghost use Rattle.pn_alarms.specs.Format.{Said, pdu_bytes, pdu_of};
ghost use Rattle.pn_alarms.specs.Message.{message_of};
ghost use Rattle.diagnosis.specs.reports.Message.{alarm_of, low_message_of};
ghost use Rattle.diagnosis.specs.reports.Report.{bare, bare_pdu, diagnosed, diagnosis_pdu, low_pdu, low_report, ours, report};
ghost use Rattle.block_codec.specs.Writable.{IsAck, IsAlarm};
ghost use Rattle.diagnosis.specs.Sendable.{CanBeSaid, IsHeader, ack_pdu, empty_pdu, low_ack_pdu};

use crate::reports::reports_are_read;
use block_codec::blocks_are_read;
use pn_alarms::fitting_pdus_are_read;

/// A PDU that can be sent is read back. This is a law of the definitions. No code is involved.
pub fn pdus_are_read()
    // A PDU that can be sent is read back, with anything after it.
    ensures read { (said : Said) (more : List ℕ) → CanBeSaid said → pdu_of (pdu_bytes said ++ more) ≡ Ok said }
    // A PDU has 12 octets and those of its body.
    ensures long { (said : Said) → length (pdu_bytes said) ≡ 12 + length said.body }
{
    fitting_pdus_are_read();
}

/// What a device reads of an AlarmAck. This is a law of the definitions. No code is involved.
pub fn acks_are_read()
    // The device reads data with its number, and the AlarmAck itself.
    ensures read { (header : Header) (ack : AlarmAck) (more : List ℕ) → header.kind ≡ pdu.Data → IsHeader header → IsAck ack
        → message_of (pdu_bytes (ack_pdu header ack) ++ more) ≡ Ok (header, notice.Data header.send_number ack) }
    // Of low priority it reads the same.
    ensures low { (header : Header) (ack : AlarmAck) (more : List ℕ) → header.kind ≡ pdu.Data → IsHeader header → IsAck ack
        → low_message_of (pdu_bytes (low_ack_pdu header ack) ++ more) ≡ Ok (header, notice.Data header.send_number ack) }
    // An AlarmAck has 22 octets.
    ensures long { (ack : AlarmAck) → length (block_bytes (ack_block ack)) ≡ 22 }
{
    blocks_are_read();
    fitting_pdus_are_read();
    reports_are_read();
}

/// What a controller reads of an alarm. This is a law of the definitions. No code is involved.
pub fn alarms_are_read()
    // The controller reads data with its number, and the alarm itself: of high priority, and with the
    // UserStructureIdentifier 1.
    ensures read { (header : Header) (alarm : AlarmNotification) (more : List ℕ) → header.kind ≡ pdu.Data → IsHeader header → IsAlarm alarm
        → alarm_of (pdu_bytes (alarm_pdu header alarm) ++ more) ≡ Ok (header, notice.Data header.send_number (ours alarm)) }
    // A change of diagnosis is read as an alarm of low priority, with the UserStructureIdentifier 0x8000.
    ensures low { (header : Header) (alarm : AlarmNotification) (more : List ℕ) → header.kind ≡ pdu.Data → IsHeader header → IsAlarm alarm
        → alarm_of (pdu_bytes (diagnosis_pdu header alarm) ++ more) ≡ Ok (header, notice.Data header.send_number (diagnosed alarm)) }
    // A pull or a plug is read as an alarm of low priority, without a UserStructureIdentifier.
    ensures bare { (header : Header) (alarm : AlarmNotification) (more : List ℕ) → header.kind ≡ pdu.Data → IsHeader header → IsAlarm alarm
        → alarm.alarm_data ≡ [] → alarm_of (pdu_bytes (bare_pdu header alarm) ++ more) ≡ Ok (header, notice.Data header.send_number (bare alarm)) }
    // So each alarm of low priority is read as it was sent.
    ensures any { (header : Header) (alarm : AlarmNotification) (more : List ℕ) → header.kind ≡ pdu.Data → IsHeader header → IsAlarm alarm
        → alarm_of (pdu_bytes (low_pdu header alarm) ++ more) ≡ Ok (header, notice.Data header.send_number (low_report alarm)) }
    // That of a pull or a plug has 26 octets; as it has no data, none follow.
    ensures bare_long { (alarm : AlarmNotification) → length (report.write (bare alarm) []) ≡ 26 + length alarm.alarm_data }
    // That of a change of diagnosis has 28 octets and those of its data.
    ensures low_long { (alarm : AlarmNotification) → length (report.write (diagnosed alarm) []) ≡ 28 + length alarm.alarm_data }
    // An alarm has 28 octets and those of its data.
    ensures long { (alarm : AlarmNotification) → length (block_bytes (alarm_block alarm)) ≡ 28 + length alarm.alarm_data }
{
    blocks_are_read();
    fitting_pdus_are_read();
    reports_are_read();
}

/// What either end reads of an ACK or a NACK. These are laws of the definitions. No code is involved.
pub fn replies_are_read()
    // A device reads in an ACK the number of the data that arrived.
    ensures device_ack { (header : Header) (more : List ℕ) → header.kind ≡ pdu.Ack → IsHeader header
        → message_of (pdu_bytes (empty_pdu header) ++ more) ≡ Ok (header, notice.Ack header.ack_number) }
    // A controller reads in an ACK the number of the data that arrived.
    ensures controller_ack { (header : Header) (more : List ℕ) → header.kind ≡ pdu.Ack → IsHeader header
        → alarm_of (pdu_bytes (empty_pdu header) ++ more) ≡ Ok (header, notice.Ack header.ack_number) }
    // The device reads the same in one of low priority.
    ensures device_low_ack { (header : Header) (more : List ℕ) → header.kind ≡ pdu.Ack → IsHeader header
        → low_message_of (pdu_bytes (empty_pdu header) ++ more) ≡ Ok (header, notice.Ack header.ack_number) }
    // A device reads in a NACK that data was refused.
    ensures device_nack { (header : Header) (more : List ℕ) → header.kind ≡ pdu.Nack → IsHeader header
        → message_of (pdu_bytes (empty_pdu header) ++ more) ≡ Ok (header, notice.Nack) }
    // The device reads the same in one of low priority.
    ensures device_low_nack { (header : Header) (more : List ℕ) → header.kind ≡ pdu.Nack → IsHeader header
        → low_message_of (pdu_bytes (empty_pdu header) ++ more) ≡ Ok (header, notice.Nack) }
    // A controller reads in a NACK that data was refused.
    ensures controller_nack { (header : Header) (more : List ℕ) → header.kind ≡ pdu.Nack → IsHeader header
        → alarm_of (pdu_bytes (empty_pdu header) ++ more) ≡ Ok (header, notice.Nack) }
{
    fitting_pdus_are_read();
}

/// What either end reads of an ERR. These are laws of the definitions. No code is involved.
pub fn ends_are_read()
    // A device reads in an ERR that the controller ends the relation, whatever the reason.
    ensures device { (reason : Abort) (destination source send_number ack_number : ℕ) (more : List ℕ)
        → IsHeader (abort_of reason destination source send_number ack_number).header
        → message_of (pdu_bytes (abort_of reason destination source send_number ack_number) ++ more)
        ≡ Ok ((abort_of reason destination source send_number ack_number).header, notice.Abort (status_of reason)) }
    // A controller reads in an ERR that the device ends the relation, whatever the reason.
    ensures controller { (reason : Abort) (destination source send_number ack_number : ℕ) (more : List ℕ)
        → IsHeader (abort_of reason destination source send_number ack_number).header
        → alarm_of (pdu_bytes (abort_of reason destination source send_number ack_number) ++ more)
        ≡ Ok ((abort_of reason destination source send_number ack_number).header, notice.Abort (status_of reason)) }
{
    fitting_pdus_are_read();
}
