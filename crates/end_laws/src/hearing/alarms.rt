//! Alarm frames.
ghost use Rattle.std.specs.Prelude.{◌≡◌, ◌<◌, ◌⊎◌, ℕ, false, nat_eq};
ghost use Rattle.std.specs.Cmp.Lexicographic.{pointwise};
ghost use Rattle.pn_values.specs.declared.identity.Identity.{Identity};
ghost use Rattle.record_blocks.specs.declared.alarm_ack.AlarmAck.{AlarmAck};
ghost use Rattle.record_blocks.specs.declared.alarm_notification.AlarmNotification.{AlarmNotification};
ghost use Rattle.pn_alarms.specs.Abort.{status_of};
ghost use Rattle.pn_alarms.specs.declared.abort.Abort.{Abort};
ghost use Rattle.pn_alarms.specs.declared.message.Notice.TheVariants as notice;
ghost use Rattle.pn_alarms.specs.declared.pdu.Header.{Header};
ghost use Rattle.pn_alarms.specs.declared.pdu.PduType.TheVariants as pdu;
ghost use Rattle.diagnosis.specs.declared.reports.priority.Priority.{Priority};
ghost use Rattle.diagnosis.specs.declared.reports.priority.Priority.TheVariants.{High, Low};
ghost use Rattle.diagnosis.specs.reports.Report.{low_report, ours};
ghost use Rattle.cyclic_data.specs.declared.exchange.route.Route.{Route};
ghost use Rattle.relations.specs.exchange.Frames.{Notifies, Replies as Answers, Reports, RepliesLow};
ghost use Rattle.plans.specs.declared.parts.Controller.{Controller};
ghost use Rattle.relations.specs.declared.farewell.Farewell.{Farewell};
ghost use Rattle.relations.specs.Farewells.{said_by};
ghost use Rattle.device_frames.specs.Heard.{Alarms, LowConfirms, heard_of as device_hears, heard_reply};
ghost use Rattle.device_frames.specs.Sent.{Ends as Farewells, Exchanges, bytes_of as device_bytes};
ghost use Rattle.controller_messages.specs.declared.setup.Setup.{Setup};
ghost use Rattle.controller_messages.specs.Heard.{Alarms as Alarmed, Nothing, heard_of as controller_hears};
ghost use Rattle.controller_messages.specs.Sent.{Confirms, Ends, Replies, bytes_of as controller_bytes, end_pdu};
ghost use Rattle.frame_codec.specs.Sendable.{IsMac};
ghost use Rattle.diagnosis.specs.Sendable.{IsHeader};
ghost use Rattle.block_codec.specs.Writable.{IsAck, IsAlarm};
ghost use Rattle.end_laws.specs.hearing.Hearing.{comes, mine_hears, own_hears};
ghost use Rattle.end_laws.specs.hearing.Stations.{IsDevice, IsRoute, IsSetup};

use diagnosis::{acks_are_read, alarms_are_read, ends_are_read, pdus_are_read, replies_are_read};
use frame_codec::frames_are_read;

/// What the controller hears of an alarm, and of the reply to an AlarmAck. These are laws of the definitions.
pub fn alarms_are_heard()
    // The controller hears data with its number, and the alarm itself, as one of high priority with the
    // UserStructureIdentifier 1.
    ensures alarm { (mine : Controller) (identity : Identity) (route : Route) (header : Header) (alarm : AlarmNotification)
        → IsDevice identity → IsRoute route → header.kind ≡ pdu.Data → IsHeader header → IsAlarm alarm
        → controller_hears mine (device_bytes identity (Exchanges route (Notifies header alarm)))
        ≡ mine_hears mine route.partner (Alarmed identity.mac High header (notice.Data header.send_number (ours alarm))) }
    // In an ACK the controller hears the number of the data that arrived.
    ensures ack { (mine : Controller) (identity : Identity) (route : Route) (header : Header)
        → IsDevice identity → IsRoute route → header.kind ≡ pdu.Ack → IsHeader header
        → controller_hears mine (device_bytes identity (Exchanges route (Answers header)))
        ≡ mine_hears mine route.partner (Alarmed identity.mac High header (notice.Ack header.ack_number)) }
    // In a NACK the controller hears that data was refused.
    ensures nack { (mine : Controller) (identity : Identity) (route : Route) (header : Header)
        → IsDevice identity → IsRoute route → header.kind ≡ pdu.Nack → IsHeader header
        → controller_hears mine (device_bytes identity (Exchanges route (Answers header)))
        ≡ mine_hears mine route.partner (Alarmed identity.mac High header notice.Nack) }
    // Of an alarm of low priority the controller hears data with its number, and the alarm itself: a change of diagnosis with the
    // UserStructureIdentifier 0x8000, a pull or a plug, which has no data, without one.
    ensures low { (mine : Controller) (identity : Identity) (route : Route) (tag : ℕ) (header : Header) (alarm : AlarmNotification)
        → IsDevice identity → IsRoute route → tag < 65536 → header.kind ≡ pdu.Data → IsHeader header → IsAlarm alarm
        → controller_hears mine (device_bytes identity (Exchanges route (Reports tag header alarm)))
        ≡ mine_hears mine route.partner (Alarmed identity.mac Low header (notice.Data header.send_number (low_report alarm))) }
    // The same of an ACK and of a NACK of low priority.
    ensures low_ack { (mine : Controller) (identity : Identity) (route : Route) (tag : ℕ) (header : Header)
        → IsDevice identity → IsRoute route → tag < 65536 → header.kind ≡ pdu.Ack → IsHeader header
        → controller_hears mine (device_bytes identity (Exchanges route (RepliesLow tag header)))
        ≡ mine_hears mine route.partner (Alarmed identity.mac Low header (notice.Ack header.ack_number)) }
    ensures low_nack { (mine : Controller) (identity : Identity) (route : Route) (tag : ℕ) (header : Header)
        → IsDevice identity → IsRoute route → tag < 65536 → header.kind ≡ pdu.Nack → IsHeader header
        → controller_hears mine (device_bytes identity (Exchanges route (RepliesLow tag header)))
        ≡ mine_hears mine route.partner (Alarmed identity.mac Low header notice.Nack) }
{
    frames_are_read();
    pdus_are_read();
    alarms_are_read();
    replies_are_read();
}

/// What the device hears of an AlarmAck, and of the reply to an alarm. These are laws of the definitions.
pub fn confirmations_are_heard()
    // The device hears data of high priority with its number, and the AlarmAck itself.
    ensures confirms { (identity : Identity) (setup : Setup) (route : Route) (header : Header) (ack : AlarmAck)
        → IsSetup setup → IsRoute route → header.kind ≡ pdu.Data → IsHeader header → IsAck ack
        → device_hears identity (comes (controller_bytes setup (Confirms route High header ack)))
        ≡ own_hears identity route.partner (Alarms setup.plan.controller.mac header (notice.Data header.send_number ack)) }
    // Of an AlarmAck of low priority it hears the same, as one of low priority.
    ensures low { (identity : Identity) (setup : Setup) (route : Route) (header : Header) (ack : AlarmAck)
        → IsSetup setup → IsRoute route → header.kind ≡ pdu.Data → IsHeader header → IsAck ack
        → device_hears identity (comes (controller_bytes setup (Confirms route Low header ack)))
        ≡ own_hears identity route.partner (LowConfirms setup.plan.controller.mac header (notice.Data header.send_number ack)) }
    // Of an AlarmAck of low priority that goes to another station a controller hears nothing.
    ensures unheard { (mine : Controller) (setup : Setup) (route : Route) (header : Header) (ack : AlarmAck)
        → IsSetup setup → IsRoute route → header.kind ≡ pdu.Data → pointwise nat_eq route.partner.octets mine.mac.octets ≡ false
        → controller_hears mine (controller_bytes setup (Confirms route Low header ack)) ≡ Nothing }
    // In an ACK of either priority the device hears the number of the alarm that arrived, under the FrameID of that priority.
    ensures ack { (identity : Identity) (setup : Setup) (route : Route) (priority : Priority) (header : Header)
        → IsSetup setup → IsRoute route → header.kind ≡ pdu.Ack → IsHeader header
        → device_hears identity (comes (controller_bytes setup (Replies route priority header)))
        ≡ own_hears identity route.partner (heard_reply setup.plan.controller.mac priority header (notice.Ack header.ack_number)) }
    // In a NACK of either priority the device hears that data was refused.
    ensures nack { (identity : Identity) (setup : Setup) (route : Route) (priority : Priority) (header : Header)
        → IsSetup setup → IsRoute route → header.kind ≡ pdu.Nack → IsHeader header
        → device_hears identity (comes (controller_bytes setup (Replies route priority header)))
        ≡ own_hears identity route.partner (Alarms setup.plan.controller.mac header notice.Nack) }
{
    frames_are_read();
    pdus_are_read();
    acks_are_read();
    replies_are_read();
}

/// What either end hears of the ERR with which the other ends the relation. These are laws of the definitions.
pub fn ends_are_heard()
    // In the controller's ERR the device hears that the controller ends the relation, whatever the reason.
    ensures device { (identity : Identity) (setup : Setup) (route : Route) (header : Header) (reason : Abort) → IsSetup setup →
        IsRoute route → IsHeader header
        → device_hears identity (comes (controller_bytes setup (Ends route header reason)))
        ≡ own_hears identity route.partner (Alarms setup.plan.controller.mac (end_pdu header reason).header (notice.Abort (status_of reason))) }
    // In the device's ERR the controller hears that the device ends the relation.
    ensures controller { (mine : Controller) (identity : Identity) (farewell : Farewell)
        → IsDevice identity → IsMac farewell.initiator → farewell.tag < 65536 → IsHeader (said_by farewell).header
        → controller_hears mine (device_bytes identity (Farewells farewell))
        ≡ mine_hears mine farewell.initiator (Alarmed identity.mac Low (said_by farewell).header (notice.Abort (status_of farewell.reason))) }
{
    frames_are_read();
    pdus_are_read();
    ends_are_read();
}
