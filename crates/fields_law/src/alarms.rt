//! Alarms of both priorities, read back.
ghost use Rattle.std.specs.Prelude.{◌≡◌, ◌≤◌, ◌<◌, ◌^◌, [], ℕ, List, length};
ghost use Rattle.record_blocks.specs.declared.alarm_ack.AlarmAck.{AlarmAck};
ghost use Rattle.block_codec.specs.Writable.{IsAck};
ghost use Rattle.cyclic_data.specs.declared.exchange.route.Route.{Route};
ghost use Rattle.pn_alarms.specs.declared.pdu.Header.{Header};
ghost use Rattle.pn_alarms.specs.declared.pdu.PduType.{PduType};
ghost use Rattle.pn_alarms.specs.Format.{pdu_bytes};
ghost use Rattle.pn_alarms.specs.Sender.{notice_of};
ghost use Rattle.diagnosis.specs.Queue.{alarm_of};
ghost use Rattle.diagnosis.specs.Sendable.{IsHeader};
ghost use Rattle.diagnosis.specs.declared.diagnosis.Change.{Change};
ghost use Rattle.diagnosis.specs.declared.module_change.ModuleChange.{ModuleChange};
ghost use Rattle.diagnosis.specs.declared.queue.LowChange.TheVariants as reports;
ghost use Rattle.diagnosis.specs.declared.queue.QueuedAlarm.{QueuedAlarm};
ghost use Rattle.diagnosis.specs.declared.reports.priority.Priority.{Priority};
ghost use Rattle.diagnosis.specs.reports.Priority.{frame_id_at};
ghost use Rattle.relations.specs.exchange.Frames.{Notifies, Reports, body_of, id_of};
ghost use Rattle.controller_messages.specs.Sent.{ack_pdu};
ghost use Rattle.fields_law.specs.Alarm.{IsAlarmAck, IsDiagnosisAlarm, IsModuleAlarm, IsPdu, IsProcessAlarm, IsSizedChange, IsSizedPlug, IsSizedQueued};
ghost use Rattle.fields_law.specs.Alarm.{alarm_id};

/// Alarms, as a device writes them, the AlarmAcks of a controller, and the PDUs of both without data.
pub fn alarms_are_read_back()
    // The FrameID tells the priority.
    ensures priority { (priority : Priority) (kind : PduType) → frame_id_at priority kind ≡ alarm_id priority kind }
    // An alarm of low priority has the FrameID 0xFE01.
    ensures low { (route : Route) (tag : ℕ) (header : Header) (alarm : QueuedAlarm) (sequence : ℕ)
        → id_of route (Reports tag header (alarm_of sequence alarm)) ≡ 0xFE01 }
    // A diagnosis that appears or disappears.
    ensures diagnosis { (tag : ℕ) (header : Header) (alarm : QueuedAlarm) (sequence : ℕ) (change : Change) → IsHeader header
        → IsSizedQueued alarm sequence → IsSizedChange change → alarm.change ≡ reports.Diagnosis change
        → IsDiagnosisAlarm (body_of (Reports tag header (alarm_of sequence alarm))) header change alarm sequence }
    // A pull or a plug.
    ensures modules { (tag : ℕ) (header : Header) (alarm : QueuedAlarm) (sequence : ℕ) (made : ModuleChange) → IsHeader header
        → IsSizedQueued alarm sequence → IsSizedPlug made → alarm.change ≡ reports.Module made
        → IsModuleAlarm (body_of (Reports tag header (alarm_of sequence alarm))) header made alarm sequence }
    // A process alarm.
    ensures process { (header : Header) (specifier slot subslot module_ident submodule_ident : ℕ) (octets : List ℕ) → IsHeader header
        → specifier < 65536 → slot < 65536 → subslot < 65536 → module_ident < 256 ^ 4 → submodule_ident < 256 ^ 4 → length octets ≤ 1458
        → IsProcessAlarm (body_of (Notifies header (notice_of specifier slot subslot module_ident submodule_ident octets))) header slot subslot
        module_ident submodule_ident specifier octets }
    // An AlarmAck, of either priority.
    ensures ack { (priority : Priority) (header : Header) (ack : AlarmAck) → IsHeader header → IsAck ack
        → IsAlarmAck (pdu_bytes (ack_pdu priority header ack)) header priority ack }
    // An ACK or NACK.
    ensures reply { (header : Header) → IsHeader header → IsPdu (pdu_bytes (record { header = header; body = [] })) header 0 }
{}
