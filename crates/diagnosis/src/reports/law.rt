//! The laws of the formats.
ghost use Rattle.std.specs.Prelude.{◌≡◌, List, ℕ, Ok};
ghost use Rattle.record_blocks.specs.declared.alarm_ack.AlarmAck.{AlarmAck};
ghost use Rattle.record_blocks.specs.declared.alarm_notification.AlarmNotification.{AlarmNotification};
ghost use Rattle.block_codec.specs.declared.block.Block.TheVariants.{AlarmNotification as notification};
ghost use Rattle.block_codec.specs.Block.{block_bytes};
ghost use Rattle.diagnosis.specs.declared.reports.report.Report.{Report};
ghost use Rattle.diagnosis.specs.reports.Report.{low_ack, ours, report, report_of};

/// The blocks of alarms that only a controller reads, and only it writes, are read back. These are laws of the definitions;
/// the function has no code.
pub fn reports_are_read()
    // An alarm of either priority that fits the format is read as it was written, with any octets after it.
    ensures read { (alarm : Report) (rest : List ℕ) → report.Fits alarm → report_of (report.write alarm rest) ≡ Ok alarm }
    // So is an AlarmAck of low priority.
    ensures low_ack { (ack : AlarmAck) (rest : List ℕ) → low_ack.Fits ack → low_ack.read (low_ack.write ack rest) ≡ Ok (ack, rest) }
    // What this product's device sends as an alarm, of high priority, is read as an alarm with the
    // UserStructureIdentifier 1.
    ensures ours { (alarm : AlarmNotification) → report.Fits (ours alarm) → report_of (block_bytes (notification alarm)) ≡ Ok (ours alarm) }
{}
