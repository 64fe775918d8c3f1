//! What an alarm reports as pulled.
ghost use Rattle.std.specs.Prelude.{◌≡◌};
ghost use Rattle.diagnosis.specs.reported.Pulled.{pulled_at, pulled_by, pulled_by_type};

use crate::reports::Report;
use block_codec::AlarmNotification;
use module_diff::Affected;

/// AlarmType of Pull.
const PULL: u16 = 0x0003;

/// AlarmType of Pull module.
const PULL_MODULE: u16 = 0x001F;

/// What a Pull at this slot and subslot takes away: without a subslot all of the module.
fn pulled_at(slot: u16, subslot: u16) -> Affected
    ensures { result ≡ pulled_at slot subslot }
{
    Affected {
        slot,
        subslot: if subslot == 0 { None } else { Some(subslot) },
    }
}

/// What was pulled, by AlarmType.
fn pulled_by_type(alarm: &AlarmNotification<'_>) -> Option<Affected>
    ensures { result ≡ pulled_by_type alarm.now }
{
    match alarm.alarm_type {
        PULL => Some(pulled_at(alarm.slot_number, alarm.subslot_number)),
        PULL_MODULE => Some(pulled_at(alarm.slot_number, 0)),
        _ => None,
    }
}

/// What an alarm reports as pulled, if it does. Other APIs than 0 have submodules of their own.
pub fn pulled_by(report: &Report<'_>) -> Option<Affected>
    ensures { result ≡ pulled_by report.now }
{
    if report.notification.api != 0 {
        return None;
    }
    pulled_by_type(&report.notification)
}
