// What an alarm reports of a submodule or a module that was pulled or plugged.
ghost use Rattle.std.specs.Prelude.{◌≡◌};
ghost use Rattle.plan_places.specs.Reports.{place_report, plug_of, pulled_at, report_by_type};

use block_codec::AlarmNotification;
use diagnosis::Report;
use module_diff::Affected;

/// AlarmType of Pull.
const PULL: u16 = 0x0003;

/// AlarmType of Plug.
const PLUG: u16 = 0x0004;

/// AlarmType of Plug wrong submodule.
const PLUG_WRONG: u16 = 0x000A;

/// AlarmType of Pull module.
const PULL_MODULE: u16 = 0x001F;

/// A submodule that was plugged.
#[derive(Clone, Copy, Debug, PartialEq, Eq)]
pub struct Plug {
    /// SlotNumber.
    pub slot: u16,
    /// SubslotNumber.
    pub subslot: u16,
    /// SequenceNumber of the alarm that reported it.
    pub number: u16,
}

/// What an alarm reports of a submodule or a module (IEC 61158-6-10, 5.2.5).
#[derive(Clone, Copy, Debug, PartialEq, Eq)]
pub enum PlaceReport {
    /// A submodule was pulled, or a module with all of its submodules.
    Pulled(Affected),
    /// Another submodule than the expected one was plugged.
    PluggedWrong(Plug),
    /// The expected submodule was plugged.
    Plugged(Plug),
}

/// What a Pull at this slot and subslot takes away: without a subslot all of the module.
fn pulled_at(slot: u16, subslot: u16) -> Affected
    ensures { result ≡ pulled_at slot subslot }
{
    Affected {
        slot,
        subslot: if subslot == 0 { None } else { Some(subslot) },
    }
}

/// A plug at the submodule of this alarm.
fn plug_of(alarm: &AlarmNotification<'_>) -> Plug
    ensures { result ≡ plug_of alarm.now }
{
    Plug {
        slot: alarm.slot_number,
        subslot: alarm.subslot_number,
        // SequenceNumber is in bits 0 to 10.
        number: alarm.alarm_specifier % 0x800,
    }
}

/// What an alarm reports, by its AlarmType.
fn report_by_type(alarm: &AlarmNotification<'_>) -> Option<PlaceReport>
    ensures { result ≡ report_by_type alarm.now }
{
    match alarm.alarm_type {
        PULL => Some(PlaceReport::Pulled(pulled_at(alarm.slot_number, alarm.subslot_number))),
        PULL_MODULE => Some(PlaceReport::Pulled(pulled_at(alarm.slot_number, 0))),
        PLUG_WRONG => Some(PlaceReport::PluggedWrong(plug_of(alarm))),
        PLUG => Some(PlaceReport::Plugged(plug_of(alarm))),
        _ => None,
    }
}

/// What an alarm reports of a submodule or a module, if it does. Other APIs than 0 have places of their own.
pub fn place_report(report: &Report<'_>) -> Option<PlaceReport>
    ensures { result ≡ place_report report.now }
{
    if report.notification.api != 0 {
        return None;
    }
    report_by_type(&report.notification)
}
