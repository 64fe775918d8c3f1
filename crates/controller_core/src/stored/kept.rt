// The last alarm, as a controller stores it.
ghost use Rattle.std.specs.Prelude.{◌≡◌};
ghost use Rattle.controller_core.specs.stored.Alarms.{ack_of, alarm_in, kept_alarm};

use arrayvec::ArrayVec;
use block_codec::{AlarmAck, AlarmData, AlarmNotification};
use diagnosis::Report;
use wire::at_most;

/// The maximum number of octets of an alarm's data that are stored: more than a frame holds.
const MOST_DATA: usize = 1500;

/// An alarm, copied out of its frame.
#[derive(Drop)]
pub struct KeptAlarm {
    /// AlarmType.
    pub alarm_type: u16,
    /// API.
    pub api: u32,
    /// SlotNumber.
    pub slot_number: u16,
    /// SubslotNumber.
    pub subslot_number: u16,
    /// ModuleIdentNumber.
    pub module_ident_number: u32,
    /// SubmoduleIdentNumber.
    pub submodule_ident_number: u32,
    /// AlarmSpecifier.
    pub alarm_specifier: u16,
    /// UserStructureIdentifier, if the alarm has data.
    pub user_structure: Option<u16>,
    /// The data that follow it.
    pub alarm_data: ArrayVec<u8, 1500>,
}

impl KeptAlarm {
    /// A copy of an alarm.
    pub fn of(report: &Report<'_>) -> KeptAlarm
        ensures alarm { alarm_in result ≡ kept_alarm report.now.notification }
        ensures structure { result.user_structure ≡ report.now.user_structure }
    {
        let alarm = &report.notification;
        let mut alarm_data = ArrayVec::new();
        let _ = alarm_data.try_extend_from_slice(at_most(alarm.alarm_data.octets(), MOST_DATA));
        KeptAlarm {
            alarm_type: alarm.alarm_type,
            api: alarm.api,
            slot_number: alarm.slot_number,
            subslot_number: alarm.subslot_number,
            module_ident_number: alarm.module_ident_number,
            submodule_ident_number: alarm.submodule_ident_number,
            alarm_specifier: alarm.alarm_specifier,
            user_structure: report.user_structure,
            alarm_data,
        }
    }

    /// The block of this alarm.
    pub fn notification(&self) -> AlarmNotification<'_>
        ensures { result ≡ alarm_in self.now }
    {
        AlarmNotification {
            alarm_type: self.alarm_type,
            api: self.api,
            slot_number: self.slot_number,
            subslot_number: self.subslot_number,
            module_ident_number: self.module_ident_number,
            submodule_ident_number: self.submodule_ident_number,
            alarm_specifier: self.alarm_specifier,
            alarm_data: AlarmData::new(self.alarm_data.as_slice()),
        }
    }
}

/// The AlarmAck of an alarm.
pub fn ack_of(alarm: &AlarmNotification<'_>) -> AlarmAck
    ensures { result ≡ ack_of alarm.now }
{
    AlarmAck {
        alarm_type: alarm.alarm_type,
        api: alarm.api,
        slot_number: alarm.slot_number,
        subslot_number: alarm.subslot_number,
        alarm_specifier: alarm.alarm_specifier,
        pnio_status: 0,
    }
}
