//! Diagnosis: what is wrong at the channels of a device (IEC 61158-6-10, 5.2.5 and 5.2.6). Which diagnoses exist, which of
//! their changes wait for an alarm, and the octets of both.
//!
//! Laws of alarms (IEC 61158-6-10, 4.8). A written PDU is read back by the station that receives it. What one end
//! accepts is what the other raised, over a network that may lose, repeat and reorder everything that either end sends.
#![tactic(auto)]

mod alarm_law;
mod alarms;
mod diagnoses;
mod diagnosis;
mod module_change;
mod notice;
mod places;
mod queue;
mod record;
mod reported;
mod reports;
mod taken;

pub use alarm_law::{
    acks_are_read, alarms_are_read, ends_are_read, pdus_are_read, replies_are_read,
};
pub use alarms::{DiagnosisAlarms, Own, Place, SentAlarm, Terms};
pub use diagnoses::Diagnoses;
pub use diagnosis::{Change, Diagnosis, WHOLE_SUBMODULE};
pub use module_change::{ModuleChange, ModuleChangeKind};
pub use notice::Notice;
pub use places::Places;
pub use queue::{LowChange, QueuedAlarm};
pub use record::put_diagnosis_data;
pub use reported::{
    ChannelReport, MOST_DIAGNOSES, ReportedDiagnoses, Specifier, channel_report, pulled_by,
    reports_are_followed,
};
pub use reports::{
    Priority, Report, low_ack_octets, low_alarm_front, read_alarm, read_low_ack, read_low_message,
    read_report, reports_are_read,
};
pub use taken::alarms_are_taken_in_order;
