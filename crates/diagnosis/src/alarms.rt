//! The alarms of low priority of a relation: changes of diagnosis, pulls and plugs, one active at
//! a time, and the others waiting in order
//! (IEC 61158-6-10, 4.8 and 5.2.5).

mod alarms;
mod own;

pub use alarms::{DiagnosisAlarms, SentAlarm, Terms};
pub use own::{Own, Place};
