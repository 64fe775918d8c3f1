//! A station: a PROFINET IO device, and the services beside it. The services hear each frame that the device drops, and
//! each packet of ARP. They change nothing that the device keeps, so what is proved of a device holds of the device in a
//! station.
//!
//! `port` is a station as firmware links it: events go in, and work comes out, flash calls first and then frames. `recorded` is a
//! flash in memory that records its calls, and `recording` a step of the device over it.
#![tactic(auto)]

mod device_services;
mod headline;
mod joined_call;
mod law;
mod leaps;
mod outbox;
mod port;
mod recorded;
mod recording;
mod run;
mod station;
mod step;

pub use device_services::{Attended, DeviceServices};
pub use headline::{cycle, cycle_named, cycle_with};
pub use joined_call::JoinedCall;
pub use law::conflicts_are_noticed;
pub use leaps::{
    due_beside, elapse_alone, elapse_beside, follow_quiet_units, follow_units, leaps_are_ticks,
    quiet_units_are_ticks, services_due,
};
pub use outbox::StationOutbox;
pub use port::{Passed, Port, Refusal, SECTOR_SIZE, Stage, Work};
pub use recorded::{MOST_BYTES, MOST_CALLS, Recorded, RecordedFlash};
pub use station::IoStation;
pub use step::{follow_answered, follow_frame, give, step_alone, step_beside, tell_beside};
