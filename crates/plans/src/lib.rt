//! The plan of a station: which module is plugged in which slot of a device, the records that are written to it, and the Connect by which a
//! controller asks it for an application relation (IEC 61158-6-10, 5.2.4). Nothing is allocated.
#![tactic(auto)]

mod blocks;
mod data;
mod identity;
mod laws;
mod numbers;
mod parts;
mod places;
mod plan;

pub use identity::ControllerIdentity;
pub use laws::packed_places_are_asked;
pub use numbers::{
    ALARM_REFERENCE, INPUT_FRAME_ID, RTA_RETRIES, RTA_TIMEOUT_FACTOR, SESSION_KEY, TAG_HIGH,
};
pub use parts::{Controller, Parts, PlanRecord, Station, Times};
pub use plan::{Layouts, Plan, TooLong, too_long};
