//! The places of a plan: what the device reported of each submodule that a controller expects, whose parameters wait for their
//! turn after a plug, and which records of the plan these are.
//!
//! A device that plugs a submodule again runs it with default parameters until a controller writes the records of its plan
//! (IEC 61158-6-10, 5.2.4 and 5.2.5). One place has its turn at a time, in the order in which the plugs were reported.
#![tactic(auto)]

mod listed;
mod place;
mod places;
mod plan_records;
mod report;

pub use place::{Place, PlaceState};
pub use places::PlanPlaces;
pub use plan_records::record_from;
pub use report::{PlaceReport, Plug, place_report};
