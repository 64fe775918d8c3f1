//! Makes the plan of a station from the text of a catalogue: checks the whole catalogue, and says which module is plugged in which slot and
//! which records are written.
#![tactic(auto)]

mod addresses;
mod allowed;
mod fault;
mod few;
mod known;
mod names;
mod place;
mod plan;
mod records;
mod station;
mod submodules;

pub use fault::PlanFault;
pub use place::Refusal;
pub use plan::{plan_from_json, plan_or_place};
