//! The law of parameters after a plug: a controller ends them only when each of the plan's records for the place was written. This crate
//! has no code that runs.
#![tactic(auto)]

mod law;

pub use law::parameters_are_written;
