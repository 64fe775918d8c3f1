//! Both ends of a network, played for a witness, and the laws of a start-up, of outputs and of alarms, read from the octets that it learns.
#![tactic(auto)]

mod alarms;
mod outputs;
mod playing;
mod start_up;

pub use alarms::alarms_are_read;
pub use outputs::Output;
pub use playing::{PlayFault, Shown, Station, Witness, play};
pub use start_up::start_ups_are_read;
