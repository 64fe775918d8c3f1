//! What both ends write, read at fixed places; the functions have no code.
//!
//! The readers are definitions in the standard's terms: numbers and octets at places. They share nothing with the formats by which both
//! ends read and write, so that a wrong number or an exchanged field that is alike in code and format is refused.
#![tactic(auto)]

mod alarms;
mod announcing;
mod calling;
mod connecting;
mod listing;
mod reading;

pub use alarms::alarms_are_read_back;
pub use announcing::announcements_are_read_back;
pub use calling::{calls_are_read_back, packets_are_read_back};
pub use connecting::{connect_answers_are_read_back, connects_are_read_back};
pub use listing::{elements_are_read_back, lists_are_read_back, maintenance_is_read_back};
pub use reading::{answers_are_read_back, records_are_read_back};
