//! Each end of a relation sends its cyclic frames in time, with the values that were given last, over any run of events.
//!
//! A witness learns each event, the frames that were sent with it, and what the end showed then. The clauses are in words of octets, units of
//! time and what the application said.
#![tactic(auto)]

mod controller;

pub use controller::{Happening, Witness, controller_exchanges};
