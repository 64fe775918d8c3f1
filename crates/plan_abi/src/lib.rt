//! Reads the plan of a station from a catalogue into a struct of the host's memory, and writes the place of a catalogue's first fault as text.
#![tactic(auto)]

mod place;
mod reading;
mod spelled;
mod written;

pub use place::{show, tell};
pub use reading::read;
