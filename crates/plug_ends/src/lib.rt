//! What a controller asks of its device while data is exchanged, at both ends. This crate has no code that runs.
#![tactic(auto)]

mod law;
mod places;
mod plugged;
mod taken;

pub use law::calls_come_one_at_a_time;
pub use places::places_follow_their_plugs;
pub use plugged::records_follow_their_plugs;
pub use taken::writes_after_plugs_are_taken;
