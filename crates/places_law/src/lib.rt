//! The law of places: what a controller says of the places of its plan, and what is plugged in its device. This crate has no code that runs.
#![tactic(auto)]

mod places;

pub use places::worlds_agree_of_places;
