//! The law of inputs: what a controller shows is what the application of its device gave. This crate has no code that runs.
#![tactic(auto)]

mod inputs;

pub use inputs::worlds_show_given_inputs;
