//! The law of what an application answers: each answer goes to the call that asked for it, once. This crate has no code that runs.
#![tactic(auto)]

mod law;

pub use law::answers_are_given_once;
