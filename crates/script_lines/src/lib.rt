//! The lines of a script: the commands in them, and the lines that are printed.
#![tactic(auto)]

pub mod asked;
mod command;
mod digits;
pub mod expected;
mod numbers;
pub mod places;
pub mod render;
pub mod reports;
pub mod show;

pub use command::{Choice, Command, Line, first_line, meaning};
