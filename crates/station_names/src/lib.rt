//! The rules of a station name, and the first rule that a text breaks.
#![tactic(auto)]

mod label;
mod name_check;
mod name_fault;
mod scan;

pub use name_check::check;
pub use name_fault::NameFault;
