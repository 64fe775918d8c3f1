//! The settings of a station on flash. A power failure at any moment leaves the settings from before a change or those
//! after it.
//!
//! A sector begins with a base of 437 bytes and has its gate at byte 511. Slots of 256 bytes follow. A commit programs
//! its command into the next slot of the active sector and opens the slot's gate by a separate call. If no slot is
//! left, it erases the other sector, programs a base with the next generation there, and opens the gate by a separate
//! call. A sector of version 1, whose base has no I&M4, is read but never written.
#![tactic(auto)]

mod access;
mod base;
mod fill;
mod head;
mod journal;
mod settings_store;
mod slot;
mod start;
mod store;

pub use fill::Fill;
pub use journal::{BootFault, CommitFault, Journal};
pub use settings_store::Store;
