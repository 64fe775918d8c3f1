//! The records that are made of the relation and the log of a device (IEC 61158-6-10, 5.2.3): what the Connect of the
//! relation expects, what is plugged of that, the data that it exchanges, ARData and LogData; and both services that read:
//! the Read of its controller, which reads these, those of the device, and the ModuleDiffBlock of the relation, and Read
//! Implicit, by which anybody reads.
//!
//! A new one is a kind of `records::Listing`, and its octets are named by `Own.antt` and `own.rt`.
#![tactic(auto)]

mod ar_data;
mod elements;
mod expected;
mod found;
mod log_data;
mod own;
mod place;
mod reading;
mod sources;
mod standing;
mod topology;

pub use log_data::{Log, LogEntry, put_log_data};
pub use reading::{read_implicit, read_within};
pub use sources::Sources;
pub use topology::{put_interface, put_network, put_port};
