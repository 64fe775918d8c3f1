//! A device with the services beside it, as a host drives it: events go in, and work comes out, flash calls first and then
//! frames. The host carries out the calls on its own chip.
//!
//! `served` is the port, and `reports` what it reports. `device` is its part that is the device alone, and `beside` what the
//! services do with what happens there.

mod beside;
mod device;
mod own;
mod refusal;
mod reports;
mod served;
mod stage;

pub use device::{Passed, SECTOR_SIZE, Work};
pub use refusal::Refusal;
pub use served::Port;
pub use stage::Stage;
