//! The middle of a start-up: from each of its states both ends go on until they exchange data.

mod controller;
mod device;
mod law;

pub use controller::controller_waits_for_ready;
pub use device::device_waits_for_a_response;
pub use law::both_ends_go_on;
