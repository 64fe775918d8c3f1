//! A controller that starts while its device may still have an earlier relation, or whose device has none any more.

mod abandoned;
mod controller;
mod device;
mod law;

pub use abandoned::{controller_ends_halfway, device_denies_calls};
pub use controller::controller_ends_refused;
pub use device::device_keeps_an_earlier_relation;
pub use law::both_ends_come_back;
