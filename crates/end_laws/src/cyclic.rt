//! The cyclic frames that either end accepts and sends, octet by octet.
//!
//! The clauses are in words that this crate takes from `field_words`: which frame is acceptable, and which octets are sent. The machines of
//! both ends are proved to meet them.

mod controller;
mod device;

pub use controller::cyclic_controller;
pub use device::cyclic_device;
