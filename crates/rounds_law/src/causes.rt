//! How a start-up ends that cannot succeed: its controller ends, with the cause.

mod controller;
mod device;
mod law;

pub use law::starts_end_with_their_cause;
