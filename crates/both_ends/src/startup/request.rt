//! What a device reads from the Connect of a plan (IEC 61158-6-10, 5.2.4): exactly what the plan asks for. If the
//! device has the plan's modules, none of them differs.

mod law;

pub use law::{connect_is_taken, requests_are_read};
