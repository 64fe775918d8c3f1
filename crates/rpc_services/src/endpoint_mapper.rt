//! The endpoint mapper of a device (The Open Group C706, appendix O): a tool that looks up what a station serves gets one
//! entry, the device's interface with its object, its port and its IP address. Answers are in the caller's byte order.

mod annotation;
mod frames;
mod law;
mod lookup;
mod mapper;
mod writing;

pub use frames::mapped_call;
pub use law::lookups_end;
pub use lookup::Lookup;
pub use mapper::{MapperAnswer, mapped};
