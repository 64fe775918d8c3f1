//! The log of a device (IEC 61158-6-10, 5.2.3): how its relations ended, and which Connects it refused. It is kept in memory
//! alone: a restart finds it empty.

mod entry;
mod log;
mod writing;

pub use entry::LogEntry;
pub use log::Log;
pub use writing::put_log_data;
