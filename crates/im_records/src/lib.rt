//! The records of identification and maintenance (IEC 61158-6-10, 5.2.3.22): what a device returns when one is read, and
//! what a written one asks for.
#![tactic(auto)]

mod fault;
mod plugged;
mod reading;
mod record;
mod writing;

pub use fault::RecordFault;
pub use reading::{is_real, is_writable, read_record};
pub use record::{Record, is_anywhere, is_module_diff, is_read_only};
pub use writing::read_write;
