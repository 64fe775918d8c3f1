//! A flash in memory that records its program and erase calls, for a host that carries them out on a chip of its own. It records where
//! each call was, and for how many bytes: the bytes are in the sector.

mod entries;
mod entry;
mod flash;

pub use entry::{MOST_BYTES, MOST_CALLS, Recorded};
pub use flash::RecordedFlash;
