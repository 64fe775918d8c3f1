//! Records that are written within a relation (IEC 61158-6-10, 5.2.3): the order in which a Write is checked, what it
//! asks for, one record or several, its response, and the parameter records that a relation has accepted.

mod answering;
mod entries;
mod judging;
mod taken;
mod write;
mod writing;

pub use answering::{put_write_answer, put_write_outcome};
pub use entries::{Entries, Entry};
pub use judging::{judge_record, judge_write};
pub use taken::{TakenRecord, TakenRecords};
pub use write::{Effect, Write};
pub use writing::Writing;
