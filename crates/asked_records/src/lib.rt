//! Records that the application answers (IEC 61158-6-10, 5.2.3): which records the station names, the call that is asked of
//! the application, and the response that its answer makes.
//!
//! One call is asked at a time. Nothing here knows of frames or of the kept answers: the owner sends what is returned, and
//! says when a relation ends and when a submodule is pulled.
#![tactic(auto)]

mod answering;
mod asked;
mod judging;
mod law;
mod names;
mod question;
mod status;

pub use answering::{AnswerFault, Given, Reply};
pub use asked::{AskedRecord, AskedRecords, Wanted};
pub use judging::{asked_name, judge_asked_read, judge_asked_write};
pub use law::{answers_are_accepted_once, numbers_come_once, records_are_found};
pub use names::{NameFault, NamedRecords, RecordName};
pub use question::{Question, Request};
pub use status::{Unanswered, put_listed_entry};
