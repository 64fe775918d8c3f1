//! What a device does with each frame of a start-up that succeeds, and when a frame of it was lost.

mod answering;
mod calling;
mod passing;
mod repeating;
mod searching;
mod writing;

pub(crate) use answering::connect_answers_are_whole;
pub use calling::device_takes_calls;
pub use passing::device_goes_on_in_time;
pub use repeating::device_repeats;
pub use searching::device_answers_the_search;
pub(crate) use searching::suite_is_valid;
pub use writing::device_takes_writes;
pub(crate) use writing::plan_is_placed;
