//! Start-up: what holds of both ends of a network in the worlds that moves lead to, and how such a world begins.
//!
//! `request` and `answer` are the laws of a Connect: the device accepts the Connect of a plan that fits it, and the controller reads
//! the answer as it is meant.

mod answer;
mod fresh;
mod later;
mod meeting;
mod request;
mod start_up;
mod texts;

pub use answer::{
    answer_blocks_are_read, answers_are_read, connect_answer_is_read, responses_are_no_calls,
};
pub use fresh::{Fresh, Net, fresh_world};
pub use later::later_worlds_begin;
pub use meeting::{are_unnamed, begin_world, can_meet, nothing_is_named};
pub use request::{connect_is_taken, requests_are_read};
pub use start_up::worlds_start_up;
pub use texts::plans_have_parameters;
