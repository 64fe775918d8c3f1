//! The response of a device to the Connect of a plan is a positive response for the plan's controller (IEC 61158-6-10,
//! 5.2.4). These are laws of the definitions by which the device responds and the controller reads.

mod blocks;
mod law;
mod reading;

pub use blocks::answer_blocks_are_read;
pub use law::connect_answer_is_read;
pub use reading::{answers_are_read, responses_are_no_calls};
