//! Laws of what a controller sends: each frame is one of its messages, and each message can be sent. This crate has no
//! code.

mod addressed;
mod law;

pub use addressed::messages_are_addressed;
pub use law::{frames_are_messages, messages_can_be_sent};
