//! Hearing laws: what either end hears of each message of the other end, and of its own. This crate has no code.
//!
//! A message is a meaning that is sent in exactly one way (`bytes_of`), and what is heard of octets depends on the
//! octets only. Each law is about one kind of message: what a device and a controller hear of its octets. A message
//! that can be sent is heard as itself by the station that it is meant for, and as nothing by others.

mod alarms;
mod calls;
mod cyclic;
mod discovery;
mod stations;

pub use alarms::{alarms_are_heard, confirmations_are_heard, ends_are_heard};
pub use calls::{
    calls_are_heard, calls_can_be_sent, datagrams_alone_are_calls, plug_calls_are_heard,
    ready_answers_are_heard, ready_calls_are_heard, responses_are_heard,
};
pub use cyclic::inputs_are_heard;
pub use discovery::{answers_are_heard, packets_are_heard, requests_are_heard};
pub use stations::stations_are_real;
