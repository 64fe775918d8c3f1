//! What a controller receives, and what it sends: frames by their meaning, and messages by their frames.
//!
//! The owner of the controller's state decides on what was received, and says what is sent. This crate is between that
//! and the octets of frames. No frame is kept: a request that is sent again is written again, and its octets are the
//! same.
//!
//! The requests of a controller's application while data is exchanged: one record at a time is read or written
//! (IEC 61158-6-10, 5.2.3). After a plug the controller writes the records of its plan again, beside the exchange too.
#![tactic(auto)]

mod access;
mod answers;
mod calls;
mod exchange;
mod hearing;
mod law;
mod plug_blocks;
mod plug_request;
mod record_request;
mod refusal;
mod request;
mod requests;
mod setup;
mod writes;

pub use access::{Access, Answer, call_number, is_rejected, is_reply, record_in};
pub use answers::send_ready_answer;
pub use calls::header_of;
pub use exchange::{send_alarm_ack, send_alarm_end, send_alarm_reply, send_outputs};
pub use hearing::{Hearing, heard, heard_real_time, real_time_in};
pub use law::calls_are_no_refusals;
pub use plug_request::{
    PlugRequest, PlugStep, is_plug_ready, plug_ready_in, send_plug_answer, send_plug_request,
};
pub use record_request::{MOST_RECORD_OCTETS, RecordRequest, RecordService, send_record_request};
pub use refusal::Refusal;
pub use request::Request;
pub use requests::send_request;
pub use setup::{ControllerOptions, Setup};
pub use writes::{first_of, group_of, write_count};
