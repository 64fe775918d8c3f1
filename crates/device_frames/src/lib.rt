//! What a device receives, its outcome, and what is sent: an event by its meaning, a note of its outcome, and messages
//! by their frames.
//!
//! The owner of the device's state decides on what was received, and says what is sent. This crate is between that and
//! the octets of frames.
#![tactic(auto)]

mod answers;
mod event;
mod exchange;
mod hearing;
mod local;
mod note;
mod octets;
mod relation;
mod sizes;

pub use answers::{send_arp_reply, send_dcp_answer, send_response};
pub use event::Event;
pub use exchange::{
    send_alarm, send_alarm_again, send_alarm_reply, send_inputs, send_inputs_of, send_low_alarm,
    send_low_reply, send_ready_again,
};
pub use frame_codec::Caller;
pub use hearing::{RealTimeKind, is_asked, is_called, kind_of, open_frame, real_time_in};
pub use local::Local;
pub use note::Note;
pub use octets::Octets;
pub use relation::{send_farewell, send_plug_ready, send_ready};
