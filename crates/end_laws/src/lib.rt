//! What each end of a relation hears, sends and does at its turn, over any list of moves; the functions have no code, but for a step of each
//! end.
//!
//! `hearing` says what each end reads from the octets of a message, `sending` what each end sends and to whom, and `turns` what
//! holds for a controller over any events. `both` has the two small machines whose laws are start-up and outputs; `device` and
//! `controller` prove that the real ends refine them. `cyclic` says which cyclic frames either end accepts and sends.
#![tactic(auto)]

mod answers;
mod both;
mod controller;
mod cyclic;
mod device;
mod hearing;
mod log_data;
mod sending;
mod turns;

pub use answers::answers_are_one_datagram;
pub use both::{outputs_are_given, start_up_is_kept};
pub use controller::controller_goes_on;
pub use cyclic::{cyclic_controller, cyclic_device};
pub use device::{
    device_exchange_is_kept, device_goes_on, device_sends_what_it_owes, device_turns,
};
pub use hearing::{
    alarms_are_heard, answers_are_heard, calls_are_heard, calls_can_be_sent,
    confirmations_are_heard, datagrams_alone_are_calls, ends_are_heard, inputs_are_heard,
    packets_are_heard, plug_calls_are_heard, ready_answers_are_heard, ready_calls_are_heard,
    requests_are_heard, responses_are_heard, stations_are_real,
};
pub use log_data::log_data_is_read_back;
pub use sending::{frames_are_messages, messages_are_addressed, messages_can_be_sent};
pub use turns::{
    alarms_are_taken_in_order, answers_belong_to_their_requests, each_end_has_its_cause,
    ended_is_kept, inputs_are_received, no_state_outlasts_its_patience, requests_are_repeated,
    turns_are_of_a_kind, turns_begin_beside,
};
