//! Laws of a device and a controller over a network: start-up, outputs, alarms and diagnosis. Besides the worlds that tests begin with, this crate has no code that runs.
#![tactic(auto)]

mod exchange;
mod startup;

pub use exchange::{
    answers_choose_well, modules_are_sized, moves_are_sized, play_both_ends,
    worlds_show_what_is_given, worlds_take_alarms,
};
pub use startup::{
    Fresh, Net, answer_blocks_are_read, answers_are_read, are_unnamed, begin_world, can_meet,
    connect_answer_is_read, connect_is_taken, fresh_world, later_worlds_begin, nothing_is_named,
    plans_have_parameters, requests_are_read, responses_are_no_calls, worlds_start_up,
};
