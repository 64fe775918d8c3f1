//! What holds for a controller over any events (IEC 61158-6-10, 5.2; protocol machine CMCTL). These are laws of the
//! machine that specifies `controller_core::Controller`; the functions have no code.

mod beside;
mod kinds;
mod law;

pub use beside::turns_begin_beside;
pub use kinds::turns_are_of_a_kind;
pub use law::{
    alarms_are_taken_in_order, answers_belong_to_their_requests, each_end_has_its_cause,
    ended_is_kept, inputs_are_received, no_state_outlasts_its_patience, requests_are_repeated,
};
