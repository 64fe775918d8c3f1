//! What the answers of a device say to the controller that starts it up (IEC 61158-6-10, 4.3 and 5.2): the station that was
//! found, the response to the active call, the outcomes of the records of a Write, and ApplicationReady; and the request that
//! follows.

mod answers;
mod outcomes;
mod requests;

pub use answers::{
    is_addressed, is_answer, is_found, is_held, is_ready, is_refused, is_right, is_set_answer,
    is_tried, ready_in,
};
pub use outcomes::{Outcomes, outcomes_of};
pub use requests::{next_sequence, request_after, request_behind};
