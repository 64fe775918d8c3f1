//! The controller of a station (IEC 61158-5-10 and IEC 61158-6-10; protocol machine CMCTL): it finds the station of its
//! plan by its name, sets its address, establishes the relation, writes the records of the plan in order, ends the
//! parameters, waits for ApplicationReady, and exchanges data.
//!
//! In clauses it is a state machine: from what was received and its state follow its next state and the messages that
//! it sends.
#![tactic(auto)]

mod alarms;
mod controller;
mod leaps;
mod silent;
mod start_up;
mod step;
mod stored;
mod turns;

pub use controller::Controller;
pub use controller_messages::{
    Answer, ControllerOptions, MOST_RECORD_OCTETS, RecordRequest, RecordService,
};
pub use cyclic_data::ProviderStatus;
pub use diagnosis::{Diagnosis, Priority, Report};
pub use leaps::leaps_are_ticks;
pub use plan_places::PlaceState;
pub use start_up::{
    Outcomes, is_addressed, is_answer, is_found, is_ready, is_refused, is_right, is_set_answer,
    next_sequence, outcomes_of, ready_in, request_behind,
};
pub use stored::{
    Cause, Event, KeptAlarm, OutputMark, RefusedRecord, SECOND, State, ack_of, awaits, cause_of,
    change, counter_later, header_of, iops_in, is_alarm, is_limited, left_in, open, phase_for,
    route_of, waited_later,
};
