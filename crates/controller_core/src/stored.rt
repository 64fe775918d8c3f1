//! What a controller keeps from event to event: its state, why it ended, the last alarms, why the IOPS of its outputs are not
//! good, its counters, and the exchange of its relation before it starts; and the events.

mod alarms;
mod counters;
mod event;
mod kept;
mod opening;
mod outputs;
mod state;

pub use alarms::{header_of, is_alarm};
pub use counters::{SECOND, counter_later, waited_later};
pub use event::Event;
pub use kept::{KeptAlarm, ack_of};
pub use opening::{open, route_of};
pub use outputs::{OutputMark, awaits, change, iops_in};
pub use state::{Cause, RefusedRecord, State, cause_of, is_limited, left_in, phase_for};
