//! One step of a PROFINET IO device, runs of steps, and what a power failure leaves of them.
#![tactic(auto)]

mod arp;
mod asking;
mod calls;
mod dcp;
mod device;
mod headline;
mod law;
mod leaps;
mod logging;
mod low;
mod modules;
mod neighbour;
mod run;
mod several;
mod sink;
mod start;
mod steady;
mod step;

pub use device::Device;
pub use device_frames::{Caller, Event, Local, Note, Octets};
pub use headline::{cycle, cycle_with, restart};
pub use law::{
    answers_go_to_the_question, application_is_local, only_pulls_and_plugs_change_modules,
    reads_leave_stored_answers, repeats_are_answered_alike, steps_make_runs,
};
pub use leaps::leaps_are_ticks;
pub use sink::Sink;
