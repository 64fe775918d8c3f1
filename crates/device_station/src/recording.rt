//! A device whose flash calls are carried out by a host. The calls that a step makes to the flash are recorded, and the
//! host carries them out on its own chip before it sends the frames of that step.

mod recorded_leap;
mod recorded_step;

pub use recorded_leap::{leap, leap_steady, skip, skip_steady};
pub use recorded_step::{step, step_cyclic, step_input};
