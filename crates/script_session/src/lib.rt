//! Both ends of a script between two lines: the demo device with its flash, the controller, and the frames that wait
//! between them.
#![tactic(auto)]

mod both;
mod bytes;
mod copies;
mod demo;
mod device;
mod laws;
mod other_end;
mod outputs;
mod power;
mod session;
mod waiting;

pub use laws::plans_are_known;
pub use session::Session;
