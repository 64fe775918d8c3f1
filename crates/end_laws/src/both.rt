//! Both ends of a network that loses, repeats and reorders what they send, as small machines. This crate has laws over
//! any list of moves and no code. The machines of the device and of its controller refine the small ones.

mod outputs;
mod start_up;

pub use outputs::outputs_are_given;
pub use start_up::start_up_is_kept;
