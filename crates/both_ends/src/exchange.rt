//! What both ends of a network exchange, in the worlds that moves lead to: the outputs that a device shows are those of its
//! controller, and a controller accepts the alarms that its device raised and the changes of diagnosis that it reported. This module also has all laws of both ends for a
//! world that is begun and played.

mod alarms;
mod chosen;
mod outputs;
mod plugged;
mod together;

pub use alarms::worlds_take_alarms;
pub use chosen::answers_choose_well;
pub use outputs::worlds_show_what_is_given;
pub use plugged::{modules_are_sized, moves_are_sized};
pub use together::play_both_ends;
