//! What a controller does with each frame of a start-up that succeeds.

mod asking;
mod calling;
mod passing;
mod searching;

pub use asking::controller_asks_again;
pub use calling::controller_takes_responses;
pub use passing::controller_goes_on_in_time;
pub use searching::controller_finds_its_device;
pub(crate) use searching::type_is_short;
