//! The machine of a device refines the small one of a start-up. This crate has laws only and no code.

mod exchange;
mod goes_on;
mod owed;
mod turn;

pub use exchange::device_exchange_is_kept;
pub use goes_on::device_goes_on;
pub use owed::device_sends_what_it_owes;
pub use turn::device_turns;
