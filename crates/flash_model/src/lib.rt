//! A flash memory of two sectors, each erased as a whole. Its calls may fail or be cut short by a loss of power, and
//! then leave any mixture of the old bits and the new ones.
#![tactic(auto)]

mod fate;
mod flash;
mod lent;
mod memory;

pub use flash::{Flash, FlashFault, Order, Sector};
pub use lent::Lent;
pub use memory::MemoryFlash;
