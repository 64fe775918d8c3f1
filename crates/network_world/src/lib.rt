//! A device, its controller, and a network between them that may lose, repeat and reorder everything that either sends.
//! Any moves can be played, and the result is a world that the moves allow.
//!
//! Clauses see a world as the device, the controller, and the octets of each frame that either end ever sent, in order.
#![tactic(auto)]

mod moves;
mod sent;
mod world;

pub use moves::{End, Move};
pub use world::World;
