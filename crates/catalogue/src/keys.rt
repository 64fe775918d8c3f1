//! The keys of a catalogue, which are the names of GSDML; what is read at a key of a JSON object; and the place of a fault.

mod entry;
mod fault;
mod key;
mod numbers;
mod tree;

pub use entry::{Entry, each_of, list};
pub use fault::{CatalogueFault, PlacedFault, Step};
pub use key::Key;
pub use tree::{
    flag_at, items_at, long_at, member_at, number_in, string, text, whole, whole_at, word_at,
};
