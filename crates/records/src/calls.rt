//! The parts that calls of PROFINET IO share (IEC 61158-6-10, 5.2): checks in a fixed order, the single block of every
//! call but Connect, and whether a call names the active relation.

mod naming;
mod single;

pub use naming::{check_relation, is_relation};
pub use single::single_block;
