//! Compares the plugged modules of a device with those that a Connect expects (IEC 61158-6-10, 5.2.4.11), and lists the
//! modules that differ for its ModuleDiffBlock.
#![tactic(auto)]

mod changes;
mod differing;
mod expected;
mod plugged;
mod rows;

pub use changes::{Affected, ChangeKind, RealChange, can_plug, plug, pull, pull_module};
pub use differing::{diff, split_own};
pub use expected::Expected;
pub use plugged::{module_in, part_ident};
pub use rows::DiffRows;
