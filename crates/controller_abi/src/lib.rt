//! What a host asks of a controller, as it lies in the host's memory: one operation with its number, and a plan.
//!
//! What a host asks of a tool that works before a controller starts, as it lies in the host's memory.
#![tactic(auto)]

mod asking;
mod host;
mod law;
mod operation;
mod plan;
mod port;
mod reading;
mod serving;
mod tool;

pub use asking::{find, hear, name, outcome};
pub use host::{Asked, Host, play};
pub use law::requests_have_numbers_of_their_own;
pub use plan::{WrittenIdentity, WrittenPlan, WrittenRecord, fault_in, judge, start, unstarted};
pub use port::Port;
pub use reading::{WrittenTarget, read, record};
pub use serving::serve;
pub use tool::WrittenTool;
