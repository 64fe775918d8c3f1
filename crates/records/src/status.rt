//! The results of PROFINET IO calls (PNIOStatus, IEC 61158-6-10, 5.2.6): the operations of a device, the reasons to
//! refuse a call, and the four octets of the response that report it.

mod call_fault;
mod law;
mod operation;

pub use call_fault::{CallFault, done};
pub use law::refusals_are_not_done;
pub use operation::Operation;
pub use rpc_core::Status;
