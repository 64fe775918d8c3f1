//! What a Connect asks for (IEC 61158-6-10, 5.2.4): its blocks, checked in the order of the statuses (5.2.6). The
//! ARBlockReq is first. After it follow, in any order, the IOCRBlockReq of inputs and that of outputs, the
//! AlarmCRBlockReq, and one or more ExpectedSubmoduleBlockReq. The first fault counts. Only after all blocks are read
//! are two things checked: which blocks are missing, and whether each IOCRBlockReq has a place for the data of each
//! submodule.

mod draft;
mod expected;
mod laws;
mod layouts;
mod parts;
mod request;

pub use laws::{intervals_are_kept, layouts_are_taken};
pub use parts::{AlarmCr, Ar, Iocr};
pub use request::{ConnectRequest, asked_initiator, asked_uuid, refuse};
