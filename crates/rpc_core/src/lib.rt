//! Calls of PROFINET IO: connectionless DCE/RPC (The Open Group C706, chapter 12; IEC 61158-6-10, 4.10) in UDP
//! datagrams. It has calls and their responses as values, in either byte order, and the cache of the responses that a
//! station stores.
#![tactic(auto)]

mod cache;
mod call;
mod call_headers;
mod fault;
mod fields;
mod header;
mod interface;
mod law;
mod pdu;
mod response;
mod writing;

pub use cache::{CallCache, Looked};
pub use call::{Call, read_call};
pub use call_headers::{
    Extent, Head, Names, Opening, Refusal, Refused, Rejection, Turn, answer_head, head_at,
    is_little, is_read, names_mapper, put_head, put_long, put_short, refusal_bytes, sent_uuid,
    unserved_answer,
};
pub use fault::RpcFault;
pub use header::CallHeader;
pub use interface::Interface;
pub use law::{
    calls_and_responses_differ, calls_are_read, calls_name_their_interface, responses_are_read,
};
pub use response::{Response, Status, read_response};
pub use uuid::Uuid;
pub use writing::{Datagram, write_request, write_response};
