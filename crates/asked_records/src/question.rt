//! What is asked of the application, and what its response needs.
ghost use Rattle.std.specs.Prelude.{◌≡◌, nat_eq};
ghost use Rattle.std.specs.Cmp.Lexicographic.{pointwise};
ghost use Rattle.rpc_core.specs.Response.{answer_to, answered};
ghost use Rattle.asked_records.specs.Questions.{call_of, header_of, is_implicit, is_of_relation, is_write, operation_of};

use block_codec::{IodReadReq, IodWriteReq, RecordHeader};
use frame_codec::Caller;
use records::Operation;
use rpc_core::{CallHeader, Response, Status};
use wire::Uuid;

/// The request of a call for a record of the application.
#[derive(Clone, Copy)]
pub enum Request {
    /// A Read within the relation.
    Read(IodReadReq),
    /// A Read Implicit, which is of no relation.
    ReadImplicit(IodReadReq),
    /// A Write within the relation.
    Write(IodWriteReq),
}

impl Request {
    /// The record, its submodule and the number of octets.
    pub fn header(&self) -> &RecordHeader
        ensures { result.now ≡ header_of self.now }
    {
        match self {
            Request::Read(request) | Request::ReadImplicit(request) => &request.header,
            Request::Write(request) => &request.header,
        }
    }

    /// The operation that was called.
    pub fn operation(&self) -> Operation
        ensures { result ≡ operation_of self.now }
    {
        match self {
            Request::Read(_) => Operation::Read,
            Request::ReadImplicit(_) => Operation::ReadImplicit,
            Request::Write(_) => Operation::Write,
        }
    }

    /// Whether it is a Write.
    pub fn is_write(&self) -> bool
        ensures { result ≡ is_write self.now }
    {
        match self {
            Request::Read(_) | Request::ReadImplicit(_) => false,
            Request::Write(_) => true,
        }
    }

    /// Whether it is a Read Implicit.
    pub fn is_implicit(&self) -> bool
        ensures { result ≡ is_implicit self.now }
    {
        match self {
            Request::ReadImplicit(_) => true,
            Request::Read(_) | Request::Write(_) => false,
        }
    }

    /// Whether it is of the relation with this ARUUID.
    pub fn is_of_relation(&self, ar_uuid: &Uuid) -> bool
        ensures { result ≡ is_of_relation ar_uuid.now self.now }
    {
        match self {
            Request::Read(request) => is_same(&request.header.ar_uuid, ar_uuid),
            Request::ReadImplicit(_) => false,
            Request::Write(request) => is_same(&request.header.ar_uuid, ar_uuid),
        }
    }
}

/// Whether two identifiers are the same.
pub(crate) fn is_same(one: &Uuid, other: &Uuid) -> bool
    ensures { result ≡ pointwise nat_eq one.now other.now }
{
    *one.as_bytes() == *other.as_bytes()
}

/// A call that asks the application, with what its response needs.
#[derive(Clone, Copy)]
pub struct Question {
    /// The sender, which gets the response.
    pub caller: Caller,
    /// The header of the call, which the response repeats.
    pub header: CallHeader,
    /// ArgsMaximum of the call.
    pub args_maximum: u32,
    /// The request.
    pub request: Request,
    /// The greatest length of the record, at most 1,308 octets.
    pub greatest_length: u16,
}

impl Question {
    /// The response to the call.
    pub fn response<'b>(&self, status: Status, blocks: &'b [u8]) -> Response<'b>
        ensures { answered result ≡ answer_to (call_of self.now) status blocks.now }
    {
        Response {
            header: self.header,
            status,
            maximum_count: self.args_maximum,
            blocks,
        }
    }
}
