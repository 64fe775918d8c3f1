//! The negative results of calls for records of the application (PNIOStatus, IEC 61158-6-10, 5.2.6).
ghost use Rattle.std.specs.Prelude.{◌≡◌, ◌+◌, ◌≤◌, ◌++◌, false};
ghost use Rattle.arrayvec.specs.ArrayVec.{array_vec_len};
ghost use Rattle.rpc_core.specs.Response.{is_done};
ghost use Rattle.records.specs.status.Status.{access};
ghost use Rattle.asked_records.specs.Answers.{listed_entry, unanswered_status};

use arrayvec::ArrayVec;
use block_codec::IodWriteReq;
use records::{CallFault, Operation, put_write_outcome};
use rpc_core::Status;

/// Why the device refuses a call for a record of the application by itself.
#[derive(Clone, Copy, Debug, PartialEq, Eq)]
pub enum Unanswered {
    /// Another call is asked: ErrorCode1 0xC2, resource busy.
    Busy,
    /// The application gave no answer in time: ErrorCode1 0xA7, busy.
    Late,
    /// The record is an entry of a list: ErrorCode1 0xA9, feature not supported.
    InList,
}

impl Unanswered {
    /// The PNIOStatus of a call of this operation that is refused for this reason.
    pub fn number(self, operation: Operation) -> Status
        ensures value { result ≡ unanswered_status operation self }
        ensures negative { is_done result ≡ false }
    {
        let code1 = match self {
            Unanswered::Busy => 0xC2,
            Unanswered::Late => 0xA7,
            Unanswered::InList => 0xA9,
        };
        refused(operation, code1, 0)
    }
}

/// The PNIOStatus of a call of this operation that is refused with this ErrorCode1 and ErrorCode2.
#[tactic(auto, unfolding(records::specs::status::Status::status_of))]
pub(crate) fn refused(operation: Operation, code1: u8, code2: u8) -> Status
    ensures value { result ≡ access operation code1 code2 }
    ensures negative { is_done result ≡ false }
{
    // Each fault of a record has the ErrorCode of its operation and the ErrorDecode of records.
    let status = CallFault::Access.number(operation);
    Status {
        code1,
        code2,
        ..status
    }
}

/// Appends the outcome of an entry of a list that names a record of the application: its IODWriteResHeader of 64 octets.
/// There must be room.
pub fn put_listed_entry<const N: usize>(answer: &mut ArrayVec<u8, N>, request: &IodWriteReq)
    requires { array_vec_len answer.old + 64 ≤ N }
    // The header is appended.
    ensures items { answer.new.items ≡ answer.old.items ++ listed_entry request.now }
    // It has 64 octets.
    ensures len { array_vec_len answer.new ≡ array_vec_len answer.old + 64 }
{
    put_write_outcome(answer, request, Unanswered::InList.number(Operation::Write));
}
