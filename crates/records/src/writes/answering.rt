//! The response to a Write.
ghost use Rattle.std.specs.Prelude.{◌≡◌, ◌+◌, ◌≤◌, ◌++◌};
ghost use Rattle.arrayvec.specs.ArrayVec.{array_vec_len};
ghost use Rattle.records.specs.writes.Answer.{answer_of, number_of, outcome_of};

use crate::done;
use arrayvec::ArrayVec;
use block_codec::{Block, IodWriteReq, IodWriteRes, write_block};
use record_blocks::iod_write_res_len;
use rpc_core::Status;

/// Appends the response to a Write that succeeded: the IODWriteResHeader of 64 octets. There must be room.
#[tactic(auto, unfolding(crate::specs::writes::Answer::answer_of))]
pub fn put_write_answer<const N: usize>(answer: &mut ArrayVec<u8, N>, request: &IodWriteReq)
    requires { array_vec_len answer.old + 64 ≤ N }
    // The response is appended.
    ensures items { answer.new.items ≡ answer.old.items ++ answer_of request.now }
    // It has 64 octets.
    ensures len { array_vec_len answer.new ≡ array_vec_len answer.old + 64 }
{
    put_write_outcome(answer, request, done());
}

/// Appends the outcome of one record of several: its IODWriteResHeader of 64 octets, with its own PNIOStatus. There must
/// be room.
#[tactic(auto, unfolding(crate::specs::writes::Answer::outcome_of, block_codec::specs::Block::block_size, block_codec::specs::Block::fields_of, wire::specs::blocks::Fields::body, wire::specs::blocks::Fields::version, record_blocks::specs::RecordHeader::record_header, record_blocks::specs::WriteRecord::iod_write_res))]
pub fn put_write_outcome<const N: usize>(
    answer: &mut ArrayVec<u8, N>,
    request: &IodWriteReq,
    status: Status,
)
    requires { array_vec_len answer.old + 64 ≤ N }
    // The header is appended.
    ensures items { answer.new.items ≡ answer.old.items ++ outcome_of request.now status }
    // It has 64 octets.
    ensures len { array_vec_len answer.new ≡ array_vec_len answer.old + 64 }
{
    let header = IodWriteRes {
        header: request.header,
        additional_value_1: 0,
        additional_value_2: 0,
        pnio_status: number_of(status),
    };
    // The length bounds the octets, so there is room for them.
    let _size = iod_write_res_len(&header);
    write_block(answer, &Block::IodWriteRes(header));
}

/// PNIOStatus as a number of four octets.
fn number_of(status: Status) -> u32
    ensures { result ≡ number_of status }
{
    u32::from(status.code) * 0x100_0000
        + u32::from(status.decode) * 0x1_0000
        + u32::from(status.code1) * 0x100
        + u32::from(status.code2)
}
