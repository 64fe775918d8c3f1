//! The response to a Read.
ghost use Rattle.std.specs.Prelude.{◌≡◌, ◌+◌, ◌≤◌, ◌++◌, length, take};
ghost use Rattle.arrayvec.specs.ArrayVec.{array_vec_len};
ghost use Rattle.records.specs.reads.Answer.{answer_of};

use arrayvec::ArrayVec;
use block_codec::{Block, IodReadReq, IodReadRes, RecordHeader, write_block};
use record_blocks::iod_read_res_len;
use wire::append;

/// The first `most` octets of a record, or all if there are fewer.
fn cut_to(octets: &[u8], most: u32) -> &[u8]
    ensures cut { result.now ≡ take most octets.now }
    ensures few { length result.now ≤ length octets.now }
{
    &octets[..octets.len().min(most as usize)]
}

/// Appends the response to a Read: the IODReadResHeader of 64 octets, and the octets of the record, cut to the
/// RecordDataLength of the request. There must be room for the whole record.
#[tactic(auto, unfolding(crate::specs::reads::Answer::answer_of, block_codec::specs::Block::block_size, block_codec::specs::Block::fields_of, wire::specs::blocks::Fields::body, wire::specs::blocks::Fields::version, record_blocks::specs::RecordHeader::record_header, record_blocks::specs::ReadRecord::iod_read_res))]
pub fn put_read_answer<const N: usize>(
    answer: &mut ArrayVec<u8, N>,
    request: &IodReadReq,
    octets: &[u8],
)
    requires { array_vec_len answer.old + 64 + length octets.now ≤ N }
    ensures { answer.new.items ≡ answer.old.items ++ answer_of request.now octets.now }
{
    // The reader says how much room it has, and gets that much of the record.
    let sent = cut_to(octets, request.header.record_data_length);
    let header = IodReadRes {
        header: RecordHeader {
            record_data_length: sent.len() as u32,
            ..request.header
        },
        additional_value_1: 0,
        additional_value_2: 0,
    };
    // The length bounds the octets, so there is room for them.
    let _size = iod_read_res_len(&header);
    write_block(answer, &Block::IodReadRes(header));
    append(answer, sent);
}
