// Writing blocks, and the header of a response.
ghost use Rattle.std.specs.Prelude.{◌≡◌, ◌+◌, ◌≤◌, ◌%◌, ◌∷◌, ◌++◌, [], length};
ghost use Rattle.std.specs.Int.{w16, w32, to_be_bytes};
ghost use Rattle.arrayvec.specs.ArrayVec.{array_vec_len};
ghost use Rattle.dcp_core.specs.Bytes.{block_bytes, response_bytes, answer_bytes, error_number};

use crate::Kind;
use arrayvec::ArrayVec;
use pn_values::BlockError;

/// A response, which is what follows the FrameID: a header of 10 bytes, and for each of at most 16 kinds up to 32
/// bytes, or 247 for the name and 518 for the name by the place.
pub type Answer = ArrayVec<u8, 1223>;

/// The blocks of a response, which follow its header of ten bytes.
pub(crate) type Blocks = ArrayVec<u8, 1213>;

/// Appends a block of BlockInfo and a value. There must be room.
#[inline(always)]
pub(crate) fn put_block<const N: usize>(
    blocks: &mut ArrayVec<u8, N>,
    kind: Kind,
    info: [u8; 2],
    value: &[u8],
)
    requires room { array_vec_len blocks.old + length value.now + 7 ≤ N }
    requires most { N ≤ 1223 }
    ensures items { blocks.new.items ≡ blocks.old.items ++ block_bytes kind (info ++ value.now) }
    ensures len { array_vec_len blocks.new ≤ array_vec_len blocks.old + length value.now + 7 }
    ensures size { array_vec_len blocks.new ≡ array_vec_len blocks.old + length value.now + length value.now % 2 + 6 }
{
    let [high, low] = ((value.len() + 2) as u16).to_be_bytes();
    let [first, second] = info;
    let head = [kind.option(), kind.suboption(), high, low, first, second];
    let _ = blocks.try_extend_from_slice(&head);
    let _ = blocks.try_extend_from_slice(value);
    if value.len() % 2 == 1 {
        blocks.push(0);
    }
}

/// Appends the outcome of a block or pair of this kind. There must be room.
pub(crate) fn put_response(blocks: &mut Blocks, kind: Kind, error: BlockError)
    requires { array_vec_len blocks.old + 8 ≤ 1213 }
    ensures items { blocks.new.items ≡ blocks.old.items ++ response_bytes kind error }
    ensures len { array_vec_len blocks.new ≡ array_vec_len blocks.old + 8 }
{
    let response = [5, 4, 0, 3, kind.option(), kind.suboption(), error as u8, 0];
    let _ = blocks.try_extend_from_slice(&response);
}

/// Puts the header of a response whose blocks take this many octets into an empty list: ServiceID, success, the transaction,
/// and DCPDataLength.
#[inline(always)]
pub(crate) fn put_header(answer: &mut Answer, service: u8, xid: u32, size: u16)
    requires { answer.old.items ≡ [] }
    ensures items { answer.new.items ≡ (service ∷ 1 ∷ to_be_bytes w32 xid) ++ (0 ∷ 0 ∷ to_be_bytes w16 size) }
    ensures len { array_vec_len answer.new ≡ 10 }
{
    let [first, second, third, fourth] = xid.to_be_bytes();
    let [high, low] = size.to_be_bytes();
    let _ = answer.try_extend_from_slice(&[
        service, 1, first, second, third, fourth, 0, 0, high, low,
    ]);
}

/// Writes a response with these blocks: ServiceID, success, the transaction, and DCPDataLength.
pub(crate) fn put_answer(answer: &mut Answer, service: u8, xid: u32, blocks: &Blocks)
    requires { answer.old.items ≡ [] }
    ensures items { answer.new.items ≡ answer_bytes service xid blocks.now.items }
    ensures length { length answer.new.items ≤ 1223 }
{
    put_header(answer, service, xid, blocks.len() as u16);
    let _ = answer.try_extend_from_slice(blocks.as_slice());
}
