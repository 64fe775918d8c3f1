//! Writes blocks, and the header of a response.
ghost use Rattle.std.specs.Prelude.{◌≡◌, ◌+◌, ◌≤◌, ◌∷◌, ◌++◌, [], length};
ghost use Rattle.arrayvec.specs.ArrayVec.{array_vec_len};
ghost use Rattle.dcp_core.specs.Bytes.{answer_bytes, block_bytes, response_bytes};

use arrayvec::ArrayVec;
use dcp_core::{Answer, Kind};
use pn_values::BlockError;

/// The blocks of a response.
pub(crate) type Blocks = ArrayVec<u8, 1213>;

/// Appends a block of BlockInfo and a value. There must be room.
pub(crate) fn put_block(blocks: &mut Blocks, kind: Kind, info: [u8; 2], value: &[u8])
    requires { array_vec_len blocks.old + length value.now + 7 ≤ 1213 }
    ensures items { blocks.new.items ≡ blocks.old.items ++ block_bytes kind (info ++ value.now) }
    ensures len { array_vec_len blocks.new ≤ array_vec_len blocks.old + length value.now + 7 }
{
    let [high, low] = ((value.len() + 2) as u16).to_be_bytes();
    let [first, second] = info;
    let head = [kind.option(), kind.suboption(), high, low, first, second];
    let _ = blocks.try_extend_from_slice(&head);
    let _ = blocks.try_extend_from_slice(value);
    if value.len() % 2 == 1 {
        blocks.push(0);
    }
}

/// Appends the outcome of a pair of this kind. There must be room.
pub(crate) fn put_outcome(blocks: &mut Blocks, kind: Kind, error: BlockError)
    requires { array_vec_len blocks.old + 8 ≤ 1213 }
    ensures items { blocks.new.items ≡ blocks.old.items ++ response_bytes kind error }
    ensures len { array_vec_len blocks.new ≡ array_vec_len blocks.old + 8 }
{
    let response = [5, 4, 0, 3, kind.option(), kind.suboption(), error as u8, 0];
    let _ = blocks.try_extend_from_slice(&response);
}

/// Writes a response with these blocks into an empty list: ServiceID, success, the transaction, and DCPDataLength.
pub(crate) fn put_answer(answer: &mut Answer, service: u8, xid: u32, blocks: &Blocks)
    requires { answer.old.items ≡ [] }
    ensures items { answer.new.items ≡ answer_bytes service xid blocks.now.items }
    ensures length { length answer.new.items ≤ 1223 }
{
    let [first, second, third, fourth] = xid.to_be_bytes();
    let [high, low] = (blocks.len() as u16).to_be_bytes();
    let _ = answer.try_extend_from_slice(&[
        service, 1, first, second, third, fourth, 0, 0, high, low,
    ]);
    let _ = answer.try_extend_from_slice(blocks.as_slice());
}
