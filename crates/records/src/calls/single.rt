//! The single block of a call.
ghost use Rattle.std.specs.Prelude.{◌≡◌};
ghost use Rattle.wire.specs.Codec.{Gives};
ghost use Rattle.records.specs.calls.Single.{single_of};

use crate::CallFault;
use block_codec::{Block, BlockType, read_block};
use wire::u16_at;

/// Reads the single block of a call, which must be of type `kind`. Returns it and the rest: in a Write the record is
/// there, in other calls it is ignored. The first fault found is reported: BlockMissing if there is no octet, BlockHeader
/// if there are one to three, BlockType, and then BlockForm.
#[tactic(auto, unfolding(crate::specs::calls::Single::single_of))]
pub fn single_block(blocks: &[u8], kind: BlockType) -> Result<(Block<'_>, &[u8]), CallFault>
    ensures { Gives (λ x. (x.0, x.1.now)) result (single_of kind blocks.now) }
{
    if blocks.is_empty() {
        return Err(CallFault::BlockMissing);
    }
    if blocks.len() < 4 {
        return Err(CallFault::BlockHeader);
    }
    let (number, _fields) = u16_at(blocks, CallFault::BlockHeader)?;
    if number != kind.number() {
        return Err(CallFault::BlockType);
    }
    match read_block(blocks) {
        Ok((block, behind)) => Ok((block, behind)),
        Err(_fault) => Err(CallFault::BlockForm),
    }
}
