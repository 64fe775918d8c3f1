//! The checks that calls of Read and Write share.
ghost use Rattle.std.specs.Prelude.{◌≡◌};
ghost use Rattle.wire.specs.Codec.{Gives};
ghost use Rattle.records.specs.reads.Handled.{placed, request_of};

use crate::{CallFault, single_block};
use block_codec::{Block, BlockType, IodReadReq};
use im_records::{is_anywhere, is_real};
use pn_values::Real;

/// Reads the IODReadReqHeader of a call. The octets after it are ignored.
#[tactic(auto, unfolding(crate::specs::reads::Handled::request_of))]
pub fn read_request(blocks: &[u8]) -> Result<IodReadReq, CallFault>
    ensures { Gives (λ x. x) result (request_of blocks.now) }
{
    // TargetARUUID and padding may follow; they are ignored.
    let (block, _behind) = single_block(blocks, BlockType::IodReadReq)?;
    match block {
        Block::IodReadReq(request) => Ok(request),
        _ => Err(CallFault::BlockForm),
    }
}

/// Checks that a request names API 0 and, if its index needs one, a submodule that is plugged.
#[tactic(auto, unfolding(crate::specs::reads::Handled::placed))]
pub fn check_place(
    real: &Real,
    api: u32,
    slot: u16,
    subslot: u16,
    index: u16,
) -> Result<(), CallFault>
    ensures { result ≡ placed real.now api slot subslot index }
{
    if api != 0 {
        return Err(CallFault::Api);
    }
    if is_anywhere(index) || is_real(real, slot, subslot) {
        Ok(())
    } else {
        Err(CallFault::Place)
    }
}
