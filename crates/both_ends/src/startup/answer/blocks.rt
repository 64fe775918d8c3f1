//! The blocks of the response to a Connect, as a controller reads them.
ghost use Rattle.std.specs.Prelude.{◌≡◌, ◌<◌, ◌≤◌, ◌++◌, List, ℕ, [], length};
ghost use Rattle.relations.specs.Connect.{alarm_answer};
ghost use Rattle.relations.specs.Numbers.{endpoint_of};
ghost use Rattle.block_codec.specs.Block.{IsAccepted, block_bytes, block_of, block_size, front};
ghost use Rattle.both_ends.specs.startup.answer.Answer.{IsAllThere};

use arrayvec::ArrayVec;
use block_codec::{ArBlockRes, Block, IocrBlockRes, write_block};
use connect_blocks::{ar_block_res_len, iocr_block_res_len};
use connects::blocks_are_found;

// A block of at most 64 octets is read back, with anything after it.
#[tactic(auto, unfolding(block_codec::specs::Block::block_size))]
fn block_is_read(block: &Block<'_>)
    requires few { block_size block.now ≤ 64 }
    requires accepted { IsAccepted block.now }
    ensures read { (rest : List ℕ) → block_of (block_bytes block.now ++ rest) ≡ front block.now rest }
    ensures some { 0 < length (block_bytes block.now) }
{
    let mut octets = ArrayVec::<u8, 64>::new();
    write_block(&mut octets, block);
}

/// The blocks with which a device responds to a Connect in a relation of any number below 14,336, the two IOCRBlockRes in either
/// order, have everything that a relation needs, and no module that differs. This is a law of the definitions by which they are
/// written and read.
#[tactic(auto, unfolding(block_codec::specs::Block::block_size, block_codec::specs::Block::fields_of, wire::specs::blocks::Fields::body, wire::specs::blocks::Fields::version))]
pub fn answer_blocks_are_read(relation: &ArBlockRes, input: &IocrBlockRes, output: &IocrBlockRes)
    // If the IOCRBlockRes of inputs comes first, the blocks have everything that a relation needs, with the FrameID of
    // the outputs and the endpoint of the number, and no module that differs.
    ensures input_first { (number : ℕ) → number < 14336 → input.now.iocr_type ≡ 1 → output.now.iocr_type ≡ 2
        → IsAllThere (block_bytes (Block.ArBlockRes relation.now)
        ++ (block_bytes (Block.IocrBlockRes input.now) ++ block_bytes (Block.IocrBlockRes output.now))
        ++ alarm_answer number ++ []) output.now.frame_id (endpoint_of number) }
    // If the IOCRBlockRes of outputs comes first, the blocks have everything that a relation needs, with the FrameID of
    // the outputs and the endpoint of the number, and no module that differs.
    ensures output_first { (number : ℕ) → number < 14336 → input.now.iocr_type ≡ 1 → output.now.iocr_type ≡ 2
        → IsAllThere (block_bytes (Block.ArBlockRes relation.now)
        ++ (block_bytes (Block.IocrBlockRes output.now) ++ block_bytes (Block.IocrBlockRes input.now))
        ++ alarm_answer number ++ []) output.now.frame_id (endpoint_of number) }
{
    let _relation_size = ar_block_res_len(relation);
    let _input_size = iocr_block_res_len(input);
    let _output_size = iocr_block_res_len(output);
    block_is_read(&Block::ArBlockRes(*relation));
    block_is_read(&Block::IocrBlockRes(*input));
    block_is_read(&Block::IocrBlockRes(*output));
    blocks_are_found();
}
