//! The laws of blocks.
ghost use Rattle.std.specs.Prelude.{◌≡◌, ◌++◌, [], List, ℕ, length};
ghost use Rattle.std.specs.List.{AllByRecursion};
ghost use Rattle.block_codec.specs.declared.block.Block.{Block};
ghost use Rattle.block_codec.specs.Block.{block_bytes, block_of, block_size, front};
ghost use Rattle.block_codec.specs.Writable.{AreRead, CanBeWritten, octets_of};

use crate::law::fitting_blocks_are_read;

/// A block that can be written is read back. These are laws of the definitions. No code is involved.
pub fn blocks_are_read()
    // A block that can be written is read back, with anything after it.
    ensures read { (block : Block) (rest : List ℕ) → CanBeWritten block → block_of (block_bytes block ++ rest) ≡ front block rest }
    // A block that can be written is read back, with nothing after it.
    ensures alone { (block : Block) → CanBeWritten block → block_of (block_bytes block) ≡ front block [] }
    // Blocks that can be written one after the other are read one after the other.
    ensures each { (blocks : List Block) (rest : List ℕ) → AllByRecursion CanBeWritten blocks →
        AreRead (octets_of blocks ++ rest) blocks rest }
    // A block has as many octets as its size says.
    ensures long { (block : Block) → length (block_bytes block) ≡ block_size block }
{
    fitting_blocks_are_read();
}
