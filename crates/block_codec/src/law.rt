//! The laws of the format.
ghost use Rattle.std.specs.Prelude.{◌≡◌, ◌<◌, ◌++◌, List, ℕ, length};
ghost use Rattle.block_codec.specs.declared.block.Block.{Block};
ghost use Rattle.block_codec.specs.Block.{block_bytes, block_of, block_size, fields_of, front, kind_of};

/// A block that fits the format of its kind is read as it was written. Laws about the definitions; they have no code.
pub fn fitting_blocks_are_read()
    // If the fields of a block fit its format and BlockLength can count them, the octets of the block, followed by any
    // octets, are read as that block.
    ensures read { (block : Block) (rest : List ℕ) → (fields_of (kind_of block)).size block < 65536 → (fields_of (kind_of block)).Fits block
        → block_of (block_bytes block ++ rest) ≡ front block rest }
    // The octets of a block are as many as its size says, for any fields.
    ensures long { (block : Block) → length (block_bytes block) ≡ block_size block }
{}
