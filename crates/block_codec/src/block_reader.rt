//! Reads blocks, one after the other.
ghost use Rattle.std.specs.Prelude.{◌≡◌, ◌↔◌, ◌⊎◌, ℕ, List, true, false, [], IsNone};
ghost use Rattle.block_codec.specs.Reader.{AreBlocks, Gave, GaveAccepted, GivesNext};

use crate::{Block, BlockFault, read_block};
use std::marker::Model;

/// Reads blocks one after the other, to the end or to the first fault.
#[derive(Drop)]
pub struct BlockReader<'a> {
    rest: &'a [u8],
    has_failed: bool,
}

impl<'a> Model for BlockReader<'a> {
    ghost use Rattle.block_codec.specs.Reader.{Reader};

    ghost Value = { Reader };

    ghost view = { λ reader. record { rest = reader.rest.now; has_failed = reader.has_failed } };
}

impl<'a> BlockReader<'a> {
    /// A reader of these octets.
    pub fn new(bytes: &'a [u8]) -> BlockReader<'a>
        ensures { result ≡ record { rest = bytes.now; has_failed = false } }
    {
        BlockReader {
            rest: bytes,
            has_failed: false,
        }
    }

    /// The next block, or the fault of the octets that are not a block. `None` at the end and after a fault.
    pub fn next(&mut self) -> Option<Result<Block<'a>, BlockFault>>
        // The result is `None` exactly at the end of the octets and after a fault.
        ensures ends { IsNone result ↔ ((self.old.rest ≡ []) ⊎ (self.old.has_failed ≡ true)) }
        // A block that is returned is the one at the start of the remaining octets, and the octets after it remain. With
        // a fault the octets stay as they were.
        ensures gave { Gave self.old result self.new }
        // Each field of a block that is returned has an accepted value.
        ensures accepted { GaveAccepted result }
        // If the remaining octets are blocks one after the other, the first of them is returned, and the others remain.
        ensures in_order { (blocks : List Block) → self.old.has_failed ≡ false → AreBlocks self.old.rest blocks →
            GivesNext blocks result self.new }
    {
        if self.rest.is_empty() || self.has_failed {
            return None;
        }
        match read_block(self.rest) {
            Ok((block, rest)) => {
                self.rest = rest;
                Some(Ok(block))
            }
            Err(fault) => {
                self.has_failed = true;
                Some(Err(fault))
            }
        }
    }

    /// The octets after the blocks that were returned. After a fault they begin with the octets that are not a block.
    pub fn rest(&self) -> &'a [u8]
        ensures { result.now ≡ self.now.rest }
    {
        self.rest
    }
}
