// Which submodules the ModuleDiffBlock of an answer to a Connect lists (IEC 61158-6-10, 5.2.4.11).
ghost use Rattle.std.specs.Prelude.{◌≡◌};
ghost use Rattle.std.specs.Option.{option_map};
ghost use Rattle.wire.specs.Codec.{Gives};
ghost use Rattle.block_codec.specs.Block.{block_of};
ghost use Rattle.module_diff.specs.Diff.{has_subslot, is_listed as is_listed_by_rows, lists};
ghost use Rattle.connects.specs.answers.OtherBlock.{other_block};
ghost use Rattle.plan_places.specs.Listed.{behind_of, is_listed_by, is_listed_in, is_listed_of};

use arrayvec::ArrayVec;
use block_codec::{Block, read_block};
use connect_blocks::{DiffModule, DiffModules, DiffSubmodule};
use module_diff::split_own;
use wire::{BlockFault, split, u16_at};

/// Whether one of these rows is that of this subslot.
fn has_subslot(rows: &[DiffSubmodule], subslot: u16) -> bool
    ensures { result ≡ has_subslot subslot rows.now }
{
    rows.iter().any(|row| row.subslot_number == subslot)
}

/// Whether a submodule is in the rows of these modules. Each module has as many of these submodules as it counts.
fn lists(modules: &[DiffModule], submodules: &[DiffSubmodule], slot: u16, subslot: u16) -> bool
    ensures { result ≡ lists slot subslot modules.now submodules.now }
{
    let mut left = submodules;
    for row in modules {
        let (own, behind) = split_own(left, row.number_of_submodules);
        if row.slot_number == slot && has_subslot(own, subslot) {
            return true;
        }
        left = behind;
    }
    false
}

/// Whether a ModuleDiffBlock lists this submodule.
#[inline(never)]
fn is_in(rows: &DiffModules<'_>, slot: u16, subslot: u16) -> bool
    ensures { result ≡ is_listed_by_rows slot subslot rows.now }
{
    let mut modules = ArrayVec::new();
    let mut submodules = ArrayVec::new();
    rows.copy_to(&mut modules, &mut submodules);
    lists(modules.as_slice(), submodules.as_slice(), slot, subslot)
}

/// Whether a block is a ModuleDiffBlock that lists this submodule.
fn is_listed_of(block: &Block<'_>, slot: u16, subslot: u16) -> bool
    ensures { result ≡ is_listed_of slot subslot block.now }
{
    match block {
        Block::ModuleDiffBlock(block) => is_in(&block.modules, slot, subslot),
        _ => false,
    }
}

/// Whether the block at the start of the octets is a ModuleDiffBlock that lists this submodule.
fn is_listed_at(bytes: &[u8], slot: u16, subslot: u16) -> bool
    ensures { result ≡ is_listed_by slot subslot (block_of bytes.now) }
{
    match read_block(bytes) {
        Ok((block, _rest)) => is_listed_of(&block, slot, subslot),
        Err(_) => false,
    }
}

/// A block of any type: its type and its octets, and the rest.
type Skipped<'a> = ((u16, &'a [u8]), &'a [u8]);

/// Skips a block of any type by its BlockLength. Returns its type, its octets, and the rest.
#[tactic(auto, unfolding(connects::specs::answers::OtherBlock::other_block))]
fn other_at(bytes: &[u8]) -> Result<Skipped<'_>, BlockFault>
    ensures { Gives (λ x. ((x.0.0, x.0.1.now), x.1.now)) result (other_block.read bytes.now) }
{
    let (kind, rest) = u16_at(bytes, BlockFault::Truncated)?;
    let (length, rest) = u16_at(rest, BlockFault::Truncated)?;
    let (body, behind) = split(rest, length as usize, BlockFault::Truncated)?;
    Ok(((kind, body), behind))
}

/// What follows the block at the start of the octets, if the block can be skipped.
fn behind_block(bytes: &[u8]) -> Option<&[u8]>
    ensures { option_map (λ rest. rest.now) result ≡ behind_of (other_block.read bytes.now) }
{
    match other_at(bytes) {
        Ok((_block, rest)) => Some(rest),
        Err(_) => None,
    }
}

/// Whether a ModuleDiffBlock in octets that are a sequence of blocks, at most `most`, lists this submodule.
pub(crate) fn is_listed(most: usize, bytes: &[u8], slot: u16, subslot: u16) -> bool
    ensures { result ≡ is_listed_in most bytes.now slot subslot }
{
    let mut rest = bytes;
    for _index in 0..most {
        if is_listed_at(rest, slot, subslot) {
            return true;
        }
        let Some(behind) = behind_block(rest) else {
            return false;
        };
        rest = behind;
    }
    false
}
