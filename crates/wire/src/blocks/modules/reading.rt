//! Reads lists of modules from octets.
ghost use Rattle.std.specs.Prelude.{◌≡◌, ◌<◌, ◌≤◌, OnOk};
ghost use Rattle.arrayvec.specs.ArrayVec.{array_vec_len};
ghost use Rattle.wire.specs.Codec.{Gives};
ghost use Rattle.wire.specs.blocks.modules.Lists.{next_entry, module_list, modules_read, submodules_read};

use crate::blocks::fault::BlockFault;
use crate::blocks::modules::entry::{Entry, Module};
use crate::blocks::reading::u16_at;
use arrayvec::ArrayVec;

/// Reads one more entry if there is room for it. Returns it and the rest. The entries from index `start` on decide
/// whether it is accepted.
#[tactic(auto, unfolding(crate::specs::blocks::modules::Lists::next_entry))]
fn next_at<'a, E: Entry>(
    bytes: &'a [u8],
    start: usize,
    before: &ArrayVec<E, 256>,
) -> Result<(E, &'a [u8]), BlockFault>
    requires { start ≤ array_vec_len before.now }
    ensures read { Gives (λ x. (x.0, x.1.now)) result ((next_entry E.format start before.now.items).read bytes.now) }
    ensures room { OnOk result (array_vec_len before.now < 256) }
{
    let all = before.as_slice();
    let (entry, rest) = E::at(bytes, &all[start..])?;
    if before.len() < 256 {
        Ok((entry, rest))
    } else {
        Err(BlockFault::Count)
    }
}

/// Reads `count` submodules of one module, and appends them to those before them. Returns the rest.
#[tactic(auto, using(crate::proofs::BlocksModulesTaken::submodules_go_on, crate::proofs::BlocksModulesTaken::submodules_fail, crate::proofs::BlocksModulesTaken::submodules_end))]
fn submodules_at<'a, S: Entry>(
    bytes: &'a [u8],
    count: u16,
    submodules: &mut ArrayVec<S, 256>,
) -> Result<&'a [u8], BlockFault>
    ensures { Gives (λ rest. (submodules.new.items, rest.now)) result
        (submodules_read S.format (array_vec_len submodules.old) count submodules.old.items bytes.now) }
{
    let start = submodules.len();
    let mut rest = bytes;
    for turn in 0..count {
        let (entry, behind) = next_at(rest, start, submodules)?;
        submodules.push(entry);
        rest = behind;
    }
    Ok(rest)
}

/// Reads `count` modules with their submodules, and appends them to those before them. Returns the rest.
#[tactic(auto, using(crate::proofs::BlocksModulesTaken::modules_go_on, crate::proofs::BlocksModulesTaken::modules_fail, crate::proofs::BlocksModulesTaken::modules_fail_inside, crate::proofs::BlocksModulesTaken::modules_end))]
fn modules_at<'a, M: Module, S: Entry>(
    bytes: &'a [u8],
    count: u16,
    modules: &mut ArrayVec<M, 256>,
    submodules: &mut ArrayVec<S, 256>,
) -> Result<&'a [u8], BlockFault>
    ensures { Gives (λ rest. ((modules.new.items, submodules.new.items), rest.now)) result
        (modules_read M.format M.own S.format count modules.old.items submodules.old.items bytes.now) }
{
    let mut rest = bytes;
    for turn in 0..count {
        let (entry, behind) = next_at(rest, 0, modules)?;
        rest = submodules_at(behind, entry.number_of_submodules(), submodules)?;
        modules.push(entry);
    }
    Ok(rest)
}

/// Reads a count of modules, and each module with its submodules, into these lists. Returns the rest. After a fault the
/// lists may hold anything.
#[tactic(auto, unfolding(crate::specs::blocks::modules::Lists::module_list, crate::specs::blocks::modules::Lists::modules_read))]
pub(crate) fn fill_modules<'a, M: Module, S: Entry>(
    bytes: &'a [u8],
    modules: &mut ArrayVec<M, 256>,
    submodules: &mut ArrayVec<S, 256>,
) -> Result<&'a [u8], BlockFault>
    ensures { Gives (λ rest. ((modules.new.items, submodules.new.items), rest.now)) result
        ((module_list M.format M.own S.format).read bytes.now) }
{
    let (count, rest) = u16_at(bytes)?;
    modules.clear();
    submodules.clear();
    modules_at(rest, count, modules, submodules)
}
