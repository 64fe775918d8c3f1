//! The rows of a ModuleDiffBlock.
ghost use Rattle.std.specs.Prelude.{◌≡◌, ◌==◌, ◌≤◌, length};
ghost use Rattle.connect_blocks.specs.ModuleDiff.{IsModuleDiff, module_diff};
ghost use Rattle.module_diff.specs.Diff.{has_subslot, is_listed, lists};
ghost use Rattle.module_diff.specs.Rows.{AreRows};

use crate::differing::split_own;
use arrayvec::ArrayVec;
use connect_blocks::{DiffModule, DiffModules, DiffSubmodule, ModuleDiffBlock, diffs_are_short};
use std::marker::Model;

/// The modules that differ, in the order of the request, each with its listed submodules: at most 64 modules and at most
/// 64 submodules.
#[derive(Drop)]
pub struct DiffRows {
    modules: ArrayVec<DiffModule, 64>,
    submodules: ArrayVec<DiffSubmodule, 64>,
}

impl Model for DiffRows {
    ghost use Rattle.wire.specs.blocks.modules.Lists.{Listed};
    ghost use Rattle.connect_blocks.specs.declared.module_diff.DiffModule.{DiffModule};
    ghost use Rattle.connect_blocks.specs.declared.module_diff.DiffSubmodule.{DiffSubmodule};
    ghost use Rattle.module_diff.specs.Rows.{AreRows};

    ghost Value = { Listed DiffModule DiffSubmodule };

    ghost view = { λ rows. record { modules = rows.modules.items; submodules = rows.submodules.items } };

    ghost inverse = { λ lists. record { modules = record { items = lists.modules }; submodules = record { items = lists.submodules } } };

    ghost invariant = { λ rows. AreRows rows.modules.items rows.submodules.items };
}

impl DiffRows {
    /// The rows of these modules and submodules.
    pub(crate) fn new(
        modules: ArrayVec<DiffModule, 64>,
        submodules: ArrayVec<DiffSubmodule, 64>,
    ) -> DiffRows
        requires { AreRows modules.items submodules.items }
        ensures { result ≡ record { modules = modules.items; submodules = submodules.items } }
    {
        DiffRows {
            modules,
            submodules,
        }
    }

    /// Whether no module differs.
    pub fn is_empty(&self) -> bool
        ensures { result ≡ (length self.now.modules == 0) }
    {
        self.modules.is_empty()
    }

    /// Whether a submodule is listed.
    pub fn is_listed(&self, slot: u16, subslot: u16) -> bool
        ensures { result ≡ is_listed slot subslot self.now }
    {
        lists(
            self.modules.as_slice(),
            self.submodules.as_slice(),
            slot,
            subslot,
        )
    }

    /// The ModuleDiffBlock with these rows.
    #[tactic(auto, using(crate::proofs::Sizes::rows_small))]
    pub fn to_block(&self) -> ModuleDiffBlock<'_>
        ensures value { result ≡ record { api = 0; modules = self.now } }
        // The fields of the block are accepted.
        ensures accepted { IsModuleDiff result }
        // The block has at most 64 modules.
        ensures few_modules { length result.modules.modules ≤ 64 }
        ensures few_submodules { length result.modules.submodules ≤ 64 }
        ensures small { module_diff.size result ≤ 1160 }
    {
        diffs_are_short();
        ModuleDiffBlock {
            api: 0,
            modules: DiffModules::lent(&self.modules, &self.submodules),
        }
    }
}

/// Whether a submodule is listed in the rows of modules. Each module has as many of these submodules as it counts.
fn lists(modules: &[DiffModule], submodules: &[DiffSubmodule], slot: u16, subslot: u16) -> bool
    ensures { result ≡ lists slot subslot modules.now submodules.now }
{
    let mut left = submodules;
    for row in modules {
        let (own, behind) = split_own(left, row.number_of_submodules);
        if row.slot_number == slot && has_subslot(own, subslot) {
            return true;
        }
        left = behind;
    }
    false
}

/// Whether one of these rows is for this subslot.
fn has_subslot(rows: &[DiffSubmodule], subslot: u16) -> bool
    ensures { result ≡ has_subslot subslot rows.now }
{
    rows.iter().any(|row| row.subslot_number == subslot)
}
