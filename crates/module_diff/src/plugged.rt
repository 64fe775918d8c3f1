//! The modules and submodules that are plugged.
ghost use Rattle.std.specs.Prelude.{◌≡◌, option_map};
ghost use Rattle.module_diff.specs.Plugged.{module_ident, module_in, part_ident, submodule_ident};

use pn_values::{Real, RealModule};

/// The module in this slot, or `None` if it is empty.
pub fn module_in(real: &Real, slot: u16) -> Option<&RealModule>
    ensures { option_map (λ entry. entry.now) result ≡ module_in real.now.modules.items slot }
{
    real.modules
        .as_slice()
        .iter()
        .find(|entry| entry.slot == slot)
}

/// The ident number of the module in this slot, or `None` if it is empty.
pub fn module_ident(real: &Real, slot: u16) -> Option<u32>
    ensures { result ≡ module_ident real.now.modules.items slot }
{
    Some(module_in(real, slot)?.ident)
}

/// The ident number of the submodule in this slot and subslot, or `None` if it is empty.
pub fn submodule_ident(real: &Real, slot: u16, subslot: u16) -> Option<u32>
    ensures { result ≡ submodule_ident real.now.modules.items slot subslot }
{
    part_ident(module_in(real, slot)?, subslot)
}

/// The ident number of the submodule in this subslot of a module, or `None` if it is empty.
pub fn part_ident(entry: &RealModule, subslot: u16) -> Option<u32>
    ensures { result ≡ part_ident entry.now.submodules.items subslot }
{
    for part in entry.submodules.as_slice() {
        if part.subslot == subslot {
            return Some(part.ident);
        }
    }
    None
}
