//! Which module is in each slot.
ghost use Rattle.std.specs.Prelude.{◌≡◌, ◌+◌, ◌++◌, ◌≤◌, [], true, length, option_map};
ghost use Rattle.std.specs.List.{cons_option, filter_map, list_all};
ghost use Rattle.arrayvec.specs.ArrayVec.{array_vec_len};
ghost use Rattle.configurator.specs.Allowed.{is_in};
ghost use Rattle.configurator.specs.Few.{is_small_if};
ghost use Rattle.configurator.specs.Seen.{seen};
ghost use Rattle.configurator.specs.Standing.{all_slots, fixed_in, module_with, plugged, plugged_in, put_in, stands_in, target_in};

use crate::allowed::is_in;
use crate::submodules::module_at;
use arrayvec::ArrayVec;
use catalogue::{Catalogue, ModuleItem, ModuleReference, SlotItem, SubmoduleItem};
use pn_values::{Real, RealModule};

/// The slots that a device has.
pub(crate) const ALL_SLOTS: [u16; 16] = [0, 1, 2, 3, 4, 5, 6, 7, 8, 9, 10, 11, 12, 13, 14, 15];

/// A module that is in a slot.
#[derive(Clone, Copy)]
pub(crate) struct Standing<'a> {
    pub ident: u32,
    pub submodules: &'a [SubmoduleItem],
}

/// The ID of the module that the project puts into a slot. `None` if it puts none there.
fn put_in(slots: &[SlotItem], slot: u64) -> Option<&str>
    ensures { option_map (λ target. target.now) result ≡ put_in slot slots.now }
{
    for entry in slots {
        if entry.slot == slot {
            return Some(entry.target.as_str());
        }
    }
    None
}

/// The ID of the module that is fixed in a slot. `None` if none is.
fn fixed_in(references: &[ModuleReference], slot: u64) -> Option<&str>
    ensures { option_map (λ target. target.now) result ≡ fixed_in slot references.now }
{
    for reference in references {
        if is_in(reference.fixed_in.as_slice(), slot) {
            return Some(reference.target.as_str());
        }
    }
    None
}

/// The module with this ID. `None` if the catalogue does not have it.
fn module_with<'a>(modules: &'a [ModuleItem], target: &str) -> Option<Standing<'a>>
    ensures { option_map seen result ≡ module_with target.now modules.now }
{
    for module in modules {
        if module.id.as_str() == target {
            return Some(Standing {
                ident: module.ident,
                submodules: module.submodules.as_slice(),
            });
        }
    }
    None
}

/// The ID of the module in a slot: the module that the project puts there, or else the one that is fixed there.
fn target_in(catalogue: &Catalogue, slot: u64) -> Option<&str>
    ensures { option_map (λ target. target.now) result ≡ target_in catalogue.now slot }
{
    match put_in(catalogue.project.slots.as_slice(), slot) {
        Some(target) => Some(target),
        None => fixed_in(catalogue.access_point.references.as_slice(), slot),
    }
}

/// The module in a slot: the access point in slot 0. `None` if the slot is empty.
#[tactic(auto, unfolding(crate::specs::Standing::stands_in))]
pub(crate) fn standing_in(catalogue: &Catalogue, slot: u16) -> Option<Standing<'_>>
    ensures { option_map seen result ≡ stands_in catalogue.now slot }
{
    if slot == 0 {
        return Some(Standing {
            ident: catalogue.access_point.ident,
            submodules: catalogue.access_point.submodules.as_slice(),
        });
    }
    match target_in(catalogue, slot as u64) {
        Some(target) => module_with(catalogue.modules.as_slice(), target),
        None => None,
    }
}

/// Appends the module in a slot, unless the slot is empty. The list must have room for it.
fn push_module(modules: &mut ArrayVec<RealModule, 16>, catalogue: &Catalogue, slot: u16)
    requires room { array_vec_len modules.old ≤ 15 }
    requires small { is_small_if (stands_in catalogue.now slot) ≡ true }
    ensures items { modules.new.items ≡ modules.old.items ++ cons_option (plugged_in catalogue.now slot) [] }
    ensures few { array_vec_len modules.new ≤ array_vec_len modules.old + 1 }
{
    if let Some(standing) = standing_in(catalogue, slot) {
        modules.push(module_at(slot, standing.ident, standing.submodules));
    }
}

/// Appends the modules in these slots. The list must have room for them.
fn push_modules(modules: &mut ArrayVec<RealModule, 16>, catalogue: &Catalogue, slots: &[u16])
    requires room { array_vec_len modules.old + length slots.now ≤ 16 }
    requires small { list_all (λ slot. is_small_if (stands_in catalogue.now slot)) slots.now ≡ true }
    ensures { modules.new.items ≡ modules.old.items ++ filter_map (plugged_in catalogue.now) slots.now }
{
    for slot in slots {
        push_module(modules, catalogue, *slot);
    }
}

/// The modules that are plugged, in the order of the slots.
pub(crate) fn real_of(catalogue: &Catalogue) -> Real
    requires { list_all (λ slot. is_small_if (stands_in catalogue.now slot)) all_slots ≡ true }
    ensures { result.modules.items ≡ plugged catalogue.now }
{
    let mut modules = ArrayVec::new();
    push_modules(&mut modules, catalogue, &ALL_SLOTS);
    Real { modules }
}
