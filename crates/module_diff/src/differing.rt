//! Finds the modules that are not as a Connect expects them.
ghost use Rattle.std.specs.Prelude.{◌≡◌, ◌+◌, ◌≤◌, ◌++◌, ◌&&◌, ◌||◌, [], ◌∷◌, cond, not, drop, length, map, nat_lt, take};
ghost use Rattle.std.specs.List.{filter};
ghost use Rattle.arrayvec.specs.ArrayVec.{array_vec_len};
ghost use Rattle.module_diff.specs.Plugged.{is_ident};
ghost use Rattle.module_diff.specs.Diff.{diff_of, is_as_expected, module_rows, row_with, submodule_row, submodule_rows, submodule_row_with};
ghost use Rattle.module_diff.specs.Diff.{wanted_in};

use crate::plugged::{module_ident, submodule_ident};
use crate::{DiffRows, Expected};
use arrayvec::ArrayVec;
use connect_blocks::{DiffModule, DiffSubmodule, ExpectedModule, ExpectedSubmodule};
use pn_values::Real;

/// ModuleState for an empty slot.
const NO_MODULE: u16 = 0;
/// ModuleState for a slot with another module than expected.
const WRONG_MODULE: u16 = 1;
/// ModuleState for a slot with the expected module.
const PROPER_MODULE: u16 = 2;

/// SubmoduleState for a subslot with another submodule than expected: FormatIndicator 1, IdentInfo 2.
const WRONG_SUBMODULE: u16 = 0x9000;
/// SubmoduleState for an empty subslot: FormatIndicator 1, IdentInfo 3.
const NO_SUBMODULE: u16 = 0x9800;

/// The modules that are not as expected, in the order of the request. If the slot is empty or has another module, all
/// expected submodules of the module are listed. If the slot has the expected module, only the submodules that are not as
/// expected are listed.
pub fn diff(expected: &Expected, real: &Real) -> DiffRows
    ensures { result ≡ diff_of expected.now real.now.modules.items }
{
    let mut modules = ArrayVec::new();
    let mut submodules = ArrayVec::new();
    fill_rows(&mut modules, &mut submodules, expected, real);
    DiffRows::new(modules, submodules)
}

/// Appends the rows of the modules that differ, and of their submodules, to empty lists.
fn fill_rows(
    modules: &mut ArrayVec<DiffModule, 64>,
    submodules: &mut ArrayVec<DiffSubmodule, 64>,
    expected: &Expected,
    real: &Real,
)
    requires no_modules { modules.old.items ≡ [] }
    requires no_submodules { submodules.old.items ≡ [] }
    ensures modules { modules.new.items
        ≡ module_rows real.now.modules.items (wanted_in expected.now.modules.items expected.now.submodules.items) }
    ensures submodules { submodules.new.items
        ≡ submodule_rows real.now.modules.items (wanted_in expected.now.modules.items expected.now.submodules.items) }
    ensures few_modules { length modules.new.items ≤ 64 }
    ensures few_submodules { length submodules.new.items ≤ 64 }
{
    let mut left = expected.submodules.as_slice();
    for entry in expected.modules.as_slice() {
        let (own, behind) = split_own(left, entry.number_of_submodules);
        push_module(modules, submodules, real, entry, own);
        left = behind;
    }
}

/// Splits off the first `count` submodules, or all if there are fewer. Returns them and the rest.
pub fn split_own<T>(submodules: &[T], count: u16) -> (&[T], &[T])
    ensures own { result.0.now ≡ take count submodules.now }
    ensures rest { result.1.now ≡ drop count submodules.now }
    ensures sizes { length result.0.now + length result.1.now ≡ length submodules.now }
{
    submodules.split_at(submodules.len().min(count as usize))
}

/// Appends the row of a module if it differs, and the rows of its submodules that are listed. There must be room.
fn push_module(
    modules: &mut ArrayVec<DiffModule, 64>,
    submodules: &mut ArrayVec<DiffSubmodule, 64>,
    real: &Real,
    entry: &ExpectedModule,
    own: &[ExpectedSubmodule],
)
    requires modules_room { array_vec_len modules.old + 1 ≤ 64 }
    requires submodules_room { array_vec_len submodules.old + length own.now ≤ 64 }
    ensures modules { modules.new.items ≡ modules.old.items
        ++ module_rows real.now.modules.items (record { entry = entry.now; submodules = own.now } ∷ []) }
    ensures submodules { submodules.new.items ≡ submodules.old.items
        ++ submodule_rows real.now.modules.items (record { entry = entry.now; submodules = own.now } ∷ []) }
    ensures few_modules { array_vec_len modules.new ≤ array_vec_len modules.old + 1 }
    ensures few_submodules { array_vec_len submodules.new ≤ array_vec_len submodules.old + length own.now }
{
    let ident = module_ident(real, entry.slot_number);
    let proper = is_ident(ident, entry.module_ident_number);
    let listed = push_submodules(submodules, real, entry.slot_number, own, proper);
    push_where(
        modules,
        is_listed(proper, listed),
        row_with(entry, ident, listed),
    );
}

/// Appends a row if `listed` is set. There must be room.
fn push_where(modules: &mut ArrayVec<DiffModule, 64>, listed: bool, row: DiffModule)
    requires { array_vec_len modules.old + 1 ≤ 64 }
    ensures items { modules.new.items ≡ modules.old.items ++ cond listed (row ∷ []) [] }
    ensures few { array_vec_len modules.new ≤ array_vec_len modules.old + 1 }
{
    if listed {
        modules.push(row);
    }
}

/// Whether a module is listed, if `submodules` of its submodules are listed.
fn is_listed(proper: bool, submodules: u16) -> bool
    ensures { result ≡ (not proper || nat_lt 0 submodules) }
{
    !proper || submodules > 0
}

/// The row of a module: `ident` is the ident number of the module that is plugged in its slot, and `number_of_submodules`
/// of its submodules are listed.
fn row_with(entry: &ExpectedModule, ident: Option<u32>, number_of_submodules: u16) -> DiffModule
    ensures { result ≡ row_with entry.now ident number_of_submodules }
{
    let (module_ident_number, module_state) = match ident {
        None => (0, NO_MODULE),
        Some(ident) if ident == entry.module_ident_number => (ident, PROPER_MODULE),
        Some(ident) => (ident, WRONG_MODULE),
    };
    DiffModule {
        slot_number: entry.slot_number,
        module_ident_number,
        module_state,
        number_of_submodules,
    }
}

/// Appends the rows of submodules, for the expected module only of those that are not as expected. Returns the number of
/// rows. There must be room.
fn push_submodules(
    submodules: &mut ArrayVec<DiffSubmodule, 64>,
    real: &Real,
    slot: u16,
    own: &[ExpectedSubmodule],
    proper: bool,
) -> u16
    requires { array_vec_len submodules.old + length own.now ≤ 64 }
    ensures rows { submodules.new.items ≡ submodules.old.items
        ++ map (submodule_row real.now.modules.items slot) (filter (λ part. not (proper
        && is_as_expected real.now.modules.items slot part)) own.now) }
    ensures count { result ≡ length (filter (λ part. not (proper && is_as_expected real.now.modules.items slot part)) own.now) }
    ensures few { array_vec_len submodules.new ≤ array_vec_len submodules.old + length own.now }
{
    let mut count = 0;
    for part in own {
        let ident = submodule_ident(real, slot, part.subslot_number);
        if !(proper && is_ident(ident, part.submodule_ident_number)) {
            submodules.push(submodule_row_with(part.subslot_number, ident));
            count += 1;
        }
    }
    count
}

/// The row of a submodule. `ident` is the ident number of the submodule that is plugged in its subslot.
fn submodule_row_with(subslot: u16, ident: Option<u32>) -> DiffSubmodule
    ensures { result ≡ submodule_row_with subslot ident }
{
    let (submodule_ident_number, submodule_state) = match ident {
        Some(ident) => (ident, WRONG_SUBMODULE),
        None => (0, NO_SUBMODULE),
    };
    DiffSubmodule {
        subslot_number: subslot,
        submodule_ident_number,
        submodule_state,
    }
}

/// Whether `ident` is the expected ident number.
fn is_ident(ident: Option<u32>, expected: u32) -> bool
    ensures { result ≡ is_ident ident expected }
{
    ident == Some(expected)
}
