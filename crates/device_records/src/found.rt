//! RealIdentificationData of a relation.
ghost use Rattle.std.specs.Prelude.{◌≡◌, ◌+◌, ◌≤◌, ◌++◌, [], length, option_map};
ghost use Rattle.arrayvec.specs.ArrayVec.{array_vec_len};
ghost use Rattle.module_diff.specs.Diff.{wanted_in};
ghost use Rattle.device_records.specs.Found.{expects, found_bytes, module_found, modules_found, own_found, own_in, parts_found};
ghost use Rattle.device_records.specs.Found.{submodules_found};

use crate::expected::split_own;
use crate::own::Own;
use arrayvec::ArrayVec;
use block_codec::{ExpectedSubmodule, FilterModule, FilterModules, FilterSubmodule, ImFilterData};
use module_diff::Expected;
use pn_values::{Real, RealModule, RealSubmodule};
use records::put_identification;

/// The submodules that are expected in a slot, or `None` if no module is.
fn own_in(expected: &Expected, slot: u16) -> Option<&[ExpectedSubmodule]>
    ensures { option_map (λ own. own.now) result ≡ own_in slot (wanted_in expected.now.modules.items expected.now.submodules.items) }
{
    let mut left = expected.submodules.as_slice();
    for entry in expected.modules.as_slice() {
        let (own, behind) = split_own(left, entry.number_of_submodules);
        if entry.slot_number == slot {
            return Some(own);
        }
        left = behind;
    }
    None
}

/// Whether one of these is expected in this subslot.
fn expects(own: &[ExpectedSubmodule], subslot: u16) -> bool
    ensures { result ≡ expects own.now subslot }
{
    own.iter().any(|part| part.subslot_number == subslot)
}

/// Appends the entries of the submodules that are expected. There must be room. Returns their number.
fn push_parts(
    entries: &mut ArrayVec<FilterSubmodule, 64>,
    own: &[ExpectedSubmodule],
    parts: &[RealSubmodule],
) -> u16
    requires room { array_vec_len entries.old + length parts.now ≤ 64 }
    ensures items { entries.new.items ≡ entries.old.items ++ parts_found own.now parts.now }
    ensures few { array_vec_len entries.new ≤ array_vec_len entries.old + length parts.now }
    ensures count { result ≡ length (parts_found own.now parts.now) }
{
    let before = entries.len();
    for part in parts {
        if expects(own, part.subslot) {
            entries.push(FilterSubmodule {
                subslot_number: part.subslot,
                submodule_ident_number: part.ident,
            });
        }
    }
    (entries.len() - before) as u16
}

/// Appends the entry of a module and those of its submodules, at most 4, if a module is expected in its slot. There must be
/// room.
fn push_module(
    modules: &mut ArrayVec<FilterModule, 16>,
    submodules: &mut ArrayVec<FilterSubmodule, 64>,
    entry: &RealModule,
    own: Option<&[ExpectedSubmodule]>,
)
    requires modules_room { array_vec_len modules.old + 1 ≤ 16 }
    requires submodules_room { array_vec_len submodules.old + 4 ≤ 64 }
    ensures modules { modules.new.items ≡ modules.old.items ++ module_found entry.now (option_map (λ own. own.now) own.entry) }
    ensures submodules { submodules.new.items ≡ submodules.old.items ++ own_found entry.now (option_map (λ own. own.now) own.entry) }
    ensures few_modules { array_vec_len modules.new ≤ array_vec_len modules.old + 1 }
    ensures few_submodules { array_vec_len submodules.new ≤ array_vec_len submodules.old + 4 }
{
    let Some(own) = own else {
        return;
    };
    let count = push_parts(submodules, own, entry.submodules.as_slice());
    modules.push(FilterModule {
        slot_number: entry.slot,
        module_ident_number: entry.ident,
        number_of_submodules: count,
    });
}

/// Appends the entries of the modules and submodules that are plugged and expected to empty lists.
fn push_all(
    modules: &mut ArrayVec<FilterModule, 16>,
    submodules: &mut ArrayVec<FilterSubmodule, 64>,
    expected: &Expected,
    real: &Real,
)
    requires no_modules { modules.old.items ≡ [] }
    requires no_submodules { submodules.old.items ≡ [] }
    ensures modules { modules.new.items
        ≡ modules_found (wanted_in expected.now.modules.items expected.now.submodules.items) real.now.modules.items }
    ensures submodules { submodules.new.items
        ≡ submodules_found (wanted_in expected.now.modules.items expected.now.submodules.items) real.now.modules.items }
    ensures few_modules { length modules.new.items ≤ 16 }
    ensures few_submodules { length submodules.new.items ≤ 64 }
{
    for entry in real.modules.as_slice() {
        push_module(modules, submodules, entry, own_in(expected, entry.slot));
    }
}

/// Puts RealIdentificationData of what is expected into an empty list. Its lists are large, so it is a function of its
/// own.
#[inline(never)]
pub(crate) fn put_found(out: &mut Own, expected: &Expected, real: &Real)
    requires { out.old.items ≡ [] }
    ensures { out.new.items ≡ found_bytes expected.now real.now }
{
    let mut modules = ArrayVec::new();
    let mut submodules = ArrayVec::new();
    push_all(&mut modules, &mut submodules, expected, real);
    let listed = ImFilterData {
        api: 0,
        modules: FilterModules::lent(&modules, &submodules),
    };
    put_identification(out, 0x0013, &listed);
}
