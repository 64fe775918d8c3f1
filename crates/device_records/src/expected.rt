//! ExpectedIdentificationData.
ghost use Rattle.std.specs.Prelude.{◌≡◌, ◌+◌, ◌≤◌, ◌++◌, ◌∷◌, [], drop, length, take};
ghost use Rattle.arrayvec.specs.ArrayVec.{array_vec_len};
ghost use Rattle.module_diff.specs.Diff.{wanted_in};
ghost use Rattle.device_records.specs.Expected.{expected_bytes, is_listed, modules_at, parts_at, submodules_at};

use crate::own::Own;
use arrayvec::ArrayVec;
use block_codec::{
    ExpectedModule, ExpectedSubmodule, FilterModule, FilterModules, FilterSubmodule, ImFilterData,
};
use module_diff::Expected;
use records::{Level, put_identification};

/// Appends the entries of the submodules that are asked for. There must be room. Returns their number.
fn push_parts(
    entries: &mut ArrayVec<FilterSubmodule, 64>,
    level: Level,
    subslot: u16,
    parts: &[ExpectedSubmodule],
) -> u16
    requires room { array_vec_len entries.old + length parts.now ≤ 64 }
    ensures items { entries.new.items ≡ entries.old.items ++ parts_at level subslot parts.now }
    ensures few { array_vec_len entries.new ≤ array_vec_len entries.old + length parts.now }
    ensures count { result ≡ length (parts_at level subslot parts.now) }
{
    let before = entries.len();
    for part in parts {
        if level.covers_subslot(subslot, part.subslot_number) {
            entries.push(FilterSubmodule {
                subslot_number: part.subslot_number,
                submodule_ident_number: part.submodule_ident_number,
            });
        }
    }
    (entries.len() - before) as u16
}

/// Whether a module with this many of the submodules that are asked for is listed: if one submodule is asked for, only if
/// it is expected.
fn is_listed(level: Level, count: u16) -> bool
    ensures { result ≡ is_listed level count }
{
    match level {
        Level::Subslot => 0 < count,
        Level::Slot | Level::Relation | Level::Device => true,
    }
}

/// Splits off the first `count` submodules, or all if there are fewer. Returns these and the rest.
pub(crate) fn split_own(
    submodules: &[ExpectedSubmodule],
    count: u16,
) -> (&[ExpectedSubmodule], &[ExpectedSubmodule])
    ensures own { result.0.now ≡ take count submodules.now }
    ensures behind { result.1.now ≡ drop count submodules.now }
    ensures sizes { length result.0.now + length result.1.now ≡ length submodules.now }
{
    submodules.split_at(submodules.len().min(count as usize))
}

/// Appends the entry of a module, if it is asked for, and those of its submodules. There must be room.
fn push_module(
    modules: &mut ArrayVec<FilterModule, 64>,
    submodules: &mut ArrayVec<FilterSubmodule, 64>,
    level: Level,
    slot: u16,
    subslot: u16,
    entry: &ExpectedModule,
    own: &[ExpectedSubmodule],
)
    requires modules_room { array_vec_len modules.old + 1 ≤ 64 }
    requires submodules_room { array_vec_len submodules.old + length own.now ≤ 64 }
    ensures modules { modules.new.items ≡ modules.old.items
        ++ modules_at level slot subslot (record { entry = entry.now; submodules = own.now } ∷ []) }
    ensures submodules { submodules.new.items ≡ submodules.old.items
        ++ submodules_at level slot subslot (record { entry = entry.now; submodules = own.now } ∷ []) }
    ensures few_modules { array_vec_len modules.new ≤ array_vec_len modules.old + 1 }
    ensures few_submodules { array_vec_len submodules.new ≤ array_vec_len submodules.old + length own.now }
{
    if !level.covers_slot(slot, entry.slot_number) {
        return;
    }
    let count = push_parts(submodules, level, subslot, own);
    if is_listed(level, count) {
        modules.push(FilterModule {
            slot_number: entry.slot_number,
            module_ident_number: entry.module_ident_number,
            number_of_submodules: count,
        });
    }
}

/// Appends the entries of the modules that are asked for, and of their submodules, to empty lists.
fn push_all(
    modules: &mut ArrayVec<FilterModule, 64>,
    submodules: &mut ArrayVec<FilterSubmodule, 64>,
    expected: &Expected,
    level: Level,
    slot: u16,
    subslot: u16,
)
    requires no_modules { modules.old.items ≡ [] }
    requires no_submodules { submodules.old.items ≡ [] }
    ensures modules { modules.new.items
        ≡ modules_at level slot subslot (wanted_in expected.now.modules.items expected.now.submodules.items) }
    ensures submodules { submodules.new.items
        ≡ submodules_at level slot subslot (wanted_in expected.now.modules.items expected.now.submodules.items) }
    ensures few_modules { length modules.new.items ≤ 64 }
    ensures few_submodules { length submodules.new.items ≤ 64 }
{
    let mut left = expected.submodules.as_slice();
    for entry in expected.modules.as_slice() {
        let (own, behind) = split_own(left, entry.number_of_submodules);
        push_module(modules, submodules, level, slot, subslot, entry, own);
        left = behind;
    }
}

/// Puts ExpectedIdentificationData of what is asked for into an empty list. Its lists take a thousand octets of stack, so it
/// is a function of its own.
#[inline(never)]
pub(crate) fn put_expected(
    out: &mut Own,
    expected: &Expected,
    level: Level,
    slot: u16,
    subslot: u16,
)
    requires { out.old.items ≡ [] }
    ensures { out.new.items ≡ expected_bytes expected.now level slot subslot }
{
    let mut modules = ArrayVec::new();
    let mut submodules = ArrayVec::new();
    push_all(
        &mut modules,
        &mut submodules,
        expected,
        level,
        slot,
        subslot,
    );
    let listed = ImFilterData {
        api: 0,
        modules: FilterModules::lent(&modules, &submodules),
    };
    put_identification(out, 0x0012, &listed);
}
