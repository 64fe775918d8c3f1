//! The modules and submodules that are expected.
ghost use Rattle.std.specs.Prelude.{◌≡◌, ◌==◌, ◌+◌, ◌≤◌, ◌++◌, [], drop, length, take};
ghost use Rattle.std.specs.List.{list_any};
ghost use Rattle.arrayvec.specs.ArrayVec.{array_vec_len};
ghost use Rattle.wire.specs.Codec.{Gives};
ghost use Rattle.connects.specs.requests.Handled.{expected_with, nothing, repeats_slot};
ghost use Rattle.connects.specs.requests.Layouts.{data_in_slot, data_of};

use arrayvec::ArrayVec;
use block_codec::{ExpectedModule, ExpectedSubmodule, ExpectedSubmoduleBlockReq};
use cyclic_data::ExpectedData;
use module_diff::Expected;
use records::CallFault;

/// Room for the modules and submodules of one ExpectedSubmoduleBlockReq. It is large, and made once for all blocks of a Connect.
#[derive(Drop)]
pub(crate) struct Room {
    pub(crate) modules: ArrayVec<ExpectedModule, 256>,
    pub(crate) submodules: ArrayVec<ExpectedSubmodule, 256>,
}

impl Room {
    /// An empty room.
    pub(crate) fn new() -> Room {
        Room {
            modules: ArrayVec::new(),
            submodules: ArrayVec::new(),
        }
    }
}

/// Removes all modules and submodules.
pub(crate) fn clear(expected: &mut Expected)
    ensures { expected.new ≡ nothing.expected }
{
    expected.modules.clear();
    expected.submodules.clear();
}

/// Whether one of these modules is expected in this slot.
fn has_slot(modules: &[ExpectedModule], slot: u16) -> bool
    ensures { result ≡ list_any (λ other. other.slot_number == slot) modules.now }
{
    modules.iter().any(|other| other.slot_number == slot)
}

/// Whether one of these modules is in a slot for which a module is already expected.
fn repeats_slot(before: &[ExpectedModule], modules: &[ExpectedModule]) -> bool
    ensures { result ≡ repeats_slot before.now modules.now }
{
    modules
        .iter()
        .any(|entry| has_slot(before, entry.slot_number))
}

/// Appends the modules of one more ExpectedSubmoduleBlockReq, if each slot occurs once and there are at most 64 modules
/// and 64 submodules in all.
pub(crate) fn add_modules(
    block: &ExpectedSubmoduleBlockReq,
    room: &mut Room,
    expected: &mut Expected,
) -> Result<(), CallFault>
    ensures { Gives (λ _. expected.new) result (expected_with expected.old block.now.modules) }
{
    block
        .modules
        .copy_to(&mut room.modules, &mut room.submodules);
    append_modules(
        room.modules.as_slice(),
        room.submodules.as_slice(),
        expected,
    )
}

/// Appends modules and their submodules, if each slot occurs once and there are at most 64 modules and 64 submodules in
/// all.
fn append_modules(
    modules: &[ExpectedModule],
    submodules: &[ExpectedSubmodule],
    expected: &mut Expected,
) -> Result<(), CallFault>
    requires few_modules { length modules.now ≤ 256 }
    requires few_submodules { length submodules.now ≤ 256 }
    ensures { Gives (λ _. expected.new) result
        (expected_with expected.old (record { modules = modules.now; submodules = submodules.now })) }
{
    // Each block lists all of its slots: a slot in two blocks would have two modules.
    if repeats_slot(expected.modules.as_slice(), modules) {
        return Err(CallFault::ExpectedField(6));
    }
    if expected.modules.len() + modules.len() > 64 {
        return Err(CallFault::TooManyModules);
    }
    if expected.submodules.len() + submodules.len() > 64 {
        return Err(CallFault::TooManySubmodules);
    }
    let _ = expected.modules.try_extend_from_slice(modules);
    let _ = expected.submodules.try_extend_from_slice(submodules);
    Ok(())
}

/// Splits off the first `count` submodules, or all if there are fewer. Returns these and the rest.
fn split_own(
    submodules: &[ExpectedSubmodule],
    count: u16,
) -> (&[ExpectedSubmodule], &[ExpectedSubmodule])
    ensures own { result.0.now ≡ take count submodules.now }
    ensures behind { result.1.now ≡ drop count submodules.now }
    ensures sizes { length result.0.now + length result.1.now ≡ length submodules.now }
{
    submodules.split_at(submodules.len().min(count as usize))
}

/// Appends what the submodules in a slot have in cyclic frames. There must be room.
fn push_data(parts: &mut ArrayVec<ExpectedData, 64>, slot: u16, own: &[ExpectedSubmodule])
    requires { array_vec_len parts.old + length own.now ≤ 64 }
    ensures items { parts.new.items ≡ parts.old.items ++ data_in_slot slot own.now }
    ensures len { array_vec_len parts.new ≡ array_vec_len parts.old + length own.now }
{
    for part in own {
        parts.push(ExpectedData {
            slot,
            subslot: part.subslot_number,
            io_data: part.io_data,
        });
    }
}

/// Fills an empty list with what all expected submodules have in cyclic frames.
pub(crate) fn fill_data(parts: &mut ArrayVec<ExpectedData, 64>, expected: &Expected)
    requires { parts.old.items ≡ [] }
    ensures { parts.new.items ≡ data_of expected.now }
{
    let mut left = expected.submodules.as_slice();
    for entry in expected.modules.as_slice() {
        let (own, behind) = split_own(left, entry.number_of_submodules);
        push_data(parts, entry.slot_number, own);
        left = behind;
    }
}
