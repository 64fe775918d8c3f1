//! The kinds of blocks whose lists take four to seven thousand octets of stack. Each is a function of its own, so that a block of
//! another kind does not take this stack.
ghost use Rattle.std.specs.Prelude.{◌≡◌, ◌+◌, ◌≤◌, ◌++◌, ℕ, List};
ghost use Rattle.arrayvec.specs.ArrayVec.{array_vec_len};
ghost use Rattle.wire.specs.Codec.{Gives};
ghost use Rattle.wire.specs.blocks.Fields.{body};
ghost use Rattle.connect_blocks.specs.Expected.{expected, IsExpectedSubmoduleBlockReq};
ghost use Rattle.connect_blocks.specs.ModuleDiff.{module_diff, IsModuleDiff};
ghost use Rattle.record_blocks.specs.FilterData.{filter_data, IsFilterData};

use crate::{BlockFault, ExpectedSubmoduleBlockReq, ImFilterData, ModuleDiffBlock};
use arrayvec::ArrayVec;
use connect_blocks::{expected_at, module_diff_at, put_expected, put_module_diff};
use record_blocks::{filter_data_at, put_filter_data};

/// Reads the part of an ExpectedSubmoduleBlockReq that BlockLength counts.
#[inline(never)]
pub(crate) fn expected_apart(bytes: &[u8]) -> Result<ExpectedSubmoduleBlockReq<'_>, BlockFault>
    ensures { Gives (λ x. x) result ((body expected).read bytes.now) }
{
    expected_at(bytes)
}

/// Reads the part of a ModuleDiffBlock that BlockLength counts.
#[inline(never)]
pub(crate) fn module_diff_apart(bytes: &[u8]) -> Result<ModuleDiffBlock<'_>, BlockFault>
    ensures { Gives (λ x. x) result ((body module_diff).read bytes.now) }
{
    module_diff_at(bytes)
}

/// Reads the part of an I&M0FilterData that BlockLength counts.
#[inline(never)]
pub(crate) fn filter_data_apart(bytes: &[u8]) -> Result<ImFilterData<'_>, BlockFault>
    ensures { Gives (λ x. x) result ((body filter_data).read bytes.now) }
{
    filter_data_at(bytes)
}

/// Appends the fields of an ExpectedSubmoduleBlockReq. There must be room.
#[inline(never)]
pub(crate) fn put_expected_apart<const N: usize>(
    out: &mut ArrayVec<u8, N>,
    value: &ExpectedSubmoduleBlockReq,
)
    requires { array_vec_len out.old + expected.size value.now ≤ N }
    ensures items { (tail : List ℕ) → out.new.items ++ tail ≡ out.old.items ++ expected.write value.now tail }
    ensures len { array_vec_len out.new ≡ array_vec_len out.old + expected.size value.now }
    ensures fits { IsExpectedSubmoduleBlockReq value.now → expected.Fits value.now }
{
    put_expected(out, value);
}

/// Appends the fields of a ModuleDiffBlock. There must be room.
#[inline(never)]
pub(crate) fn put_module_diff_apart<const N: usize>(
    out: &mut ArrayVec<u8, N>,
    value: &ModuleDiffBlock,
)
    requires { array_vec_len out.old + module_diff.size value.now ≤ N }
    ensures items { (tail : List ℕ) → out.new.items ++ tail ≡ out.old.items ++ module_diff.write value.now tail }
    ensures len { array_vec_len out.new ≡ array_vec_len out.old + module_diff.size value.now }
    ensures fits { IsModuleDiff value.now → module_diff.Fits value.now }
{
    put_module_diff(out, value);
}

/// Appends the fields of an I&M0FilterData. There must be room.
#[inline(never)]
pub(crate) fn put_filter_data_apart<const N: usize>(out: &mut ArrayVec<u8, N>, value: &ImFilterData)
    requires { array_vec_len out.old + filter_data.size value.now ≤ N }
    ensures items { (tail : List ℕ) → out.new.items ++ tail ≡ out.old.items ++ filter_data.write value.now tail }
    ensures len { array_vec_len out.new ≡ array_vec_len out.old + filter_data.size value.now }
    ensures fits { IsFilterData value.now → filter_data.Fits value.now }
{
    put_filter_data(out, value);
}
