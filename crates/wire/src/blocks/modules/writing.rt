//! Writes lists of modules to octets.
ghost use Rattle.std.specs.Prelude.{◌≡◌, ◌+◌, ◌*◌, ◌≤◌, ◌++◌, List, ℕ, length};
ghost use Rattle.std.specs.List.{AllByRecursion};
ghost use Rattle.arrayvec.specs.ArrayVec.{array_vec_len};
ghost use Rattle.wire.specs.Nested.{FitsNested};
ghost use Rattle.wire.specs.blocks.modules.Lists.{module_list, modules_bytes, modules_size, submodules_bytes, submodules_size};

use crate::blocks::modules::entry::{Entry, Module, Put};
use crate::blocks::writing::append_u16;
use arrayvec::ArrayVec;

/// Appends the entries of submodules. There must be room.
#[tactic(auto, using(crate::proofs::BlocksModulesWritten::first_inner, crate::proofs::Nesting::fits_on))]
fn put_submodules<const N: usize, S: Put<N>>(out: &mut ArrayVec<u8, N>, submodules: &[S])
    requires { array_vec_len out.old + submodules_size S.format submodules.now ≤ N }
    ensures items { (tail : List ℕ) → out.new.items ++ tail ≡ out.old.items ++ submodules_bytes S.format submodules.now tail }
    ensures len { array_vec_len out.new ≡ array_vec_len out.old + submodules_size S.format submodules.now }
    ensures fits { AllByRecursion S.fits submodules.now }
{
    for submodule in submodules {
        submodule.put(out);
    }
}

/// Appends the entries of modules, each with as many submodules as it counts. There must be room.
#[tactic(auto, using(crate::proofs::BlocksModulesWritten::first_outer, crate::proofs::Nesting::nested_fits_on))]
fn put_entries<const N: usize, M: Module + Put<N>, S: Put<N>>(
    out: &mut ArrayVec<u8, N>,
    modules: &[M],
    submodules: &[S],
)
    requires { array_vec_len out.old + modules_size M.format M.own S.format modules.now submodules.now ≤ N }
    ensures items { (tail : List ℕ) → out.new.items ++ tail
        ≡ out.old.items ++ modules_bytes M.format M.own S.format modules.now submodules.now tail }
    ensures len { array_vec_len out.new ≡ array_vec_len out.old + modules_size M.format M.own S.format modules.now submodules.now }
    ensures fits { FitsNested M.fits M.own S.fits modules.now submodules.now }
{
    let mut left = submodules;
    for entry in modules {
        entry.put(out);
        let count = left.len().min(entry.number_of_submodules() as usize);
        put_submodules(out, &left[..count]);
        left = &left[count..];
    }
}

/// Appends a count of modules, and each module with as many submodules as it counts. There must be room.
pub(crate) fn put_lists<const N: usize, M: Module + Put<N>, S: Put<N>>(
    out: &mut ArrayVec<u8, N>,
    modules: &[M],
    submodules: &[S],
)
    requires room { array_vec_len out.old + (module_list M.format M.own S.format).size (modules.now, submodules.now) ≤ N }
    requires few { length modules.now ≤ 256 }
    ensures items { (tail : List ℕ) → out.new.items ++ tail
        ≡ out.old.items ++ (module_list M.format M.own S.format).write (modules.now, submodules.now) tail }
    ensures len { array_vec_len out.new ≡ array_vec_len out.old + (module_list M.format M.own S.format).size (modules.now, submodules.now) }
    ensures fits { FitsNested M.fits M.own S.fits modules.now submodules.now }
{
    append_u16(out, modules.len() as u16);
    put_entries(out, modules, submodules);
}

/// The number of octets that the entries of submodules take.
#[tactic(auto, using(crate::proofs::BlocksModulesWritten::first_inner))]
fn submodules_len<S: Entry>(submodules: &[S]) -> usize
    requires { length submodules.now ≤ 256 }
    ensures size { result ≡ submodules_size S.format submodules.now }
    ensures few { result ≤ 255 * length submodules.now }
{
    let mut size = 0;
    for submodule in submodules {
        size += submodule.len();
    }
    size
}

/// The number of octets that the entries of modules and their submodules take.
#[tactic(auto, using(crate::proofs::BlocksModulesWritten::first_outer))]
fn entries_len<M: Module, S: Entry>(modules: &[M], submodules: &[S]) -> usize
    requires modules { length modules.now ≤ 256 }
    requires submodules { length submodules.now ≤ 256 }
    ensures size { result ≡ modules_size M.format M.own S.format modules.now submodules.now }
    ensures few { result ≤ 255 * length modules.now + 255 * length submodules.now }
{
    let mut left = submodules;
    let mut size = 0;
    for entry in modules {
        let count = left.len().min(entry.number_of_submodules() as usize);
        size += entry.len() + submodules_len(&left[..count]);
        left = &left[count..];
    }
    size
}

/// The number of octets that a count of modules and the modules with their submodules take.
pub(crate) fn lists_len<M: Module, S: Entry>(modules: &[M], submodules: &[S]) -> usize
    requires modules { length modules.now ≤ 256 }
    requires submodules { length submodules.now ≤ 256 }
    ensures { result ≡ (module_list M.format M.own S.format).size (modules.now, submodules.now) }
{
    2 + entries_len(modules, submodules)
}
