//! Lists of modules with their submodules, read without copying them.
ghost use Rattle.std.specs.Prelude.{◌≡◌, ◌+◌, ◌≤◌, ◌++◌, List, ℕ, length};
ghost use Rattle.arrayvec.specs.ArrayVec.{array_vec_len};
ghost use Rattle.wire.specs.Codec.{Gives};
ghost use Rattle.wire.specs.Nested.{FitsNested};
ghost use Rattle.wire.specs.blocks.modules.Lists.{Listed, listed_modules, modules_in};

use crate::blocks::fault::BlockFault;
use crate::blocks::modules::entry::{Entry, Module, Put};
use crate::blocks::modules::reading::fill_modules;
use crate::blocks::modules::writing::{lists_len, put_lists};
use arrayvec::ArrayVec;
use std::marker::Model;

/// Modules with their submodules. They are borrowed: from the octets that were read, or from lists to write.
#[derive(Drop)]
pub struct Modules<'a, M: Module, S: Entry> {
    place: Place<'a, M, S>,
}

/// The memory that the modules borrow.
#[derive(Drop)]
enum Place<'a, M: Module, S: Entry> {
    /// The octets from the count of modules on, and the number of octets that the modules take when they are written.
    Octets(&'a [u8], usize),
    /// A list of modules, and one list of the submodules of all of them, those of the first module first.
    Lists(&'a [M], &'a [S]),
}

impl<'a, M: Module, S: Entry> Model for Modules<'a, M, S> {
    ghost use Rattle.wire.specs.blocks.modules.Lists.{Listed};
    ghost use Rattle.wire.specs.blocks.modules.Places.{modules_at, IsPlace};

    ghost Value = { Listed M S };

    ghost view = { λ inside. modules_at M.format M.own S.format inside.place };

    ghost invariant = { λ inside. IsPlace M.format M.own S.format inside.place };
}

impl<'a, M: Module, S: Entry> Modules<'a, M, S> {
    /// Borrows a list of modules, and a list of the submodules of all of them, those of the first module first. Each list
    /// has room for at most 256 entries.
    pub fn lent<const N: usize, const K: usize>(
        modules: &'a ArrayVec<M, N>,
        submodules: &'a ArrayVec<S, K>,
    ) -> Modules<'a, M, S>
        requires few_modules { N ≤ 256 }
        requires few_submodules { K ≤ 256 }
        ensures { result ≡ record { modules = modules.now.items; submodules = submodules.now.items } }
    {
        Modules {
            place: Place::Lists(modules.as_slice(), submodules.as_slice()),
        }
    }

    /// Reads a count of modules and each module with its submodules. Returns them and the rest. The entries are read into
    /// the lists `modules` and `submodules` to check them; the result borrows `bytes`.
    #[tactic(auto, unfolding(crate::specs::blocks::modules::Lists::listed_modules, crate::specs::blocks::modules::Lists::modules_in))]
    pub fn at(
        bytes: &'a [u8],
        modules: &mut ArrayVec<M, 256>,
        submodules: &mut ArrayVec<S, 256>,
    ) -> Result<(Modules<'a, M, S>, &'a [u8]), BlockFault>
        ensures { Gives (λ x. (x.0, x.1.now)) result ((listed_modules M.format M.own S.format).read bytes.now) }
    {
        let rest = fill_modules(bytes, modules, submodules)?;
        let size = lists_len(modules.as_slice(), submodules.as_slice());
        let place = Place::Octets(bytes, size);
        Ok((Modules { place }, rest))
    }

    /// Copies the modules to one list and the submodules of all of them to a second list, those of the first module
    /// first.
    #[tactic(auto, unfolding(crate::specs::blocks::modules::Lists::listed_modules, crate::specs::blocks::modules::Lists::modules_in))]
    pub fn copy_to(&self, modules: &mut ArrayVec<M, 256>, submodules: &mut ArrayVec<S, 256>)
        ensures modules { modules.new.items ≡ self.now.modules }
        ensures submodules { submodules.new.items ≡ self.now.submodules }
    {
        match self.place {
            Place::Octets(bytes, _) => copy_read(bytes, modules, submodules),
            Place::Lists(from, parts) => {
                modules.clear();
                let _ = modules.try_extend_from_slice(from);
                submodules.clear();
                let _ = submodules.try_extend_from_slice(parts);
            }
        }
    }
}

/// Copies the modules at the start of the octets to these lists.
#[tactic(auto, unfolding(crate::specs::blocks::modules::Lists::listed_modules, crate::specs::blocks::modules::Lists::modules_in))]
fn copy_read<M: Module, S: Entry>(
    bytes: &[u8],
    modules: &mut ArrayVec<M, 256>,
    submodules: &mut ArrayVec<S, 256>,
)
    ensures modules { modules.new.items ≡ (modules_in M.format M.own S.format bytes.now).modules }
    ensures submodules { submodules.new.items ≡ (modules_in M.format M.own S.format bytes.now).submodules }
{
    if fill_modules(bytes, modules, submodules).is_err() {
        modules.clear();
        submodules.clear();
    }
}

/// Appends a count of modules, and each module with as many submodules as it counts. There must be room. Modules that
/// were read are first copied to the lists `copied` and `copied_parts`.
#[tactic(auto, unfolding(crate::specs::blocks::modules::Lists::listed_modules, crate::specs::blocks::modules::Lists::modules_in))]
pub fn put_modules<const N: usize, M: Module + Put<N>, S: Put<N>>(
    out: &mut ArrayVec<u8, N>,
    value: &Modules<M, S>,
    copied: &mut ArrayVec<M, 256>,
    copied_parts: &mut ArrayVec<S, 256>,
)
    requires { array_vec_len out.old + (listed_modules M.format M.own S.format).size value.now ≤ N }
    ensures items { (tail : List ℕ) → out.new.items ++ tail
        ≡ out.old.items ++ (listed_modules M.format M.own S.format).write value.now tail }
    ensures len { array_vec_len out.new ≡ array_vec_len out.old + (listed_modules M.format M.own S.format).size value.now }
    ensures fits { FitsNested M.fits M.own S.fits value.now.modules value.now.submodules }
    ensures few_modules { length value.now.modules ≤ 256 }
    ensures few_submodules { length value.now.submodules ≤ 256 }
{
    match value.place {
        Place::Octets(bytes, _) => {
            copy_read(bytes, copied, copied_parts);
            put_lists(out, copied.as_slice(), copied_parts.as_slice());
        }
        Place::Lists(modules, submodules) => put_lists(out, modules, submodules),
    }
}

/// The number of octets that a count of modules and the modules with their submodules take.
#[tactic(auto, unfolding(crate::specs::blocks::modules::Lists::listed_modules))]
pub fn modules_len<M: Module, S: Entry>(value: &Modules<M, S>) -> usize
    ensures size { result ≡ (listed_modules M.format M.own S.format).size value.now }
    ensures few_modules { length value.now.modules ≤ 256 }
    ensures few_submodules { length value.now.submodules ≤ 256 }
{
    match value.place {
        Place::Octets(_, size) => size,
        Place::Lists(modules, submodules) => lists_len(modules, submodules),
    }
}
