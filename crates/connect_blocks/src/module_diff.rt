//! ModuleDiffBlock: the modules that are not as requested.
ghost use Rattle.std.specs.Prelude.{◌≡◌, ◌+◌, ◌*◌, ◌<◌, ◌≤◌, ◌++◌, List, ℕ, length, OnOk};
ghost use Rattle.arrayvec.specs.ArrayVec.{array_vec_len};
ghost use Rattle.wire.specs.Codec.{Gives};
ghost use Rattle.wire.specs.blocks.Fields.{body};
ghost use Rattle.wire.specs.blocks.modules.Lists.{flat_alike};
ghost use Rattle.connect_blocks.specs.ModuleDiff.{module_diff, diff_module, diff_modules, diff_submodule, own_of, IsCounted, IsModuleDiff};

use arrayvec::ArrayVec;
use wire::{
    BlockFault, Entry, Module, Modules, Put, len_fields, modules_len, put_fields, put_modules,
    read_body, read_fields,
};

/// A module that differs.
#[derive(Clone, Copy, Default)]
pub struct DiffModule {
    /// SlotNumber.
    pub slot_number: u16,
    /// ModuleIdentNumber of the module that is plugged; 0 if the slot is empty.
    pub module_ident_number: u32,
    /// ModuleState: 0 no module, 1 wrong module, 2 proper module.
    pub module_state: u16,
    /// NumberOfSubmodules: the number of submodules that belong to the module.
    pub number_of_submodules: u16,
}

macro_rules! diff_module_fields {
    ($with:ident $args:tt) => {
        $with! { $args DiffModule {
            slot_number: u16,
            module_ident_number: u32,
            module_state: u16,
            number_of_submodules: u16,
        } }
    };
}

/// A submodule of a module that differs.
#[derive(Clone, Copy, Default)]
pub struct DiffSubmodule {
    /// SubslotNumber.
    pub subslot_number: u16,
    /// SubmoduleIdentNumber of the submodule that is plugged; 0 if the subslot is empty.
    pub submodule_ident_number: u32,
    /// SubmoduleState.
    pub submodule_state: u16,
}

macro_rules! diff_submodule_fields {
    ($with:ident $args:tt) => {
        $with! { $args DiffSubmodule {
            subslot_number: u16,
            submodule_ident_number: u32,
            submodule_state: u16,
        } }
    };
}

/// The modules that differ, each with its submodules: at most 256 modules and 256 submodules.
pub type DiffModules<'a> = Modules<'a, DiffModule, DiffSubmodule>;

/// 0x8104: ModuleDiffBlock (IEC 61158-6-10, 5.2.4.11), with NumberOfAPIs 1.
#[derive(Drop)]
pub struct ModuleDiffBlock<'a> {
    /// API.
    pub api: u32,
    /// The modules, each with its submodules.
    pub modules: DiffModules<'a>,
}

macro_rules! module_diff_fields {
    ($with:ident $args:tt) => {
        $with! { $args ModuleDiffBlock {
            _: fixed 1 4,
            api: u32,
            modules: (diff_modules_at, put_diff_modules, diff_modules_len),
        } }
    };
}

#[tactic(auto, unfolding(crate::specs::ModuleDiff::diff_module))]
impl Entry for DiffModule {
    ghost format = { λ _. diff_module };

    ghost fits = { diff_module.Fits };

    fn at<'a>(bytes: &'a [u8], _before: &[Self]) -> Result<(Self, &'a [u8]), BlockFault> {
        diff_module_fields!(read_fields[bytes])
    }

    fn len(&self) -> usize {
        diff_module_fields!(len_fields[self])
    }

    ghost alike = { flat_alike diff_module };
}

#[tactic(auto, unfolding(crate::specs::ModuleDiff::diff_module))]
impl<const N: usize> Put<N> for DiffModule {
    fn put(&self, out: &mut ArrayVec<u8, N>) {
        diff_module_fields!(put_fields [out, self]);
    }
}

impl Module for DiffModule {
    ghost own = { own_of };

    fn number_of_submodules(&self) -> u16 {
        self.number_of_submodules
    }
}

#[tactic(auto, unfolding(crate::specs::ModuleDiff::diff_submodule))]
impl Entry for DiffSubmodule {
    ghost format = { λ _. diff_submodule };

    ghost fits = { diff_submodule.Fits };

    fn at<'a>(bytes: &'a [u8], _before: &[Self]) -> Result<(Self, &'a [u8]), BlockFault> {
        diff_submodule_fields!(read_fields[bytes])
    }

    fn len(&self) -> usize {
        diff_submodule_fields!(len_fields[self])
    }

    ghost alike = { flat_alike diff_submodule };
}

#[tactic(auto, unfolding(crate::specs::ModuleDiff::diff_submodule))]
impl<const N: usize> Put<N> for DiffSubmodule {
    fn put(&self, out: &mut ArrayVec<u8, N>) {
        diff_submodule_fields!(put_fields [out, self]);
    }
}

/// Reads NumberOfModules and the entries of modules and submodules. Returns them and the rest.
#[tactic(auto, unfolding(crate::specs::ModuleDiff::diff_modules))]
fn diff_modules_at(bytes: &[u8]) -> Result<(DiffModules<'_>, &[u8]), BlockFault>
    ensures { Gives (λ x. (x.0, x.1.now)) result (diff_modules.read bytes.now) }
{
    let mut modules = ArrayVec::new();
    let mut submodules = ArrayVec::new();
    Modules::at(bytes, &mut modules, &mut submodules)
}

/// Reads the part of a ModuleDiffBlock that BlockLength counts: the version and the fields, to the last octet.
#[tactic(auto, unfolding(wire::specs::blocks::Fields::body, crate::specs::ModuleDiff::module_diff))]
pub fn module_diff_at(bytes: &[u8]) -> Result<ModuleDiffBlock<'_>, BlockFault>
    ensures { Gives (λ x. x) result ((body module_diff).read bytes.now) }
{
    module_diff_fields!(read_body[bytes])
}

/// Appends NumberOfModules and the entries of modules and submodules. There must be room.
#[tactic(auto, using(crate::proofs::Diff::modules_fit), unfolding(crate::specs::ModuleDiff::diff_modules))]
fn put_diff_modules<const N: usize>(out: &mut ArrayVec<u8, N>, value: &DiffModules)
    requires { array_vec_len out.old + diff_modules.size value.now ≤ N }
    ensures items { (tail : List ℕ) → out.new.items ++ tail ≡ out.old.items ++ diff_modules.write value.now tail }
    ensures len { array_vec_len out.new ≡ array_vec_len out.old + diff_modules.size value.now }
    ensures fits { IsCounted value.now → diff_modules.Fits value.now }
{
    let mut modules = ArrayVec::new();
    let mut submodules = ArrayVec::new();
    put_modules(out, value, &mut modules, &mut submodules);
}

/// The number of octets that NumberOfModules and the entries of modules and submodules take.
#[tactic(auto, using(crate::proofs::Diff::modules_few), unfolding(crate::specs::ModuleDiff::diff_modules))]
fn diff_modules_len(value: &DiffModules) -> usize
    ensures size { result ≡ diff_modules.size value.now }
    ensures few { result ≤ 4610 }
{
    modules_len(value)
}

/// Appends the fields of a ModuleDiffBlock. There must be room.
#[tactic(auto, unfolding(crate::specs::ModuleDiff::module_diff))]
pub fn put_module_diff<const N: usize>(out: &mut ArrayVec<u8, N>, value: &ModuleDiffBlock)
    requires { array_vec_len out.old + module_diff.size value.now ≤ N }
    ensures items { (tail : List ℕ) → out.new.items ++ tail ≡ out.old.items ++ module_diff.write value.now tail }
    ensures len { array_vec_len out.new ≡ array_vec_len out.old + module_diff.size value.now }
    ensures fits { IsModuleDiff value.now → module_diff.Fits value.now }
{
    module_diff_fields!(put_fields [out, value]);
}

/// The number of octets that the fields of a ModuleDiffBlock take.
#[tactic(auto, unfolding(crate::specs::ModuleDiff::module_diff))]
pub fn module_diff_len(value: &ModuleDiffBlock) -> usize
    ensures size { result ≡ module_diff.size value.now }
    ensures few { result ≤ 4616 }
{
    module_diff_fields!(len_fields[value])
}
