//! I&M0FilterData: the modules and submodules of a device.
ghost use Rattle.std.specs.Prelude.{◌≡◌, ◌+◌, ◌*◌, ◌<◌, ◌≤◌, ◌++◌, List, ℕ, length, OnOk};
ghost use Rattle.arrayvec.specs.ArrayVec.{array_vec_len};
ghost use Rattle.wire.specs.Codec.{Gives};
ghost use Rattle.wire.specs.blocks.Fields.{body};
ghost use Rattle.wire.specs.blocks.modules.Lists.{flat_alike};
ghost use Rattle.record_blocks.specs.FilterData.{filter_data, filter_module, filter_modules, filter_submodule, own_of, IsCounted};
ghost use Rattle.record_blocks.specs.FilterData.{IsFilterData};

use arrayvec::ArrayVec;
use wire::{
    BlockFault, Entry, Module, Modules, Put, len_fields, modules_len, put_fields, put_modules,
    read_body, read_fields,
};

/// A module that an I&M0FilterData lists.
#[derive(Clone, Copy, Default)]
pub struct FilterModule {
    /// SlotNumber.
    pub slot_number: u16,
    /// ModuleIdentNumber.
    pub module_ident_number: u32,
    /// NumberOfSubmodules: the number of submodules that belong to the module.
    pub number_of_submodules: u16,
}

macro_rules! filter_module_fields {
    ($with:ident $args:tt) => {
        $with! { $args FilterModule {
            slot_number: u16,
            module_ident_number: u32,
            number_of_submodules: u16,
        } }
    };
}

/// A submodule that an I&M0FilterData lists.
#[derive(Clone, Copy, Default)]
pub struct FilterSubmodule {
    /// SubslotNumber.
    pub subslot_number: u16,
    /// SubmoduleIdentNumber.
    pub submodule_ident_number: u32,
}

macro_rules! filter_submodule_fields {
    ($with:ident $args:tt) => {
        $with! { $args FilterSubmodule {
            subslot_number: u16,
            submodule_ident_number: u32,
        } }
    };
}

/// The modules that an I&M0FilterData lists, each with its submodules: at most 256 modules and 256 submodules.
pub type FilterModules<'a> = Modules<'a, FilterModule, FilterSubmodule>;

/// 0x0030 and 0x0032: I&M0FilterData (IEC 61158-6-10, 5.2.3.22), with NumberOfAPIs 1.
#[derive(Drop)]
pub struct ImFilterData<'a> {
    /// API.
    pub api: u32,
    /// The modules, each with its submodules.
    pub modules: FilterModules<'a>,
}

macro_rules! filter_data_fields {
    ($with:ident $args:tt) => {
        $with! { $args ImFilterData {
            _: fixed 1 4,
            api: u32,
            modules: (filter_modules_at, put_filter_modules, filter_modules_len),
        } }
    };
}

#[tactic(auto, unfolding(crate::specs::FilterData::filter_module))]
impl Entry for FilterModule {
    ghost format = { λ _. filter_module };

    ghost fits = { filter_module.Fits };

    fn at<'a>(bytes: &'a [u8], _before: &[Self]) -> Result<(Self, &'a [u8]), BlockFault> {
        filter_module_fields!(read_fields[bytes])
    }

    fn len(&self) -> usize {
        filter_module_fields!(len_fields[self])
    }

    ghost alike = { flat_alike filter_module };
}

#[tactic(auto, unfolding(crate::specs::FilterData::filter_module))]
impl<const N: usize> Put<N> for FilterModule {
    fn put(&self, out: &mut ArrayVec<u8, N>) {
        filter_module_fields!(put_fields [out, self]);
    }
}

impl Module for FilterModule {
    ghost own = { own_of };

    fn number_of_submodules(&self) -> u16 {
        self.number_of_submodules
    }
}

#[tactic(auto, unfolding(crate::specs::FilterData::filter_submodule))]
impl Entry for FilterSubmodule {
    ghost format = { λ _. filter_submodule };

    ghost fits = { filter_submodule.Fits };

    fn at<'a>(bytes: &'a [u8], _before: &[Self]) -> Result<(Self, &'a [u8]), BlockFault> {
        filter_submodule_fields!(read_fields[bytes])
    }

    fn len(&self) -> usize {
        filter_submodule_fields!(len_fields[self])
    }

    ghost alike = { flat_alike filter_submodule };
}

#[tactic(auto, unfolding(crate::specs::FilterData::filter_submodule))]
impl<const N: usize> Put<N> for FilterSubmodule {
    fn put(&self, out: &mut ArrayVec<u8, N>) {
        filter_submodule_fields!(put_fields [out, self]);
    }
}

/// Reads NumberOfModules and the entries of modules and submodules. Returns them and the rest.
#[tactic(auto, unfolding(crate::specs::FilterData::filter_modules))]
fn filter_modules_at(bytes: &[u8]) -> Result<(FilterModules<'_>, &[u8]), BlockFault>
    ensures { Gives (λ x. (x.0, x.1.now)) result (filter_modules.read bytes.now) }
{
    let mut modules = ArrayVec::new();
    let mut submodules = ArrayVec::new();
    Modules::at(bytes, &mut modules, &mut submodules)
}

/// Reads the part of an I&M0FilterData that BlockLength counts: the version and the fields, to the last octet.
#[tactic(auto, unfolding(wire::specs::blocks::Fields::body, crate::specs::FilterData::filter_data))]
pub fn filter_data_at(bytes: &[u8]) -> Result<ImFilterData<'_>, BlockFault>
    ensures { Gives (λ x. x) result ((body filter_data).read bytes.now) }
{
    filter_data_fields!(read_body[bytes])
}

/// Appends NumberOfModules and the entries of modules and submodules. There must be room.
#[tactic(auto, using(crate::proofs::Filter::modules_fit), unfolding(crate::specs::FilterData::filter_modules))]
fn put_filter_modules<const N: usize>(out: &mut ArrayVec<u8, N>, value: &FilterModules)
    requires { array_vec_len out.old + filter_modules.size value.now ≤ N }
    ensures items { (tail : List ℕ) → out.new.items ++ tail ≡ out.old.items ++ filter_modules.write value.now tail }
    ensures len { array_vec_len out.new ≡ array_vec_len out.old + filter_modules.size value.now }
    ensures fits { IsCounted value.now → filter_modules.Fits value.now }
{
    let mut modules = ArrayVec::new();
    let mut submodules = ArrayVec::new();
    put_modules(out, value, &mut modules, &mut submodules);
}

/// The number of octets that NumberOfModules and the entries of modules and submodules take.
#[tactic(auto, using(crate::proofs::Filter::modules_few), unfolding(crate::specs::FilterData::filter_modules))]
fn filter_modules_len(value: &FilterModules) -> usize
    ensures size { result ≡ filter_modules.size value.now }
    ensures few { result ≤ 3586 }
    ensures most { result ≤ 2 + 8 * length value.now.modules + 6 * length value.now.submodules }
{
    modules_len(value)
}

/// Appends the fields of an I&M0FilterData. There must be room.
#[tactic(auto, unfolding(crate::specs::FilterData::filter_data))]
pub fn put_filter_data<const N: usize>(out: &mut ArrayVec<u8, N>, value: &ImFilterData)
    requires { array_vec_len out.old + filter_data.size value.now ≤ N }
    ensures items { (tail : List ℕ) → out.new.items ++ tail ≡ out.old.items ++ filter_data.write value.now tail }
    ensures len { array_vec_len out.new ≡ array_vec_len out.old + filter_data.size value.now }
    ensures fits { IsFilterData value.now → filter_data.Fits value.now }
{
    filter_data_fields!(put_fields [out, value]);
}

/// The number of octets that the fields of an I&M0FilterData take.
#[tactic(auto, unfolding(crate::specs::FilterData::filter_data))]
pub fn filter_data_len(value: &ImFilterData) -> usize
    ensures size { result ≡ filter_data.size value.now }
    ensures few { result ≤ 3592 }
    ensures most { result ≤ 8 + 8 * length value.now.modules.modules + 6 * length value.now.modules.submodules }
{
    filter_data_fields!(len_fields[value])
}
