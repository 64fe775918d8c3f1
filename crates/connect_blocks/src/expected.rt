//! ExpectedSubmoduleBlockReq: the modules and submodules that a controller expects.
ghost use Rattle.std.specs.List.{list_any};
ghost use Rattle.std.specs.Prelude.{◌≡◌, ◌==◌, ◌+◌, [], drop, ◌*◌, ◌<◌, ◌≤◌, ◌++◌, List, ℕ, length, OnOk};
ghost use Rattle.arrayvec.specs.ArrayVec.{array_vec_len};
ghost use Rattle.wire.specs.Codec.{Gives};
ghost use Rattle.wire.specs.blocks.Fields.{body};
ghost use Rattle.connect_blocks.specs.Expected.{expected, expected_module, expected_module_alike, expected_modules, expected_submodule};
ghost use Rattle.connect_blocks.specs.Expected.{expected_submodule_alike, new_slot, new_subslot, own_of, IsExpected};
ghost use Rattle.connect_blocks.specs.Expected.{IsExpectedSubmoduleBlockReq, SubmoduleFits};

use crate::submodule_data::{
    SubmoduleData, put_submodule_data, submodule_data_at, submodule_data_len,
};
use arrayvec::ArrayVec;
use wire::blocks::u16_at;
use wire::{
    BlockFault, Entry, Module, Modules, Put, ended, len_fields, modules_len, put_fields,
    put_modules, read_fields, version_at,
};

/// A module that is expected in a slot of API 0.
#[derive(Clone, Copy, Default)]
pub struct ExpectedModule {
    /// SlotNumber. No other module of the block has the same.
    pub slot_number: u16,
    /// ModuleIdentNumber.
    pub module_ident_number: u32,
    /// ModuleProperties.
    pub module_properties: u16,
    /// NumberOfSubmodules: the number of submodules that belong to the module.
    pub number_of_submodules: u16,
}

macro_rules! expected_module_fields {
    ($with:ident $args:tt $before:ident) => {
        $with! { $args ExpectedModule {
            _: fixed_four 0 5,
            slot_number: u16 by new_slot_at($before),
            module_ident_number: u32,
            module_properties: u16,
            number_of_submodules: u16,
        } }
    };
}

/// A submodule that is expected in a subslot.
#[derive(Clone, Copy, Default)]
pub struct ExpectedSubmodule {
    /// SubslotNumber. No other submodule of the slot has the same.
    pub subslot_number: u16,
    /// SubmoduleIdentNumber.
    pub submodule_ident_number: u32,
    /// SubmoduleProperties and the DataDescriptions.
    pub io_data: SubmoduleData,
}

macro_rules! expected_submodule_fields {
    ($with:ident $args:tt $before:ident) => {
        $with! { $args ExpectedSubmodule {
            subslot_number: u16 by new_subslot_at($before),
            submodule_ident_number: u32,
            io_data: (submodule_data_at, put_submodule_data, submodule_data_len),
        } }
    };
}

/// The modules that are expected, each with its submodules: at most 256 modules and 256 submodules.
pub type ExpectedModules<'a> = Modules<'a, ExpectedModule, ExpectedSubmodule>;

/// 0x0104: ExpectedSubmoduleBlockReq (IEC 61158-6-10, 5.2.4.5).
#[derive(Drop)]
pub struct ExpectedSubmoduleBlockReq<'a> {
    /// The modules, each with its submodules.
    pub modules: ExpectedModules<'a>,
}

/// Reads a SlotNumber (field 6) that none of the modules `before` has. Returns it and the rest.
#[tactic(auto, unfolding(crate::specs::Expected::new_slot))]
fn new_slot_at<'a>(
    bytes: &'a [u8],
    before: &[ExpectedModule],
) -> Result<(u16, &'a [u8]), BlockFault>
    ensures { Gives (λ x. (x.0, x.1.now)) result ((new_slot before.now).read bytes.now) }
{
    let (number, rest) = u16_at(bytes)?;
    if has_slot(before, number) {
        return Err(BlockFault::Field(6));
    }
    Ok((number, rest))
}

/// Whether one of the modules `before` has this SlotNumber.
fn has_slot(before: &[ExpectedModule], number: u16) -> bool
    ensures { result ≡ list_any (λ entry. entry.slot_number == number) before.now }
{
    before.iter().any(|entry| entry.slot_number == number)
}

/// Reads a SubslotNumber (field 10) that none of the submodules `before` has. Returns it and the rest.
#[tactic(auto, unfolding(crate::specs::Expected::new_subslot))]
fn new_subslot_at<'a>(
    bytes: &'a [u8],
    before: &[ExpectedSubmodule],
) -> Result<(u16, &'a [u8]), BlockFault>
    ensures { Gives (λ x. (x.0, x.1.now)) result ((new_subslot before.now).read bytes.now) }
{
    let (number, rest) = u16_at(bytes)?;
    if has_subslot(before, number) {
        return Err(BlockFault::Field(10));
    }
    Ok((number, rest))
}

/// Whether one of the submodules `before` has this SubslotNumber.
fn has_subslot(before: &[ExpectedSubmodule], number: u16) -> bool
    ensures { result ≡ list_any (λ entry. entry.subslot_number == number) before.now }
{
    before.iter().any(|entry| entry.subslot_number == number)
}

#[tactic(auto, unfolding(crate::specs::Expected::expected_module, crate::specs::Expected::new_slot))]
impl Entry for ExpectedModule {
    ghost format = { expected_module };

    ghost fits = { (expected_module []).Fits };

    fn at<'a>(bytes: &'a [u8], before: &[Self]) -> Result<(Self, &'a [u8]), BlockFault> {
        expected_module_fields!(read_fields [bytes] before)
    }

    fn len(&self) -> usize {
        expected_module_fields!(len_fields [self] none)
    }

    ghost alike = { expected_module_alike };
}

#[tactic(auto, unfolding(crate::specs::Expected::expected_module, crate::specs::Expected::new_slot))]
impl<const N: usize> Put<N> for ExpectedModule {
    fn put(&self, out: &mut ArrayVec<u8, N>) {
        expected_module_fields!(put_fields [out, self] none);
    }
}

impl Module for ExpectedModule {
    ghost own = { own_of };

    fn number_of_submodules(&self) -> u16 {
        self.number_of_submodules
    }
}

#[tactic(auto, using(crate::proofs::Wanted::data_sized), unfolding(crate::specs::Expected::expected_submodule, crate::specs::Expected::new_subslot))]
impl Entry for ExpectedSubmodule {
    ghost format = { expected_submodule };

    ghost fits = { SubmoduleFits };

    fn at<'a>(bytes: &'a [u8], before: &[Self]) -> Result<(Self, &'a [u8]), BlockFault> {
        expected_submodule_fields!(read_fields [bytes] before)
    }

    fn len(&self) -> usize {
        expected_submodule_fields!(len_fields [self] none)
    }

    ghost alike = { expected_submodule_alike };
}

#[tactic(auto, using(crate::proofs::Wanted::data_sized), unfolding(crate::specs::Expected::expected_submodule, crate::specs::Expected::new_subslot))]
impl<const N: usize> Put<N> for ExpectedSubmodule {
    fn put(&self, out: &mut ArrayVec<u8, N>) {
        expected_submodule_fields!(put_fields [out, self] none);
    }
}

/// Reads the part of an ExpectedSubmoduleBlockReq that BlockLength counts: the version and the fields, to the last octet.
/// It is checked in the lists `modules` and `submodules`.
#[tactic(auto, unfolding(wire::specs::blocks::Fields::body, crate::specs::Expected::expected, crate::specs::Expected::expected_modules))]
pub fn expected_in<'a>(
    bytes: &'a [u8],
    modules: &mut ArrayVec<ExpectedModule, 256>,
    submodules: &mut ArrayVec<ExpectedSubmodule, 256>,
) -> Result<ExpectedSubmoduleBlockReq<'a>, BlockFault>
    ensures { Gives (λ x. x) result ((body expected).read bytes.now) }
{
    let rest = version_at(bytes)?;
    let (modules, rest) = Modules::at(rest, modules, submodules)?;
    ended(rest)?;
    Ok(ExpectedSubmoduleBlockReq { modules })
}

/// Reads the part of an ExpectedSubmoduleBlockReq that BlockLength counts: the version and the fields, to the last octet.
pub fn expected_at(bytes: &[u8]) -> Result<ExpectedSubmoduleBlockReq<'_>, BlockFault>
    ensures { Gives (λ x. x) result ((body expected).read bytes.now) }
{
    let mut modules = ArrayVec::new();
    let mut submodules = ArrayVec::new();
    expected_in(bytes, &mut modules, &mut submodules)
}

/// Appends NumberOfAPIs and the entries of modules and submodules. There must be room.
#[tactic(auto, using(crate::proofs::ModuleBlocksAccepted::modules_fit), unfolding(crate::specs::Expected::expected_modules))]
fn put_expected_modules<const N: usize>(out: &mut ArrayVec<u8, N>, value: &ExpectedModules)
    requires { array_vec_len out.old + expected_modules.size value.now ≤ N }
    ensures items { (tail : List ℕ) → out.new.items ++ tail ≡ out.old.items ++ expected_modules.write value.now tail }
    ensures len { array_vec_len out.new ≡ array_vec_len out.old + expected_modules.size value.now }
    ensures fits { IsExpected value.now → expected_modules.Fits value.now }
{
    let mut modules = ArrayVec::new();
    let mut submodules = ArrayVec::new();
    put_modules(out, value, &mut modules, &mut submodules);
}

/// The number of octets that NumberOfAPIs and the entries of modules and submodules take.
#[tactic(auto, using(crate::proofs::Wanted::modules_few), unfolding(crate::specs::Expected::expected_modules))]
fn expected_modules_len(value: &ExpectedModules) -> usize
    ensures size { result ≡ expected_modules.size value.now }
    ensures few { result ≤ 8706 }
{
    modules_len(value)
}

/// Appends the fields of an ExpectedSubmoduleBlockReq. There must be room.
#[tactic(auto, unfolding(crate::specs::Expected::expected))]
pub fn put_expected<const N: usize>(out: &mut ArrayVec<u8, N>, value: &ExpectedSubmoduleBlockReq)
    requires { array_vec_len out.old + expected.size value.now ≤ N }
    ensures items { (tail : List ℕ) → out.new.items ++ tail ≡ out.old.items ++ expected.write value.now tail }
    ensures len { array_vec_len out.new ≡ array_vec_len out.old + expected.size value.now }
    ensures fits { IsExpectedSubmoduleBlockReq value.now → expected.Fits value.now }
{
    put_expected_modules(out, &value.modules);
}

/// The number of octets that the fields of an ExpectedSubmoduleBlockReq take.
#[tactic(auto, unfolding(crate::specs::Expected::expected))]
pub fn expected_len(value: &ExpectedSubmoduleBlockReq) -> usize
    ensures size { result ≡ expected.size value.now }
    ensures few { result ≤ 8706 }
{
    expected_modules_len(&value.modules)
}
