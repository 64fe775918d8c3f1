//! The modules that are plugged in a station, as they lie in the memory of the host.
ghost use Rattle.std.specs.Prelude.{◌≡◌, ◌<◌, ◌≤◌, ◌++◌, [], ◌∷◌, true, length, map};
ghost use Rattle.std.specs.List.{list_all};
ghost use Rattle.c_layout.specs.Modules.{are_parameters, has_index, is_module, is_parameter, is_submodule, module_of, parameter_of, parameters_in, submodule_of};
ghost use Rattle.c_layout.specs.Modules.{submodules_in};

use arrayvec::ArrayVec;
use pn_values::{ParameterRecord, RealModule, RealSubmodule};

/// A parameter record that a submodule accepts.
#[repr(C)]
#[derive(Drop)]
pub struct Parameter {
    pub index: u16,
    pub length: u16,
}

/// A submodule, with at most two parameter records.
#[repr(C)]
#[derive(Drop)]
pub struct Submodule {
    pub ident: u32,
    pub subslot: u16,
    pub input: u16,
    pub output: u16,
    pub parameter_count: u16,
    pub parameters: [Parameter; 2],
}

/// A module, with at most four submodules.
#[repr(C)]
#[derive(Drop)]
pub struct Module {
    pub ident: u32,
    pub slot: u16,
    pub submodule_count: u16,
    pub submodules: [Submodule; 4],
}

/// The submodules of a module that are counted.
pub fn submodules_in(entry: &Module) -> &[Submodule]
    ensures { result.now ≡ submodules_in entry.now }
{
    // A count that is greater than the list can hold counts all of it.
    &entry.submodules[..usize::from(entry.submodule_count).min(4)]
}

/// The parameter records of a submodule that are counted.
pub fn parameters_in(submodule: &Submodule) -> &[Parameter]
    ensures { result.now ≡ parameters_in submodule.now }
{
    &submodule.parameters[..usize::from(submodule.parameter_count).min(2)]
}

/// Whether no count of these modules is greater than its list can hold.
pub fn are_modules(modules: &[Module]) -> bool
    ensures { result ≡ list_all is_module modules.now }
{
    modules.iter().all(is_small)
}

fn is_small(entry: &Module) -> bool
    ensures { result ≡ is_module entry.now }
{
    entry.submodule_count <= 4 && are_submodules(submodules_in(entry))
}

fn are_submodules(submodules: &[Submodule]) -> bool
    ensures { result ≡ list_all is_submodule submodules.now }
{
    submodules
        .iter()
        .all(|submodule| submodule.parameter_count <= 2)
}

/// Whether parameter records are in their ranges, each with an index of its own.
pub fn are_parameters(items: &[Parameter]) -> bool
    ensures { result ≡ are_parameters items.now }
{
    for i in 0..items.len() {
        if !is_parameter(&items[i]) || has_index(&items[i + 1..], items[i].index) {
            return false;
        }
    }
    true
}

fn is_parameter(item: &Parameter) -> bool
    ensures { result ≡ is_parameter item.now }
{
    item.index <= 32767 && item.length >= 1 && item.length <= 64
}

fn has_index(items: &[Parameter], index: u16) -> bool
    ensures { result ≡ has_index index items.now }
{
    items.iter().any(|item| item.index == index)
}

/// The modules as values. There are at most 16, and no count is greater than its list can hold.
pub fn modules(written: &[Module]) -> ArrayVec<RealModule, 16>
    requires few { length written.now ≤ 16 }
    requires small { list_all is_module written.now ≡ true }
    ensures { result ≡ record { items = map module_of written.now } }
{
    let mut modules = ArrayVec::new();
    for entry in written {
        modules.push(RealModule {
            slot: entry.slot,
            ident: entry.ident,
            submodules: ArrayVec::new(),
        });
        // Its submodules are made where they stay: what is moved takes room on the stack of pn_put.
        let place = modules.len() - 1;
        put_submodules(
            submodules_in(entry),
            &mut modules.as_mut_slice()[place].submodules,
        );
    }
    modules
}

fn put_submodules(written: &[Submodule], submodules: &mut ArrayVec<RealSubmodule, 4>)
    requires empty { submodules.old.items ≡ [] }
    requires few { length written.now ≤ 4 }
    requires small { list_all is_submodule written.now ≡ true }
    ensures { submodules.new ≡ record { items = map submodule_of written.now } }
{
    for submodule in written {
        submodules.push(plugged_in(submodule));
    }
}

fn plugged_in(submodule: &Submodule) -> RealSubmodule
    requires { is_submodule submodule.now ≡ true }
    ensures { result ≡ submodule_of submodule.now }
{
    RealSubmodule {
        subslot: submodule.subslot,
        ident: submodule.ident,
        input: submodule.input,
        output: submodule.output,
        parameters: parameters(parameters_in(submodule)),
    }
}

fn parameters(written: &[Parameter]) -> ArrayVec<ParameterRecord, 2>
    requires { length written.now ≤ 2 }
    ensures { result ≡ record { items = map parameter_of written.now } }
{
    let mut parameters = ArrayVec::new();
    for parameter in written {
        parameters.push(ParameterRecord {
            index: parameter.index,
            length: parameter.length,
        });
    }
    parameters
}
