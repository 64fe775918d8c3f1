//! The cyclic data of submodules, and the modules as a Connect expects them.
ghost use Rattle.std.specs.Prelude.{◌≡◌, ◌+◌, ◌≤◌, ◌++◌, [], length, map};
ghost use Rattle.arrayvec.specs.ArrayVec.{array_vec_len};
ghost use Rattle.plans.specs.Parts.{data_in_slot, data_of, io_data_of, module_of, some_octets, submodule_of};

use arrayvec::ArrayVec;
use block_codec::{ExpectedModule, ExpectedSubmodule, SubmoduleData};
use cyclic_data::ExpectedData;
use pn_values::{Real, RealModule, RealSubmodule};

/// A length in octets. `None` if it is 0.
fn some_octets(octets: u16) -> Option<u16>
    ensures { result ≡ some_octets octets }
{
    if octets == 0 { None } else { Some(octets) }
}

/// The cyclic data of a submodule.
fn io_data_of(part: &RealSubmodule) -> SubmoduleData
    ensures { result ≡ io_data_of part.now }
{
    SubmoduleData {
        input: some_octets(part.input),
        output: some_octets(part.output),
    }
}

/// Appends the cyclic data of a module's submodules. The list must have room for them.
fn push_data(subs: &mut ArrayVec<ExpectedData, 64>, entry: &RealModule)
    requires { array_vec_len subs.old ≤ 60 }
    ensures items { subs.new.items ≡ subs.old.items ++ data_in_slot entry.now.slot entry.now.submodules.items }
    ensures few { array_vec_len subs.new ≤ array_vec_len subs.old + 4 }
{
    for part in entry.submodules.as_slice() {
        subs.push(ExpectedData {
            slot: entry.slot,
            subslot: part.subslot,
            io_data: io_data_of(part),
        });
    }
}

/// The cyclic data of all submodules, in the order of the modules and of their submodules.
pub(crate) fn data_of(real: &Real) -> ArrayVec<ExpectedData, 64>
    ensures { result.items ≡ data_of real.now.modules.items }
{
    let mut subs = ArrayVec::new();
    for entry in real.modules.as_slice() {
        push_data(&mut subs, entry);
    }
    subs
}

/// A module, as a Connect expects it.
pub(crate) fn module_of(entry: &RealModule) -> ExpectedModule
    ensures { result ≡ module_of entry.now }
{
    ExpectedModule {
        slot_number: entry.slot,
        module_ident_number: entry.ident,
        module_properties: 0,
        number_of_submodules: entry.submodules.len() as u16,
    }
}

/// The submodules of a module, as a Connect expects them.
pub(crate) fn submodules_of(entry: &RealModule) -> ArrayVec<ExpectedSubmodule, 4>
    ensures { result.items ≡ map submodule_of entry.now.submodules.items }
{
    let mut submodules = ArrayVec::new();
    for part in entry.submodules.as_slice() {
        submodules.push(ExpectedSubmodule {
            subslot_number: part.subslot,
            submodule_ident_number: part.ident,
            io_data: io_data_of(part),
        });
    }
    submodules
}
