//! Whether the modules of a station, their submodules and the parameter records of these are in their ranges.
ghost use Rattle.std.specs.Prelude.{◌≡◌};
ghost use Rattle.std.specs.List.{list_all};
ghost use Rattle.device_abi.specs.Stations.{are_slots, are_subslots, fits, has_parameters, has_slot, has_subslot};
ghost use Rattle.device_abi.specs.Stations.{is_carried, is_described, is_parted, is_subslot};

use c_layout::{Module, Submodule, are_parameters, parameters_in, submodules_in};

/// The most octets of data that a cyclic frame carries for one submodule: its 1,440 octets without one IOPS.
const MOST_DATA: u16 = 1439;

// Whether the slots are from 0 to 15, each once.
pub(crate) fn are_slots(modules: &[Module]) -> bool
    ensures { result ≡ are_slots modules.now }
{
    for i in 0..modules.len() {
        if modules[i].slot > 15 || has_slot(&modules[i + 1..], modules[i].slot) {
            return false;
        }
    }
    true
}

fn has_slot(modules: &[Module], slot: u16) -> bool
    ensures { result ≡ has_slot slot modules.now }
{
    modules.iter().any(|entry| entry.slot == slot)
}

// ---- subslots

// Whether the subslots of each module are in their range, each once.
pub(crate) fn are_parted(modules: &[Module]) -> bool
    ensures { result ≡ list_all is_parted modules.now }
{
    modules
        .iter()
        .all(|entry| are_subslots(submodules_in(entry)))
}

fn are_subslots(submodules: &[Submodule]) -> bool
    ensures { result ≡ are_subslots submodules.now }
{
    for i in 0..submodules.len() {
        if !is_subslot(submodules[i].subslot)
            || has_subslot(&submodules[i + 1..], submodules[i].subslot)
        {
            return false;
        }
    }
    true
}

// Whether it is the subslot of a submodule: 0 is that of the module itself, and the ports of an interface end at 36,863.
fn is_subslot(subslot: u16) -> bool
    ensures { result ≡ is_subslot subslot }
{
    (1..=36863).contains(&subslot)
}

fn has_subslot(submodules: &[Submodule], subslot: u16) -> bool
    ensures { result ≡ has_subslot subslot submodules.now }
{
    submodules.iter().any(|part| part.subslot == subslot)
}

// ---- data

// Whether a cyclic frame can carry the data of each submodule.
pub(crate) fn are_carried(modules: &[Module]) -> bool
    ensures { result ≡ list_all is_carried modules.now }
{
    modules.iter().all(|entry| do_fit(submodules_in(entry)))
}

fn do_fit(submodules: &[Submodule]) -> bool
    ensures { result ≡ list_all fits submodules.now }
{
    submodules
        .iter()
        .all(|part| part.input <= MOST_DATA && part.output <= MOST_DATA)
}

// ---- parameter records

// Whether the parameter records of each submodule are in their ranges, each with an index of its own.
pub(crate) fn are_described(modules: &[Module]) -> bool
    ensures { result ≡ list_all is_described modules.now }
{
    modules
        .iter()
        .all(|entry| have_parameters(submodules_in(entry)))
}

fn have_parameters(submodules: &[Submodule]) -> bool
    ensures { result ≡ list_all has_parameters submodules.now }
{
    submodules
        .iter()
        .all(|part| are_parameters(parameters_in(part)))
}
