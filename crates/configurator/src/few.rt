//! The limits on the numbers of slots, submodules and records.
ghost use Rattle.std.specs.Prelude.{◌≡◌, nat_le, length};
ghost use Rattle.std.specs.List.{list_all};
ghost use Rattle.configurator.specs.Few.{are_few, are_low, are_records_few, are_slots_low, is_small, is_small_if};
ghost use Rattle.configurator.specs.Standing.{stands_in};

use crate::station::{ALL_SLOTS, standing_in};
use catalogue::{Catalogue, ModuleReference, SlotItem, SubmoduleItem};

/// Whether each submodule has at most two parameter records.
fn have_few_parameters(submodules: &[SubmoduleItem]) -> bool
    ensures { result ≡ list_all (λ entry. nat_le (length entry.parameters) 2) submodules.now }
{
    for submodule in submodules {
        if submodule.parameters.as_slice().len() > 2 {
            return false;
        }
    }
    true
}

/// Whether a module has at most four submodules, and each at most two parameter records.
fn is_small(submodules: &[SubmoduleItem]) -> bool
    ensures { result ≡ is_small submodules.now }
{
    submodules.len() <= 4 && have_few_parameters(submodules)
}

/// Whether a slot is empty or its module has at most four submodules, each with at most two parameter records.
fn is_slot_small(catalogue: &Catalogue, slot: u16) -> bool
    ensures { result ≡ is_small_if (stands_in catalogue.now slot) }
{
    match standing_in(catalogue, slot) {
        Some(standing) => is_small(standing.submodules),
        None => true,
    }
}

/// Whether this is true of each of these slots.
fn are_slots_small(catalogue: &Catalogue, slots: &[u16]) -> bool
    ensures { result ≡ list_all (λ slot. is_small_if (stands_in catalogue.now slot)) slots.now }
{
    for slot in slots {
        if !is_slot_small(catalogue, *slot) {
            return false;
        }
    }
    true
}

/// Whether each slot into which the project puts a module is at most 15.
fn are_slots_low(slots: &[SlotItem]) -> bool
    ensures { result ≡ are_slots_low slots.now }
{
    for entry in slots {
        if entry.slot > 15 {
            return false;
        }
    }
    true
}

/// Whether each of these slots is at most 15.
fn are_low(slots: &[u64]) -> bool
    ensures { result ≡ are_low slots.now }
{
    for slot in slots {
        if *slot > 15 {
            return false;
        }
    }
    true
}

/// Whether each slot in which a module is fixed is at most 15.
fn are_fixed_low(references: &[ModuleReference]) -> bool
    ensures { result ≡ list_all (λ entry. are_low entry.fixed_in) references.now }
{
    for reference in references {
        if !are_low(reference.fixed_in.as_slice()) {
            return false;
        }
    }
    true
}

/// Whether the slots have at most 32 records together.
fn are_records_few(slots: &[SlotItem]) -> bool
    ensures { result ≡ are_records_few slots.now }
{
    let mut left = 32;
    for entry in slots {
        // Counted down from 32, so that no sum can overflow.
        if entry.records.len() > left {
            return false;
        }
        left -= entry.records.len();
    }
    true
}

/// Whether a catalogue is within the limits: slots 0 to 15, in each at most four submodules with at most two parameter records, and at most
/// 32 records.
#[tactic(auto, unfolding(crate::specs::Few::are_few))]
pub(crate) fn are_few(catalogue: &Catalogue) -> bool
    ensures { result ≡ are_few catalogue.now }
{
    let slots = catalogue.project.slots.as_slice();
    are_slots_low(slots)
        && are_fixed_low(catalogue.access_point.references.as_slice())
        && are_slots_small(catalogue, &ALL_SLOTS)
        && are_records_few(slots)
}
