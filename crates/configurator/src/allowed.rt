//! Whether each module may be in its slot.
ghost use Rattle.std.specs.Prelude.{◌≡◌, ◌&&◌, IfOk};
ghost use Rattle.std.specs.List.{list_all};
ghost use Rattle.configurator.specs.Allowed.{are_allowed, are_once, is_in};
ghost use Rattle.configurator.specs.Known.{fixed_by, is_fixed_open, is_no_other, is_open, number_in, physical_in, stands_well, taken_by};

use crate::known::Known;
use catalogue::{Catalogue, ModuleReference, SlotItem};
use std::alloc::{AllocError, Global};
use std::collections::BTreeSet;

/// Whether a slot is one of these.
pub(crate) fn is_in(slots: &[u64], slot: u64) -> bool
    ensures { result ≡ is_in slot slots.now }
{
    slots.contains(&slot)
}

/// Whether no module but the one with this number is fixed in a slot. `fixed` is the number of the module that is fixed there.
fn is_no_other(fixed: Option<usize>, number: usize) -> bool
    ensures { result ≡ is_no_other number fixed }
{
    match fixed {
        Some(other) => other == number,
        None => true,
    }
}

/// Whether the device has a slot, the slot is not that of the access point, and no other module is fixed in it.
fn is_open(known: &Known, number: usize, slot: u64) -> bool
    ensures { result ≡ is_open (physical_in known.now) (fixed_by known.now) number slot }
{
    slot != 0
        && known.physical.contains(&slot)
        && is_no_other(known.fixed.get(&slot).copied(), number)
}

/// Whether this is true of each of these slots.
fn are_all_open(known: &Known, number: usize, slots: &[u64]) -> bool
    ensures { result ≡ list_all (is_open (physical_in known.now) (fixed_by known.now) number) slots.now }
{
    for slot in slots {
        if !is_open(known, number, *slot) {
            return false;
        }
    }
    true
}

/// Whether a module may be in each slot in which it is fixed.
fn is_fixed_open(known: &Known, reference: &ModuleReference) -> bool
    ensures { result ≡ is_fixed_open (physical_in known.now) (fixed_by known.now) (number_in known.now) reference.now }
{
    let slots = reference.fixed_in.as_slice();
    match known.number(reference.target.as_str()) {
        Some(number) => are_all_open(known, number, slots),
        // A module that the catalogue does not have may be in no slot, so a reference to it must have no fixed slots.
        None => slots.is_empty(),
    }
}

/// Whether each module may be in each slot in which it is fixed.
fn are_fixed_open(known: &Known, references: &[ModuleReference]) -> bool
    ensures { result ≡ list_all (is_fixed_open (physical_in known.now) (fixed_by known.now) (number_in known.now)) references.now }
{
    for reference in references {
        if !is_fixed_open(known, reference) {
            return false;
        }
    }
    true
}

/// Whether a module may be in the slot into which the project puts it.
fn stands_well(known: &Known, entry: &SlotItem) -> bool
    ensures { result ≡ stands_well (physical_in known.now) (fixed_by known.now) (taken_by known.now) (number_in known.now) entry.now }
{
    match known.number(entry.target.as_str()) {
        Some(number) => {
            is_open(known, number, entry.slot) && known.taken.contains(&(entry.slot, number))
        }
        None => false,
    }
}

/// Whether this is true of each module that the project puts into a slot.
fn do_all_stand(known: &Known, slots: &[SlotItem]) -> bool
    ensures { result ≡ list_all (stands_well (physical_in known.now) (fixed_by known.now) (taken_by known.now) (number_in known.now))
        slots.now }
{
    for entry in slots {
        if !stands_well(known, entry) {
            return false;
        }
    }
    true
}

/// Whether no two entries name the same slot. `AllocError` if there was not enough memory.
fn are_once(alloc: Global, slots: &[SlotItem]) -> Result<bool, AllocError>
    ensures { IfOk result (λ once. once ≡ are_once slots.now) }
{
    let mut seen = BTreeSet::new(alloc);
    for entry in slots {
        // Also if both entries say the same: the order in which their records would be written is not defined.
        let is_new = seen.insert(entry.slot)?;
        if !is_new {
            return Ok(false);
        }
    }
    Ok(true)
}

/// Whether each module may be in the slots in which it is fixed, each module may be in the slot into which the project puts it, and no two
/// entries name the same slot.
fn is_allowed(
    alloc: Global,
    known: &Known,
    references: &[ModuleReference],
    slots: &[SlotItem],
) -> Result<bool, AllocError>
    ensures { IfOk result (λ allowed. allowed ≡ (list_all (is_fixed_open (physical_in known.now) (fixed_by known.now) (number_in known.now)) references.now
        && list_all (stands_well (physical_in known.now) (fixed_by known.now) (taken_by known.now) (number_in known.now)) slots.now
        && are_once slots.now)) }
{
    if !are_fixed_open(known, references) {
        return Ok(false);
    }
    if !do_all_stand(known, slots) {
        return Ok(false);
    }
    are_once(alloc, slots)
}

/// Whether each module may be in its slot.
pub(crate) fn are_allowed(alloc: Global, catalogue: &Catalogue) -> Result<bool, AllocError>
    ensures { IfOk result (λ allowed. allowed ≡ are_allowed catalogue.now) }
{
    let known = Known::of(alloc, catalogue)?;
    let references = catalogue.access_point.references.as_slice();
    let slots = catalogue.project.slots.as_slice();
    is_allowed(alloc, &known, references, slots)
}
