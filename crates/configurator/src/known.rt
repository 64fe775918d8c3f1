//! Maps and sets of a catalogue's modules and slots, so that checking a module does not search the lists.
ghost use Rattle.std.specs.Prelude.{◌≡◌, ◌==◌, ◌&&◌, ◌||◌, ℕ, List, Some, None, IfOk, OnOk, cond, if◌then◌else◌};
ghost use Rattle.std.specs.Str.{bytes_eq};
ghost use Rattle.std.specs.List.{list_any};
ghost use Rattle.std.specs.Option.{option_or};
ghost use Rattle.std.specs.Ordering.{nat_cmp};
ghost use Rattle.std.specs.BTreeMap.{get, get_by_text};
ghost use Rattle.std.specs.BTreeSet.{contains};
ghost use Rattle.configurator.specs.Allowed.{is_in};
ghost use Rattle.configurator.specs.Known.{AreNumbers, IsKnown, fixer, fixes, number_in, place_cmp, takes_by};

use catalogue::{Catalogue, ModuleItem, ModuleReference};
use std::alloc::{AllocError, Global};
use std::collections::{BTreeMap, BTreeSet};

/// Maps and sets of the modules and slots of a catalogue.
#[derive(Drop)]
pub(crate) struct Known {
    /// The slots that the device has.
    pub(crate) physical: BTreeSet<u64>,
    /// The number of each module, by its ID.
    pub(crate) numbers: BTreeMap<String, usize>,
    /// The number of the module that is fixed in a slot, by the slot. If several are fixed there, that of the first reference.
    pub(crate) fixed: BTreeMap<u64, usize>,
    /// The pairs of a slot and the number of a module that may be put into it or is fixed in it.
    pub(crate) taken: BTreeSet<(u64, usize)>,
}

/// The slots that the device has.
fn physical_of(alloc: Global, slots: &[u16]) -> Result<BTreeSet<u64>, AllocError>
    ensures { IfOk result (λ found. (slot : ℕ) → contains nat_cmp found slot ≡ is_in slot slots.now) }
{
    let mut found = BTreeSet::new(alloc);
    for slot in slots {
        found.insert(*slot as u64)?;
    }
    Ok(found)
}

/// Sets the number of the module with an ID.
fn number_module(
    alloc: Global,
    numbers: &mut BTreeMap<String, usize>,
    id: &str,
    number: usize,
) -> Result<(), AllocError>
    ensures { OnOk result ((other : List ℕ) → get_by_text numbers.new other
        ≡ cond (bytes_eq id.now other) (Some number) (get_by_text numbers.old other)) }
{
    let key = String::from_str(alloc, id)?;
    numbers.insert(key, number)?;
    Ok(())
}

/// The numbers of the modules, by their IDs.
fn numbers_of(alloc: Global, modules: &[ModuleItem]) -> Result<BTreeMap<String, usize>, AllocError>
    ensures { IfOk result (λ found. AreNumbers modules.now (get_by_text found)) }
{
    let mut found = BTreeMap::new(alloc);
    let mut next = 0;
    for module in modules {
        number_module(alloc, &mut found, module.id.as_str(), next)?;
        next += 1;
    }
    Ok(found)
}

/// Notes that a module is fixed in a slot, unless a module is noted there already.
#[tactic(auto, using(crate::proofs::Steps::fixed_there, crate::proofs::Steps::kept_there))]
fn fix_in(fixed: &mut BTreeMap<u64, usize>, slot: u64, number: usize) -> Result<(), AllocError>
    ensures { OnOk result ((other : ℕ) → get nat_cmp fixed.new other
        ≡ option_or (get nat_cmp fixed.old other) (if slot == other then Some number else None)) }
{
    // The first module is kept; any other module that is fixed there is then refused as not allowed.
    if fixed.contains_key(&slot) {
        return Ok(());
    }
    fixed.insert(slot, number)?;
    Ok(())
}

/// Notes that a module is fixed in each of these slots in which none is noted yet.
fn fix(fixed: &mut BTreeMap<u64, usize>, slots: &[u64], number: usize) -> Result<(), AllocError>
    ensures { OnOk result ((slot : ℕ) → get nat_cmp fixed.new slot
        ≡ option_or (get nat_cmp fixed.old slot) (if is_in slot slots.now then Some number else None)) }
{
    for slot in slots {
        fix_in(fixed, *slot, number)?;
    }
    Ok(())
}

/// Notes the fixed slots of a reference, if the catalogue has its module.
fn fix_module(
    fixed: &mut BTreeMap<u64, usize>,
    numbers: &BTreeMap<String, usize>,
    reference: &ModuleReference,
) -> Result<(), AllocError>
    ensures { OnOk result ((slot : ℕ) → get nat_cmp fixed.new slot
        ≡ option_or (get nat_cmp fixed.old slot) (fixes (get_by_text numbers.now) slot reference.now)) }
{
    match numbers.get(reference.target.as_str()) {
        Some(number) => fix(fixed, reference.fixed_in.as_slice(), *number),
        None => Ok(()),
    }
}

/// The number of the module that is fixed in a slot, by the slot.
#[tactic(auto, using(crate::proofs::Steps::option_or_updated))]
fn fixed_of(
    alloc: Global,
    numbers: &BTreeMap<String, usize>,
    references: &[ModuleReference],
) -> Result<BTreeMap<u64, usize>, AllocError>
    ensures { IfOk result (λ found. (slot : ℕ) → get nat_cmp found slot ≡ fixer (get_by_text numbers.now) slot references.now) }
{
    let mut found = BTreeMap::new(alloc);
    for reference in references {
        fix_module(&mut found, numbers, reference)?;
    }
    Ok(found)
}

/// Adds the pairs of these slots and a module.
fn take(taken: &mut BTreeSet<(u64, usize)>, slots: &[u64], number: usize) -> Result<(), AllocError>
    ensures { OnOk result ((slot n : ℕ) → contains place_cmp taken.new (slot, n)
        ≡ (contains place_cmp taken.old (slot, n) || (number == n && is_in slot slots.now))) }
{
    for slot in slots {
        taken.insert((*slot, number))?;
    }
    Ok(())
}

/// Adds the pairs of a module and the slots into which it may be put or in which it is fixed.
fn take_both(
    taken: &mut BTreeSet<(u64, usize)>,
    reference: &ModuleReference,
    number: usize,
) -> Result<(), AllocError>
    ensures { OnOk result ((slot n : ℕ) → contains place_cmp taken.new (slot, n)
        ≡ (contains place_cmp taken.old (slot, n) || (number == n
        && (is_in slot reference.now.allowed_in || is_in slot reference.now.fixed_in)))) }
{
    take(taken, reference.allowed_in.as_slice(), number)?;
    take(taken, reference.fixed_in.as_slice(), number)
}

/// Adds the pairs of a reference, if the catalogue has its module.
fn take_module(
    taken: &mut BTreeSet<(u64, usize)>,
    numbers: &BTreeMap<String, usize>,
    reference: &ModuleReference,
) -> Result<(), AllocError>
    ensures { OnOk result ((slot n : ℕ) → contains place_cmp taken.new (slot, n)
        ≡ (contains place_cmp taken.old (slot, n) || takes_by (get_by_text numbers.now) slot n reference.now)) }
{
    match numbers.get(reference.target.as_str()) {
        Some(number) => take_both(taken, reference, *number),
        None => Ok(()),
    }
}

/// The pairs of a slot and the number of a module that may be put into it or is fixed in it.
#[tactic(auto, using(crate::proofs::Steps::or_or_updated))]
fn taken_of(
    alloc: Global,
    numbers: &BTreeMap<String, usize>,
    references: &[ModuleReference],
) -> Result<BTreeSet<(u64, usize)>, AllocError>
    ensures { IfOk result (λ found. (slot n : ℕ) → contains place_cmp found (slot, n)
        ≡ list_any (takes_by (get_by_text numbers.now) slot n) references.now) }
{
    let mut found = BTreeSet::new(alloc);
    for reference in references {
        take_module(&mut found, numbers, reference)?;
    }
    Ok(found)
}

impl Known {
    /// The maps and sets of a catalogue. `AllocError` if there was not enough memory.
    pub(crate) fn of(alloc: Global, catalogue: &Catalogue) -> Result<Known, AllocError>
        ensures { IfOk result (IsKnown catalogue.now) }
    {
        let point = &catalogue.access_point;
        let references = point.references.as_slice();
        let physical = physical_of(alloc, point.physical_slots.as_slice())?;
        let numbers = numbers_of(alloc, catalogue.modules.as_slice())?;
        let fixed = fixed_of(alloc, &numbers, references)?;
        let taken = taken_of(alloc, &numbers, references)?;
        Ok(Known {
            physical,
            numbers,
            fixed,
            taken,
        })
    }

    /// The number of the module with this ID. `None` if the catalogue does not have it.
    pub(crate) fn number(&self, id: &str) -> Option<usize>
        ensures { result ≡ number_in self.now id.now }
    {
        self.numbers.get(id).copied()
    }
}
