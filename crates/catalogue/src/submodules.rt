//! The submodules of a module.
ghost use Rattle.std.specs.Prelude.{◌≡◌, ◌==◌, ◌++◌, ℕ, [], ◌∷◌, Some, None, cond, IfOk, OnOk, option_map};
ghost use Rattle.std.specs.Ordering.{nat_cmp};
ghost use Rattle.std.specs.BTreeMap.{get};
ghost use Rattle.serde_json.specs.View.{view, items_view};
ghost use Rattle.catalogue.specs.keys.Reader.{Reads, each, list_at};
ghost use Rattle.catalogue.specs.Submodules.{has_subslot, place_of, submodule};
ghost use Rattle.catalogue.specs.Slots.{parameters_of};

use crate::keys::{CatalogueFault, Key, PlacedFault, Step, items_at, long_at, word_at};
use crate::parameters::parameters_at;
use crate::submodule::io_at;
use crate::{ParameterTable, SubmoduleItem};
use serde_json::Value;
use std::alloc::{AllocError, Global};
use std::collections::BTreeMap;
use std::marker::Model;

/// The submodules of a module, in the order of the text, and the place of each by its subslot.
#[derive(Drop)]
pub struct SubmoduleTable {
    items: Vec<SubmoduleItem>,
    /// Counted from 0.
    places: BTreeMap<u16, usize>,
}

impl Model for SubmoduleTable {
    ghost use Rattle.std.specs.Prelude.{◌≡◌, ℕ, List};
    ghost use Rattle.std.specs.Ordering.{nat_cmp};
    ghost use Rattle.std.specs.BTreeMap.{get};
    ghost use Rattle.catalogue.specs.Submodules.{Submodule, place_of};

    ghost Value = { List Submodule };

    ghost view = { λ table. table.items.items };

    ghost invariant = { λ table. (subslot : ℕ) → get nat_cmp table.places subslot ≡ place_of subslot table.items.items };
}

impl SubmoduleTable {
    /// The table of a module without submodules.
    pub(crate) fn new(alloc: Global) -> SubmoduleTable
        ensures { result ≡ [] }
    {
        SubmoduleTable {
            items: Vec::new(alloc),
            places: BTreeMap::new(alloc),
        }
    }

    /// The submodules, in the order of the text.
    pub fn as_slice(&self) -> &[SubmoduleItem]
        ensures { result.now ≡ self.now }
    {
        self.items.as_slice()
    }

    /// The parameter records of the submodule with this subslot. `None` if no submodule has it.
    pub(crate) fn parameters(&self, subslot: u16) -> Option<&ParameterTable>
        ensures { option_map (λ parameters. parameters.now) result ≡ parameters_of subslot self.now }
    {
        let place = self.places.get(&subslot).copied();
        parameters_in(self.items.as_slice(), place)
    }
}

/// The parameter records of the submodule at a place. `None` if there is no submodule at it.
#[tactic(auto, using(crate::proofs::Places::part_there, crate::proofs::Places::part_at, crate::proofs::Places::no_part))]
fn parameters_in(submodules: &[SubmoduleItem], place: Option<usize>) -> Option<&ParameterTable>
    ensures { (subslot : ℕ) → place ≡ place_of subslot submodules.now → option_map (λ parameters. parameters.now) result ≡ parameters_of subslot submodules.now }
{
    match place {
        Some(place) => {
            if place < submodules.len() {
                let submodule = &submodules[place];
                Some(&submodule.parameters)
            } else {
                None
            }
        }
        None => None,
    }
}

/// Whether one of the submodules has a subslot. `places` has the place of each of them.
fn has_subslot(places: &BTreeMap<u16, usize>, before: &[SubmoduleItem], subslot: u16) -> bool
    requires { (other : ℕ) → get nat_cmp places.now other ≡ place_of other before.now }
    ensures { result ≡ has_subslot subslot before.now }
{
    places.contains_key(&subslot)
}

/// Sets the place of the submodule with a subslot.
#[tactic(auto, using(crate::proofs::Places::put_at))]
fn put_place(
    places: &mut BTreeMap<u16, usize>,
    subslot: u16,
    place: usize,
) -> Result<(), AllocError>
    ensures { OnOk result ((other : ℕ) → get nat_cmp places.new other
        ≡ cond (subslot == other) (Some place) (get nat_cmp places.old other)) }
{
    places.insert(subslot, place)?;
    Ok(())
}

/// Reads a submodule from a JSON value, given the submodules before it and their places. A subslot that one of them has is the fault
/// `Number`. Adds the submodule's place.
#[tactic(auto, unfolding(crate::specs::Submodules::submodule))]
fn submodule_of(
    alloc: Global,
    places: &mut BTreeMap<u16, usize>,
    before: &[SubmoduleItem],
    tree: &Value,
) -> Result<SubmoduleItem, PlacedFault>
    requires { (subslot : ℕ) → get nat_cmp places.old subslot ≡ place_of subslot before.now }
    ensures read { Reads (λ found. found) result (submodule before.now (view tree.now)) }
    ensures places { IfOk result (λ found. (subslot : ℕ) → get nat_cmp places.new subslot ≡ place_of subslot (before.now ++ found ∷ [])) }
{
    let subslot = word_at(tree, Key::Subslot, 1, 36_863)?;
    let repeats = has_subslot(places, before, subslot);
    if repeats {
        return Err(PlacedFault::at(Key::Subslot, CatalogueFault::Number));
    }
    put_place(places, subslot, before.len())?;
    let ident = long_at(tree, Key::SubmoduleIdentNumber, 0, 0xFFFF_FFFF)?;
    let (input, output) = io_at(tree)?;
    let parameters = parameters_at(alloc, tree, Key::ParameterRecordDataItem)?;
    Ok(SubmoduleItem {
        subslot,
        ident,
        input,
        output,
        parameters,
    })
}

/// Reads a submodule from each of these JSON values.
fn submodules_of(alloc: Global, trees: &[Value]) -> Result<SubmoduleTable, PlacedFault>
    ensures { Reads (λ found. found) result (each submodule [] (items_view trees.now)) }
{
    let mut places = BTreeMap::new(alloc);
    let mut found = Vec::new(alloc);
    for tree in trees {
        match submodule_of(alloc, &mut places, found.as_slice(), tree) {
            Ok(item) => found.push(item)?,
            Err(fault) => return Err(fault.further(Step::Entry(found.len()))),
        }
    }
    Ok(SubmoduleTable {
        items: found,
        places,
    })
}

/// Reads the submodules at a key. An empty table if the key is absent.
#[tactic(auto, unfolding(crate::specs::keys::Reader::list_at))]
pub(crate) fn submodules_at(
    alloc: Global,
    tree: &Value,
    key: Key,
) -> Result<SubmoduleTable, PlacedFault>
    ensures { Reads (λ found. found) result (list_at key submodule (view tree.now)) }
{
    let trees = items_at(tree, key)?;
    match submodules_of(alloc, trees) {
        Ok(found) => Ok(found),
        Err(found) => Err(found.further(Step::At(key))),
    }
}
