//! The parameter records of a submodule.
ghost use Rattle.std.specs.Prelude.{◌≡◌, ◌==◌, ◌++◌, ℕ, [], ◌∷◌, Some, cond, IfOk, OnOk};
ghost use Rattle.std.specs.Ordering.{nat_cmp};
ghost use Rattle.std.specs.BTreeMap.{get};
ghost use Rattle.serde_json.specs.View.{view, items_view};
ghost use Rattle.catalogue.specs.keys.Reader.{Reads, each, list_at};
ghost use Rattle.catalogue.specs.Submodules.{has_index, parameter};
ghost use Rattle.catalogue.specs.Slots.{length_of};

use crate::ParameterItem;
use crate::keys::{CatalogueFault, Key, PlacedFault, Step, items_at, word_at};
use serde_json::Value;
use std::alloc::{AllocError, Global};
use std::collections::BTreeMap;
use std::marker::Model;

/// The parameter records of a submodule, in the order of the text, and the length of each by its index.
#[derive(Drop)]
pub struct ParameterTable {
    items: Vec<ParameterItem>,
    /// In octets.
    lengths: BTreeMap<u16, u16>,
}

impl Model for ParameterTable {
    ghost use Rattle.std.specs.Prelude.{◌≡◌, ℕ, List};
    ghost use Rattle.std.specs.Ordering.{nat_cmp};
    ghost use Rattle.std.specs.BTreeMap.{get};
    ghost use Rattle.catalogue.specs.declared.submodule.ParameterItem.{ParameterItem};
    ghost use Rattle.catalogue.specs.Slots.{length_of};

    ghost Value = { List ParameterItem };

    ghost view = { λ table. table.items.items };

    ghost invariant = { λ table. (index : ℕ) → get nat_cmp table.lengths index ≡ length_of index table.items.items };
}

impl ParameterTable {
    /// The parameter records, in the order of the text.
    pub fn as_slice(&self) -> &[ParameterItem]
        ensures { result.now ≡ self.now }
    {
        self.items.as_slice()
    }

    /// The length in octets of the parameter record with this index. `None` if no record has it.
    pub(crate) fn length(&self, index: u16) -> Option<u16>
        ensures { result ≡ length_of index self.now }
    {
        self.lengths.get(&index).copied()
    }
}

/// Whether one of the parameter records has an index. `lengths` has the length of each of them.
fn has_index(lengths: &BTreeMap<u16, u16>, before: &[ParameterItem], index: u16) -> bool
    requires { (other : ℕ) → get nat_cmp lengths.now other ≡ length_of other before.now }
    ensures { result ≡ has_index index before.now }
{
    lengths.contains_key(&index)
}

/// Sets the length in octets of the parameter record with an index.
#[tactic(auto, using(crate::proofs::Places::put_at))]
fn put_length(lengths: &mut BTreeMap<u16, u16>, index: u16, length: u16) -> Result<(), AllocError>
    ensures { OnOk result ((other : ℕ) → get nat_cmp lengths.new other
        ≡ cond (index == other) (Some length) (get nat_cmp lengths.old other)) }
{
    lengths.insert(index, length)?;
    Ok(())
}

/// Reads a parameter record from a JSON value, given the records before it and their lengths. An index that one of them has is the fault
/// `Number`. Adds the record's length.
#[tactic(auto, unfolding(crate::specs::Submodules::parameter))]
fn parameter_of(
    lengths: &mut BTreeMap<u16, u16>,
    before: &[ParameterItem],
    tree: &Value,
) -> Result<ParameterItem, PlacedFault>
    requires { (index : ℕ) → get nat_cmp lengths.old index ≡ length_of index before.now }
    ensures read { Reads (λ found. found) result (parameter before.now (view tree.now)) }
    ensures lengths { IfOk result (λ found. (index : ℕ) → get nat_cmp lengths.new index ≡ length_of index (before.now ++ found ∷ [])) }
{
    let index = word_at(tree, Key::Index, 0, 32_767)?;
    let repeats = has_index(lengths, before, index);
    if repeats {
        return Err(PlacedFault::at(Key::Index, CatalogueFault::Number));
    }
    let length = word_at(tree, Key::Length, 1, 64)?;
    put_length(lengths, index, length)?;
    Ok(ParameterItem { index, length })
}

/// Reads a parameter record from each of these JSON values.
fn parameters_of(alloc: Global, trees: &[Value]) -> Result<ParameterTable, PlacedFault>
    ensures { Reads (λ found. found) result (each parameter [] (items_view trees.now)) }
{
    let mut lengths = BTreeMap::new(alloc);
    let mut found = Vec::new(alloc);
    for tree in trees {
        match parameter_of(&mut lengths, found.as_slice(), tree) {
            Ok(item) => found.push(item)?,
            Err(fault) => return Err(fault.further(Step::Entry(found.len()))),
        }
    }
    Ok(ParameterTable {
        items: found,
        lengths,
    })
}

/// Reads the parameter records at a key. An empty table if the key is absent.
#[tactic(auto, unfolding(crate::specs::keys::Reader::list_at))]
pub(crate) fn parameters_at(
    alloc: Global,
    tree: &Value,
    key: Key,
) -> Result<ParameterTable, PlacedFault>
    ensures { Reads (λ found. found) result (list_at key parameter (view tree.now)) }
{
    let trees = items_at(tree, key)?;
    match parameters_of(alloc, trees) {
        Ok(found) => Ok(found),
        Err(found) => Err(found.further(Step::At(key))),
    }
}
