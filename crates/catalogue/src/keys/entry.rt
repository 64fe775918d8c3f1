//! Lists of values. Whether an entry is valid may depend on the entries before it.
ghost use Rattle.std.specs.Prelude.{◌≡◌, List, [], Result};
ghost use Rattle.serde_json.specs.Data.{Data};
ghost use Rattle.serde_json.specs.View.{view, items_view};
ghost use Rattle.catalogue.specs.declared.keys.fault.PlacedFault.{PlacedFault};
ghost use Rattle.catalogue.specs.keys.Reader.{Reads, each, list_at};

use crate::keys::fault::{PlacedFault, Step};
use crate::keys::key::Key;
use crate::keys::tree::items_at;
use serde_json::Value;
use std::alloc::Global;

/// An entry of a list, read in a context.
pub trait Entry<C>: Drop {
    /// The entry that is read from a JSON value, or its fault, given the context and the entries before it.
    ghost reader: { C → List Self → Data → Result Self PlacedFault };

    /// Reads an entry from a JSON value. `before` has the entries before it.
    fn read(alloc: Global, context: &C, before: &[Self], tree: &Value) -> Result<Self, PlacedFault>
        ensures { Reads (λ entry. entry) result (reader context.now before.now (view tree.now)) };
}

/// Reads an entry from each of these JSON values. Returns the first fault, with the number of its entry in its place.
pub fn each_of<C, E: Entry<C>>(
    alloc: Global,
    context: &C,
    trees: &[Value],
) -> Result<Vec<E>, PlacedFault>
    ensures { Reads (λ found. found.items) result (each (E.reader context.now) [] (items_view trees.now)) }
{
    let mut found = Vec::new(alloc);
    for tree in trees {
        match E::read(alloc, context, found.as_slice(), tree) {
            Ok(entry) => found.push(entry)?,
            Err(fault) => return Err(fault.further(Step::Entry(found.len()))),
        }
    }
    Ok(found)
}

/// Reads the entries of the list at a key. An empty list if the key is absent.
#[tactic(auto, unfolding(crate::specs::keys::Reader::list_at))]
pub fn list<C, E: Entry<C>>(
    alloc: Global,
    context: &C,
    tree: &Value,
    key: Key,
) -> Result<Vec<E>, PlacedFault>
    ensures { Reads (λ found. found.items) result (list_at key (E.reader context.now) (view tree.now)) }
{
    let trees = items_at(tree, key)?;
    match each_of(alloc, context, trees) {
        Ok(found) => Ok(found),
        Err(fault) => Err(fault.further(Step::At(key))),
    }
}
