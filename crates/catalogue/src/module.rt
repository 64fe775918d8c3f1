//! The modules of a catalogue.
ghost use Rattle.std.specs.Prelude.{◌≡◌, ◌++◌, ℕ, not, cond, is_some, List, [], ◌∷◌, IfOk, IfSome, IfNone, OnOk, string_bytes};
ghost use Rattle.std.specs.BTreeMap.{get_by_text};
ghost use Rattle.std.specs.Str.{bytes_eq};
ghost use Rattle.serde_json.specs.View.{view, items_view};
ghost use Rattle.catalogue.specs.keys.Reader.{Reads, each, list_at};
ghost use Rattle.catalogue.specs.Modules.{Module, has_id, module_item, place_of, submodules_of};

use crate::SubmoduleTable;
use crate::keys::{CatalogueFault, Key, PlacedFault, Step, items_at, long_at, string};
use crate::submodules::submodules_at;
use serde_json::Value;
use std::alloc::{AllocError, Global};
use std::collections::BTreeMap;
use std::marker::Model;

/// A module that can be put into a slot.
#[derive(Drop)]
pub struct ModuleItem {
    /// The ID by which slots and references name the module.
    pub id: String,
    pub ident: u32,
    pub submodules: SubmoduleTable,
}

impl Model for ModuleItem {
    ghost Value = { Module };

    ghost view = { λ item. record { id = string_bytes item.id; ident = item.ident; submodules = item.submodules } };
}

/// The modules of a catalogue, in the order of the text, and the place of each by its ID.
#[derive(Drop)]
pub(crate) struct ModuleTable {
    items: Vec<ModuleItem>,
    places: BTreeMap<String, usize>,
}

impl Model for ModuleTable {
    ghost use Rattle.std.specs.Prelude.{◌≡◌, ℕ, List};
    ghost use Rattle.std.specs.BTreeMap.{get_by_text};
    ghost use Rattle.catalogue.specs.Modules.{Module, place_of};

    ghost Value = { List Module };

    ghost view = { λ table. table.items.items };

    ghost invariant = { λ table. (id : List ℕ) → get_by_text table.places id ≡ place_of id table.items.items };
}

impl ModuleTable {
    /// The submodules of the module with this ID. `None` if no module has it.
    pub(crate) fn submodules(&self, id: &str) -> Option<&SubmoduleTable>
        ensures some { IfSome result (λ found. found.now ≡ submodules_of id.now self.now) }
        ensures none { IfNone result (submodules_of id.now self.now ≡ []) }
    {
        let place = self.places.get(id).copied();
        submodules_in(self.items.as_slice(), place)
    }

    /// The modules, in the order of the text.
    pub(crate) fn into_items(self) -> Vec<ModuleItem>
        ensures { result.items ≡ self }
    {
        self.items
    }
}

/// The submodules of the module at a place. `None` if there is no module at it.
#[tactic(auto, using(crate::proofs::Places::at_place, crate::proofs::Places::module_there, crate::proofs::Places::no_place))]
fn submodules_in(modules: &[ModuleItem], place: Option<usize>) -> Option<&SubmoduleTable>
    ensures some { (id : List ℕ) → place ≡ place_of id modules.now → IfSome result (λ found. found.now ≡ submodules_of id modules.now) }
    ensures none { (id : List ℕ) → place ≡ place_of id modules.now → IfNone result (submodules_of id modules.now ≡ []) }
{
    match place {
        Some(place) => {
            if place < modules.len() {
                let module = &modules[place];
                Some(&module.submodules)
            } else {
                None
            }
        }
        None => None,
    }
}

/// Whether the map has no place for an ID.
fn has_no_place(places: &BTreeMap<String, usize>, id: &str) -> bool
    ensures { result ≡ not (is_some (get_by_text places.now id.now)) }
{
    places.get(id).is_none()
}

/// Whether none of the modules has an ID. `places` has the place of each of them.
fn is_new(places: &BTreeMap<String, usize>, before: &[ModuleItem], id: &str) -> bool
    requires { (other : List ℕ) → get_by_text places.now other ≡ place_of other before.now }
    ensures { result ≡ not (has_id id.now before.now) }
{
    has_no_place(places, id)
}

/// Sets the place of the module with an ID.
fn put_place(
    alloc: Global,
    places: &mut BTreeMap<String, usize>,
    id: &str,
    place: usize,
) -> Result<(), AllocError>
    ensures { OnOk result ((other : List ℕ) → get_by_text places.new other
        ≡ cond (bytes_eq id.now other) (Some place) (get_by_text places.old other)) }
{
    let key = String::from_str(alloc, id)?;
    places.insert(key, place)?;
    Ok(())
}

/// Reads a module from a JSON value, given the modules before it and their places. An ID that one of them has is the fault `Number`. Adds
/// the module's place.
#[tactic(auto, unfolding(crate::specs::Modules::module_item))]
fn module_of(
    alloc: Global,
    places: &mut BTreeMap<String, usize>,
    before: &[ModuleItem],
    tree: &Value,
) -> Result<ModuleItem, PlacedFault>
    requires { (id : List ℕ) → get_by_text places.old id ≡ place_of id before.now }
    ensures read { Reads (λ found. found) result (module_item before.now (view tree.now)) }
    ensures places { IfOk result (λ found. (id : List ℕ) → get_by_text places.new id ≡ place_of id (before.now ++ found ∷ [])) }
{
    let id = string(alloc, tree, Key::Id)?;
    let is_new = is_new(places, before, id.as_str());
    if !is_new {
        return Err(PlacedFault::at(Key::Id, CatalogueFault::Number));
    }
    put_place(alloc, places, id.as_str(), before.len())?;
    let ident = long_at(tree, Key::ModuleIdentNumber, 1, 0xFFFF_FFFF)?;
    let submodules = submodules_at(alloc, tree, Key::VirtualSubmoduleItem)?;
    Ok(ModuleItem {
        id,
        ident,
        submodules,
    })
}

/// Reads a module from each of these JSON values.
fn modules_of(alloc: Global, trees: &[Value]) -> Result<ModuleTable, PlacedFault>
    ensures { Reads (λ found. found) result (each module_item [] (items_view trees.now)) }
{
    let mut places = BTreeMap::new(alloc);
    let mut found = Vec::new(alloc);
    for tree in trees {
        match module_of(alloc, &mut places, found.as_slice(), tree) {
            Ok(module) => found.push(module)?,
            Err(fault) => return Err(fault.further(Step::Entry(found.len()))),
        }
    }
    Ok(ModuleTable {
        items: found,
        places,
    })
}

/// Reads the modules at a key. An empty table if the key is absent.
#[tactic(auto, unfolding(crate::specs::keys::Reader::list_at))]
pub(crate) fn modules_at(alloc: Global, tree: &Value, key: Key) -> Result<ModuleTable, PlacedFault>
    ensures { Reads (λ found. found) result (list_at key module_item (view tree.now)) }
{
    let trees = items_at(tree, key)?;
    match modules_of(alloc, trees) {
        Ok(found) => Ok(found),
        Err(found) => Err(found.further(Step::At(key))),
    }
}
