//! The modules that a project puts into slots, and the records that are written to them.
ghost use Rattle.std.specs.Prelude.{◌≡◌, List, [], string_bytes};
ghost use Rattle.serde_json.specs.View.{view, items_view};
ghost use Rattle.hex.specs.Hex.{decode_of};
ghost use Rattle.catalogue.specs.keys.Placed.{placed};
ghost use Rattle.catalogue.specs.keys.Reader.{Reads, each};
ghost use Rattle.catalogue.specs.Submodules.{Submodule};
ghost use Rattle.catalogue.specs.Modules.{submodules_of};
ghost use Rattle.catalogue.specs.Slots.{Record, Slot, record_item, slot_item, records_of, hex_or_fault, octets_at};

use crate::SubmoduleTable;
use crate::keys::{
    CatalogueFault, Entry, Key, PlacedFault, Step, each_of, items_at, string, text, whole_at,
    word_at,
};
use crate::module::ModuleTable;
use hex::FromHexError;
use serde_json::Value;
use std::alloc::Global;
use std::marker::Model;

/// A parameter record and the octets that are written to it.
#[derive(Drop)]
pub struct RecordItem {
    pub subslot: u16,
    pub index: u16,
    pub octets: Vec<u8>,
}

impl Model for RecordItem {
    ghost Value = { Record };

    ghost view = { λ item. record { subslot = item.subslot; index = item.index; octets = item.octets.items } };
}

/// A slot, the module in it, and the records that are written to that.
#[derive(Drop)]
pub struct SlotItem {
    pub slot: u64,
    /// The module's ID.
    pub target: String,
    pub records: Vec<RecordItem>,
}

impl Model for SlotItem {
    ghost Value = { Slot };

    ghost view = { λ item. record { slot = item.slot; target = string_bytes item.target; records = item.records.items } };
}

/// The octets of a text in hex. The fault is `WrongKind`, at this key, if it is not hex.
fn decoded(alloc: Global, text: &str, key: Key) -> Result<Vec<u8>, PlacedFault>
    ensures { Reads (λ octets. octets.items) result (placed key (hex_or_fault (decode_of text.now))) }
{
    match hex::decode(alloc, text) {
        Ok(octets) => Ok(octets),
        Err(FromHexError::OutOfMemory) => Err(PlacedFault::here(CatalogueFault::OutOfMemory)),
        Err(_) => Err(PlacedFault::at(key, CatalogueFault::WrongKind)),
    }
}

/// The octets of the text in hex at a key.
#[tactic(auto, unfolding(crate::specs::Slots::octets_at))]
fn octets_at(alloc: Global, tree: &Value, key: Key) -> Result<Vec<u8>, PlacedFault>
    ensures { Reads (λ octets. octets.items) result (octets_at key (view tree.now)) }
{
    match text(tree, key) {
        Ok(text) => decoded(alloc, text, key),
        Err(found) => Err(found),
    }
}

impl Entry<SubmoduleTable> for RecordItem {
    ghost reader = { λ submodules _ tree. record_item submodules tree };

    #[tactic(auto, unfolding(crate::specs::Slots::record_item))]
    fn read(
        alloc: Global,
        context: &SubmoduleTable,
        _before: &[RecordItem],
        tree: &Value,
    ) -> Result<RecordItem, PlacedFault> {
        let subslot = word_at(tree, Key::Subslot, 1, 36_863)?;
        let parameters = match context.parameters(subslot) {
            Some(parameters) => parameters,
            None => return Err(PlacedFault::at(Key::Subslot, CatalogueFault::Number)),
        };
        let index = word_at(tree, Key::Index, 0, 32_767)?;
        let length = match parameters.length(index) {
            Some(length) => length,
            None => return Err(PlacedFault::at(Key::Index, CatalogueFault::Number)),
        };
        let octets = octets_at(alloc, tree, Key::Data)?;
        if octets.len() != length as usize {
            return Err(PlacedFault::at(Key::Data, CatalogueFault::Number));
        }
        Ok(RecordItem {
            subslot,
            index,
            octets,
        })
    }
}

/// Reads a record from each of these JSON values. The module with this ID must take them.
fn records_in(
    alloc: Global,
    trees: &[Value],
    modules: &ModuleTable,
    target: &str,
) -> Result<Vec<RecordItem>, PlacedFault>
    ensures { Reads (λ records. records.items) result
        (each (λ _ entry. record_item (submodules_of target.now modules.now) entry) [] (items_view trees.now)) }
{
    match modules.submodules(target) {
        Some(submodules) => each_of(alloc, submodules, trees),
        None => {
            let none = SubmoduleTable::new(alloc);
            each_of(alloc, &none, trees)
        }
    }
}

/// Reads the records of a slot in which the module with this ID is. An ID that no module has is a fault only if there are records.
#[tactic(auto, unfolding(crate::specs::keys::Reader::list_at))]
fn records_of(
    alloc: Global,
    tree: &Value,
    modules: &ModuleTable,
    target: &str,
) -> Result<Vec<RecordItem>, PlacedFault>
    ensures { Reads (λ records. records.items) result (records_of modules.now target.now (view tree.now)) }
{
    let trees = items_at(tree, Key::Records)?;
    if trees.is_empty() {
        return Ok(Vec::new(alloc));
    }
    match records_in(alloc, trees, modules, target) {
        Ok(records) => Ok(records),
        Err(found) => Err(found.further(Step::At(Key::Records))),
    }
}

impl Entry<ModuleTable> for SlotItem {
    ghost reader = { λ modules _ tree. slot_item modules tree };

    #[tactic(auto, unfolding(crate::specs::Slots::slot_item))]
    fn read(
        alloc: Global,
        context: &ModuleTable,
        _before: &[SlotItem],
        tree: &Value,
    ) -> Result<SlotItem, PlacedFault> {
        let slot = whole_at(tree, Key::Slot)?;
        let target = string(alloc, tree, Key::ModuleItemTarget)?;
        let records = records_of(alloc, tree, context, target.as_str())?;
        Ok(SlotItem {
            slot,
            target,
            records,
        })
    }
}
