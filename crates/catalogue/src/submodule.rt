//! A submodule of the catalogue: its cyclic data and its parameter records.
ghost use Rattle.std.specs.Prelude.{◌≡◌, List, Some, None, ℕ};
ghost use Rattle.wire.specs.Codec.{Gives};
ghost use Rattle.serde_json.specs.View.{view, items_view};
ghost use Rattle.catalogue.specs.Submodules.{Submodule, is_octet_type, is_word_type, is_long_type, size_of_type, item_of_type, data_item, octets_in};
ghost use Rattle.catalogue.specs.Submodules.{octets_at, io_in, io_of};

use crate::ParameterTable;
use crate::keys::{CatalogueFault, Key, PlacedFault, Step, items_at, text, word_at};
use serde_json::Value;
use std::marker::Model;

/// A parameter record that a submodule takes.
#[derive(Clone, Copy, Drop)]
pub struct ParameterItem {
    pub index: u16,
    /// In octets, 1 to 64.
    pub length: u16,
}

/// A submodule that is fixed in its module.
#[derive(Drop)]
pub struct SubmoduleItem {
    pub subslot: u16,
    pub ident: u32,
    /// Octets of input data: 65,535 if there are more.
    pub input: u16,
    /// Octets of output data: 65,535 if there are more.
    pub output: u16,
    pub parameters: ParameterTable,
}

impl Model for SubmoduleItem {
    ghost Value = { Submodule };

    ghost view = { λ item. record {
      subslot = item.subslot;
      ident = item.ident;
      input = item.input;
      output = item.output;
      parameters = item.parameters;
    } };
}

/// Whether a data type has one octet.
#[tactic(auto, unfolding(crate::specs::Submodules::is_octet_type))]
fn is_octet_type(name: &str) -> bool
    ensures { result ≡ is_octet_type name.now }
{
    name == "Unsigned8" || name == "Integer8"
}

/// Whether a data type has two octets.
#[tactic(auto, unfolding(crate::specs::Submodules::is_word_type))]
fn is_word_type(name: &str) -> bool
    ensures { result ≡ is_word_type name.now }
{
    name == "Unsigned16" || name == "Integer16"
}

/// Whether a data type has four octets.
#[tactic(auto, unfolding(crate::specs::Submodules::is_long_type))]
fn is_long_type(name: &str) -> bool
    ensures { result ≡ is_long_type name.now }
{
    name == "Unsigned32" || name == "Integer32" || name == "Float32"
}

/// The octets of a data type that has a fixed length. `None` for any other name.
fn size_of_type(name: &str) -> Option<u16>
    ensures { result ≡ size_of_type name.now }
{
    if is_octet_type(name) {
        return Some(1);
    }
    if is_word_type(name) {
        return Some(2);
    }
    if is_long_type(name) {
        return Some(4);
    }
    None
}

/// The octets of a data item of this type. An `OctetString` has its own `Length`.
fn item_of_type(tree: &Value, name: &str) -> Result<u16, PlacedFault>
    ensures { Gives (λ octets. octets) result (item_of_type (view tree.now) name.now) }
{
    if name == "OctetString" {
        return word_at(tree, Key::Length, 1, 1440);
    }
    match size_of_type(name) {
        Some(octets) => Ok(octets),
        None => Err(PlacedFault::at(Key::DataType, CatalogueFault::WrongKind)),
    }
}

/// The octets of one data item.
#[tactic(auto, unfolding(crate::specs::Submodules::data_item))]
fn data_item(tree: &Value) -> Result<u16, PlacedFault>
    ensures { Gives (λ octets. octets) result (data_item (view tree.now)) }
{
    match text(tree, Key::DataType) {
        Ok(name) => item_of_type(tree, name),
        Err(found) => Err(found),
    }
}

/// The sum of the octets of data items: 65,535 if it is greater.
fn octets_of(trees: &[Value]) -> Result<u16, PlacedFault>
    ensures { Gives (λ octets. octets) result (octets_in 0 0 (items_view trees.now)) }
{
    let mut octets = 0u16;
    for index in 0..trees.len() {
        match data_item(&trees[index]) {
            Ok(more) => octets = octets.saturating_add(more),
            Err(found) => return Err(found.further(Step::Entry(index))),
        }
    }
    Ok(octets)
}

/// The sum of the octets of the data items at a key. 0 if the key is absent.
#[tactic(auto, unfolding(crate::specs::Submodules::octets_at))]
fn octets_at(tree: &Value, key: Key) -> Result<u16, PlacedFault>
    ensures { Gives (λ octets. octets) result (octets_at key (view tree.now)) }
{
    let trees = items_at(tree, key)?;
    match octets_of(trees) {
        Ok(octets) => Ok(octets),
        Err(found) => Err(found.further(Step::At(key))),
    }
}

/// The octets of input and of output, from the object at `IOData`.
#[tactic(auto, unfolding(crate::specs::Submodules::io_in))]
fn io_in(tree: &Value) -> Result<(u16, u16), PlacedFault>
    ensures { Gives (λ io. io) result (io_in (view tree.now)) }
{
    let input = octets_at(tree, Key::Input)?;
    let output = octets_at(tree, Key::Output)?;
    Ok((input, output))
}

/// The octets of input and of output of a submodule. Both are 0 if it has no `IOData`.
#[tactic(auto, unfolding(crate::specs::Submodules::io_of))]
pub(crate) fn io_at(tree: &Value) -> Result<(u16, u16), PlacedFault>
    ensures { Gives (λ io. io) result (io_of (view tree.now)) }
{
    match tree.get(Key::IoData.name()) {
        None => Ok((0, 0)),
        Some(io) => match io_in(io) {
            Ok(octets) => Ok(octets),
            Err(found) => Err(found.further(Step::At(Key::IoData))),
        },
    }
}
