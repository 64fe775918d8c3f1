//! Reads values at the keys of a JSON object.
ghost use Rattle.std.specs.Prelude.{◌≡◌, ◌≤◌, ◌^◌, ◌<◌, ◌+◌, IfOk, string_bytes};
ghost use Rattle.wire.specs.Codec.{Gives};
ghost use Rattle.serde_json.specs.View.{view, items_view};
ghost use Rattle.catalogue.specs.keys.Reader.{Reads, member, items_of, flag_at, whole, whole_at, number, number_at, text_at};

use crate::keys::fault::{CatalogueFault, PlacedFault};
use crate::keys::key::Key;
use serde_json::Value;
use std::alloc::Global;

/// The value at a required key. The fault is `WrongKind` if `tree` is not an object, and `MissingKey` if the key is absent.
#[tactic(auto, unfolding(crate::specs::keys::Reader::member))]
pub fn member_at(tree: &Value, key: Key) -> Result<&Value, PlacedFault>
    ensures { Gives (λ value. view value.now) result (member key (view tree.now)) }
{
    if !tree.is_object() {
        return Err(PlacedFault::here(CatalogueFault::WrongKind));
    }
    match tree.get(key.name()) {
        Some(value) => Ok(value),
        None => Err(PlacedFault::at(key, CatalogueFault::MissingKey)),
    }
}

/// The list at a key. An empty list if the key is absent. The fault is `WrongKind` if `tree` is not an object or the value is not a list.
#[tactic(auto, unfolding(crate::specs::keys::Reader::items_of))]
pub fn items_at(tree: &Value, key: Key) -> Result<&[Value], PlacedFault>
    ensures { Gives (λ values. items_view values.now) result (items_of key (view tree.now)) }
{
    if !tree.is_object() {
        return Err(PlacedFault::here(CatalogueFault::WrongKind));
    }
    match tree.get(key.name()) {
        None => Ok(&[]),
        Some(value) => match value.as_array() {
            Some(values) => Ok(values.as_slice()),
            None => Err(PlacedFault::at(key, CatalogueFault::WrongKind)),
        },
    }
}

/// The Boolean at a key. `false` if the key is absent. The fault is `WrongKind` if `tree` is not an object or the value is not a Boolean.
#[tactic(auto, unfolding(crate::specs::keys::Reader::flag_at))]
pub fn flag_at(tree: &Value, key: Key) -> Result<bool, PlacedFault>
    ensures { Gives (λ flag. flag) result (flag_at key (view tree.now)) }
{
    if !tree.is_object() {
        return Err(PlacedFault::here(CatalogueFault::WrongKind));
    }
    match tree.get(key.name()) {
        None => Ok(false),
        Some(value) => match value.as_bool() {
            Some(flag) => Ok(flag),
            None => Err(PlacedFault::at(key, CatalogueFault::WrongKind)),
        },
    }
}

/// A whole number, 0 to 2^64 - 1. The fault is `WrongKind` if the value is not one.
#[tactic(auto, unfolding(crate::specs::keys::Reader::whole))]
pub fn whole(tree: &Value) -> Result<u64, CatalogueFault>
    ensures { Gives (λ n. n) result (whole (view tree.now)) }
{
    match tree.as_u64() {
        Some(number) => Ok(number),
        None => Err(CatalogueFault::WrongKind),
    }
}

/// The whole number at a required key.
#[tactic(auto, unfolding(crate::specs::keys::Reader::whole_at))]
pub fn whole_at(tree: &Value, key: Key) -> Result<u64, PlacedFault>
    ensures { Gives (λ n. n) result (whole_at key (view tree.now)) }
{
    let value = member_at(tree, key)?;
    match whole(value) {
        Ok(number) => Ok(number),
        Err(fault) => Err(PlacedFault::at(key, fault)),
    }
}

/// A whole number within a range. The fault is `Number` if it is outside.
#[tactic(auto, unfolding(crate::specs::keys::Reader::number))]
pub fn number_in(tree: &Value, least: u64, greatest: u64) -> Result<u64, CatalogueFault>
    ensures value { Gives (λ n. n) result (number least greatest (view tree.now)) }
    ensures within { IfOk result (λ n. n ≤ greatest) }
{
    let number = whole(tree)?;
    if least <= number && number <= greatest {
        Ok(number)
    } else {
        Err(CatalogueFault::Number)
    }
}

/// The whole number at a required key, within a range of 16 bits.
#[tactic(auto, unfolding(crate::specs::keys::Reader::number_at))]
pub fn word_at(tree: &Value, key: Key, least: u16, greatest: u16) -> Result<u16, PlacedFault>
    ensures { Gives (λ n. n) result (number_at key least greatest (view tree.now)) }
{
    let value = member_at(tree, key)?;
    match number_in(value, least as u64, greatest as u64) {
        Ok(number) => Ok(number as u16),
        Err(fault) => Err(PlacedFault::at(key, fault)),
    }
}

/// The whole number at a required key, within a range of 32 bits.
#[tactic(auto, unfolding(crate::specs::keys::Reader::number_at))]
pub fn long_at(tree: &Value, key: Key, least: u32, greatest: u32) -> Result<u32, PlacedFault>
    ensures { Gives (λ n. n) result (number_at key least greatest (view tree.now)) }
{
    let value = member_at(tree, key)?;
    match number_in(value, least as u64, greatest as u64) {
        Ok(number) => Ok(number as u32),
        Err(fault) => Err(PlacedFault::at(key, fault)),
    }
}

/// The text at a required key.
#[tactic(auto, unfolding(crate::specs::keys::Reader::text_at))]
pub fn text(tree: &Value, key: Key) -> Result<&str, PlacedFault>
    ensures { Gives (λ text. text.now) result (text_at key (view tree.now)) }
{
    let value = member_at(tree, key)?;
    match value.as_str() {
        Some(text) => Ok(text),
        None => Err(PlacedFault::at(key, CatalogueFault::WrongKind)),
    }
}

/// A copy of the text at a required key.
pub fn string(alloc: Global, tree: &Value, key: Key) -> Result<String, PlacedFault>
    ensures { Reads (λ text. string_bytes text) result (text_at key (view tree.now)) }
{
    match text(tree, key) {
        Ok(text) => {
            let owned = String::from_str(alloc, text)?;
            Ok(owned)
        }
        Err(found) => Err(found),
    }
}
