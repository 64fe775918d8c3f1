//! Lists of numbers.
ghost use Rattle.serde_json.specs.View.{view};
ghost use Rattle.catalogue.specs.keys.Placed.{bare};
ghost use Rattle.catalogue.specs.keys.Reader.{Reads, number, whole};

use crate::keys::entry::Entry;
use crate::keys::fault::PlacedFault;
use crate::keys::tree::{number_in, whole};
use serde_json::Value;
use std::alloc::Global;

/// A slot number, 0 to 32,767.
impl Entry<()> for u16 {
    ghost reader = { λ _ _ tree. bare (number 0 32767 tree) };

    fn read(
        _alloc: Global,
        _context: &(),
        _before: &[u16],
        tree: &Value,
    ) -> Result<u16, PlacedFault> {
        match number_in(tree, 0, 32_767) {
            Ok(slot) => Ok(slot as u16),
            Err(fault) => Err(PlacedFault::here(fault)),
        }
    }
}

/// A whole number.
impl Entry<()> for u64 {
    ghost reader = { λ _ _ tree. bare (whole tree) };

    fn read(
        _alloc: Global,
        _context: &(),
        _before: &[u64],
        tree: &Value,
    ) -> Result<u64, PlacedFault> {
        match whole(tree) {
            Ok(slot) => Ok(slot),
            Err(fault) => Err(PlacedFault::here(fault)),
        }
    }
}
