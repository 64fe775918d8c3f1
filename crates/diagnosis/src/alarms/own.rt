//! The submodules of a relation.
ghost use Rattle.std.specs.Prelude.{◌≡◌, ◌+◌, ◌≤◌, ◌++◌, [], drop, length, take};
ghost use Rattle.arrayvec.specs.ArrayVec.{array_vec_len};
ghost use Rattle.module_diff.specs.Diff.{wanted_in};
ghost use Rattle.diagnosis.specs.alarms.Own.{is_own, places_in, places_of};

use crate::places::Places;
use arrayvec::ArrayVec;
use connect_blocks::ExpectedSubmodule;
use module_diff::{DiffRows, Expected};
use std::marker::Model;

/// A submodule of a relation.
#[derive(Clone, Copy, Default)]
pub struct Place {
    /// SlotNumber.
    pub slot: u16,
    /// SubslotNumber.
    pub subslot: u16,
}

/// The submodules of a relation: those that its Connect expects and that its ModuleDiffBlock does not list.
#[derive(Drop)]
pub struct Own {
    entries: ArrayVec<Place, 64>,
}

// Its model: the list.
impl Model for Own {
    ghost use Rattle.std.specs.Prelude.{List};
    ghost use Rattle.diagnosis.specs.declared.alarms.own.Place.{Place};

    ghost Value = { List Place };

    ghost view = { λ own. own.entries.items };
}

/// Splits off the first `count` submodules, or all if there are fewer. Returns these and the rest.
fn split_own(
    submodules: &[ExpectedSubmodule],
    count: u16,
) -> (&[ExpectedSubmodule], &[ExpectedSubmodule])
    ensures own { result.0.now ≡ take count submodules.now }
    ensures behind { result.1.now ≡ drop count submodules.now }
    ensures sizes { length result.0.now + length result.1.now ≡ length submodules.now }
{
    submodules.split_at(submodules.len().min(count as usize))
}

/// Appends the submodules of a slot that are not listed. There must be room.
fn push_own(
    entries: &mut ArrayVec<Place, 64>,
    rows: &DiffRows,
    slot: u16,
    parts: &[ExpectedSubmodule],
)
    requires room { array_vec_len entries.old + length parts.now ≤ 64 }
    ensures items { entries.new.items ≡ entries.old.items ++ places_in rows.now slot parts.now }
    ensures few { array_vec_len entries.new ≤ array_vec_len entries.old + length parts.now }
{
    for part in parts {
        if !rows.is_listed(slot, part.subslot_number) {
            entries.push(Place {
                slot,
                subslot: part.subslot_number,
            });
        }
    }
}

impl Own {
    /// No change was reported yet.
    pub fn new() -> Own
        ensures { result ≡ [] }
    {
        Own {
            entries: ArrayVec::new(),
        }
    }

    /// Replaces them by the submodules that are expected and not listed.
    pub fn fill(&mut self, expected: &Expected, rows: &DiffRows)
        ensures { self.new ≡ places_of rows.now (wanted_in expected.now.modules.items expected.now.submodules.items) }
    {
        self.entries.clear();
        let mut left = expected.submodules.as_slice();
        for entry in expected.modules.as_slice() {
            let (own, behind) = split_own(left, entry.number_of_submodules);
            push_own(&mut self.entries, rows, entry.slot_number, own);
            left = behind;
        }
    }
}

impl Places for Own {
    ghost use Rattle.diagnosis.specs.alarms.Own.{is_own};

    ghost has_of = { is_own };

    fn has(&self, slot: u16, subslot: u16) -> bool {
        self.entries
            .as_slice()
            .iter()
            .any(|place| place.slot == slot && place.subslot == subslot)
    }
}
