//! The diagnoses that exist.
ghost use Rattle.std.specs.Prelude.{◌≡◌, ◌≤◌, [], is_some, length, unwrap_or};
ghost use Rattle.diagnosis.specs.Existing.{changed, exists, is_any_at, is_any_in, others, remaining, with_one, without};

use crate::{Change, Diagnosis, Places};
use arrayvec::ArrayVec;
use module_diff::Affected;
use std::marker::Model;

/// The diagnoses that exist at a device, at most 32, in the order in which they appeared.
#[derive(Drop)]
pub struct Diagnoses {
    entries: ArrayVec<Diagnosis, 32>,
}

// Its model: the list.
impl Model for Diagnoses {
    ghost use Rattle.std.specs.Prelude.{List};
    ghost use Rattle.diagnosis.specs.declared.diagnosis.Diagnosis.{Diagnosis};

    ghost Value = { List Diagnosis };

    ghost view = { λ diagnoses. diagnoses.entries.items };
}

impl Diagnoses {
    /// No diagnosis.
    pub fn new() -> Diagnoses
        ensures { result ≡ [] }
    {
        Diagnoses {
            entries: ArrayVec::new(),
        }
    }

    /// The diagnoses.
    pub fn as_slice(&self) -> &[Diagnosis]
        ensures value { result.now ≡ self.now }
        ensures few { length result.now ≤ 32 }
    {
        self.entries.as_slice()
    }

    /// A diagnosis appears or disappears. Returns whether it was accepted. One that appears is refused if a number is
    /// out of its range, if it exists already, or if 32 exist; one that disappears is refused if it does not exist. Then
    /// nothing changes.
    pub fn change(&mut self, change: &Change) -> bool
        ensures done { result ≡ is_some (changed change.now self.old) }
        ensures state { self.new ≡ unwrap_or (changed change.now self.old) self.old }
    {
        if change.appears {
            self.add(&change.diagnosis)
        } else {
            self.remove(&change.diagnosis)
        }
    }

    /// Whether a diagnosis of this submodule exists.
    pub fn is_any_at(&self, slot: u16, subslot: u16) -> bool
        ensures { result ≡ is_any_at slot subslot self.now }
    {
        self.entries
            .as_slice()
            .iter()
            .any(|diagnosis| diagnosis.is_at(slot, subslot))
    }

    /// Whether a diagnosis of one of these submodules exists.
    pub fn is_any_in<P: Places>(&self, places: &P) -> bool
        ensures { result ≡ is_any_in (P.has_of places.now) self.now }
    {
        self.entries
            .as_slice()
            .iter()
            .any(|diagnosis| places.has(diagnosis.slot, diagnosis.subslot))
    }

    /// Whether this diagnosis exists.
    fn exists(&self, diagnosis: &Diagnosis) -> bool
        ensures { result ≡ exists diagnosis.now self.now }
    {
        self.entries
            .as_slice()
            .iter()
            .any(|other| diagnosis.is_same(other))
    }

    /// One more diagnosis. Returns whether it was accepted.
    fn add(&mut self, diagnosis: &Diagnosis) -> bool
        ensures done { result ≡ is_some (with_one diagnosis.now self.old) }
        ensures state { self.new ≡ unwrap_or (with_one diagnosis.now self.old) self.old }
    {
        if !diagnosis.is_valid() || self.exists(diagnosis) {
            return false;
        }
        self.entries.try_push(*diagnosis).is_ok()
    }

    /// One diagnosis less. Returns whether it existed.
    fn remove(&mut self, diagnosis: &Diagnosis) -> bool
        ensures done { result ≡ is_some (without diagnosis.now self.old) }
        ensures state { self.new ≡ unwrap_or (without diagnosis.now self.old) self.old }
    {
        if !self.exists(diagnosis) {
            return false;
        }
        self.keep_others(diagnosis);
        true
    }

    /// Keeps all others.
    fn keep_others(&mut self, diagnosis: &Diagnosis)
        ensures { self.new ≡ others diagnosis.now self.old }
    {
        let mut next = ArrayVec::new();
        for other in self.entries.as_slice() {
            if !diagnosis.is_same(other) {
                next.push(*other);
            }
        }
        self.entries = next;
    }

    /// Forgets the diagnoses of what was pulled: nothing is wrong at a submodule that is gone.
    pub fn forget(&mut self, gone: Affected)
        ensures { self.new ≡ remaining gone self.old }
    {
        let mut next = ArrayVec::new();
        for diagnosis in self.entries.as_slice() {
            if !gone.covers(diagnosis.slot, diagnosis.subslot) {
                next.push(*diagnosis);
            }
        }
        self.entries = next;
    }
}
