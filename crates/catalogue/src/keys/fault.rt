//! The faults of a catalogue and their places.
ghost use Rattle.std.specs.Prelude.{◌≡◌, [], ◌∷◌};
ghost use Rattle.catalogue.specs.declared.keys.fault.CatalogueFault.TheVariants.{OutOfMemory};
ghost use Rattle.catalogue.specs.keys.Placed.{at_key, further, here};

use crate::keys::key::Key;
use arrayvec::ArrayVec;
use std::alloc::{AllocError, AllocFailed};

/// Why a text is not a catalogue.
#[derive(Debug, Clone, Copy, PartialEq, Eq, Drop)]
pub enum CatalogueFault {
    /// The text is not JSON.
    Json,
    /// A required key is absent.
    MissingKey,
    /// A value is not of the kind that its key requires.
    WrongKind,
    /// A number is out of its range, or what a number or an ID names does not exist or exists twice.
    Number,
    /// There was not enough memory.
    OutOfMemory,
}

/// One step on the way from the whole catalogue to a value.
#[derive(Debug, Clone, Copy, PartialEq, Eq, Drop)]
pub enum Step {
    /// To the value at a key of an object.
    At(Key),
    /// To an entry of a list, counted from 0.
    Entry(usize),
}

impl Default for Step {
    fn default() -> Step {
        Step::Entry(0)
    }
}

/// A fault and its place: the steps from the whole catalogue to the value, or to the missing key.
#[derive(Drop)]
pub struct PlacedFault {
    pub fault: CatalogueFault,
    /// At most eight steps, since no key of a catalogue is further in. If the fault is `OutOfMemory`, the place has no meaning.
    pub place: ArrayVec<Step, 8>,
}

impl PlacedFault {
    /// A fault of the value itself: its place has no steps.
    pub fn here(fault: CatalogueFault) -> PlacedFault
        ensures { result ≡ here fault }
    {
        PlacedFault {
            fault,
            place: ArrayVec::new(),
        }
    }

    /// A fault of the value at a key: its place has one step.
    pub fn at(key: Key, fault: CatalogueFault) -> PlacedFault
        ensures { result ≡ at_key key fault }
    {
        let mut place = ArrayVec::new();
        place.push(Step::At(key));
        PlacedFault { fault, place }
    }

    /// The same fault with one more step before its place. Of nine steps the innermost is dropped.
    pub fn further(self, step: Step) -> PlacedFault
        ensures { result ≡ further step self }
    {
        let mut place = self.place;
        place.truncate(7);
        place.insert(0, step);
        PlacedFault {
            fault: self.fault,
            place,
        }
    }
}

impl From<AllocError> for PlacedFault {
    ghost from_gives = { λ _ found. found.fault ≡ OutOfMemory };

    fn from(_error: AllocError) -> PlacedFault {
        PlacedFault::here(CatalogueFault::OutOfMemory)
    }
}

impl<T: Drop> From<AllocFailed<T>> for PlacedFault {
    ghost from_gives = { λ _ found. found.fault ≡ OutOfMemory };

    fn from(_error: AllocFailed<T>) -> PlacedFault {
        PlacedFault::here(CatalogueFault::OutOfMemory)
    }
}
