// The places of a plan, in the order in which they were plugged last.
ghost use Rattle.std.specs.Prelude.{◌≡◌, ◌≤◌, ◌+◌, ◌++◌, length, map};
ghost use Rattle.std.specs.List.{filter, list_any};
ghost use Rattle.arrayvec.specs.ArrayVec.{array_vec_len};
ghost use Rattle.plan_places.specs.Places.{after_alarm, first_place, first_state, first_waiting, has_turn_at, is_awaited, is_moved, is_told};
ghost use Rattle.plan_places.specs.Places.{made_ready, moved, next_waiting, no_places, opened, place_at, places_of, readied, set_at};
ghost use Rattle.plan_places.specs.Places.{state_at, told_after, with_state};

use crate::listed::is_listed;
use crate::place::{Place, PlaceState};
use crate::report::{PlaceReport, Plug, place_report};
use arrayvec::ArrayVec;
use diagnosis::Report;
use plans::Plan;
use pn_values::{Real, RealModule};
use std::marker::Model;

/// The places of a plan, at most 64. A place that is plugged becomes the last one, so those that wait for their turn are in the order of
/// their plugs.
#[derive(Drop)]
pub struct PlanPlaces {
    entries: ArrayVec<Place, 64>,
    /// Whether the parameters of a place that is plugged wait for their turn.
    has_turns: bool,
}

// Its model: the list, and whether places wait.
impl Model for PlanPlaces {
    ghost use Rattle.plan_places.specs.Places.{Told};

    ghost Value = { Told };

    ghost view = { λ places. record { places = places.entries.items; has_turns = places.has_turns } };
}

impl PlanPlaces {
    /// No relation, and so no places.
    #[inline(always)]
    pub fn new() -> PlanPlaces
        ensures { result ≡ no_places }
    {
        PlanPlaces {
            entries: ArrayVec::new(),
            has_turns: false,
        }
    }

    /// No relation, in place.
    pub fn clear(&mut self)
        ensures { self.new ≡ no_places }
    {
        self.entries.clear();
        self.has_turns = false;
    }

    /// A relation is established: its Connect was answered with these blocks, of which at most `most` are read. Each submodule of the
    /// plan is there, or differs if a ModuleDiffBlock lists it.
    pub fn open(&mut self, plan: &Plan, most: usize, blocks: &[u8])
        ensures { self.new ≡ opened plan.now most blocks.now }
    {
        fill(&mut self.entries, plan.real(), most, blocks);
        self.has_turns = plan.has_parameters_after_plug();
    }

    /// What is known of this submodule, if it is a place.
    pub fn state(&self, slot: u16, subslot: u16) -> Option<PlaceState>
        ensures { result ≡ state_at slot subslot self.now }
    {
        match place_at(self.entries.as_slice(), slot, subslot) {
            Some(place) => Some(place.state),
            None => None,
        }
    }

    /// The device reports this by an alarm. Only a pull or a plug at a place changes anything.
    pub fn take(&mut self, report: &Report<'_>)
        ensures { self.new ≡ after_alarm report.now self.old }
    {
        if let Some(place) = place_report(report) {
            self.follow(place);
        }
    }

    /// The places after a report: those that are plugged by it are the last ones.
    #[tactic(auto, using(crate::proofs::Parted::room_first, crate::proofs::Parted::room_second))]
    fn follow(&mut self, report: PlaceReport)
        ensures { self.new ≡ told_after report self.old }
    {
        let mut next = ArrayVec::new();
        push_moved(&mut next, false, report, self.entries.as_slice());
        push_moved(&mut next, true, report, self.entries.as_slice());
        self.entries = next;
    }

    /// The plug that has the next turn, if one waits.
    pub fn next_waiting(&self) -> Option<Plug>
        ensures { result ≡ next_waiting self.now }
    {
        if self.has_turns {
            first_waiting(self.entries.as_slice())
        } else {
            None
        }
    }

    /// Whether the parameters of this place have their turn.
    pub fn has_turn(&self, slot: u16, subslot: u16) -> bool
        ensures { result ≡ has_turn_at slot subslot self.now }
    {
        match self.state(slot, subslot) {
            Some(state) => state.has_turn(),
            None => false,
        }
    }

    /// The place is in this state.
    pub fn set(&mut self, slot: u16, subslot: u16, state: PlaceState)
        ensures { self.new ≡ with_state slot subslot state self.old }
    {
        set_at(self.entries.as_mut_slice(), slot, subslot, state);
    }

    /// Whether an ApplicationReady with this number is one of a place.
    pub fn is_awaited(&self, number: u16) -> bool
        ensures { result ≡ is_awaited number self.now }
    {
        is_any_told(self.entries.as_slice(), number)
    }

    /// An ApplicationReady with this number came: its place is there.
    pub fn make_ready(&mut self, number: u16)
        ensures { self.new ≡ readied number self.old }
    {
        ready_all(self.entries.as_mut_slice(), number);
    }
}

/// The first state of a submodule: it is there, or the answer to the Connect lists it as one that differs.
fn first_state(slot: u16, subslot: u16, most: usize, blocks: &[u8]) -> PlaceState
    ensures { result ≡ first_state most blocks.now slot subslot }
{
    if is_listed(most, blocks, slot, subslot) {
        PlaceState::Differs
    } else {
        PlaceState::There
    }
}

/// Appends the places of a module. There must be room.
fn push_module(places: &mut ArrayVec<Place, 64>, entry: &RealModule, most: usize, blocks: &[u8])
    requires { array_vec_len places.old ≤ 60 }
    ensures items { places.new.items ≡ places.old.items ++ map (first_place most blocks.now entry.now.slot) entry.now.submodules.items }
    ensures few { array_vec_len places.new ≤ array_vec_len places.old + 4 }
{
    for part in entry.submodules.as_slice() {
        places.push(Place {
            slot: entry.slot,
            subslot: part.subslot,
            state: first_state(entry.slot, part.subslot, most, blocks),
        });
    }
}

/// Replaces the places by those of these modules, as the answer to the Connect with these blocks tells of them.
fn fill(places: &mut ArrayVec<Place, 64>, real: &Real, most: usize, blocks: &[u8])
    ensures { places.new.items ≡ places_of most blocks.now real.now.modules.items }
{
    places.clear();
    for entry in real.modules.as_slice() {
        push_module(places, entry, most, blocks);
    }
}

/// The place of this submodule, if it is one.
fn place_at(places: &[Place], slot: u16, subslot: u16) -> Option<Place>
    ensures { result ≡ place_at slot subslot places.now }
{
    for place in places {
        if place.is_at(slot, subslot) {
            return Some(*place);
        }
    }
    None
}

/// The plug of the first place that waits for its turn.
fn first_waiting(places: &[Place]) -> Option<Plug>
    ensures { result ≡ first_waiting places.now }
{
    for place in places {
        if let Some(plug) = place.waiting() {
            return Some(plug);
        }
    }
    None
}

/// Whether an ApplicationReady with this number is one of a place.
fn is_any_told(places: &[Place], number: u16) -> bool
    ensures { result ≡ list_any (λ place. is_told number place.state) places.now }
{
    places.iter().any(|place| place.state.is_told(number))
}

/// This submodule is in this state.
fn set_at(places: &mut [Place], slot: u16, subslot: u16, state: PlaceState)
    ensures { places.new ≡ map (set_at slot subslot state) places.old }
{
    for place in places.iter_mut() {
        *place = place.set_at(slot, subslot, state);
    }
}

/// An ApplicationReady with this number came.
fn ready_all(places: &mut [Place], number: u16)
    ensures { places.new ≡ map (made_ready number) places.old }
{
    for place in places.iter_mut() {
        *place = place.made_ready(number);
    }
}

/// Appends the places that a report plugs, or those that it does not plug, after it. There must be room.
fn push_moved(
    next: &mut ArrayVec<Place, 64>,
    is_plugged: bool,
    report: PlaceReport,
    places: &[Place],
)
    requires { array_vec_len next.old + length (filter (is_moved is_plugged report) places.now) ≤ 64 }
    ensures { next.new.items ≡ next.old.items ++ moved is_plugged report places.now }
{
    for place in places {
        if place.is_moved(is_plugged, report) {
            next.push(place.after(report));
        }
    }
}
