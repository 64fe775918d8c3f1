//! What pulls and plugs did to the places of a relation.
ghost use Rattle.std.specs.Prelude.{◌≡◌, ◌<◌, ◌≤◌, ◌+◌, IfSome, Some, false, length, true};
ghost use Rattle.expected_places.specs.declared.place.Step.TheVariants as at;
ghost use Rattle.expected_places.specs.Called.{ends_with};
ghost use Rattle.expected_places.specs.Calls.{NoneAgain, again_in, counted, counted_by, is_again};
ghost use Rattle.expected_places.specs.Machine.{answered, closed, differs_at, ended, ended_at, is_ended, is_hit, is_next_called, is_readied, is_touched_at};
ghost use Rattle.expected_places.specs.Machine.{next_called, opened, readied, restated, told, touched};
ghost use Rattle.expected_places.specs.Places.{first_told, is_plugged, place_at};

use crate::calls::{PlugCall, PlugCalls, WaitingCall};
use crate::place::{ExpectedPlace, Step};
use crate::places::{is_any, open, place_at, restate, step, told_with, touch};
use arrayvec::ArrayVec;
use module_diff::{Affected, DiffRows, Expected};
use std::marker::Model;

/// The places of a relation and the calls ApplicationReady for its plugs. It is large and stays in place.
#[derive(Drop)]
pub struct Plugs {
    places: ArrayVec<ExpectedPlace, 64>,
    calls: PlugCalls,
    /// Whether the alarm of a plug was sent in the relation.
    has_told: bool,
    /// Whether it is known that no place is touched: nothing was pulled or plugged since the relation began.
    is_whole: bool,
}

// Its model: the parts. Each call is for a place of its own, whose parameters ended with its number. So at most as many calls
// wait as there are places. No place is touched while it is known that none is.
impl Model for Plugs {
    ghost use Rattle.expected_places.specs.Called.{HaveOwn, called_keys};
    ghost use Rattle.expected_places.specs.Machine.{PlugState};
    ghost use Rattle.expected_places.specs.Places.{IsWhole};

    ghost Value = { PlugState };

    ghost view = { λ plugs. record { places = plugs.places.items; calls = plugs.calls; has_told = plugs.has_told } };

    ghost invariant = { λ plugs. HaveOwn plugs.places.items (called_keys plugs.calls) × IsWhole plugs.is_whole plugs.places.items };
}

impl Plugs {
    /// Those of no relation.
    pub fn new() -> Plugs
        ensures { result ≡ closed }
    {
        Plugs {
            places: ArrayVec::new(),
            calls: PlugCalls::new(),
            has_told: false,
            is_whole: true,
        }
    }

    /// A relation begins. `rows` lists the places that differ.
    pub fn open(&mut self, expected: &Expected, rows: &DiffRows)
        ensures { self.new ≡ opened expected.now rows.now }
    {
        open(&mut self.places, expected, rows);
        self.calls.clear();
        self.has_told = false;
        self.is_whole = true;
    }

    /// The places, in the order of the Connect.
    pub fn places(&self) -> &[ExpectedPlace]
        ensures value { result.now ≡ self.now.places }
        ensures few { length result.now ≤ 64 }
    {
        self.places.as_slice()
    }

    /// The modules changed: `rows` lists the places that differ now.
    pub fn restate(&mut self, rows: &DiffRows)
        ensures { self.new ≡ restated rows.now self.old }
    {
        restate(self.places.as_mut_slice(), rows);
    }

    /// Something was pulled at the affected places, or something else than the expected submodule was plugged there.
    pub fn pull(&mut self, affected: Affected)
        ensures { self.new ≡ touched affected at.Pulled self.old }
    {
        self.touch(affected, Step::Pulled);
    }

    /// The expected submodule was plugged at a place.
    pub fn plug(&mut self, affected: Affected)
        ensures { self.new ≡ touched affected at.Plugged self.old }
    {
        self.touch(affected, Step::Plugged);
    }

    /// The affected places begin again. An ApplicationReady for an earlier plug there is over.
    fn touch(&mut self, affected: Affected, step: Step)
        ensures { self.new ≡ touched affected step self.old }
    {
        self.is_whole = false; // something was pulled or plugged
        touch(self.places.as_mut_slice(), affected, step);
        self.calls.drop_affected(affected);
    }

    /// Whether a place is affected.
    pub fn is_any(&self, affected: Affected) -> bool
        ensures { result ≡ is_hit affected self.now }
    {
        is_any(self.places.as_slice(), affected)
    }

    /// Whether a place differs.
    pub fn differs(&self, slot: u16, subslot: u16) -> bool
        ensures { result ≡ differs_at slot subslot self.now }
    {
        match place_at(self.places.as_slice(), slot, subslot) {
            Some(place) => place.differs,
            None => false,
        }
    }

    /// Whether a place is touched.
    #[inline(always)]
    pub fn is_touched(&self, slot: u16, subslot: u16) -> bool
        ensures { result ≡ is_touched_at slot subslot self.now }
    {
        // Nearly always none is.
        if self.is_whole {
            return false;
        }
        self.is_touched_at(slot, subslot)
    }

    /// The same, from the place itself.
    #[inline(never)]
    fn is_touched_at(&self, slot: u16, subslot: u16) -> bool
        ensures { result ≡ is_touched_at slot subslot self.now }
    {
        match place_at(self.places.as_slice(), slot, subslot) {
            Some(place) => place.step.is_touched(),
            None => false,
        }
    }

    /// The alarm of the plug at a place was first sent, with this sequence; `is_last` says that no later one waits. Then the
    /// place is reported: an earlier plug, after which something was pulled there, says nothing of what is plugged now.
    pub fn tell(&mut self, slot: u16, subslot: u16, number: u16, is_last: bool)
        ensures { self.new ≡ told slot subslot number is_last self.old }
    {
        self.has_told = true;
        if is_last && self.is_plugged(slot, subslot) {
            self.is_whole = false;
            step(
                self.places.as_mut_slice(),
                slot,
                subslot,
                Step::Told(number),
            );
        }
    }

    /// Whether the alarm of a plug was sent in the relation.
    pub fn has_told(&self) -> bool
        ensures { result ≡ self.now.has_told }
    {
        self.has_told
    }

    /// The controller ended the parameters of the plug with this number. ApplicationReady for it may be sent if the application
    /// `is_ready` or is not asked. Returns whether a place is reported with this number; if not, nothing changes.
    pub fn end(&mut self, number: u16, is_ready: bool) -> bool
        ensures done { result ≡ is_ended number self.old }
        ensures state { self.new ≡ ended number is_ready self.old }
    {
        match told_with(self.places.as_slice(), number) {
            Some(place) => {
                self.end_at(&place, number, is_ready);
                true
            }
            None => false,
        }
    }

    /// The parameters of this place, the first that is reported with this number, have ended. Its ApplicationReady waits: there is
    /// room for it, since each call has a place of its own.
    fn end_at(&mut self, place: &ExpectedPlace, number: u16, is_ready: bool)
        requires { first_told number self.old.places ≡ Some place.now }
        ensures { self.new ≡ ended_at number is_ready self.old place.now }
    {
        let (slot, subslot) = (place.slot, place.subslot);
        self.is_whole = false;
        step(
            self.places.as_mut_slice(),
            slot,
            subslot,
            Step::Ended(number),
        );
        self.calls.push(WaitingCall {
            slot,
            subslot,
            number,
            is_ready,
        });
    }

    /// The application is ready for the plug at a place. Returns whether that was waited for; if not, nothing changes.
    pub fn get_ready(&mut self, slot: u16, subslot: u16) -> bool
        ensures done { result ≡ is_readied slot subslot self.old }
        ensures state { self.new ≡ readied slot subslot self.old }
        ensures same { result ≡ false → self.new ≡ self.old }
    {
        self.calls.get_ready(slot, subslot)
    }

    /// The next ApplicationReady becomes active, if none is active and one may be sent. Returns whether it must be sent.
    pub fn call_next(&mut self) -> bool
        ensures sent { result ≡ is_next_called self.old }
        ensures state { self.new ≡ next_called self.old }
    {
        self.calls.next()
    }

    /// The active ApplicationReady, if there is one.
    pub fn standing(&self) -> Option<PlugCall>
        ensures value { result ≡ self.now.calls.standing }
        // It is for the last plug at its place: the parameters of that have ended with this number.
        ensures ended { IfSome result (λ call. ends_with call.number (place_at call.slot call.subslot self.now.places) ≡ true) }
    {
        self.calls.standing()
    }

    /// The controller answered the active ApplicationReady: a place that it confirms is released.
    pub fn answer(&mut self, is_positive: bool)
        ensures { self.new ≡ answered is_positive self.old }
    {
        if let Some(call) = self.calls.standing() {
            let answered = if is_positive {
                Step::Settled
            } else {
                Step::Refused
            };
            self.is_whole = false;
            step(
                self.places.as_mut_slice(),
                call.slot,
                call.subslot,
                answered,
            );
            self.calls.finish();
        }
    }

    /// Whether the expected submodule was plugged at a place, and its alarm waits.
    fn is_plugged(&self, slot: u16, subslot: u16) -> bool
        ensures { result ≡ is_plugged (place_at slot subslot self.now.places) }
    {
        match place_at(self.places.as_slice(), slot, subslot) {
            Some(place) => place.step.is_plugged(),
            None => false,
        }
    }

    /// Counts a unit of time. Returns whether the active ApplicationReady is due again.
    #[inline(always)]
    pub fn tick(&mut self) -> bool
        ensures again { result ≡ is_again self.old.calls }
        ensures state { self.new ≡ record self.old { calls = counted self.old.calls } }
    {
        self.calls.tick()
    }

    /// The number of units up to and including the next one with which the active ApplicationReady is sent again, the largest
    /// number if none is active.
    #[inline(always)]
    pub fn due_in(&self) -> u32
        ensures value { result ≡ again_in self.now.calls }
        ensures some { 0 < result }
    {
        self.calls.due_in()
    }

    /// Counts several units of time at once. Nothing may be due with any of them.
    pub fn pass(&mut self, units: u32)
        requires { units < again_in self.old.calls }
        ensures state { self.new ≡ record self.old { calls = counted_by units self.old.calls } }
        ensures nothing { NoneAgain units self.old.calls }
        // What is due comes nearer by these units, and by no more.
        ensures due { again_in self.old.calls ≤ again_in self.new.calls + units }
    {
        self.calls.pass(units);
    }
}
