// A place, and what is known of it.
ghost use Rattle.std.specs.Prelude.{◌≡◌};
ghost use Rattle.plan_places.specs.Places.{after_report, has_turn, in_state, is_about, is_at, is_moved, is_plug, is_plugged_by, is_told};
ghost use Rattle.plan_places.specs.Places.{made_ready, number_of, plugged_number, reported_state, set_at, waiting_of};

use crate::report::{PlaceReport, Plug};

/// What a controller knows of a place of its plan. The numbers are the SequenceNumbers of the alarms that reported a plug.
#[derive(Clone, Copy, Debug, Default, PartialEq, Eq)]
pub enum PlaceState {
    /// The submodule is there.
    #[default]
    There,
    /// The ModuleDiffBlock of the answer to the Connect listed it.
    Differs,
    /// It was pulled.
    Gone,
    /// Another submodule was plugged.
    Wrong,
    /// The expected submodule was plugged.
    Plugged(u16),
    /// The records of the plan are written to it.
    Writing(u16),
    /// All records were written, and PrmEnd was sent: its ApplicationReady is awaited.
    Ending(u16),
    /// The submodule is there again, since its ApplicationReady.
    Ready(u16),
    /// The device refused a record or PrmEnd.
    Refused,
}

impl PlaceState {
    /// The number of this state for a host: 1 there, 2 differs, 3 gone, 4 wrong, 5 plugged, 6 ending, 7 refused.
    pub fn number(self) -> u32
        ensures { result ≡ number_of self }
    {
        match self {
            PlaceState::There | PlaceState::Ready(_) => 1,
            PlaceState::Differs => 2,
            PlaceState::Gone => 3,
            PlaceState::Wrong => 4,
            PlaceState::Plugged(_) | PlaceState::Writing(_) => 5,
            PlaceState::Ending(_) => 6,
            PlaceState::Refused => 7,
        }
    }

    /// Whether the parameters of the place have their turn.
    pub(crate) fn has_turn(self) -> bool
        ensures { result ≡ has_turn self }
    {
        match self {
            PlaceState::Writing(_) | PlaceState::Ending(_) => true,
            PlaceState::There
            | PlaceState::Differs
            | PlaceState::Gone
            | PlaceState::Wrong
            | PlaceState::Plugged(_)
            | PlaceState::Ready(_)
            | PlaceState::Refused => false,
        }
    }

    /// Whether its ApplicationReady may have this number: it is awaited, or it came and its answer was lost.
    pub(crate) fn is_told(self, number: u16) -> bool
        ensures { result ≡ is_told number self }
    {
        match self {
            PlaceState::Ending(of) | PlaceState::Ready(of) => of == number,
            PlaceState::There
            | PlaceState::Differs
            | PlaceState::Gone
            | PlaceState::Wrong
            | PlaceState::Plugged(_)
            | PlaceState::Writing(_)
            | PlaceState::Refused => false,
        }
    }

    /// The number of the plug, if the place waits for its turn.
    fn plugged_number(self) -> Option<u16>
        ensures { result ≡ plugged_number self }
    {
        match self {
            PlaceState::Plugged(number) => Some(number),
            PlaceState::There
            | PlaceState::Differs
            | PlaceState::Gone
            | PlaceState::Wrong
            | PlaceState::Writing(_)
            | PlaceState::Ending(_)
            | PlaceState::Ready(_)
            | PlaceState::Refused => None,
        }
    }
}

/// A place of a plan: a submodule that its Connect expects.
#[derive(Clone, Copy, Debug, Default, PartialEq, Eq)]
pub struct Place {
    /// SlotNumber.
    pub slot: u16,
    /// SubslotNumber.
    pub subslot: u16,
    /// What is known of it.
    pub state: PlaceState,
}

impl Place {
    /// Whether it is this submodule.
    pub(crate) fn is_at(&self, slot: u16, subslot: u16) -> bool
        ensures { result ≡ is_at slot subslot self.now }
    {
        self.slot == slot && self.subslot == subslot
    }

    /// The place in this state.
    fn in_state(self, state: PlaceState) -> Place
        ensures { result ≡ in_state state self }
    {
        Place { state, ..self }
    }

    /// The place, in this state if it is this submodule.
    pub(crate) fn set_at(self, slot: u16, subslot: u16, state: PlaceState) -> Place
        ensures { result ≡ set_at slot subslot state self }
    {
        if self.is_at(slot, subslot) {
            self.in_state(state)
        } else {
            self
        }
    }

    /// The place after an ApplicationReady with this number.
    pub(crate) fn made_ready(self, number: u16) -> Place
        ensures { result ≡ made_ready number self }
    {
        if self.state.is_told(number) {
            self.in_state(PlaceState::Ready(number))
        } else {
            self
        }
    }

    /// Its plug, if the place waits for its turn.
    pub(crate) fn waiting(&self) -> Option<Plug>
        ensures { result ≡ waiting_of self.now }
    {
        match self.state.plugged_number() {
            Some(number) => Some(Plug {
                slot: self.slot,
                subslot: self.subslot,
                number,
            }),
            None => None,
        }
    }

    /// Whether a report is about this place.
    fn is_about(&self, report: PlaceReport) -> bool
        ensures { result ≡ is_about report self.now }
    {
        match report {
            PlaceReport::Pulled(affected) => affected.covers(self.slot, self.subslot),
            PlaceReport::PluggedWrong(plug) | PlaceReport::Plugged(plug) => {
                self.is_at(plug.slot, plug.subslot)
            }
        }
    }

    /// The place after a report.
    pub(crate) fn after(self, report: PlaceReport) -> Place
        ensures { result ≡ after_report report self }
    {
        if self.is_about(report) {
            self.in_state(reported_state(report))
        } else {
            self
        }
    }

    /// Whether a report plugs this place; or, if `is_plugged` is false, whether it does not.
    pub(crate) fn is_moved(&self, is_plugged: bool, report: PlaceReport) -> bool
        ensures { result ≡ is_moved is_plugged report self.now }
    {
        if is_plugged {
            self.is_plugged_by(report)
        } else {
            !self.is_plugged_by(report)
        }
    }

    /// Whether a report plugs this place.
    fn is_plugged_by(&self, report: PlaceReport) -> bool
        ensures { result ≡ is_plugged_by report self.now }
    {
        is_plug(report) && self.is_about(report)
    }
}

/// The state of a place that a report is about.
fn reported_state(report: PlaceReport) -> PlaceState
    ensures { result ≡ reported_state report }
{
    match report {
        PlaceReport::Pulled(_) => PlaceState::Gone,
        PlaceReport::PluggedWrong(_) => PlaceState::Wrong,
        PlaceReport::Plugged(plug) => PlaceState::Plugged(plug.number),
    }
}

/// Whether a report is a plug of the expected submodule.
fn is_plug(report: PlaceReport) -> bool
    ensures { result ≡ is_plug report }
{
    match report {
        PlaceReport::Plugged(_) => true,
        PlaceReport::Pulled(_) | PlaceReport::PluggedWrong(_) => false,
    }
}
