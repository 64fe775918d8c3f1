//! The units of time.
//!
//! `inline(always)` is used where instructions were counted (`bench/figures/exchange.py`): with most units nothing is
//! due, and they cost little.
ghost use Rattle.std.specs.Prelude.{◌≡◌, ◌==◌, ◌+◌, ◌*◌, ◌<◌, ◌≤◌, IfSome, IsSome, None, Option, Some, false, nat_le, true, if◌then◌else◌};
ghost use Rattle.pn_alarms.specs.declared.abort.Abort.TheVariants.{Activity, DataHold};
ghost use Rattle.relations.specs.declared.phase.Phase.TheVariants.{Exchanging};
ghost use Rattle.relations.specs.Farewells.{farewell_of};
ghost use Rattle.relations.specs.RelationState.{RelationState, is_awaiting, phase_of, taken_of};
ghost use Rattle.relations.specs.Timers.{EndsIn, brings_inputs, brings_nothing, due_behind, due_of, farewell_for, is_timed, is_unheard, repeated_by};
ghost use Rattle.relations.specs.Timers.{left_behind, nothing};
ghost use Rattle.relations.specs.Phases.{updated, passing};
ghost use Rattle.relations.specs.Ready.{ready_of};
ghost use Rattle.relations.specs.Runs.{units_over};
ghost use Rattle.relations.specs.Leaps.{NoPlugDueFor, NothingDueFor, due_within, inactive_by, inactive_in, plug_again_in, plugs_by, ready_in, waited_by};

use crate::exchange::Repeated;
use crate::{Phase, Relation};
use connects::ConnectRequest;
use cyclic_data::Tick;
use expected_places::Plugs;
use pn_alarms::{Abort, NEVER};

/// 100 ms, in units of 31.25 microseconds: what CMInitiatorActivityTimeoutFactor counts.
const TENTH_OF_A_SECOND: u32 = 3_200;

/// One second, in units of 31.25 microseconds: ApplicationReady is sent again after this time.
const SECOND: u32 = 32_000;

/// What is due with a unit of time, before it is sent.
#[derive(Drop)]
pub struct Elapsed {
    /// What is due of the exchange: an alarm again, which `Relation::repeated` names, or a frame of inputs. Or the
    /// relation must end, also because of the activity timer, and nothing else is sent.
    pub tick: Tick,
    /// Whether ApplicationReady is due again.
    pub is_ready: bool,
    /// Whether the ApplicationReady of a plug is due again.
    pub is_plug_ready: bool,
}

impl Elapsed {
    /// Whether nothing is due.
    #[inline(always)]
    pub fn is_nothing(&self) -> bool
        ensures value { result ≡ brings_nothing self.now }
        ensures nothing { (link : Option RelationState) → result ≡ true → due_behind self.now link ≡ nothing }
        ensures left { (link : Option RelationState) → result ≡ true → left_behind self.now.tick.ending link ≡ link }
    {
        // ApplicationReady is rarely due, so this is checked first.
        !self.is_ready && !self.is_plug_ready && self.tick.is_nothing()
    }

    /// Whether only inputs are due.
    #[inline(always)]
    pub fn is_inputs(&self) -> bool
        ensures value { result ≡ brings_inputs self.now }
        ensures due { (link : Option RelationState) → result ≡ true → due_behind self.now link ≡ record nothing { is_cyclic = true } }
        ensures left { (link : Option RelationState) → result ≡ true → left_behind self.now.tick.ending link ≡ link }
    {
        !self.is_ready && !self.is_plug_ready && self.tick.is_cyclic_alone()
    }

    /// What is due of the exchange, and nothing else.
    #[inline(always)]
    fn of(tick: Tick) -> Elapsed
        ensures { result ≡ record { tick = tick; is_ready = false; is_plug_ready = false } }
    {
        Elapsed {
            tick,
            is_ready: false,
            is_plug_ready: false,
        }
    }
}

/// Whether the activity timer runs.
pub(crate) fn is_timed(phase: Phase) -> bool
    ensures { result ≡ is_timed phase }
{
    match phase {
        Phase::Started | Phase::Preparing | Phase::Awaiting => true,
        Phase::Exchanging => false,
    }
}

/// Whether ApplicationReady waits for its answer.
fn is_awaiting(phase: Phase) -> bool
    ensures { result ≡ is_awaiting phase }
{
    match phase {
        Phase::Awaiting => true,
        Phase::Started | Phase::Preparing | Phase::Exchanging => false,
    }
}

impl Relation {
    /// Counts a unit of 31.25 microseconds and returns what is due. The activity timer ends the relation after
    /// CMInitiatorActivityTimeoutFactor times 3,200 units. Once data is exchanged, the data hold time ends it instead,
    /// or else an alarm that was sent as often as allowed. If no timeout is over, the active alarm may be due again,
    /// ApplicationReady is due each 32,000 units until it is answered, and a frame of inputs is due each interval. This
    /// function does not end the relation: if the result says that it ends, the caller must call `end` with that
    /// reason.
    #[inline(always)]
    pub fn elapse(&mut self) -> Elapsed
        ensures due { due_of self.old ≡ due_behind result self.new }
        ensures state { updated (passing self.old) self.old ≡ left_behind result.tick.ending self.new }
        // The activity timer ends a relation only before data is exchanged; data hold and an alarm without an ACK end
        // it only while data is exchanged.
        ensures reason { IfSome result.tick.ending (λ reason. EndsIn reason (phase_of self.old)) }
        // The relation keeps its phase and its records, even if it must end.
        ensures stands { phase_of self.new ≡ phase_of self.old }
        ensures records { taken_of self.new ≡ taken_of self.old }
        // Once data is exchanged, the relation always ends when the data hold time is over.
        ensures hold { (old : RelationState) → self.old ≡ Some old → old.phase ≡ Exchanging → is_unheard old ≡ true →
            farewell_for result.tick.ending self.new ≡ Some (farewell_of DataHold old) }
        // ApplicationReady is due only before data is exchanged, and that of a plug only from then on.
        ensures apart { result.is_ready ≡ true → result.is_plug_ready ≡ false }
        // ApplicationReady is repeated unchanged.
        ensures same { (old new : RelationState) → self.old ≡ Some old → self.new ≡ Some new → ready_of new ≡ ready_of old }
    {
        let Some(phase) = self.phase else {
            return Elapsed::of(Tick::nothing());
        };
        // This is done in each phase: inputs are sent from the answer to the Connect on.
        let tick = self.exchange.tick();
        if !is_timed(phase) {
            return Elapsed {
                is_ready: false,
                // A unit that ends the relation brings nothing else.
                is_plug_ready: self.plugs.tick() && tick.ending().is_none(),
                tick,
            };
        }
        let limit = u32::from(self.request.ar().timeout_factor) * TENTH_OF_A_SECOND;
        if let Some(reason) = unit_inactive(&mut self.inactive, limit) {
            return Elapsed::of(Tick::ends(reason));
        }
        Elapsed {
            tick: tick.without_end(),
            is_ready: is_awaiting(phase) && unit_waited(&mut self.waited),
            is_plug_ready: false,
        }
    }

    /// Which alarms are sent again after the unit that passed last.
    pub fn repeated(&self) -> Repeated
        ensures { result ≡ repeated_by self.now }
    {
        match self.exchange() {
            Some(exchange) => exchange.repeated(),
            None => Repeated {
                high: false,
                low: false,
            },
        }
    }

    /// The number of units up to and including the next one that brings something: a frame of inputs is due, an alarm or
    /// ApplicationReady is sent again, an alarm is given up, or a timeout ends the relation. `NEVER` if there is no
    /// relation.
    #[inline(always)]
    pub fn due_in(&self) -> u32
        ensures value { result ≡ due_within self.now }
        ensures some { 0 < result }
        ensures few { IsSome self.now → result ≤ 8388608 }
    {
        let Some(phase) = self.phase else {
            return NEVER;
        };
        let due = self.exchange.due_in();
        // While data is exchanged the relation has no timer of its own but that of the ApplicationReady of a plug.
        if matches!(phase, Phase::Exchanging) {
            return due.min(self.plugs.due_in());
        }
        let inactive = inactive_in(phase, limit_of(&self.request), self.inactive);
        let timers = inactive.min(ready_in(phase, self.waited));
        due.min(timers)
    }

    /// Counts several units of 31.25 microseconds at once. None of them may bring anything.
    pub fn pass(&mut self, units: u32)
        requires { units < due_within self.old }
        ensures state { self.new ≡ units_over units self.old }
        ensures nothing { NothingDueFor units self.old }
        // What is due comes nearer by these units, and by no more.
        ensures due { due_within self.old ≤ due_within self.new + units }
    {
        let Some(phase) = self.phase else {
            return;
        };
        self.exchange.pass(units);
        pass_plugs(phase, units, &mut self.plugs);
        let limit = limit_of(&self.request);
        pass_timers(phase, limit, units, &mut self.inactive, &mut self.waited);
    }
}

/// Lets several units pass at the ApplicationReady of a plug, which may not be due again with any of them.
fn pass_plugs(phase: Phase, units: u32, plugs: &mut Plugs)
    requires { units < plug_again_in phase plugs.old }
    ensures state { plugs.new ≡ plugs_by phase units plugs.old }
    ensures nothing { NoPlugDueFor units phase plugs.old }
    // What is due comes nearer by these units, and by no more.
    ensures due { plug_again_in phase plugs.old ≤ plug_again_in phase plugs.new + units }
{
    // It is counted while data is exchanged.
    if !is_timed(phase) {
        plugs.pass(units);
    }
}

/// Lets several units pass at the timers of a relation itself, with none of which either may be over: the activity timer,
/// which has `limit` units, and the one of ApplicationReady.
fn pass_timers(phase: Phase, limit: u32, units: u32, inactive: &mut u32, waited: &mut u32)
    requires over { units < inactive_in phase limit inactive.old }
    requires again { units < ready_in phase waited.old }
    ensures inactive { inactive.new ≡ inactive_by phase units inactive.old }
    ensures waited { waited.new ≡ waited_by phase units waited.old }
    ensures most { inactive.old ≤ 209712000 → limit ≤ 209712000 → inactive.new ≤ 209712000 }
    ensures few { waited.old < 32000 → waited.new < 32000 }
{
    // While data is exchanged neither runs.
    if matches!(phase, Phase::Exchanging) {
        return;
    }
    *inactive = inactive_later(phase, limit, *inactive, units);
    *waited = waited_later(phase, *waited, units);
}

/// The units of the activity timer of a relation with this request.
fn limit_of(request: &ConnectRequest) -> u32
    ensures value { result ≡ request.now.ar.timeout_factor * 3200 }
    ensures most { result ≤ 209712000 }
{
    u32::from(request.ar().timeout_factor) * TENTH_OF_A_SECOND
}

/// The number of units up to and including the next one with which the activity timer, which has `limit` units and has run
/// for `inactive` of them, is over. `NEVER` if it does not run.
fn inactive_in(phase: Phase, limit: u32, inactive: u32) -> u32
    ensures value { result ≡ inactive_in phase limit inactive }
    ensures some { 0 < result }
{
    if is_timed(phase) {
        limit.saturating_sub(inactive).max(1)
    } else {
        NEVER
    }
}

/// The number of units up to and including the next one with which ApplicationReady, which has waited for `waited` units, is
/// sent again. `NEVER` if it does not wait for its answer.
fn ready_in(phase: Phase, waited: u32) -> u32
    requires { waited < 32000 }
    ensures value { result ≡ ready_in phase waited }
    ensures some { 0 < result }
{
    if is_awaiting(phase) {
        SECOND - waited
    } else {
        NEVER
    }
}

/// The units that the activity timer has run, several units later. It may not be over with any of them.
fn inactive_later(phase: Phase, limit: u32, inactive: u32, units: u32) -> u32
    requires { units < inactive_in phase limit inactive }
    ensures value { result ≡ inactive_by phase units inactive }
    ensures most { inactive ≤ 209712000 → limit ≤ 209712000 → result ≤ 209712000 }
{
    if is_timed(phase) {
        inactive + units
    } else {
        inactive
    }
}

/// The units that ApplicationReady has waited, several units later. It may not be due again with any of them.
fn waited_later(phase: Phase, waited: u32, units: u32) -> u32
    requires { units < ready_in phase waited }
    ensures value { result ≡ waited_by phase units waited }
    ensures few { waited < 32000 → result < 32000 }
{
    if is_awaiting(phase) {
        waited + units
    } else {
        waited
    }
}

/// Counts a unit of the activity timer, which has `limit` units. Returns the reason to end the relation if the timer is
/// over.
fn unit_inactive(inactive: &mut u32, limit: u32) -> Option<Abort>
    requires few { inactive.old + 1 < 4294967296 }
    ensures ending { result ≡ (if nat_le limit (inactive.old + 1) then Some Activity else None) }
    ensures inactive { inactive.new ≡ (if nat_le limit (inactive.old + 1) then inactive.old else inactive.old + 1) }
{
    if limit <= *inactive + 1 {
        return Some(Abort::Activity);
    }
    *inactive += 1;
    None
}

/// Counts a unit in which ApplicationReady waits for its answer. Returns whether it is due again.
fn unit_waited(waited: &mut u32) -> bool
    requires { waited.old < 32000 }
    ensures again { result ≡ (waited.old + 1 == 32000) }
    ensures waited { waited.new ≡ (if result then 0 else waited.old + 1) }
    ensures few { waited.new < 32000 }
{
    *waited += 1;
    if *waited == SECOND {
        *waited = 0;
        return true;
    }
    false
}
