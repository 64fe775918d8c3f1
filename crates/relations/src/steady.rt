//! While only the timers of an exchange run, as they nearly always do: that of the inputs, and the data hold time. Then a unit of
//! time asks no other timer.
ghost use Rattle.std.specs.Prelude.{◌≡◌, ◌-◌, ◌<◌, ◌≤◌, IsSome};
ghost use Rattle.relations.specs.Leaps.{NothingDueFor, due_within};
ghost use Rattle.relations.specs.Runs.{units_over};
ghost use Rattle.relations.specs.Steady.{IsSteady, inputs_alone, is_alone, never_due, steady_in, steady_of, unknown};
ghost use Rattle.relations.specs.Timers.{due_of};

use crate::exchange::DataExchange;
use crate::time::is_timed;
use crate::{Phase, Relation};
use expected_places::Plugs;
use pn_alarms::NEVER;

/// When the next units bring something, while only the timers of an exchange run, or if there is no relation.
#[derive(Clone, Copy)]
pub struct Steady {
    /// The number of units up to and including the next one with which inputs are due, `NEVER` without a relation. 0 if another
    /// timer runs, or if this is not known.
    pub inputs: u32,
    /// In fewer units than these the data hold time is not over.
    pub held: u32,
}

impl Steady {
    /// Nothing is known.
    #[inline(always)]
    pub fn unknown() -> Steady
        ensures { result ≡ unknown }
    {
        Steady { inputs: 0, held: 0 }
    }

    /// Nothing is ever due.
    fn never() -> Steady
        ensures { result ≡ never_due }
    {
        Steady {
            inputs: NEVER,
            held: NEVER,
        }
    }
}

impl Relation {
    /// When the next units bring something, if only the timers of the exchange run.
    pub fn steady(&self) -> Steady
        ensures value { result ≡ steady_in self.now }
        ensures steady { 0 < result.inputs → IsSteady result self.now }
        ensures due { 0 < result.inputs → due_within self.now ≡ result.inputs }
    {
        let Some(phase) = self.phase else {
            return Steady::never();
        };
        if !is_alone(phase, &self.plugs, &self.exchange) {
            return Steady::unknown();
        }
        steady_of(&self.exchange)
    }

    /// Counts several units of 31.25 microseconds at once. None of them may bring anything.
    #[inline(always)]
    pub fn pass_steady(&mut self, units: u32, steady: &mut Steady)
        requires steady { IsSteady steady.old self.old }
        requires few { units < steady.old.inputs }
        ensures state { self.new ≡ units_over units self.old }
        ensures nothing { NothingDueFor units self.old }
        ensures steady { IsSteady steady.new self.new }
        ensures due { due_within self.new ≡ steady.new.inputs }
        ensures before { due_within self.old ≡ steady.old.inputs }
    {
        let Some(_) = self.phase else {
            return;
        };
        self.exchange.pass_calm(units);
        steady.inputs -= units;
        steady.held -= units;
    }

    /// Counts the units up to and including the next one with which inputs are due, and says when the units after it bring
    /// something. Inputs must be due before the data hold time is over.
    #[inline(always)]
    pub fn send_steady(&mut self, steady: &mut Steady)
        requires steady { IsSteady steady.old self.old }
        requires first { steady.old.inputs < steady.old.held }
        ensures state { self.new ≡ units_over steady.old.inputs self.old }
        ensures nothing { NothingDueFor (steady.old.inputs - 1) self.old }
        ensures last { due_of (units_over (steady.old.inputs - 1) self.old) ≡ inputs_alone }
        ensures some { 0 < steady.old.inputs }
        ensures stands { IsSome self.new }
        ensures value { steady.new ≡ steady_in self.new }
        ensures steady { 0 < steady.new.inputs → IsSteady steady.new self.new }
        ensures due { 0 < steady.new.inputs → due_within self.new ≡ steady.new.inputs }
    {
        self.exchange.send_calm(steady.inputs); // there is a relation: without one nothing is ever due
        *steady = steady_of(&self.exchange);
    }
}

/// Whether only the timers of the exchange run of a relation: data is exchanged, no ApplicationReady of a plug waits for its answer,
/// and the alarms have nothing to do.
fn is_alone(phase: Phase, plugs: &Plugs, exchange: &DataExchange) -> bool
    ensures { result ≡ is_alone phase plugs.now exchange.now }
{
    !is_timed(phase) && plugs.standing().is_none() && exchange.is_calm()
}

/// When inputs are due of an exchange whose alarms have nothing to do. This is not known if the data hold time may be over before.
#[inline(always)]
fn steady_of(exchange: &DataExchange) -> Steady
    ensures value { result ≡ steady_of exchange.now }
    ensures few { result.inputs ≤ 8388608 }
{
    let inputs = exchange.cyclic().frame_in();
    let held = exchange.cyclic().silent_in();
    if held < inputs {
        return Steady::unknown();
    }
    Steady { inputs, held }
}
