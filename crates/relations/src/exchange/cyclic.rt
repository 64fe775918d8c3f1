//! Cyclic frames, and the units of time.
ghost use Rattle.std.specs.Prelude.{◌≡◌, ◌≢◌, ◌+◌, ◌-◌, ◌<◌, ◌≤◌, false, true};
ghost use Rattle.pn_alarms.specs.Leaps.{after};
ghost use Rattle.cyclic_data.specs.Leaps.{frame_due_in};
ghost use Rattle.cyclic_data.specs.exchange.Leaps.{cyclic_due_in, frame_alone, silent_in};
ghost use Rattle.relations.specs.exchange.Calm.{IsCalm, is_calm};
ghost use Rattle.relations.specs.exchange.Flow.{state_of};
ghost use Rattle.relations.specs.exchange.Leaps.{BringNothing, flow_due_in};
ghost use Rattle.relations.specs.exchange.Received.{behind_frame, received_as};
ghost use Rattle.relations.specs.exchange.Units.{flow_later, repeated_in, repeated_of, tick_of};

use crate::exchange::data_exchange::DataExchange;
use cyclic_data::{Received, StationState, Tick};
use pn_alarms::Due;
use pn_values::Mac;

/// Which alarms are sent again with a unit of time.
#[derive(Clone, Copy)]
pub struct Repeated {
    /// That of high priority.
    pub high: bool,
    /// That of low priority.
    pub low: bool,
}

impl DataExchange {
    /// Receives a cyclic frame: its source, its FrameID, and the octets that follow it.
    #[inline(always)]
    pub fn receive(&mut self, source: Mac, frame_id: u16, body: &[u8]) -> Received
        ensures received { result ≡ received_as self.old source frame_id body.now }
        ensures state { self.new ≡ behind_frame self.old source frame_id body.now }
        // A frame that is not accepted changes nothing.
        ensures refused { result ≢ Received.Taken → self.new ≡ self.old }
    {
        self.cyclic.receive(source, frame_id, body)
    }

    /// Counts a unit of 31.25 microseconds. A frame of inputs is due each interval. Once data is exchanged, the
    /// relation ends if no frame of outputs was accepted for the data hold time, or else if an alarm was sent as often
    /// as allowed without an ACK. Returns what is due.
    #[inline(always)]
    pub fn tick(&mut self) -> Tick
        ensures brought { result ≡ tick_of self.old }
        ensures repeated { repeated_in self.new ≡ repeated_of self.old }
        ensures state { self.new ≡ flow_later self.old }
    {
        let (high, low) = (self.alarms.tick(), self.low.tick());
        let tick = match high.or(low) {
            // Usually no alarm is due: then the checks for alarms are skipped.
            Due::Nothing => self.cyclic.tick(Due::Nothing),
            due => self.cyclic.tick(due),
        };
        if tick.is_cyclic() {
            self.state_sent = self.state();
        }
        tick
    }

    /// What a frame of inputs says of the station now: whether its application runs, and whether a submodule of the relation
    /// has a diagnosis.
    #[inline(always)]
    pub fn state(&self) -> StationState
        ensures { result ≡ state_of self.now }
    {
        StationState {
            is_running: self.is_running,
            has_problem: self.low.has_problem(),
        }
    }

    /// What the last frame of inputs said of the station.
    pub fn state_sent(&self) -> StationState
        ensures { result ≡ self.now.state_sent }
    {
        self.state_sent
    }

    /// Which alarms are sent again after the unit that passed last.
    pub fn repeated(&self) -> Repeated
        ensures { result ≡ repeated_in self.now }
    {
        Repeated {
            high: self.alarms.is_repeated(),
            low: self.low.is_repeated(),
        }
    }

    /// The number of units up to and including the next one with which a frame of inputs is due, the data hold time is over,
    /// or an alarm is sent again or given up.
    #[inline(always)]
    pub fn due_in(&self) -> u32
        ensures value { result ≡ flow_due_in self.now }
        ensures some { 0 < result }
        ensures few { result ≤ 8388608 }
    {
        self.cyclic
            .due_in()
            .min(self.alarms.due_in())
            .min(self.low.due_in())
    }

    /// Counts several units of 31.25 microseconds at once. None of them may bring anything.
    pub fn pass(&mut self, units: u32)
        requires { units < flow_due_in self.old }
        ensures state { self.new ≡ after flow_later units self.old }
        ensures nothing { BringNothing units self.old }
        // What is due comes nearer by these units, and by no more.
        ensures due { flow_due_in self.old ≤ flow_due_in self.new + units }
    {
        self.cyclic.pass(units);
        self.alarms.pass(units);
        self.low.pass(units);
    }

    /// Whether no process alarm is open, and no alarm of either priority waits for its ACK.
    pub fn is_calm(&self) -> bool
        ensures { result ≡ is_calm self.now }
    {
        !self.alarms.is_waiting() && !self.low.is_waiting() && self.alarms.standing().is_none()
    }

    /// Counts several units of 31.25 microseconds at once, if the alarms have nothing to do. With none of them may a frame of
    /// inputs be due or the data hold time be over.
    #[inline(always)]
    pub fn pass_calm(&mut self, units: u32)
        requires calm { IsCalm self.old }
        requires few { units < cyclic_due_in self.old.cyclic }
        ensures state { self.new ≡ after flow_later units self.old }
        ensures nothing { BringNothing units self.old }
        ensures calm { IsCalm self.new }
        // The next frame comes nearer by these units, and the end of the data hold time by no more.
        ensures frame { frame_due_in self.old.cyclic.sending ≡ frame_due_in self.new.cyclic.sending + units }
        ensures held { silent_in self.old.cyclic ≤ silent_in self.new.cyclic + units }
    {
        self.cyclic.pass(units);
    }

    /// The same up to the next unit with which a frame of inputs is due. With none of them may the data hold time be over.
    #[inline(always)]
    pub fn send_calm(&mut self, units: u32)
        requires calm { IsCalm self.old }
        requires due { units ≡ frame_due_in self.old.cyclic.sending }
        requires held { units < silent_in self.old.cyclic }
        ensures state { self.new ≡ after flow_later units self.old }
        ensures nothing { BringNothing (units - 1) self.old }
        ensures some { 0 < units }
        // Only a frame is due with the last one.
        ensures last { tick_of (after flow_later (units - 1) self.old) ≡ frame_alone }
        ensures calm { IsCalm self.new }
    {
        self.cyclic.send(units);
        self.state_sent = self.state();
    }
}
