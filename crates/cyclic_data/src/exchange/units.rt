//! The units of time.
ghost use Rattle.std.specs.Prelude.{◌≡◌, ◌<◌, ◌≤◌, ◌+◌, ◌-◌, ◌&&◌, None, Some, false, is_none, not, true};
ghost use Rattle.pn_alarms.specs.Leaps.{after};
ghost use Rattle.pn_alarms.specs.declared.repeats.Due.TheVariants.{Nothing};
ghost use Rattle.cyclic_data.specs.Leaps.{frame_due_in};
ghost use Rattle.cyclic_data.specs.exchange.Units.{cyclic_later, tick_of};
ghost use Rattle.cyclic_data.specs.exchange.Leaps.{IsQuietFor, cyclic_due_in, frame_alone, silent_in, waited_for};

use crate::exchange::exchange::CyclicExchange;
use pn_alarms::{Abort, Due, NEVER};
use std::marker::Model;
use std::mem::size_of;

/// What is due with a unit of time. It is one octet, so that most units, with which nothing is due, cost little.
#[derive(Drop)]
pub struct Tick {
    brings: Brings,
}

// What is sent, or why the relation ends. The reasons of `Abort` are listed one by one, since a variant with a field
// takes two octets.
#[derive(Clone, Copy)]
enum Brings {
    Nothing,
    Cyclic,
    Alarm,
    Both,
    DataHold,
    Activity,
    Other,
}

// Its model: why the relation ends, and what is sent.
impl Model for Tick {
    ghost use Rattle.cyclic_data.specs.exchange.Units.{Brought, brought_by};

    ghost Value = { Brought };

    ghost view = { λ tick. brought_by tick.brings };
}

const _: () = prove!(size_of::<Tick>() == 1);

impl Tick {
    /// A tick with which nothing is due.
    #[inline(always)]
    pub fn nothing() -> Tick
        ensures { result ≡ record { ending = None; is_alarm = false; is_cyclic = false } }
    {
        Tick {
            brings: Brings::Nothing,
        }
    }

    /// The relation ends, and nothing else is sent.
    #[inline(always)]
    pub fn ends(reason: Abort) -> Tick
        ensures { result ≡ record { ending = Some reason; is_alarm = false; is_cyclic = false } }
    {
        let brings = match reason {
            Abort::DataHold => Brings::DataHold,
            Abort::Activity => Brings::Activity,
            Abort::Other => Brings::Other,
        };
        Tick { brings }
    }

    /// The relation does not end. The flags say whether the last data of an alarm is sent again, and whether a cyclic
    /// frame is sent.
    #[inline(always)]
    fn sends(is_alarm: bool, is_cyclic: bool) -> Tick
        ensures { result ≡ record { ending = None; is_alarm = is_alarm; is_cyclic = is_cyclic } }
    {
        let brings = match (is_alarm, is_cyclic) {
            (false, false) => Brings::Nothing,
            (false, true) => Brings::Cyclic,
            (true, false) => Brings::Alarm,
            (true, true) => Brings::Both,
        };
        Tick { brings }
    }

    /// The same, but the relation does not end.
    #[inline(always)]
    pub fn without_end(self) -> Tick
        ensures { result ≡ record self { ending = None } }
    {
        match self.brings {
            Brings::DataHold | Brings::Activity | Brings::Other => Tick::nothing(),
            _ => self,
        }
    }

    /// Whether nothing is due.
    #[inline(always)]
    pub fn is_nothing(&self) -> bool
        ensures value { result ≡ (is_none self.now.ending && (not self.now.is_alarm && not self.now.is_cyclic)) }
        ensures nothing { result ≡ true → self.now ≡ record { ending = None; is_alarm = false; is_cyclic = false } }
    {
        matches!(self.brings, Brings::Nothing)
    }

    /// Whether only a cyclic frame is sent.
    #[inline(always)]
    pub fn is_cyclic_alone(&self) -> bool
        ensures value { result ≡ (is_none self.now.ending && (not self.now.is_alarm && self.now.is_cyclic)) }
        ensures alone { result ≡ true → self.now ≡ record { ending = None; is_alarm = false; is_cyclic = true } }
    {
        matches!(self.brings, Brings::Cyclic)
    }

    /// Why the relation ends, if it does; then nothing else is sent.
    #[inline(always)]
    pub fn ending(&self) -> Option<Abort>
        ensures { result ≡ self.now.ending }
    {
        match self.brings {
            Brings::DataHold => Some(Abort::DataHold),
            Brings::Activity => Some(Abort::Activity),
            Brings::Other => Some(Abort::Other),
            _ => None,
        }
    }

    /// Whether the last data of an alarm is sent again.
    #[inline(always)]
    pub fn is_alarm(&self) -> bool
        ensures { result ≡ self.now.is_alarm }
    {
        matches!(self.brings, Brings::Alarm | Brings::Both)
    }

    /// Whether a cyclic frame is sent.
    #[inline(always)]
    pub fn is_cyclic(&self) -> bool
        ensures { result ≡ self.now.is_cyclic }
    {
        matches!(self.brings, Brings::Cyclic | Brings::Both)
    }
}

impl CyclicExchange {
    /// Counts a unit of 31.25 microseconds; `alarm` is what is due of the alarms. A frame is due each interval. Once
    /// data is exchanged, the relation ends if no frame was accepted for the data hold time, or else if the data of an
    /// alarm was sent as often as allowed without an ACK.
    #[inline(always)]
    pub fn tick(&mut self, alarm: Due) -> Tick
        ensures brought { result ≡ tick_of self.old alarm }
        ensures state { self.new ≡ cyclic_later self.old }
    {
        // The unit is counted even if the relation ends with it, so that the interval never shifts.
        let is_cyclic = self.provider.due();
        if self.begun && self.consumer.expired() {
            return Tick::ends(Abort::DataHold);
        }
        match alarm {
            Due::Nothing => Tick::sends(false, is_cyclic),
            Due::Again => Tick::sends(true, is_cyclic),
            Due::Spent => Tick::ends(Abort::Other),
        }
    }

    /// The number of units up to and including the next one with which a frame is due or the data hold time is over.
    pub fn due_in(&self) -> u32
        ensures value { result ≡ cyclic_due_in self.now }
        ensures some { 0 < result }
        ensures few { result ≤ 8388608 }
    {
        self.frame_in().min(self.silent_in())
    }

    /// The number of units up to and including the next one with which a frame is due.
    #[inline(always)]
    pub fn frame_in(&self) -> u32
        ensures value { result ≡ frame_due_in self.now.sending }
        ensures some { 0 < result }
        ensures few { result ≤ 8388608 }
    {
        self.provider.due_in()
    }

    /// The number of units up to and including the next one with which the data hold time is over, `NEVER` if no data is
    /// exchanged.
    #[inline(always)]
    pub fn silent_in(&self) -> u32
        ensures value { result ≡ silent_in self.now }
        ensures some { 0 < result }
    {
        if self.begun {
            self.consumer.over_in()
        } else {
            NEVER
        }
    }

    /// Counts several units of 31.25 microseconds at once. With none of them may a frame be due or the data hold time be
    /// over.
    pub fn pass(&mut self, units: u32)
        requires { units < cyclic_due_in self.old }
        ensures state { self.new ≡ after cyclic_later units self.old }
        ensures quiet { IsQuietFor units self.old }
        // The next frame comes nearer by these units, and the end of the data hold time by no more.
        ensures frame { frame_due_in self.old.sending ≡ frame_due_in self.new.sending + units }
        ensures held { silent_in self.old ≤ silent_in self.new + units }
    {
        self.provider.pass(units);
        self.wait(units);
    }

    /// Counts several units of the data hold time, which runs while data is exchanged. It may not be over with any of them.
    #[inline(always)]
    fn wait(&mut self, units: u32)
        requires { units < silent_in self.old }
        ensures { self.new ≡ record self.old { hearing = waited_for units self.old } }
    {
        if self.begun {
            self.consumer.pass(units);
        }
    }

    /// Counts several units of 31.25 microseconds at once, up to the next one with which a frame is due. With none of them may
    /// the data hold time be over.
    #[inline(always)]
    pub fn send(&mut self, units: u32)
        requires due { units ≡ frame_due_in self.old.sending }
        requires held { units < silent_in self.old }
        ensures state { self.new ≡ after cyclic_later units self.old }
        ensures quiet { IsQuietFor (units - 1) self.old }
        ensures some { 0 < units }
        // Only a frame is due with the last one.
        ensures last { tick_of (after cyclic_later (units - 1) self.old) Nothing ≡ frame_alone }
    {
        self.provider.restart();
        self.wait(units);
    }
}
