//! Data that is sent again until it is acknowledged.
ghost use Rattle.std.specs.Prelude.{◌≡◌, ◌<◌, ◌≤◌, is_some};
ghost use Rattle.pn_alarms.specs.Numbers.{send_number, is_last};
ghost use Rattle.pn_alarms.specs.Sending.{silent, sent, due, either_due, is_again, is_repeated, ticked, rested, acked};
ghost use Rattle.pn_alarms.specs.Leaps.{NothingDue, after, data_due_in};

use crate::numbers::next_number;
use std::marker::Model;

/// The number of units if nothing is ever due.
pub const NEVER: u32 = u32::MAX;

/// What is due with a unit of time.
#[derive(Clone, Copy, Debug, PartialEq, Eq)]
pub enum Due {
    /// Nothing is due.
    Nothing,
    /// The last data is sent again.
    Again,
    /// It was repeated as often as RTARetries allows and was not acknowledged: the relation ends.
    Spent,
}

impl Due {
    /// What is due of either of two senders: that the relation ends comes before that data is sent again.
    pub fn or(self, other: Due) -> Due
        ensures { result ≡ either_due self other }
    {
        match (self, other) {
            (due, Due::Nothing) => due,
            (Due::Spent, Due::Again) => Due::Spent,
            (_, due) => due,
        }
    }

    /// Whether the last data is sent again.
    pub fn is_again(self) -> bool
        ensures { result ≡ is_again self }
    {
        matches!(self, Due::Again)
    }
}

/// How data is sent: one at a time, and again until it is acknowledged.
#[derive(Drop)]
pub struct Repeats {
    interval: u32,
    limit: u32,
    last: Option<u16>,
    waiting: Option<u32>,
}

// Its model: the numbers of units after which data is sent again and given up, the number of the last data, and, while
// that is not acknowledged, the units since it was first sent.
impl Model for Repeats {
    ghost use Rattle.pn_alarms.specs.Sending.{Sending};

    ghost Value = { Sending };

    ghost use Rattle.std.specs.Prelude.{◌<◌, ◌≤◌};
    ghost use Rattle.std.specs.Option.{ForSome};

    ghost view = { λ repeats. record {
      interval = repeats.interval;
      limit = repeats.limit;
      last = repeats.last;
      waiting = repeats.waiting;
    } };

    ghost invariant = { λ repeats. (0 < repeats.interval) × (0 < repeats.limit)
        × ForSome repeats.waiting (λ units. units < repeats.limit) };
}

impl Repeats {
    /// Repeats of a relation that has sent nothing yet. RTATimeoutFactor, at least 1, is in 3,200 units of 31.25
    /// microseconds. RTARetries, at most 15, is the maximum number of repeats.
    pub fn new(timeout_factor: u16, retries: u16) -> Repeats
        requires factor { 0 < timeout_factor }
        requires few { retries ≤ 15 }
        ensures { result ≡ silent timeout_factor retries }
    {
        let interval = u32::from(timeout_factor) * 3200;
        Repeats {
            interval,
            limit: (u32::from(retries) + 1) * interval,
            last: None,
            waiting: None,
        }
    }

    /// SendSeqNum of a PDU that is sent now: the number of the last data that was sent, 0xFFFF before the first.
    pub fn number(&self) -> u16
        ensures { result ≡ send_number self.now.last }
    {
        self.last.unwrap_or(0xFFFF)
    }

    /// Whether any data was sent yet.
    pub fn has_sent(&self) -> bool
        ensures { result ≡ is_some self.now.last }
    {
        self.last.is_some()
    }

    /// Sends the next data, under a new number.
    pub fn send(&mut self)
        ensures { self.new ≡ sent self.old }
    {
        self.last = Some(next_number(self.last));
        self.waiting = Some(0);
    }

    /// Counts one unit of time. Returns what is due.
    pub fn tick(&mut self) -> Due
        ensures due { result ≡ due self.old }
        ensures state { self.new ≡ ticked self.old }
        ensures repeated { is_repeated self.new ≡ is_again result }
    {
        let Some(units) = self.waiting else {
            return Due::Nothing;
        };
        let units = units + 1;
        // It is given up at the time of the first repeat that is not allowed, and not earlier: the last repeat gets its
        // whole interval for a response.
        if units == self.limit {
            self.waiting = None;
            return Due::Spent;
        }
        self.waiting = Some(units);
        if units % self.interval == 0 {
            Due::Again
        } else {
            Due::Nothing
        }
    }

    /// Whether the last data is sent again after the unit that passed last.
    pub fn is_repeated(&self) -> bool
        ensures { result ≡ is_repeated self.now }
    {
        match self.waiting {
            Some(units) => units != 0 && units % self.interval == 0,
            None => false,
        }
    }

    /// Whether data waits for its ACK.
    pub fn is_waiting(&self) -> bool
        ensures { result ≡ is_some self.now.waiting }
    {
        self.waiting.is_some()
    }

    /// The number of units up to and including the next one with which the data is sent again or given up, `NEVER` if no
    /// data waits for its ACK.
    pub fn due_in(&self) -> u32
        ensures value { result ≡ data_due_in self.now }
        ensures some { 0 < result }
    {
        match self.waiting {
            Some(units) => (self.limit - units).min(self.interval - units % self.interval),
            None => NEVER,
        }
    }

    /// Counts several units of time at once. Nothing may be due with any of them.
    pub fn pass(&mut self, units: u32)
        requires { units < data_due_in self.old }
        ensures state { self.new ≡ after ticked units self.old }
        ensures nothing { NothingDue due ticked units self.old }
    {
        let Some(waited) = self.waiting else {
            return;
        };
        self.waiting = Some(waited + units);
    }

    /// Receives an ACK. Returns whether it acknowledges the last data that was sent; if so, that data is not sent
    /// again.
    pub fn hear_ack(&mut self, number: u16) -> bool
        ensures counts { result ≡ is_last self.old.last number }
        ensures state { self.new ≡ acked self.old number }
    {
        if self.last != Some(number) {
            return false;
        }
        self.waiting = None;
        true
    }

    /// Stops the repeats.
    pub fn rest(&mut self)
        ensures { self.new ≡ rested self.old }
    {
        self.waiting = None;
    }
}
