//! The receiver of data.
ghost use Rattle.std.specs.Prelude.{◌≡◌, None};
ghost use Rattle.pn_alarms.specs.Numbers.{ack_number};
ghost use Rattle.pn_alarms.specs.Receiver.{taken_as, last_behind, answer_to};

use crate::PduType;
use crate::numbers::next_number;
use std::marker::Model;

/// What happens to data that arrives.
#[derive(Clone, Copy, Debug, PartialEq, Eq)]
pub enum Taken {
    /// It has the expected number: it is accepted and acknowledged.
    New,
    /// It is the last data that was accepted: it is acknowledged again.
    Again,
    /// It has another number and is refused.
    Refused,
}

impl Taken {
    /// The type of the PDU that is the response.
    pub fn answer(self) -> PduType
        ensures { result ≡ answer_to self }
    {
        match self {
            Taken::New | Taken::Again => PduType::Ack,
            Taken::Refused => PduType::Nack,
        }
    }
}

/// A receiver of data: it accepts each number once, in order.
#[derive(Drop)]
pub struct Receiver {
    last: Option<u16>,
}

// Its model: the number of the last data that was accepted.
impl Model for Receiver {
    ghost use Rattle.std.specs.Prelude.{ℕ, Option};

    ghost Value = { Option ℕ };

    ghost view = { λ receiver. receiver.last };
}

impl Receiver {
    /// A receiver that has accepted nothing yet.
    pub fn new() -> Receiver
        ensures { result ≡ None }
    {
        Receiver { last: None }
    }

    /// AckSeqNum of a PDU that is sent now: the number of the last data that was accepted, 0xFFFE before the first.
    pub fn number(&self) -> u16
        ensures { result ≡ ack_number self.now }
    {
        self.last.unwrap_or(0xFFFE)
    }

    /// The number of the last data that was accepted, if any was.
    pub fn last(&self) -> Option<u16>
        ensures { result ≡ self.now }
    {
        self.last
    }

    /// Receives data of this number. Returns what happens to it.
    pub fn take(&mut self, number: u16) -> Taken
        ensures taken { result ≡ taken_as self.old number }
        ensures state { self.new ≡ last_behind self.old number }
    {
        if number == next_number(self.last) {
            self.last = Some(number);
            return Taken::New;
        }
        // The partner did not receive the response: it gets it again, and the data is not accepted twice.
        if self.last == Some(number) {
            Taken::Again
        } else {
            Taken::Refused
        }
    }
}
