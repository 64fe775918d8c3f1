// What a controller asks of a device.
ghost use Rattle.std.specs.Prelude.{◌≡◌};
ghost use Rattle.controller_messages.specs.Requests.{operation_of, sequence_of, writing_from};

use crate::writes::write_count;
use plans::Plan;

/// What a controller asks of a device, in the order of a start-up: two DCP requests, and then calls.
#[derive(Clone, Copy, Debug, PartialEq, Eq)]
pub enum Request {
    /// Identify the station that has the name of the plan.
    Identify,
    /// Set the IP suite of the plan.
    Address,
    /// Connect: establish the relation.
    Connect,
    /// Write records, with the Write of this number, from 0.
    Write(u16),
    /// PrmEnd: all records are written.
    PrmEnd,
    /// Release: end the relation, with a call of this number.
    Release(u32),
    /// The Write with this number, after this many calls of the start-up were refused as busy.
    WriteAfter(u16, u16),
    /// PrmEnd, after this many calls of the start-up were refused as busy.
    PrmEndAfter(u16),
}

impl Request {
    /// The Write with this number, from 0, if the plan has one, otherwise PrmEnd.
    pub fn writing_from(plan: &Plan, number: u16) -> Request
        ensures { result ≡ writing_from plan.now number }
    {
        if u32::from(number) < write_count(plan) {
            Request::Write(number)
        } else {
            Request::PrmEnd
        }
    }

    /// The number of the call for this request; 0 if it is not a call. It depends only on the request, so that a
    /// repeated request has the same number.
    pub fn sequence(self, plan: &Plan) -> u32
        ensures { result ≡ sequence_of plan.now self }
    {
        match self {
            Request::Identify | Request::Address | Request::Connect => 0,
            Request::Write(number) => number as u32 + 1,
            Request::PrmEnd => write_count(plan) + 1,
            Request::Release(sequence) => sequence,
            Request::WriteAfter(number, tries) => u32::from(number) + u32::from(tries) + 1,
            Request::PrmEndAfter(tries) => write_count(plan) + u32::from(tries) + 1,
        }
    }

    /// The operation of that call (IEC 61158-6-10, 4.10.3.2.13).
    pub(crate) fn operation(self) -> u16
        ensures { result ≡ operation_of self }
    {
        match self {
            Request::Identify | Request::Address | Request::Connect => 0,
            Request::Release(_) => 1,
            Request::Write(_) | Request::WriteAfter(_, _) => 3,
            Request::PrmEnd | Request::PrmEndAfter(_) => 4,
        }
    }
}
