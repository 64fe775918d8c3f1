//! The call that is asked of the application: one at a time.
ghost use Rattle.std.specs.Prelude.{◌≡◌, ◌+◌, ◌<◌, ◌≤◌, IfSome, false, length, unwrap_or};
ghost use Rattle.std.specs.Option.{option_map};
ghost use Rattle.pn_alarms.specs.Leaps.{after};
ghost use Rattle.asked_records.specs.Asked.{NeverOver, asks, behind_displaced, displaced_by, dropped_at, due_in, is_affected, is_of, is_over, is_repeat, last_number};
ghost use Rattle.asked_records.specs.Asked.{next_number, not_asked, question_in, seen, seen_in, seen_as, settled, ticked, without_relation};

use crate::question::{Question, is_same};
use arrayvec::ArrayVec;
use module_diff::Affected;
use std::marker::Model;
use wire::{Uuid, append};

/// Two seconds, in units of 31.25 microseconds: a call that has no answer after this time is refused.
const LIMIT: u32 = 64_000;
/// The number of units until something that never happens.
const NEVER: u32 = u32::MAX;

/// What is asked of the application, as it sees it.
#[derive(Clone, Copy, Debug, PartialEq, Eq)]
pub struct AskedRecord<'a> {
    /// The number of the question, which the answer names.
    pub number: u32,
    /// SlotNumber.
    pub slot: u16,
    /// SubslotNumber.
    pub subslot: u16,
    /// Index of the record.
    pub index: u16,
    /// What is wanted.
    pub wanted: Wanted<'a>,
}

/// What is wanted of the application.
#[derive(Clone, Copy, Debug, PartialEq, Eq)]
pub enum Wanted<'a> {
    /// The octets of the record. As many as this are sent.
    Read(u32),
    /// These octets are written.
    Write(&'a [u8]),
}

/// The call that is asked of the application, if there is one. It is large and stays in place.
#[derive(Drop)]
pub struct AskedRecords {
    /// The call.
    question: Option<Question>,
    /// The octets that it writes.
    octets: ArrayVec<u8, 1308>,
    /// The units since it was asked.
    waited: u32,
    /// The number of the last question, 0 before the first.
    last: u32,
}

// Its model: the call that is asked, with its octets and the units since, and the number of the last question. It has waited
// less than 64,000 units, and its record has at most 1,308 octets.
impl Model for AskedRecords {
    ghost use Rattle.std.specs.Prelude.{◌<◌, ◌≤◌};
    ghost use Rattle.std.specs.Option.{ForSome, option_map};
    ghost use Rattle.asked_records.specs.Asked.{AskedState, Standing};

    ghost Value = { AskedState };

    ghost view = { λ asked. record {
      standing = option_map (λ question. record { question = question; octets = asked.octets.items; waited = asked.waited }) asked.question;
      last = asked.last;
    } };

    ghost invariant = { λ asked. (asked.waited < 64000)
        × ForSome asked.question (λ question. question.greatest_length ≤ 1308) };
}

/// The number of the question after this one.
fn next_number(last: u32) -> u32
    ensures { result ≡ next_number last }
{
    if last == u32::MAX { 1 } else { last + 1 }
}

/// A call under this number, as the application sees it, with the octets that it writes.
fn seen<'a>(number: u32, question: &Question, octets: &'a [u8]) -> AskedRecord<'a>
    ensures { seen result ≡ seen_as number question.now octets.now }
{
    let header = question.request.header();
    AskedRecord {
        number,
        slot: header.slot_number,
        subslot: header.subslot_number,
        index: header.index,
        wanted: match question.request.is_write() {
            true => Wanted::Write(octets),
            false => Wanted::Read(header.record_data_length),
        },
    }
}

impl AskedRecords {
    /// Nothing is asked, and nothing was since the device started.
    pub fn new() -> AskedRecords
        ensures { result ≡ not_asked }
    {
        AskedRecords {
            question: None,
            octets: ArrayVec::new(),
            waited: 0,
            last: 0,
        }
    }

    /// Asks a call of the application, with the octets that it writes. Returns the number of the question, or `None` if
    /// another call is asked; then nothing changes.
    pub fn ask(&mut self, question: &Question, octets: &[u8]) -> Option<u32>
        requires length { question.now.greatest_length ≤ 1308 }
        requires few { length octets.now ≤ 1308 }
        ensures number { result ≡ option_map last_number (asks question.now octets.now self.old) }
        ensures state { self.new ≡ unwrap_or (asks question.now octets.now self.old) self.old }
    {
        if self.question.is_some() {
            return None;
        }
        self.octets.clear();
        append(&mut self.octets, octets);
        self.waited = 0;
        self.last = next_number(self.last);
        self.question = Some(*question);
        Some(self.last)
    }

    /// Before a call is asked. With `own_first`, if it is of the relation, it takes the place of a Read Implicit: that one is no
    /// longer asked, and is returned.
    #[inline(never)]
    pub fn displace(&mut self, own_first: bool, question: &Question) -> Option<Question>
        ensures question { result ≡ displaced_by own_first question.now self.old }
        ensures state { self.new ≡ behind_displaced (displaced_by own_first question.now self.old) self.old }
    {
        if !own_first || question.request.is_implicit() {
            return None;
        }
        let Some(other) = &self.question else {
            return None;
        };
        if !other.request.is_implicit() {
            return None;
        }
        let other = *other;
        self.question = None;
        Some(other)
    }

    /// The call that is asked, if there is one.
    pub fn question(&self) -> Option<&Question>
        ensures value { option_map (λ question. question.now) result ≡ question_in self.now }
        ensures few { IfSome result (λ question. question.now.greatest_length ≤ 1308) }
    {
        self.question.as_ref()
    }

    /// What is asked, if something is.
    pub fn asked(&self) -> Option<AskedRecord<'_>>
        ensures { option_map seen result ≡ seen_in self.now }
    {
        match &self.question {
            Some(question) => Some(seen(self.last, question, self.octets.as_slice())),
            None => None,
        }
    }

    /// Whether a call is a repeat of the one that is asked: it has its activity and its sequence.
    pub fn is_repeat(&self, activity: &Uuid, sequence: u32) -> bool
        ensures { result ≡ is_repeat activity.now sequence self.now }
    {
        match &self.question {
            Some(question) => {
                is_same(&question.header.activity, activity) && question.header.sequence == sequence
            }
            None => false,
        }
    }

    /// The relation with this ARUUID ends: what it asked is dropped.
    pub fn end_relation(&mut self, ar_uuid: &Uuid)
        ensures state { self.new ≡ without_relation ar_uuid.now self.old }
        // Nothing that it asked stays.
        ensures gone { is_of ar_uuid.now self.new ≡ false }
    {
        if let Some(question) = &self.question {
            if question.request.is_of_relation(ar_uuid) {
                self.question = None;
            }
        }
    }

    /// Submodules are pulled: what is asked of them is dropped.
    pub fn drop_at(&mut self, affected: Affected)
        ensures state { self.new ≡ dropped_at affected self.old }
        // Nothing that is asked of them stays.
        ensures gone { is_affected affected self.new ≡ false }
    {
        if let Some(question) = &self.question {
            let header = question.request.header();
            if affected.covers(header.slot_number, header.subslot_number) {
                self.question = None;
            }
        }
    }

    /// Counts a unit of time. Returns whether the call is refused, because it has no answer: then it is asked no longer. It is
    /// the `question` from before.
    #[inline(always)]
    pub fn tick(&mut self) -> bool
        ensures over { result ≡ is_over self.old }
        ensures state { self.new ≡ ticked self.old }
    {
        if self.question.is_none() {
            return false;
        }
        if self.waited + 1 == LIMIT {
            self.question = None;
            return true;
        }
        self.waited += 1;
        false
    }

    /// The number of units up to and including the one with which the call is refused, the largest number if none is asked.
    #[inline(always)]
    pub fn due_in(&self) -> u32
        ensures value { result ≡ due_in self.now }
        ensures some { 0 < result }
    {
        match self.question {
            Some(_) => LIMIT - self.waited,
            None => NEVER,
        }
    }

    /// Counts several units of time at once. The call may not be refused with any of them.
    pub fn pass(&mut self, units: u32)
        requires { units < due_in self.old }
        // It is what that many ticks do.
        ensures state { self.new ≡ after ticked units self.old }
        ensures nothing { NeverOver units self.old }
        // What is due comes nearer by these units, and by no more.
        ensures due { due_in self.old ≤ due_in self.new + units }
    {
        let Some(_question) = &self.question else {
            return;
        };
        self.waited += units;
    }

    /// The number of the last question, 0 before the first.
    pub(crate) fn last(&self) -> u32
        ensures { result ≡ self.now.last }
    {
        self.last
    }

    /// Nothing is asked any more.
    pub(crate) fn clear(&mut self)
        ensures { self.new ≡ settled self.old }
    {
        self.question = None;
    }
}
