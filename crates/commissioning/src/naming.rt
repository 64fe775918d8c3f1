//! The name for the station at a place.
ghost use Rattle.std.specs.Prelude.{◌≡◌};
ghost use Rattle.dcp_core.specs.Answered.{answered, answered_block, blocks_left};
ghost use Rattle.dcp_core.specs.Answer.{number_of as number_in};
ghost use Rattle.commissioning.specs.Asked.{IsHeardAs, name_asked};
ghost use Rattle.commissioning.specs.Named.{IsNaming, error_in as error_by, error_of as error_told, error_of_block as error_told_by, is_renamed as is_renamed_by, named_by, told_by, why_unnamed};
ghost use Rattle.commissioning.specs.Place.{place_of};

use crate::request::set_name;
use crate::search::Search;
use controller_messages::{Hearing, heard};
use dcp_core::{Outcome, Response, ResponseBlock, Service};
use frame_codec::{Bytes, Frame};
use plans::Controller;
use pn_values::{Mac, StationName};

/// Why no station gets the name.
#[derive(Clone, Copy, Debug, PartialEq, Eq)]
pub enum Unnamed {
    /// No station answered.
    Nobody,
    /// More than one station answered.
    Several,
    /// The station has a name.
    Named,
    /// The station does not tell whether it has a name.
    Untold,
}

impl Search {
    /// The frame by which the station at the place gets this name, or why none gets it. `xid` is the number of the Set: another one than that
    /// of the search, and of each request before.
    pub fn name(&self, tool: &Controller, xid: u32, name: &StationName) -> Result<Frame, Unnamed>
        // The Set goes to the only station that answered, whose answer has an empty name.
        ensures { IsNaming (place_of self.now) tool.now.mac xid name.now result }
    {
        match self.unnamed() {
            Some(why) => Err(why),
            None => Ok(self.set(tool.mac, xid, name)),
        }
    }

    /// The frame by which the first station gets this name.
    fn set(&self, source: Mac, xid: u32, name: &StationName) -> Frame
        ensures { IsHeardAs result.items source (record { octets = self.now.first }) (name_asked xid name.now) }
    {
        let octets = self.first;
        set_name(source, Mac { octets }, xid, name)
    }

    /// Why no station gets a name.
    pub fn unnamed(&self) -> Option<Unnamed>
        ensures { result ≡ why_unnamed (place_of self.now) }
    {
        match self.stations {
            0 => Some(Unnamed::Nobody),
            1 => self.named(),
            _ => Some(Unnamed::Several),
        }
    }

    /// Why the only station gets no name.
    fn named(&self) -> Option<Unnamed>
        requires { self.now.stations ≡ 1 }
        ensures { result ≡ why_unnamed (place_of self.now) }
    {
        if self.is_told != 1 {
            return Some(Unnamed::Untold);
        }
        if self.length == 0 {
            return None;
        }
        Some(Unnamed::Named)
    }

    /// What a frame answers to the Set with the number `xid`: 0 if the station has the name, else the BlockError. Other frames answer nothing.
    pub fn outcome(&self, tool: &Controller, xid: u32, bytes: &Bytes) -> Option<u8>
        ensures { result ≡ named_by tool.now xid (place_of self.now) bytes.now.items }
    {
        match heard(tool, bytes) {
            Hearing::Answers(source, answer) => self.outcome_of(source, xid, &answer),
            _ => None,
        }
    }

    /// What the answer of a station to a request of DCP says of the Set.
    fn outcome_of(&self, source: Mac, xid: u32, answer: &Response<'_>) -> Option<u8>
        ensures { result ≡ told_by xid (place_of self.now) source.octets (answered answer.now) }
    {
        if self.stations == 1 && self.first == source.octets && is_renamed(answer, xid) {
            Some(error_of(answer))
        } else {
            None
        }
    }
}

/// Whether an answer is one to the Set of a name, whose number was `xid`.
fn is_renamed(answer: &Response<'_>, xid: u32) -> bool
    ensures { result ≡ is_renamed_by xid (answered answer.now) }
{
    matches!(answer.service, Service::Set) && answer.xid == xid
}

/// The BlockError of an answer, 0 for success. A service that is not supported counts as an option that is not.
fn error_of(answer: &Response<'_>) -> u8
    ensures { result ≡ error_told (answered answer.now) }
{
    if answer.is_supported {
        error_in(answer)
    } else {
        1
    }
}

/// The first BlockError of a supported answer; 1, as for an option that is not supported, if it has none.
fn error_in(answer: &Response<'_>) -> u8
    ensures { result ≡ error_by (blocks_left answer.now.blocks) }
{
    for block in answer.blocks {
        if let Some(error) = error_of_block(&block) {
            return error;
        }
    }
    1
}

/// The BlockError of a block; a block with a value has none.
fn error_of_block(block: &ResponseBlock<'_>) -> Option<u8>
    ensures { result ≡ error_told_by (answered_block block.now) }
{
    match block {
        ResponseBlock::Value { .. } => None,
        ResponseBlock::Outcome { outcome, .. } => Some(number_of(*outcome)),
    }
}

/// The number of an outcome.
fn number_of(outcome: Outcome) -> u8
    ensures { result ≡ number_in outcome }
{
    match outcome {
        Outcome::Known(error) => error as u8,
        Outcome::Other(number) => number,
    }
}
