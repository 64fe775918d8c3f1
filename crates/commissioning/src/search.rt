//! Who is at a place.
ghost use Rattle.std.specs.Prelude.{◌≡◌, ◌≢◌, ◌≤◌, length, None, Some, option_map, take, if◌then◌else◌};
ghost use Rattle.dcp_core.specs.Answered.{answered};
ghost use Rattle.commissioning.specs.Asked.{IsHeardAs, alias_asked, identify_multicast};
ghost use Rattle.commissioning.specs.Place.{IsTidy, Nobody, One, after_frame, is_found as is_found_by, met, name_of, place_of, told_name};

use crate::request::identify_by_alias;
use controller_messages::{Hearing, heard};
use dcp_core::{Kind, Response, Service};
use frame_codec::{Bytes, Frame};
use plans::Controller;
use pn_values::Mac;
use wire::at_most;

/// How many octets of a name are kept: a valid name has no more.
pub(crate) const MOST_NAME: usize = 240;

/// Which stations answered to a name by the place. It lies in the memory of a host.
#[repr(C)]
#[derive(Drop)]
pub struct Search {
    /// How many stations answered: 0, 1, or 2 for more than one.
    pub stations: u32,
    /// 1 if the answer of the first one has its name, else 0.
    pub is_told: u32,
    /// The octets of that name, at most 240: none if the station has no name, or its answer has none.
    pub length: u32,
    /// The number of the Identify by which this search asks (Xid).
    pub xid: u32,
    /// The MAC address of the first one.
    pub first: [u8; 6],
    /// The MAC address of another one, if more than one answered.
    pub other: [u8; 6],
    pub name: [u8; 240],
}

impl Search {
    /// Nobody answered yet. `xid` is the number of the Identify by which the search asks: no other request has it.
    pub fn new(xid: u32) -> Search
        ensures place { place_of result ≡ Nobody }
        // Only answers with this number will count.
        ensures number { result.xid ≡ xid }
        // A host finds no more than was reported.
        ensures tidy { IsTidy result }
    {
        Search {
            stations: 0,
            is_told: 0,
            length: 0,
            xid,
            first: [0; 6],
            other: [0; 6],
            name: [0; 240],
        }
    }

    /// Begins again: nobody answered yet. Returns the frame by which this station asks all stations which one has this name by its place:
    /// at most 511 octets. `xid` is its number, which no other request has; a controller uses 1 and 2.
    pub fn ask(&mut self, source: Mac, xid: u32, alias: &[u8]) -> Frame
        requires { length alias.now ≤ 511 }
        // A station reads the frame as an Identify with this number, and this AliasName as its only filter.
        ensures asks { IsHeardAs result.items source identify_multicast (alias_asked xid alias.now) }
        // What was answered before is forgotten.
        ensures place { place_of self.new ≡ Nobody }
        // From now on only answers with the number of this Identify count.
        ensures number { self.new.xid ≡ xid }
        // A host finds no more than was reported.
        ensures tidy { IsTidy self.new }
    {
        *self = Search::new(xid);
        identify_by_alias(source, xid, alias)
    }

    /// Hears a frame that this tool received. Only an answer to the Identify of this search counts.
    pub fn hear(&mut self, tool: &Controller, bytes: &Bytes)
        ensures place { place_of self.new ≡ after_frame tool.now self.old.xid (place_of self.old) bytes.now.items }
        // It goes on to ask by this number.
        ensures number { self.new.xid ≡ self.old.xid }
        // A host finds no more than was reported.
        ensures tidy { IsTidy self.old → IsTidy self.new }
        // After the answer of a second station the name is still that of the first one.
        ensures kept { self.old.stations ≢ 0 → self.new.stations ≢ 1 → name_of self.new ≡ name_of self.old }
    {
        if let Hearing::Answers(source, answer) = heard(tool, bytes) {
            self.hear_answer(source, &answer);
        }
    }

    /// Hears the answer of a station to a request of DCP.
    fn hear_answer(&mut self, source: Mac, answer: &Response<'_>)
        ensures place { place_of self.new ≡ (if is_found_by self.old.xid (answered answer.now) then met (place_of self.old) source.octets (told_name (answered answer.now)) else place_of self.old) }
        ensures number { self.new.xid ≡ self.old.xid }
        ensures tidy { IsTidy self.old → IsTidy self.new }
        ensures kept { self.old.stations ≢ 0 → self.new.stations ≢ 1 → name_of self.new ≡ name_of self.old }
    {
        if is_found(answer, self.xid) {
            self.meet(source, answer.value(Kind::NameOfStation));
        }
    }

    /// A station answered with this name.
    fn meet(&mut self, source: Mac, name: Option<&[u8]>)
        ensures place { place_of self.new ≡ met (place_of self.old) source.octets (option_map (λ name. name.now) name.entry) }
        ensures number { self.new.xid ≡ self.old.xid }
        ensures tidy { IsTidy self.old → IsTidy self.new }
        ensures kept { self.old.stations ≢ 0 → self.new.stations ≢ 1 → name_of self.new ≡ name_of self.old }
    {
        match self.stations {
            0 => self.meet_first(source, name),
            1 => self.meet_again(source, name),
            _ => {}
        }
    }

    /// A station answered after one.
    fn meet_again(&mut self, source: Mac, name: Option<&[u8]>)
        requires { self.old.stations ≡ 1 }
        ensures place { place_of self.new ≡ met (place_of self.old) source.octets (option_map (λ name. name.now) name.entry) }
        ensures number { self.new.xid ≡ self.old.xid }
        ensures tidy { IsTidy self.old → IsTidy self.new }
        ensures kept { self.new.stations ≢ 1 → name_of self.new ≡ name_of self.old }
    {
        if self.first == source.octets {
            self.meet_first(source, name);
        } else {
            let octets = source.octets;
            self.stations = 2;
            self.other = octets;
        }
    }

    /// The only station so far answered with this name.
    fn meet_first(&mut self, source: Mac, name: Option<&[u8]>)
        ensures place { place_of self.new ≡ One source.octets (option_map (λ name. take 240 name.now) name.entry) }
        ensures number { self.new.xid ≡ self.old.xid }
        ensures tidy { IsTidy self.new }
        ensures stations { self.new.stations ≡ 1 }
    {
        let octets = source.octets;
        self.stations = 1;
        self.first = octets;
        match name {
            Some(name) => self.keep(at_most(name, MOST_NAME)),
            None => self.forget(),
        }
    }

    /// Keeps a name.
    fn keep(&mut self, name: &[u8])
        requires few { length name.now ≤ 240 }
        requires stations { self.old.stations ≡ 1 }
        ensures told { name_of self.new ≡ Some name.now }
        ensures stations { self.new.stations ≡ self.old.stations }
        ensures first { self.new.first ≡ self.old.first }
        ensures number { self.new.xid ≡ self.old.xid }
        ensures tidy { IsTidy self.new }
    {
        self.is_told = 1;
        self.length = name.len() as u32;
        self.name[..name.len()].copy_from_slice(name);
    }

    /// Keeps that no name was reported.
    fn forget(&mut self)
        requires { self.old.stations ≡ 1 }
        ensures told { name_of self.new ≡ None }
        ensures stations { self.new.stations ≡ self.old.stations }
        ensures first { self.new.first ≡ self.old.first }
        ensures number { self.new.xid ≡ self.old.xid }
        ensures tidy { IsTidy self.new }
    {
        self.is_told = 0;
        self.length = 0;
    }
}

/// Whether an answer is one to the Identify of a search, whose number was `xid`.
fn is_found(answer: &Response<'_>, xid: u32) -> bool
    ensures { result ≡ is_found_by xid (answered answer.now) }
{
    matches!(answer.service, Service::Identify) && answer.is_supported && answer.xid == xid
}
