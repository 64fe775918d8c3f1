//! The requests while data is exchanged, one at a time: the application reads or writes a record, or the records of the plan are
//! written after a plug.
ghost use Rattle.std.specs.Prelude.{◌≡◌, ◌≤◌, IfSome, length, option_map};
ghost use Rattle.block_codec.specs.Block.{block_of};
ghost use Rattle.controller_messages.specs.Access.{answered_with, call_number, dropped, is_free, is_rejected, is_reply, made, no_access, plugged, record_by, record_in, record_of, retried, unplugged};

use crate::plug_request::PlugRequest;
use crate::record_request::{MOST_RECORD_OCTETS, RecordRequest};
use crate::refusal::Refusal;
use crate::setup::Setup;
use crate::writes::write_count;
use arrayvec::ArrayVec;
use block_codec::{Block, read_block};
use plans::Plan;
use rpc_core::{Response, Status};
use std::marker::Model;
use wire::{append, at_most};

/// What a request of the application was answered with.
#[derive(Clone, Copy, Debug, PartialEq, Eq)]
pub struct Answer {
    /// The request.
    pub request: RecordRequest,
    /// All zeros if it succeeded: otherwise the PNIOStatus of the response, or the status of a reject or a fault.
    pub status: Status,
}

/// The requests of the application. The octets are made where they stay.
#[derive(Drop)]
pub struct Access {
    /// How many were made, modulo 2^32.
    calls: u32,
    /// The one that waits for its answer.
    waiting: Option<RecordRequest>,
    /// What the last one was answered with.
    answer: Option<Answer>,
    /// The octets that a Write that waits carries, or those that an answered Read brought.
    octets: ArrayVec<u8, 1308>,
    /// The request after a plug that waits for its answer.
    plug: Option<PlugRequest>,
}

impl Model for Access {
    ghost use Rattle.controller_messages.specs.Access.{Accessing};

    ghost Value = { Accessing };

    ghost view = { λ access. record {
      calls = access.calls;
      waiting = access.waiting;
      answer = access.answer;
      octets = access.octets.items;
      plug = access.plug;
    } };
}

impl Access {
    /// No request was made.
    #[inline(always)]
    pub fn new() -> Access
        ensures { result ≡ no_access }
    {
        Access {
            calls: 0,
            waiting: None,
            answer: None,
            octets: ArrayVec::new(),
            plug: None,
        }
    }

    /// No request was made, in place.
    pub fn clear(&mut self)
        ensures { self.new ≡ no_access }
    {
        self.calls = 0;
        self.waiting = None;
        self.answer = None;
        self.octets.clear();
        self.plug = None;
    }

    /// How many requests were made, modulo 2^32.
    pub fn calls(&self) -> u32
        ensures { result ≡ self.now.calls }
    {
        self.calls
    }

    /// The request that waits for its answer.
    pub fn waiting(&self) -> Option<RecordRequest>
        ensures { result ≡ self.now.waiting }
    {
        self.waiting
    }

    /// What the last request was answered with.
    pub fn answer(&self) -> Option<Answer>
        ensures { result ≡ self.now.answer }
    {
        self.answer
    }

    /// The octets that a request that waits carries.
    pub fn octets(&self) -> &[u8]
        ensures value { result.now ≡ self.now.octets }
        ensures few { length result.now ≤ 1308 }
    {
        self.octets.as_slice()
    }

    /// The record that the answer brought; empty if it brought none.
    pub fn record(&self) -> &[u8]
        ensures { result.now ≡ record_of self.now }
    {
        match self.answer {
            Some(_) => self.octets.as_slice(),
            None => &[],
        }
    }

    /// A request is made.
    pub fn make(&mut self, request: RecordRequest, octets: &[u8])
        requires few { length octets.now ≤ 1308 }
        ensures { self.new ≡ made request octets.now self.old }
    {
        self.calls = self.calls.wrapping_add(1);
        self.waiting = Some(request);
        self.answer = None;
        self.octets.clear();
        append(&mut self.octets, octets);
    }

    /// A call of the start-up was refused as busy: its next try is a call more.
    pub fn retry(&mut self)
        ensures { self.new ≡ retried self.old }
    {
        self.calls = self.calls.wrapping_add(1);
    }

    /// The request is answered with this status and this record.
    pub fn finish(&mut self, request: RecordRequest, status: Status, octets: &[u8])
        requires few { length octets.now ≤ 1308 }
        ensures { self.new ≡ answered_with request status octets.now self.old }
    {
        self.waiting = None;
        self.answer = Some(Answer { request, status });
        self.octets.clear();
        append(&mut self.octets, octets);
    }

    /// The relation ends: a request that waits is dropped.
    pub fn drop_waiting(&mut self)
        ensures { self.new ≡ dropped self.old }
    {
        self.waiting = None;
        self.plug = None;
    }

    /// Whether no request waits for its answer.
    pub fn is_free(&self) -> bool
        ensures { result ≡ is_free self.now }
    {
        self.waiting.is_none() && self.plug.is_none()
    }

    /// The request after a plug that waits for its answer.
    pub fn plug(&self) -> Option<PlugRequest>
        ensures { result ≡ self.now.plug }
    {
        self.plug
    }

    /// A request after a plug is made.
    pub fn make_plug(&mut self, request: PlugRequest)
        ensures { self.new ≡ plugged request self.old }
    {
        self.calls = self.calls.wrapping_add(1);
        self.plug = Some(request);
    }

    /// The request after a plug is answered.
    pub fn finish_plug(&mut self)
        ensures { self.new ≡ unplugged self.old }
    {
        self.plug = None;
    }
}

/// The number of the next call, after this many requests of the application.
pub fn call_number(plan: &Plan, calls: u32) -> u32
    ensures { result ≡ call_number plan.now calls }
{
    (write_count(plan) + 2).wrapping_add(calls)
}

/// Whether a response is the one to the call for this request.
pub fn is_reply(setup: &Setup, request: &RecordRequest, response: &Response<'_>) -> bool
    ensures { result ≡ is_reply setup.now request.now response.now.header }
{
    response.header.activity == setup.activity && response.header.sequence == request.sequence
}

/// Whether a refusal is the one of the call for this request.
pub fn is_rejected(setup: &Setup, request: &RecordRequest, refusal: &Refusal) -> bool
    ensures { result ≡ is_rejected setup.now request.now refusal.now }
{
    refusal.activity == setup.activity && refusal.sequence == request.sequence
}

/// The record in the blocks of the answer to a Read, if they can be read.
pub fn record_in(blocks: &[u8]) -> Option<&[u8]>
    ensures value { option_map (λ octets. octets.now) result ≡ record_in (block_of blocks.now) }
    ensures few { IfSome result (λ octets. length octets.now ≤ 1308) }
{
    match read_block(blocks) {
        Ok((Block::IodReadRes(block), rest)) => {
            let record = at_most(rest, block.header.record_data_length as usize);
            Some(at_most(record, MOST_RECORD_OCTETS))
        }
        _ => None,
    }
}
