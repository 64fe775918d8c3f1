//! Records that the application answers: what is asked, and its answers.
ghost use Rattle.std.specs.Prelude.{◌≡◌, Some, option_map, take};
ghost use Rattle.arrayvec.specs.ArrayVec.{ArrayVec};
ghost use Rattle.asked_records.specs.Asked.{seen, seen_in};
ghost use Rattle.device_station.specs.port.State.{closed};
ghost use Rattle.device_abi.specs.Serves.{IsAnswer, IsAskedAt, IsAskedOf, IsRefusal, IsRefusalOf, IsWritten, codes_of};

use crate::reason::why_no_answer;
use crate::serving::conclude;
use asked_records::{AskedRecord, Given, Wanted};
use c_layout::{BAD_LENGTH, NOT_ASKED, Op, put};
use device_station::Port;
use wire::at_most;

// ---- what is asked

// What is asked of the application, if something is.
#[inline(never)]
pub(crate) fn tell_asked(port: &Port, op: &mut Op) -> u32
    ensures { IsAskedOf (closed port.now.port.stage) (seen_in port.now.port.device.live.rest.asked) op.old result op.new }
{
    match port.asked() {
        Ok(asked) => tell_question(asked, op),
        Err(refusal) => refusal.number(),
    }
}

// The same of an open port.
fn tell_question(asked: Option<AskedRecord<'_>>, op: &mut Op) -> u32
    ensures { IsAskedAt (option_map seen asked.entry) op.old result op.new }
{
    match asked {
        Some(asked) => tell_one(&asked, op),
        None => NOT_ASKED,
    }
}

// This is asked: the record, and what is wanted of it.
fn tell_one(asked: &AskedRecord<'_>, op: &mut Op) -> u32
    ensures { IsAskedAt (Some (seen asked.now)) op.old result op.new }
{
    op.number = asked.number;
    op.slot = u32::from(asked.slot);
    op.subslot = u32::from(asked.subslot);
    op.index = u32::from(asked.index);
    match asked.wanted {
        Wanted::Read(length) => {
            op.wanted = 1;
            op.read_length = length;
        }
        Wanted::Write(octets) => {
            op.wanted = 2;
            put(op, at_most(octets, 1308));
        }
    }
    0
}

// ---- answers

// The octets of a record that is read.
#[inline(never)]
pub(crate) fn answer(port: &mut Port, op: &mut Op, given: &[u8]) -> u32
    ensures { IsAnswer port.old given.now op.old result port.new op.new }
{
    let outcome = port.answer(op.number, given);
    let why = why_no_answer(port.device(), op.number, &Given::Octets(given));
    conclude(outcome, why, port, op)
}

// A record was written.
#[inline(never)]
pub(crate) fn written(port: &mut Port, op: &mut Op) -> u32
    ensures { IsWritten port.old op.old result port.new op.new }
{
    let outcome = port.written(op.number);
    let why = why_no_answer(port.device(), op.number, &Given::Done);
    conclude(outcome, why, port, op)
}

// A refusal: the octets are its ErrorCode1 and ErrorCode2.
#[inline(never)]
pub(crate) fn refuse(port: &mut Port, op: &mut Op, given: &[u8]) -> u32
    ensures { IsRefusal port.old given.now op.old result port.new op.new }
{
    match codes_in(given) {
        Some(codes) => refuse_with(port, op, codes),
        None => BAD_LENGTH,
    }
}

// The ErrorCode1 and ErrorCode2 in these octets, if they are two.
fn codes_in(given: &[u8]) -> Option<(u8, u8)>
    ensures { result ≡ codes_of given.now }
{
    match given {
        [code1, code2] => Some((*code1, *code2)),
        _ => None,
    }
}

// The same with these codes.
fn refuse_with(port: &mut Port, op: &mut Op, codes: (u8, u8)) -> u32
    ensures { IsRefusalOf (Some codes) port.old op.old result port.new op.new }
{
    let outcome = port.refuse(op.number, codes.0, codes.1);
    let why = why_no_answer(port.device(), op.number, &Given::Refused(codes.0, codes.1));
    conclude(outcome, why, port, op)
}
