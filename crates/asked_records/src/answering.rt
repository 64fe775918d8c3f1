//! What the application answers, and the response that its answer makes.
ghost use Rattle.std.specs.Prelude.{◌≡◌, ◌≤◌, [], Err, IfErr, IfNone, IfOk, Ok, OnOk, false, length, true};
ghost use Rattle.rpc_core.specs.Response.{is_done};
ghost use Rattle.asked_records.specs.Answers.{answer_blocks, answer_number, answer_status, fault_of, given_size, gives, is_refusal, judged, read_blocks, written_blocks};
ghost use Rattle.asked_records.specs.Asked.{settled};

use crate::asked::AskedRecords;
use crate::question::{Question, Request};
use crate::status::refused;
use records::{Blocks, done, put_read_answer, put_write_answer};
use rpc_core::Status;

/// The least and the greatest ErrorCode1 of an application (IEC 61158-6-10, 5.2.6).
const FIRST_CODE: u8 = 0xA0;

const LAST_CODE: u8 = 0xAF;

/// What the application answers.
#[derive(Clone, Copy, Debug, PartialEq, Eq)]
pub enum Given<'a> {
    /// The octets of a record that is read.
    Octets(&'a [u8]),
    /// A record was written.
    Done,
    /// The call is refused with this ErrorCode1, 0xA0 to 0xAF, and this ErrorCode2.
    Refused(u8, u8),
}

/// Why an answer is not accepted. The first fault in this order is returned.
#[derive(Clone, Copy, Debug, PartialEq, Eq)]
pub enum AnswerFault {
    /// No call is asked under this number.
    NotAsked,
    /// Octets for a Write, or `Done` for a Read.
    Kind,
    /// More octets than the greatest length of the record.
    Length,
    /// ErrorCode1 is below 0xA0 or above 0xAF.
    Code,
}

impl AnswerFault {
    /// The number of the fault, from 1.
    pub fn number(self) -> u8
        ensures { result ≡ answer_number self }
    {
        match self {
            AnswerFault::NotAsked => 1,
            AnswerFault::Kind => 2,
            AnswerFault::Length => 3,
            AnswerFault::Code => 4,
        }
    }
}

/// The response to a call that was asked. Its blocks are in the list that the answer filled.
#[derive(Clone, Copy)]
pub struct Reply {
    /// The call that it answers.
    pub question: Question,
    /// Its PNIOStatus.
    pub status: Status,
}

impl AskedRecords {
    /// The application answers the question with this number. The response goes to the call that asked, and nothing is asked any
    /// more: its PNIOStatus is returned, and its blocks are put into the empty list.
    pub fn answer(
        &mut self,
        number: u32,
        given: &Given<'_>,
        blocks: &mut Blocks,
    ) -> Result<Reply, AnswerFault>
        requires empty { blocks.old.items ≡ [] }
        // The call that is answered is the one that is asked, under this number.
        ensures question { IfOk result (λ reply. judged number (gives given.now) self.old ≡ Ok reply.question) }
        ensures status { IfOk result (λ reply. reply.status ≡ answer_status reply.question.request (gives given.now)) }
        ensures blocks { IfOk result (λ reply. blocks.new.items ≡ answer_blocks reply.question.request (gives given.now)) }
        // It gets no further answer.
        ensures state { OnOk result (self.new ≡ settled self.old) }
        // A refusal is never positive.
        ensures negative { IfOk result (λ reply. is_refusal (gives given.now) ≡ true → is_done reply.status ≡ false) }
        // An answer that is not accepted changes nothing.
        ensures refused { IfErr result (λ fault. (judged number (gives given.now) self.old ≡ Err fault)
            × (self.new ≡ self.old) × (blocks.new.items ≡ [])) }
    {
        match self.judge(number, given) {
            Ok(question) => Ok(self.reply(&question, given, blocks)),
            Err(fault) => Err(fault),
        }
    }

    /// The call that an answer under this number goes to, or why the answer is not accepted.
    fn judge(&self, number: u32, given: &Given<'_>) -> Result<Question, AnswerFault>
        ensures value { result ≡ judged number (gives given.now) self.now }
        ensures room { IfOk result (λ _. given_size (gives given.now) ≤ 1308) }
    {
        let Some(question) = self.question() else {
            return Err(AnswerFault::NotAsked);
        };
        if number != self.last() {
            return Err(AnswerFault::NotAsked);
        }
        match fault_of(question, given) {
            Some(fault) => Err(fault),
            None => Ok(*question),
        }
    }

    /// The response to the call that is asked, by an answer that is accepted. Nothing is asked any more.
    fn reply(&mut self, question: &Question, given: &Given<'_>, blocks: &mut Blocks) -> Reply
        requires empty { blocks.old.items ≡ [] }
        requires room { given_size (gives given.now) ≤ 1308 }
        ensures question { result.question ≡ question.now }
        ensures status { result.status ≡ answer_status question.now.request (gives given.now) }
        ensures blocks { blocks.new.items ≡ answer_blocks question.now.request (gives given.now) }
        ensures state { self.new ≡ settled self.old }
        ensures negative { is_refusal (gives given.now) ≡ true → is_done result.status ≡ false }
    {
        self.clear();
        Reply {
            question: *question,
            status: put_answer(&question.request, given, blocks),
        }
    }
}

/// Why an answer to a call is not accepted.
fn fault_of(question: &Question, given: &Given<'_>) -> Option<AnswerFault>
    ensures value { result ≡ fault_of question.now (gives given.now) }
    ensures room { IfNone result (given_size (gives given.now) ≤ question.now.greatest_length) }
{
    match *given {
        Given::Octets(_) if question.request.is_write() => Some(AnswerFault::Kind),
        Given::Octets(octets) if octets.len() > usize::from(question.greatest_length) => {
            Some(AnswerFault::Length)
        }
        Given::Octets(_) => None,
        Given::Done if question.request.is_write() => None,
        Given::Done => Some(AnswerFault::Kind),
        Given::Refused(FIRST_CODE..=LAST_CODE, _) => None,
        Given::Refused(_, _) => Some(AnswerFault::Code),
    }
}

/// Puts the blocks of the response into the empty list, and returns its PNIOStatus.
fn put_answer(request: &Request, given: &Given<'_>, blocks: &mut Blocks) -> Status
    requires empty { blocks.old.items ≡ [] }
    requires room { given_size (gives given.now) ≤ 1308 }
    ensures status { result ≡ answer_status request.now (gives given.now) }
    ensures blocks { blocks.new.items ≡ answer_blocks request.now (gives given.now) }
    ensures negative { is_refusal (gives given.now) ≡ true → is_done result ≡ false }
{
    match *given {
        Given::Octets(octets) => {
            put_read(request, octets, blocks);
            done()
        }
        Given::Done => {
            put_written(request, blocks);
            done()
        }
        Given::Refused(code1, code2) => refused(request.operation(), code1, code2),
    }
}

/// Puts the response to a Read, with as much of the record as the request asks for.
fn put_read(request: &Request, octets: &[u8], blocks: &mut Blocks)
    requires empty { blocks.old.items ≡ [] }
    requires room { length octets.now ≤ 1308 }
    ensures { blocks.new.items ≡ read_blocks request.now octets.now }
{
    match request {
        Request::Read(read) | Request::ReadImplicit(read) => put_read_answer(blocks, read, octets),
        // Octets are no answer to a Write.
        Request::Write(_) => {}
    }
}

/// Puts the response to a Write.
fn put_written(request: &Request, blocks: &mut Blocks)
    requires empty { blocks.old.items ≡ [] }
    ensures { blocks.new.items ≡ written_blocks request.now }
{
    match request {
        Request::Write(write) => put_write_answer(blocks, write),
        // A Read is not answered without octets.
        Request::Read(_) | Request::ReadImplicit(_) => {}
    }
}
