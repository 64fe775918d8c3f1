// Records that the application answers: what a call asks of it, and the response to a call that was asked.
ghost use Rattle.std.specs.Prelude.{◌≡◌, ◌<◌, ◌≤◌, ◌+◌, ◌++◌, [], ◌∷◌, true, map, IfSome, IfOk, length, option_map, if◌then◌else◌};
ghost use Rattle.arrayvec.specs.ArrayVec.{array_vec_len};
ghost use Rattle.frame_codec.specs.Outbox.{boxed};
ghost use Rattle.wire.specs.Codec.{Gives};
ghost use Rattle.rpc_core.specs.Call.{asked};
ghost use Rattle.rpc_core.specs.Reported.{reported};
ghost use Rattle.asked_records.specs.Answers.{gives, is_refusal};
ghost use Rattle.asked_records.specs.Asked.{due_in, seen, seen_in};
ghost use Rattle.asked_records.specs.Questions.{operation_of};
ghost use Rattle.asked_records.specs.declared.question.Request.TheVariants as request;
ghost use Rattle.device_frames.specs.Sendable.{AreSendable, IsSendable};
ghost use Rattle.device_frames.specs.Sent.{bytes_of};
ghost use Rattle.device_core.specs.Asking.{answered_link, asking_of, asking_read, asking_write, calls_after, ended_by, is_new, left_asked};
ghost use Rattle.device_core.specs.Asking.{is_kept, later_calls, later_replies, looked_if, question_of, refused_calls, refused_sent, released_by, question_replies, reply_to, write_within};
ghost use Rattle.device_core.specs.Behind.{CanSend, behind, frames_of, question_asked};
ghost use Rattle.device_core.specs.Handled.{counted_rest, counted_sent, handled_gives};
ghost use Rattle.device_core.specs.Machine.{end_of};
ghost use Rattle.device_core.specs.State.{with_rest};

use crate::calls::{Answering, Serving, source_of};
use crate::{Device, Note};
use asked_records::{
    AskedRecord, AskedRecords, Given, NamedRecords, Question, RecordName, Request, Unanswered,
    judge_asked_read, judge_asked_write,
};
use block_codec::{Block, BlockType, IodReadReq, IodWriteReq};
use device_frames::send_response;
use flash_model::Flash;
use frame_codec::Outbox;
use pn_values::{Identity, Real};
use records::{
    CallFault, Operation, check_relation, is_relation, read_request, request_within, single_block,
};
use relations::{DeviceOptions, Farewell, Relation};
use rpc_core::{Looked, Status, Uuid};

impl<F: Flash<S>, const S: usize> Device<F, S> {
    /// The records that the application answers, in the order in which they were given.
    pub fn named(&self) -> &[RecordName]
        ensures { result.now ≡ self.now.station.named }
    {
        self.named.as_slice()
    }

    /// What is asked of the application, if something is.
    pub fn asked(&self) -> Option<AskedRecord<'_>>
        ensures { option_map seen result ≡ seen_in self.now.live.rest.asked }
    {
        self.asked.asked()
    }

    // A call for a record of the application: it is asked, and the call that it displaces is refused; or it is refused while
    // another one is asked.
    pub(crate) fn ask(&mut self, question: &Question, octets: &[u8], outbox: &mut Outbox) -> Note
        requires length { question.now.greatest_length ≤ 1308 }
        requires few { length octets.now ≤ 1308 }
        requires empty { outbox.old.items ≡ [] }
        ensures state { self.new ≡ behind self.old (question_asked self.old question.now octets.now) }
        ensures frames { boxed outbox.new ≡ frames_of self.old (question_asked self.old question.now octets.now) }
        ensures sendable { CanSend self.old (question_asked self.old question.now octets.now) }
        ensures note { result ≡ Note.Done }
    {
        let displaced = self.asked.displace(self.options.asks_own_first, question);
        let address = self.store.running().suite.address();
        if self.asked.ask(question, octets).is_some() {
            self.answers.refuse(
                &self.identity,
                &self.options,
                address,
                Unanswered::Busy,
                &displaced,
                outbox,
            );
            return Note::Done;
        }
        let status = Unanswered::Busy.number(question.request.operation());
        self.answers.blocks.clear();
        self.answers.reply(
            &self.identity,
            &self.options,
            address,
            question,
            status,
            outbox,
        );
        Note::Done
    }

    // An answer of the application to the question with this number.
    #[inline(never)]
    pub(crate) fn answer(&mut self, number: u32, given: &Given<'_>, outbox: &mut Outbox) -> Note
        requires empty { outbox.old.items ≡ [] }
        ensures state { self.new ≡ behind self.old (handled_gives self.old.station self.old.live number (gives given.now)) }
        ensures frames { boxed outbox.new ≡ frames_of self.old (handled_gives self.old.station self.old.live number (gives given.now)) }
        ensures sendable { CanSend self.old (handled_gives self.old.station self.old.live number (gives given.now)) }
        ensures note { result ≡ (end_of self.old.station self.old.live
            (handled_gives self.old.station self.old.live number (gives given.now))).note }
    {
        self.answers.blocks.clear();
        let Ok(reply) = self.asked.answer(number, given, &mut self.answers.blocks) else {
            return Note::Refused;
        };
        hear_asker(&reply.question, given, &mut self.relation);
        let address = self.store.running().suite.address();
        self.answers.reply_later(
            &self.identity,
            &self.options,
            address,
            &reply.question,
            reply.status,
            outbox,
        );
        Note::Done
    }

    // A unit of time of what is asked, after the relation has sent what is due: a call that has no answer in time is refused.
    #[inline(always)]
    pub(crate) fn count_asked(&mut self, outbox: &mut Outbox) -> Note
        ensures state { self.new ≡ with_rest self.old (counted_rest self.old.station
            self.old.live.values.running.suite.address (array_vec_len outbox.old) self.old.live.rest) }
        ensures frames { boxed outbox.new ≡ boxed outbox.old ++ map (bytes_of self.old.station.identity)
            (counted_sent self.old.station self.old.live.values.running.suite.address (array_vec_len outbox.old) self.old.live.rest) }
        ensures sendable { AreSendable self.old.station.identity
            (counted_sent self.old.station self.old.live.values.running.suite.address (array_vec_len outbox.old) self.old.live.rest) }
        ensures note { result ≡ Note.Done }
    {
        if self.asked.due_in() == 1 {
            return self.refuse_late(outbox);
        }
        let _ = self.asked.tick();
        Note::Done
    }

    // With this unit the call that is asked is refused, if there is room for its response. Else it waits for the next unit.
    #[inline(never)]
    fn refuse_late(&mut self, outbox: &mut Outbox) -> Note
        requires due { due_in self.old.live.rest.asked ≡ 1 }
        ensures state { self.new ≡ with_rest self.old (counted_rest self.old.station
            self.old.live.values.running.suite.address (array_vec_len outbox.old) self.old.live.rest) }
        ensures frames { boxed outbox.new ≡ boxed outbox.old ++ map (bytes_of self.old.station.identity)
            (counted_sent self.old.station self.old.live.values.running.suite.address (array_vec_len outbox.old) self.old.live.rest) }
        ensures sendable { AreSendable self.old.station.identity
            (counted_sent self.old.station self.old.live.values.running.suite.address (array_vec_len outbox.old) self.old.live.rest) }
        ensures note { result ≡ Note.Done }
    {
        if outbox.len() == 4 {
            return Note::Done;
        }
        let Some(question) = self.asked.question() else {
            return Note::Done;
        };
        let late = Some(*question);
        let _ = self.asked.tick();
        let address = self.store.running().suite.address();
        self.answers.refuse(
            &self.identity,
            &self.options,
            address,
            Unanswered::Late,
            &late,
            outbox,
        );
        Note::Done
    }
}

impl Answering {
    // A call that was asked, if there is one, is refused for this reason.
    #[inline(never)]
    fn refuse(
        &mut self,
        identity: &Identity,
        options: &DeviceOptions,
        address: [u8; 4],
        reason: Unanswered,
        question: &Option<Question>,
        outbox: &mut Outbox,
    )
        requires room { array_vec_len outbox.old < 4 }
        ensures frames { boxed outbox.new ≡ boxed outbox.old ++ map (bytes_of identity.now)
            (refused_sent options.now address reason question.now self.old.kept) }
        ensures sendable { AreSendable identity.now (refused_sent options.now address reason question.now self.old.kept) }
        ensures kept { self.new.kept ≡ refused_calls options.now identity.now address reason question.now self.old.kept }
    {
        let Some(question) = question else {
            return;
        };
        let status = reason.number(question.request.operation());
        self.blocks.clear();
        self.reply_later(identity, options, address, question, status, outbox);
    }

    // Appends the response to a call that was asked before to the outbox, if the device still has an IP address: no frame may say
    // that it comes from 0.0.0.0.
    fn reply_later(
        &mut self,
        identity: &Identity,
        options: &DeviceOptions,
        address: [u8; 4],
        question: &Question,
        status: Status,
        outbox: &mut Outbox,
    )
        requires room { array_vec_len outbox.old < 4 }
        ensures frames { boxed outbox.new ≡ boxed outbox.old ++ map (bytes_of identity.now)
            (later_replies (is_kept options.now (operation_of question.now.request)) address question.now
            (reply_to address question.now status self.old.blocks.items) self.old.kept) }
        ensures sendable { AreSendable identity.now
            (later_replies (is_kept options.now (operation_of question.now.request)) address question.now
            (reply_to address question.now status self.old.blocks.items) self.old.kept) }
        ensures kept { self.new.kept ≡ later_calls (is_kept options.now (operation_of question.now.request)) identity.now address question.now
            (reply_to address question.now status self.old.blocks.items) self.old.kept }
    {
        if address == [0; 4] {
            return;
        }
        self.reply(identity, options, address, question, status, outbox);
    }

    // Appends the response to a call that was asked to the outbox.
    #[inline(never)]
    fn reply(
        &mut self,
        identity: &Identity,
        options: &DeviceOptions,
        address: [u8; 4],
        question: &Question,
        status: Status,
        outbox: &mut Outbox,
    )
        requires room { array_vec_len outbox.old < 4 }
        ensures frames { boxed outbox.new ≡ boxed outbox.old ++ map (bytes_of identity.now)
            (question_replies (is_kept options.now (operation_of question.now.request)) question.now
            (reply_to address question.now status self.old.blocks.items) self.old.kept) }
        ensures sendable { AreSendable identity.now
            (question_replies (is_kept options.now (operation_of question.now.request)) question.now
            (reply_to address question.now status self.old.blocks.items) self.old.kept) }
        ensures kept { self.new.kept ≡ calls_after (is_kept options.now (operation_of question.now.request)) identity.now question.now
            (reply_to address question.now status self.old.blocks.items) self.old.kept }
    {
        if !is_kept(options, question.request.operation()) {
            return self.send_reply(identity, address, question, status, outbox);
        }
        self.reply_and_keep(identity, address, question, status, outbox);
    }

    // Appends the response to a call that was asked to the outbox, and keeps it, unless a later call of its activity was answered
    // meanwhile.
    fn reply_and_keep(
        &mut self,
        identity: &Identity,
        address: [u8; 4],
        question: &Question,
        status: Status,
        outbox: &mut Outbox,
    )
        requires room { array_vec_len outbox.old < 4 }
        ensures frames { boxed outbox.new ≡ boxed outbox.old ++ map (bytes_of identity.now)
            (question_replies true question.now (reply_to address question.now status self.old.blocks.items) self.old.kept) }
        ensures sendable { AreSendable identity.now
            (question_replies true question.now (reply_to address question.now status self.old.blocks.items) self.old.kept) }
        ensures kept { self.new.kept
            ≡ calls_after true identity.now question.now (reply_to address question.now status self.old.blocks.items) self.old.kept }
    {
        let (activity, sequence) = (&question.header.activity, question.header.sequence);
        if !is_new(&self.kept.look(activity, sequence)) {
            return;
        }
        let place = outbox.len();
        self.send_reply(identity, address, question, status, outbox);
        self.kept
            .keep(activity, sequence, &outbox.as_slice()[place]);
    }

    // Appends the response to a call that was asked to the outbox.
    fn send_reply(
        &self,
        identity: &Identity,
        address: [u8; 4],
        question: &Question,
        status: Status,
        outbox: &mut Outbox,
    )
        requires room { array_vec_len outbox.old < 4 }
        ensures frames { boxed outbox.new ≡ boxed outbox.old ++ bytes_of identity.now (reply_to address question.now status self.now.blocks.items) ∷ [] }
        ensures one { array_vec_len outbox.new ≡ array_vec_len outbox.old + 1 }
        ensures sendable { IsSendable identity.now (reply_to address question.now status self.now.blocks.items) }
    {
        let response = question.response(status, self.blocks.as_slice());
        send_response(identity, address, &question.caller, &response, outbox);
    }
}

/// Whether the answer to a call of this operation is stored.
pub(crate) fn is_kept(options: &DeviceOptions, operation: Operation) -> bool
    ensures { result ≡ is_kept options.now operation }
{
    match operation {
        Operation::ReadImplicit => !options.reads_not_kept,
        Operation::Connect
        | Operation::Release
        | Operation::Read
        | Operation::Write
        | Operation::Control => true,
    }
}

// Whether no call of its activity with this number or a later one was answered.
fn is_new(looked: &Looked<'_>) -> bool
    ensures { result ≡ is_new (reported looked.now) }
{
    match looked {
        Looked::New => true,
        Looked::Again(_) | Looked::Old => false,
    }
}

// An answer that is no refusal to a call that names the relation shows that the controller is alive.
fn hear_asker(question: &Question, given: &Given<'_>, relation: &mut Relation)
    ensures { relation.new ≡ answered_link question.now (gives given.now) relation.old }
{
    let is_named = is_relation(relation.uuid(), &question.request.header().ar_uuid);
    let source = source_of(&question.caller);
    relation.hear_controller(&source, is_named && !is_refusal(given), Ok(()));
}

// Whether it is a refusal.
fn is_refusal(given: &Given<'_>) -> bool
    ensures { result ≡ is_refusal (gives given.now) }
{
    match given {
        Given::Refused(_, _) => true,
        Given::Octets(_) | Given::Done => false,
    }
}

// What a call asks of the application, with the octets that it writes, or why it may not. `None` if the device answers it.
pub(crate) fn asking_of<'a>(
    named: &NamedRecords,
    real: &Real,
    standing: Option<&Uuid>,
    serving: &Serving<'a>,
) -> Result<Option<(Question, &'a [u8])>, CallFault>
    ensures value { Gives (option_map (λ x. (x.0, x.1.now))) result (asking_of real.now named.now (option_map (λ uuid. uuid.now) standing.entry)
        serving.now.caller.now (asked serving.now.call.now) serving.now.blocks.now serving.now.operation) }
    ensures valid { IfOk result (λ found. IfSome found (λ x. (x.0.greatest_length ≤ 1308) × (length x.1.now ≤ 1308))) }
{
    // Most stations name no records: then no call is read to see whether it names one.
    if named.as_slice().is_empty() {
        return Ok(None);
    }
    asking_among(named, real, standing, serving)
}

// The same at a station that names records.
fn asking_among<'a>(
    named: &NamedRecords,
    real: &Real,
    standing: Option<&Uuid>,
    serving: &Serving<'a>,
) -> Result<Option<(Question, &'a [u8])>, CallFault>
    ensures value { Gives (option_map (λ x. (x.0, x.1.now))) result (asking_of real.now named.now (option_map (λ uuid. uuid.now) standing.entry)
        serving.now.caller.now (asked serving.now.call.now) serving.now.blocks.now serving.now.operation) }
    ensures valid { IfOk result (λ found. IfSome found (λ x. (x.0.greatest_length ≤ 1308) × (length x.1.now ≤ 1308))) }
{
    let blocks = serving.blocks;
    match serving.operation {
        Operation::Read => asking_read(
            named,
            real,
            true,
            serving,
            request_within(standing, blocks),
        ),
        Operation::ReadImplicit => asking_read(named, real, false, serving, read_request(blocks)),
        Operation::Write => asking_write(named, real, standing, serving),
        Operation::Connect | Operation::Release | Operation::Control => Ok(None),
    }
}

// What a Read asks, if it can be read.
fn asking_read<'a>(
    named: &NamedRecords,
    real: &Real,
    is_within: bool,
    serving: &Serving<'a>,
    came: Result<IodReadReq, CallFault>,
) -> Result<Option<(Question, &'a [u8])>, CallFault>
    ensures value { Gives (option_map (λ x. (x.0, x.1.now))) result (asking_read real.now named.now
        (if is_within then request.Read else request.ReadImplicit) serving.now.caller.now (asked serving.now.call.now) came) }
    ensures valid { IfOk result (λ found. IfSome found (λ x. (x.0.greatest_length ≤ 1308) × (length x.1.now ≤ 1308))) }
{
    let Ok(request) = came else {
        return Ok(None);
    };
    let Some(name) = judge_asked_read(named, real, &request)? else {
        return Ok(None);
    };
    let wanted = if is_within {
        Request::Read(request)
    } else {
        Request::ReadImplicit(request)
    };
    Ok(Some((question_of(serving, wanted, &name), &[])))
}

// What a Write asks, if it can be read.
fn asking_write<'a>(
    named: &NamedRecords,
    real: &Real,
    standing: Option<&Uuid>,
    serving: &Serving<'a>,
) -> Result<Option<(Question, &'a [u8])>, CallFault>
    ensures value { Gives (option_map (λ x. (x.0, x.1.now))) result (asking_write real.now named.now serving.now.caller.now
        (asked serving.now.call.now) (write_within (option_map (λ uuid. uuid.now) standing.entry) serving.now.blocks.now)) }
    ensures valid { IfOk result (λ found. IfSome found (λ x. (x.0.greatest_length ≤ 1308) × (length x.1.now ≤ 1308))) }
{
    let Ok((request, behind)) = write_within(standing, serving.blocks) else {
        return Ok(None);
    };
    let Some(name) = judge_asked_write(named, real, &request, behind)? else {
        return Ok(None);
    };
    let size = request.header.record_data_length as usize;
    let question = question_of(serving, Request::Write(request), &name);
    Ok(Some((question, &behind[..size])))
}

// The IODWriteReqHeader of a Write in the relation, and the octets after it.
#[tactic(auto, unfolding(crate::specs::Asking::write_within))]
fn write_within<'a>(
    standing: Option<&Uuid>,
    blocks: &'a [u8],
) -> Result<(IodWriteReq, &'a [u8]), CallFault>
    ensures { Gives (λ x. (x.0, x.1.now)) result (write_within (option_map (λ uuid. uuid.now) standing.entry) blocks.now) }
{
    let (block, behind) = single_block(blocks, BlockType::IodWriteReq)?;
    let Block::IodWriteReq(request) = block else {
        return Err(CallFault::BlockForm);
    };
    check_relation(standing, &request.header.ar_uuid)?;
    Ok((request, behind))
}

// A call with this request for a record of the application.
fn question_of(serving: &Serving<'_>, request: Request, name: &RecordName) -> Question
    ensures { result ≡ question_of serving.now.caller.now (asked serving.now.call.now) request name.now }
{
    Question {
        caller: *serving.caller,
        header: serving.call.header,
        args_maximum: serving.call.args_maximum,
        request,
        greatest_length: name.greatest_length,
    }
}

// The relation with this ARUUID ended, if one did: what it asked is dropped.
pub(crate) fn leave(asked: &mut AskedRecords, uuid: &Option<Uuid>)
    ensures { asked.new ≡ left_asked uuid.now asked.old }
{
    if let Some(uuid) = uuid {
        asked.end_relation(uuid);
    }
}

// A Release with this outcome ended the relation with this ARUUID, or was refused.
pub(crate) fn leave_released(
    asked: &mut AskedRecords,
    uuid: &Option<Uuid>,
    came: Result<(), CallFault>,
)
    ensures { asked.new ≡ left_asked (released_by came uuid.now) asked.old }
{
    if came.is_ok() {
        leave(asked, uuid);
    }
}

// The ARUUID of the relation that ended with this ERR, if one did.
pub(crate) fn ended_by(ended: &Option<Farewell>) -> Option<Uuid>
    ensures { result ≡ ended_by ended.now }
{
    match ended {
        Some(farewell) => Some(farewell.uuid),
        None => None,
    }
}
