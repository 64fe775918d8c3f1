//! One step.
ghost use Rattle.std.specs.Prelude.{◌≡◌, ◌⊎◌, ◌<◌, ◌≤◌, ◌+◌, ◌++◌, Some, [], false, length, map, true};
ghost use Rattle.arrayvec.specs.ArrayVec.{array_vec_len};
ghost use Rattle.dcp_core.specs.Answered.{answered as answered_as};
ghost use Rattle.rpc_core.specs.Call.{asked};
ghost use Rattle.rpc_core.specs.Response.{answered as responded_as};
ghost use Rattle.controller_messages.specs.Heard.{heard_of, heard_real_time as heard_as};
ghost use Rattle.controller_messages.specs.Sent.{bytes_of};
ghost use Rattle.controller_messages.specs.Reported.{reported};
ghost use Rattle.connects.specs.answers.Connect.{chosen_by, nothing, found_in as all_found};
ghost use Rattle.controller_core.specs.declared.stored.state.Cause.TheVariants.{NoProgress};
ghost use Rattle.controller_core.specs.declared.stored.state.State.TheVariants.{Exchanging};
ghost use Rattle.controller_core.specs.Readied.{IsReadied};
ghost use Rattle.controller_core.specs.stored.State.{with_live};
ghost use Rattle.controller_messages.specs.PlugRequests.{plug_ready_in as plug_block};
ghost use Rattle.controller_core.specs.Machine.{accesses_of, accessing, after_turn, begun_turn, beside, beside_of, can_begin, failed, granted, pending_of, plug_called, refused_beside, rejected, replied, replied_by, requested, written};
ghost use Rattle.controller_core.specs.Machine.{acks_of, addressed, alarmed, answered, asking, called, come, connected, connected_by};
ghost use Rattle.controller_core.specs.Machine.{brought, decided, denied, done, due_frames, ended_by, exchange_later, flowed, found, given};
ghost use Rattle.controller_core.specs.Machine.{after_write, gone_on, is_again, handled, later, noted, outputs_of, past_record};
ghost use Rattle.controller_core.specs.Machine.{rated, readied, refused, refused_by, refused_connect, refused_end, refused_record as ended_by_record, refused_write, related_by, released, remarked, requests_of, responded, step_of};
ghost use Rattle.controller_core.specs.start_up.Answers.{ready_in as block_of_ready};
ghost use Rattle.controller_core.specs.Machine.{is_spent, quit, ticked, trying, turn_due, turn_of, turned, undone, where_due, writing};
ghost use Rattle.frame_codec.specs.Outbox.{boxed};
ghost use Rattle.pn_alarms.specs.Sending.{due};
ghost use Rattle.pn_alarms.specs.Sending.{is_again as is_repeated};

use crate::start_up::{
    Outcomes, is_addressed, is_answer, is_found, is_held, is_ready, is_refused, is_right,
    is_set_answer, is_tried, next_sequence, outcomes_of, ready_in, request_after, request_behind,
};
use crate::stored::{
    SECOND, awaits, cause_of, change, header_of, iops_in, is_alarm, is_limited, left_in, phase_for,
    route_of,
};
use crate::{Cause, Controller, Event, RefusedRecord, State};
use block_codec::ControlBlock;
use connects::{Found, found_in};
use controller_messages::{
    Hearing, MOST_RECORD_OCTETS, RecordRequest, RecordService, Refusal, Request, call_number,
    first_of, heard, heard_real_time, is_rejected, is_reply, real_time_in, record_in,
    send_alarm_end, send_outputs, send_ready_answer, send_record_request, send_request,
};
use cyclic_data::{Provider, Tick};
use diagnosis::{Priority, Report};
use frame_codec::{Bytes, Caller, Outbox, is_cyclic};
use pn_alarms::{Abort, Due, Header, Notice, PduType};
use pn_values::Mac;
use rpc_core::{Call, Response, Status};

/// The maximum number of blocks in the answer to a Connect: more than a frame holds.
const MOST_BLOCKS: usize = 400;

/// The status without an error.
const NO_ERROR: Status = Status {
    code: 0,
    decode: 0,
    code1: 0,
    code2: 0,
};

impl Controller {
    /// Handles one event: clears the outbox, and appends the frames that the event sends.
    #[tactic(auto, unfolding(crate::specs::Machine::step_of))]
    pub fn step(&mut self, event: &Event, outbox: &mut Outbox)
        ensures state { self.new ≡ (step_of self.old event.now).controller }
        ensures frames { boxed outbox.new ≡ (step_of self.old event.now).frames }
        // If data is exchanged after the step, it was exchanged before, or the event is a frame with an ApplicationReady of
        // the relation, and the step sent the positive answer to it, and nothing else.
        ensures exchanging { self.new.live.phase ≡ Exchanging →
            (self.old.live.phase ≡ Exchanging) ⊎ IsReadied self.old event.now (boxed outbox.new) }
        // After each such answer data is exchanged.
        ensures answered { IsReadied self.old event.now (boxed outbox.new) → self.new.live.phase ≡ Exchanging }
    {
        outbox.clear();
        self.handle(event, outbox);
    }

    // Handles one event.
    #[inline(always)]
    fn handle(&mut self, event: &Event, outbox: &mut Outbox)
        requires empty { outbox.old.items ≡ [] }
        ensures state { self.new ≡ with_live self.old (turn_of self.old.setup self.old.live event.now).live }
        ensures frames { boxed outbox.new ≡ map (bytes_of self.old.setup) (turn_of self.old.setup self.old.live event.now).sent }
    {
        match event {
            Event::Frame(bytes) => self.hear(bytes, outbox),
            Event::Tick => self.tick(outbox),
            Event::Give(slot, subslot, value) => self.give(*slot, *subslot, value.as_slice()),
            Event::Status(slot, subslot, is_good) => self.rate(*slot, *subslot, *is_good),
            Event::Read(slot, subslot, index) => {
                self.request(RecordService::Read, *slot, *subslot, *index, &[], outbox)
            }
            Event::Write(slot, subslot, index, octets) => {
                self.write_record(*slot, *subslot, *index, octets.as_slice(), outbox)
            }
            Event::Stop => self.quit(Cause::Stopped, outbox),
        }
    }

    // Sends a request, which is active from now on.
    fn ask(&mut self, phase: State, request: Request, outbox: &mut Outbox)
        requires empty { outbox.old.items ≡ [] }
        ensures state { self.new ≡ with_live self.old (asking self.old.setup phase request self.old.live).live }
        ensures frames { boxed outbox.new ≡ map (bytes_of self.old.setup) (asking self.old.setup phase request self.old.live).sent }
    {
        self.left = left_in(&self.setup.options, self.left, self.phase, phase);
        self.phase = phase;
        self.asked = Some(request);
        self.waited = 0;
        send_request(&self.setup, self.device, request, outbox);
    }

    // Ends the controller, and informs the device.
    fn release(&mut self, cause: Cause, outbox: &mut Outbox)
        requires empty { outbox.old.items ≡ [] }
        ensures state { self.new ≡ with_live self.old (released self.old.setup cause self.old.live).live }
        ensures frames { boxed outbox.new ≡ map (bytes_of self.old.setup) (released self.old.setup cause self.old.live).sent }
    {
        let sequence = next_sequence(&self.setup.plan, self.access.calls(), self.asked);
        self.end(cause);
        self.ask(State::Ended(cause), Request::Release(sequence), outbox);
    }

    // Ends the controller for this cause, unless it has ended.
    #[inline(never)]
    fn quit(&mut self, cause: Cause, outbox: &mut Outbox)
        requires empty { outbox.old.items ≡ [] }
        ensures state { self.new ≡ with_live self.old (quit self.old.setup cause self.old.live self.old.live.phase).live }
        ensures frames { boxed outbox.new ≡ map (bytes_of self.old.setup) (quit self.old.setup cause self.old.live self.old.live.phase).sent }
    {
        match self.phase {
            // No relation was asked for yet, so there is no device to inform.
            State::Looking | State::Addressing => self.end(cause),
            // The first cause is kept: an engineer looks for what ended the relation.
            State::Ended(_) => {}
            State::Connecting
            | State::Writing
            | State::Ending
            | State::Waiting
            | State::Exchanging => self.release(cause, outbox),
        }
    }

    // The application sets an output. Its IOPS is changed only by the first value: in each cycle there may be many outputs
    // to set.
    #[inline(never)]
    pub(crate) fn give(&mut self, slot: u16, subslot: u16, value: &[u8])
        ensures { self.new ≡ with_live self.old (given self.old.live slot subslot value.now) }
    {
        if self.exchange.give(slot, subslot, value)
            && awaits(self.outputs.as_slice(), slot, subslot)
        {
            self.remark(slot, subslot, None);
        }
    }

    // The application says whether an output is good.
    #[inline(never)]
    fn rate(&mut self, slot: u16, subslot: u16, is_good: bool)
        ensures { self.new ≡ with_live self.old (rated self.old.live slot subslot is_good) }
    {
        self.remark(slot, subslot, Some(is_good));
    }

    // Changes the marks of the output of a submodule: a value was given, or this status. The IOPS follows. Most values change no mark, so it
    // is a function of its own.
    #[inline(never)]
    fn remark(&mut self, slot: u16, subslot: u16, status: Option<bool>)
        ensures { self.new ≡ with_live self.old (remarked self.old.live slot subslot status) }
    {
        change(&mut self.outputs, slot, subslot, status);
        let iops = iops_in(self.outputs.as_slice(), slot, subslot);
        self.exchange.state(slot, subslot, iops);
    }

    // The application writes a record.
    #[inline(never)]
    fn write_record(
        &mut self,
        slot: u16,
        subslot: u16,
        index: u16,
        octets: &[u8],
        outbox: &mut Outbox,
    )
        requires empty { outbox.old.items ≡ [] }
        ensures state { self.new ≡ with_live self.old (written self.old.setup self.old.live slot subslot index octets.now).live }
        ensures frames { boxed outbox.new
            ≡ map (bytes_of self.old.setup) (written self.old.setup self.old.live slot subslot index octets.now).sent }
    {
        if octets.len() <= MOST_RECORD_OCTETS {
            self.request(RecordService::Write, slot, subslot, index, octets, outbox);
        }
    }

    // The application reads a record, or writes these octets.
    #[inline(never)]
    fn request(
        &mut self,
        service: RecordService,
        slot: u16,
        subslot: u16,
        index: u16,
        octets: &[u8],
        outbox: &mut Outbox,
    )
        requires few { length octets.now ≤ 1308 }
        requires empty { outbox.old.items ≡ [] }
        ensures state { self.new
            ≡ with_live self.old (requested self.old.setup self.old.live service slot subslot index octets.now).live }
        ensures frames { boxed outbox.new
            ≡ map (bytes_of self.old.setup) (requested self.old.setup self.old.live service slot subslot index octets.now).sent }
    {
        // A second request is refused: the first one waits for its answer, and the device serves one call at a time.
        if !self.can_request() {
            return;
        }
        let request = RecordRequest {
            sequence: call_number(&self.setup.plan, self.access.calls()),
            service,
            slot,
            subslot,
            index,
        };
        self.access_record(request, octets, outbox);
    }

    // Sends a request of the application, which waits from now on.
    fn access_record(&mut self, request: RecordRequest, octets: &[u8], outbox: &mut Outbox)
        requires few { length octets.now ≤ 1308 }
        requires empty { outbox.old.items ≡ [] }
        ensures state { self.new ≡ with_live self.old (accessing request octets.now self.old.live).live }
        ensures frames { boxed outbox.new ≡ map (bytes_of self.old.setup) (accessing request octets.now self.old.live).sent }
    {
        self.waited = 0;
        self.access.make(request, octets);
        send_record_request(&self.setup, self.device, &request, octets, outbox);
    }

    // Receives a frame.
    #[inline(never)]
    #[tactic(auto, unfolding(controller_messages::specs::Heard::heard_real_time))]
    fn hear(&mut self, bytes: &Bytes, outbox: &mut Outbox)
        requires empty { outbox.old.items ≡ [] }
        ensures state { self.new ≡ with_live self.old (turned self.old.setup self.old.live
            (heard_of self.old.setup.plan.controller bytes.now.items)).live }
        ensures frames { boxed outbox.new
            ≡ map (bytes_of self.old.setup) (turned self.old.setup self.old.live
            (heard_of self.old.setup.plan.controller bytes.now.items)).sent }
    {
        match real_time_in(self.setup.plan.controller(), bytes) {
            Some(frame) => {
                if is_cyclic(frame.frame_id) {
                    self.hear_cyclic(frame.source, frame.frame_id, frame.body);
                } else {
                    self.hear_real_time(frame.source, frame.frame_id, frame.body, outbox);
                }
            }
            None => self.hear_other(bytes, outbox),
        }
    }

    // A frame of EtherType 0x8892 to this controller that is not a cyclic frame.
    #[inline(never)]
    fn hear_real_time(&mut self, source: Mac, frame_id: u16, body: &[u8], outbox: &mut Outbox)
        requires empty { outbox.old.items ≡ [] }
        ensures state { self.new ≡ with_live self.old (turned self.old.setup self.old.live
            (heard_as source frame_id body.now)).live }
        ensures frames { boxed outbox.new
            ≡ map (bytes_of self.old.setup) (turned self.old.setup self.old.live
            (heard_as source frame_id body.now)).sent }
    {
        let hearing = heard_real_time(source, frame_id, body);
        self.turn(&hearing, outbox);
    }

    // Octets that are not a frame of EtherType 0x8892 to this controller.
    #[inline(never)]
    fn hear_other(&mut self, bytes: &Bytes, outbox: &mut Outbox)
        requires empty { outbox.old.items ≡ [] }
        ensures state { self.new ≡ with_live self.old (turned self.old.setup self.old.live
            (heard_of self.old.setup.plan.controller bytes.now.items)).live }
        ensures frames { boxed outbox.new
            ≡ map (bytes_of self.old.setup) (turned self.old.setup self.old.live
            (heard_of self.old.setup.plan.controller bytes.now.items)).sent }
    {
        let hearing = heard(self.setup.plan.controller(), bytes);
        self.turn(&hearing, outbox);
    }

    // Handles what was received.
    fn turn(&mut self, hearing: &Hearing<'_>, outbox: &mut Outbox)
        requires empty { outbox.old.items ≡ [] }
        ensures state { self.new ≡ with_live self.old (turned self.old.setup self.old.live (reported hearing.now)).live }
        ensures frames { boxed outbox.new ≡ map (bytes_of self.old.setup) (turned self.old.setup self.old.live (reported hearing.now)).sent }
    {
        match hearing {
            Hearing::Nothing => {}
            Hearing::Answers(source, answer) => self.hear_answer(*source, answer, outbox),
            Hearing::Responds(response) => self.take_response(response, outbox),
            Hearing::Refuses(refusal) => self.take_refusal(refusal, outbox),
            Hearing::Calls(caller, call) => self.hear_call(caller, call, outbox),
            // Not reached: `hear` handles a cyclic frame before a `Hearing` is made of it. It is here because the
            // contract covers any `Hearing`.
            Hearing::Cyclic(source, frame_id, body) => self.hear_cyclic(*source, *frame_id, body),
            Hearing::Alarms(source, under, header, notice) => {
                self.take_alarm(*source, *under, header, notice, outbox)
            }
        }
    }

    // A DCP answer.
    fn hear_answer(&mut self, source: Mac, answer: &dcp_core::Response<'_>, outbox: &mut Outbox)
        requires empty { outbox.old.items ≡ [] }
        ensures state { self.new ≡ with_live self.old (answered self.old.setup self.old.live source (answered_as answer.now)
            self.old.live.phase).live }
        ensures frames { boxed outbox.new
            ≡ map (bytes_of self.old.setup) (answered self.old.setup self.old.live source (answered_as answer.now)
            self.old.live.phase).sent }
    {
        match self.phase {
            State::Looking => {
                if is_found(&self.setup.plan, answer) {
                    self.find(source, answer, outbox);
                }
            }
            State::Addressing => {
                if is_set_answer(answer) {
                    self.hear_set(answer, outbox);
                }
            }
            State::Connecting
            | State::Writing
            | State::Ending
            | State::Waiting
            | State::Exchanging
            | State::Ended(_) => {}
        }
    }

    // A station was found.
    fn find(&mut self, source: Mac, answer: &dcp_core::Response<'_>, outbox: &mut Outbox)
        requires empty { outbox.old.items ≡ [] }
        ensures state { self.new ≡ with_live self.old (found self.old.setup self.old.live source (answered_as answer.now)).live }
        ensures frames { boxed outbox.new
            ≡ map (bytes_of self.old.setup) (found self.old.setup self.old.live source (answered_as answer.now)).sent }
    {
        // A station of another type has the name: to continue would write records into the wrong machine.
        if !is_right(&self.setup.plan, answer) {
            self.end(Cause::WrongDevice);
            return;
        }
        self.device = source;
        // A Set of the address that it already has would cost the station a flash write at each start of the plant.
        if is_addressed(&self.setup.plan, answer) {
            self.ask(State::Connecting, Request::Connect, outbox);
        } else {
            self.ask(State::Addressing, Request::Address, outbox);
        }
    }

    // The answer to the Set of the IP suite.
    fn hear_set(&mut self, answer: &dcp_core::Response<'_>, outbox: &mut Outbox)
        requires empty { outbox.old.items ≡ [] }
        ensures state { self.new ≡ with_live self.old (addressed self.old.setup self.old.live (answered_as answer.now)).live }
        ensures frames { boxed outbox.new ≡ map (bytes_of self.old.setup) (addressed self.old.setup self.old.live (answered_as answer.now)).sent }
    {
        if answer.is_positive() {
            self.ask(State::Connecting, Request::Connect, outbox);
        } else {
            self.end(Cause::Refused);
        }
    }

    // A response, and the turn of a place that begins after it.
    fn take_response(&mut self, response: &Response<'_>, outbox: &mut Outbox)
        requires empty { outbox.old.items ≡ [] }
        ensures state { self.new ≡ with_live self.old (after_turn self.old.setup (can_begin self.old.live)
            (responded self.old.setup self.old.live (responded_as response.now) self.old.live.asked)).live }
        ensures frames { boxed outbox.new
            ≡ map (bytes_of self.old.setup) (after_turn self.old.setup (can_begin self.old.live)
            (responded self.old.setup self.old.live (responded_as response.now) self.old.live.asked)).sent }
    {
        let could = self.can_begin();
        self.hear_response(response, outbox);
        self.go_on_turn(could, outbox);
    }

    // A reject or a fault, and the turn of a place that begins after it.
    fn take_refusal(&mut self, refusal: &Refusal, outbox: &mut Outbox)
        requires empty { outbox.old.items ≡ [] }
        ensures state { self.new ≡ with_live self.old (after_turn self.old.setup (can_begin self.old.live)
            (refused self.old.setup self.old.live refusal.now self.old.live.asked)).live }
        ensures frames { boxed outbox.new
            ≡ map (bytes_of self.old.setup) (after_turn self.old.setup (can_begin self.old.live)
            (refused self.old.setup self.old.live refusal.now self.old.live.asked)).sent }
    {
        let could = self.can_begin();
        self.hear_refusal(refusal);
        self.go_on_turn(could, outbox);
    }

    // An alarm frame, and the turn of a place that begins after it.
    fn take_alarm(
        &mut self,
        source: Mac,
        under: Priority,
        header: &Header,
        notice: &Notice<Report<'_>>,
        outbox: &mut Outbox,
    )
        requires empty { outbox.old.items ≡ [] }
        ensures state { self.new ≡ with_live self.old (after_turn self.old.setup (can_begin self.old.live)
            (alarmed self.old.live source under header.now notice.now)).live }
        ensures frames { boxed outbox.new
            ≡ map (bytes_of self.old.setup) (after_turn self.old.setup (can_begin self.old.live)
            (alarmed self.old.live source under header.now notice.now)).sent }
    {
        let could = self.can_begin();
        self.hear_alarm(source, under, header, notice, outbox);
        self.go_on_turn(could, outbox);
    }

    // A response.
    fn hear_response(&mut self, response: &Response<'_>, outbox: &mut Outbox)
        requires empty { outbox.old.items ≡ [] }
        ensures state { self.new ≡ with_live self.old (responded self.old.setup self.old.live (responded_as response.now)
            self.old.live.asked).live }
        ensures frames { boxed outbox.new
            ≡ map (bytes_of self.old.setup) (responded self.old.setup self.old.live (responded_as response.now) self.old.live.asked).sent }
    {
        match self.asked {
            Some(request) => {
                if is_answer(&self.setup, request, response) {
                    self.decide(request, response, outbox);
                }
            }
            None => self.hear_beside(response, outbox),
        }
    }

    // A response, while no request of the start-up waits: to the request after a plug, or else to that of the application.
    fn hear_beside(&mut self, response: &Response<'_>, outbox: &mut Outbox)
        requires empty { outbox.old.items ≡ [] }
        ensures state { self.new ≡ with_live self.old (beside self.old.setup self.old.live (responded_as response.now)
            self.old.live.access.plug).live }
        ensures frames { boxed outbox.new
            ≡ map (bytes_of self.old.setup) (beside self.old.setup self.old.live (responded_as response.now) self.old.live.access.plug).sent }
    {
        match self.access.plug() {
            Some(request) => self.hear_plug_response(request, response, outbox),
            None => self.hear_reply(response),
        }
    }

    // A response, while no request of the start-up waits.
    fn hear_reply(&mut self, response: &Response<'_>)
        ensures { self.new ≡ with_live self.old (replied self.old.setup self.old.live (responded_as response.now)
            self.old.live.access.waiting) }
    {
        let Some(request) = self.access.waiting() else {
            return;
        };
        if is_reply(&self.setup, &request, response) {
            self.take_reply(request, response);
        }
    }

    // The response to a request of the application.
    fn take_reply(&mut self, request: RecordRequest, response: &Response<'_>)
        ensures { self.new ≡ with_live self.old (replied_by self.old.live (responded_as response.now) request) }
    {
        if !response.status.is_done() {
            self.fail(request, response.status);
            return;
        }
        self.grant(request, response.blocks);
    }

    // A request of the application succeeded.
    fn grant(&mut self, request: RecordRequest, blocks: &[u8])
        ensures { self.new ≡ with_live self.old (granted request blocks.now request.service self.old.live) }
    {
        match request.service {
            // Blocks that cannot be read are not an answer: the Read is sent again, and the device repeats its answer.
            RecordService::Read => {
                if let Some(octets) = record_in(blocks) {
                    self.access.finish(request, NO_ERROR, octets);
                }
            }
            RecordService::Write => self.access.finish(request, NO_ERROR, &[]),
        }
    }

    // A request of the application is refused with this status.
    fn fail(&mut self, request: RecordRequest, reason: Status)
        ensures { self.new ≡ with_live self.old (failed reason request self.old.live) }
    {
        self.refusal = Some(reason);
        self.access.finish(request, reason, &[]);
    }

    // The response to the active request. That to a Release counts with any status.
    fn decide(&mut self, request: Request, response: &Response<'_>, outbox: &mut Outbox)
        requires empty { outbox.old.items ≡ [] }
        ensures state { self.new ≡ with_live self.old (decided self.old.setup self.old.live (responded_as response.now) request).live }
        ensures frames { boxed outbox.new
            ≡ map (bytes_of self.old.setup) (decided self.old.setup self.old.live (responded_as response.now) request).sent }
    {
        match request {
            Request::Release(_) => self.asked = None,
            Request::Identify
            | Request::Address
            | Request::Connect
            | Request::Write(_)
            | Request::PrmEnd
            | Request::WriteAfter(_, _)
            | Request::PrmEndAfter(_) => self.judge(request, response, outbox),
        }
    }

    // The status decides.
    fn judge(&mut self, request: Request, response: &Response<'_>, outbox: &mut Outbox)
        requires empty { outbox.old.items ≡ [] }
        ensures state { self.new ≡ with_live self.old (handled self.old.setup self.old.live (responded_as response.now) request).live }
        ensures frames { boxed outbox.new
            ≡ map (bytes_of self.old.setup) (handled self.old.setup self.old.live (responded_as response.now) request).sent }
    {
        if response.status.is_done() {
            self.go_on(request, response.blocks, outbox);
        } else {
            self.undo(request, response.status, outbox);
        }
    }

    // A negative response.
    fn undo(&mut self, request: Request, status: Status, outbox: &mut Outbox)
        requires empty { outbox.old.items ≡ [] }
        ensures state { self.new ≡ with_live self.old (undone self.old.setup self.old.live status request).live }
        ensures frames { boxed outbox.new ≡ map (bytes_of self.old.setup) (undone self.old.setup self.old.live status request).sent }
    {
        match request {
            Request::Write(number) => {
                let next = request_behind(&self.setup.plan, number);
                self.refuse_write(number, 0, next, status, outbox);
            }
            Request::WriteAfter(number, tries) => {
                let next = request_after(&self.setup.plan, number, tries);
                self.refuse_write(number, tries, next, status, outbox);
            }
            Request::PrmEnd => self.refuse_end(0, status),
            Request::PrmEndAfter(tries) => self.refuse_end(tries, status),
            Request::Connect => self.refuse_connect(status, outbox),
            Request::Identify | Request::Address | Request::Release(_) => self.deny(status),
        }
    }

    // The device refuses the Write with this number, after this many calls were refused as busy: tries it again, or refuses its first record,
    // after which this request follows.
    fn refuse_write(
        &mut self,
        number: u16,
        tries: u16,
        next: Request,
        status: Status,
        outbox: &mut Outbox,
    )
        requires empty { outbox.old.items ≡ [] }
        ensures state { self.new ≡ with_live self.old (refused_write self.old.setup self.old.live status number tries next).live }
        ensures frames { boxed outbox.new
            ≡ map (bytes_of self.old.setup) (refused_write self.old.setup self.old.live status number tries next).sent }
    {
        if is_tried(&self.setup.plan, status, tries) {
            self.try_again(Request::WriteAfter(number, tries + 1), status);
            return;
        }
        let first = first_of(&self.setup.plan, number);
        self.refuse_record(next, first, status, outbox);
    }

    // The device refuses PrmEnd, after this many calls were refused as busy: tries it again, or ends.
    fn refuse_end(&mut self, tries: u16, status: Status)
        ensures { self.new ≡ with_live self.old (refused_end self.old.setup self.old.live status tries).live }
    {
        if is_tried(&self.setup.plan, status, tries) {
            self.try_again(Request::PrmEndAfter(tries + 1), status);
        } else {
            self.deny(status);
        }
    }

    // A call is refused as busy. This request is sent with the end of the second, by a new call: the device repeats its answer to a call that it
    // has answered.
    fn try_again(&mut self, next: Request, status: Status)
        ensures { self.new ≡ with_live self.old (trying next status self.old.live).live }
    {
        self.asked = Some(next);
        self.refusal = Some(status);
        self.access.retry();
    }

    // The device refuses the Connect with this status: ends, and informs the device if it holds the relation already.
    fn refuse_connect(&mut self, status: Status, outbox: &mut Outbox)
        requires empty { outbox.old.items ≡ [] }
        ensures state { self.new ≡ with_live self.old (refused_connect self.old.setup self.old.live status).live }
        ensures frames { boxed outbox.new ≡ map (bytes_of self.old.setup) (refused_connect self.old.setup self.old.live status).sent }
    {
        if is_held(&self.setup.plan, status) {
            self.refusal = Some(status);
            self.release(Cause::Refused, outbox);
        } else {
            self.deny(status);
        }
    }

    // The record at this place of the plan is refused with this status. The request follows that comes after its Write.
    fn refuse_record(&mut self, next: Request, place: u32, status: Status, outbox: &mut Outbox)
        requires empty { outbox.old.items ≡ [] }
        ensures state { self.new ≡ with_live self.old (past_record self.old.setup next (noted status place self.old.live)).live }
        ensures frames { boxed outbox.new
            ≡ map (bytes_of self.old.setup) (past_record self.old.setup next (noted status place self.old.live)).sent }
    {
        let record = RefusedRecord {
            number: place,
            status,
        };
        self.refusal = Some(record.status);
        self.refused_record = Some(record);
        self.pass_record(next, outbox);
    }

    // After a record that was refused: ends, or goes on with this request if the plan says so.
    fn pass_record(&mut self, next: Request, outbox: &mut Outbox)
        requires empty { outbox.old.items ≡ [] }
        ensures state { self.new ≡ with_live self.old (past_record self.old.setup next self.old.live).live }
        ensures frames { boxed outbox.new ≡ map (bytes_of self.old.setup) (past_record self.old.setup next self.old.live).sent }
    {
        if self.setup.plan.continues_on_refused_record() {
            self.write(next, outbox);
        } else {
            self.end_by_record(outbox);
        }
    }

    // Ends because of a record, and informs the device if the plan says so: it has established the relation.
    fn end_by_record(&mut self, outbox: &mut Outbox)
        requires empty { outbox.old.items ≡ [] }
        ensures state { self.new ≡ with_live self.old (ended_by_record self.old.setup self.old.live).live }
        ensures frames { boxed outbox.new ≡ map (bytes_of self.old.setup) (ended_by_record self.old.setup self.old.live).sent }
    {
        if self.setup.plan.release_on_refused_record() {
            self.release(Cause::Refused, outbox);
        } else {
            self.end(Cause::Refused);
        }
    }

    // The device refuses a call with this status.
    fn deny(&mut self, status: Status)
        ensures { self.new ≡ with_live self.old (denied status self.old.live) }
    {
        self.refusal = Some(status);
        self.end(Cause::Refused);
    }

    // A reject or a fault.
    fn hear_refusal(&mut self, refusal: &Refusal)
        ensures { self.new ≡ with_live self.old (refused self.old.setup self.old.live refusal.now self.old.live.asked).live }
    {
        match self.asked {
            Some(request) => {
                if is_refused(&self.setup, request, refusal) {
                    self.refuse(request, refusal);
                }
            }
            None => self.hear_refusal_beside(refusal),
        }
    }

    // A reject or a fault, while no request of the start-up waits: of the request after a plug, or else of that of the application.
    fn hear_refusal_beside(&mut self, refusal: &Refusal)
        ensures { self.new ≡ with_live self.old (refused_beside self.old.setup self.old.live refusal.now self.old.live.access.plug) }
    {
        match self.access.plug() {
            Some(request) => self.hear_plug_refusal(request, refusal),
            None => self.hear_rejection(refusal),
        }
    }

    // A reject or a fault, while no request of the start-up waits.
    fn hear_rejection(&mut self, refusal: &Refusal)
        ensures { self.new ≡ with_live self.old (rejected self.old.setup self.old.live refusal.now self.old.live.access.waiting) }
    {
        let Some(request) = self.access.waiting() else {
            return;
        };
        if is_rejected(&self.setup, &request, refusal) {
            self.fail(request, refusal.status);
        }
    }

    // The active request is refused. To a Release a refusal is an answer like any other.
    fn refuse(&mut self, request: Request, refusal: &Refusal)
        ensures { self.new ≡ with_live self.old (refused_by self.old.live refusal.now request).live }
    {
        match request {
            Request::Release(_) => self.asked = None,
            Request::Identify
            | Request::Address
            | Request::Connect
            | Request::Write(_)
            | Request::PrmEnd
            | Request::WriteAfter(_, _)
            | Request::PrmEndAfter(_) => self.deny(refusal.status),
        }
    }

    // The request is done.
    fn go_on(&mut self, request: Request, blocks: &[u8], outbox: &mut Outbox)
        requires empty { outbox.old.items ≡ [] }
        ensures state { self.new ≡ with_live self.old (done self.old.setup self.old.live blocks.now request).live }
        ensures frames { boxed outbox.new ≡ map (bytes_of self.old.setup) (done self.old.setup self.old.live blocks.now request).sent }
    {
        match request {
            // Not reached: a DCP request has no response (`is_answer`). Nothing happens, as the definition says.
            Request::Identify | Request::Address => {}
            Request::Connect => self.connect(blocks, outbox),
            Request::Write(number) => {
                let next = request_behind(&self.setup.plan, number);
                let outcomes = outcomes_of(&self.setup.plan, number, blocks);
                self.go_on_writing(number, next, outcomes, outbox);
            }
            Request::WriteAfter(number, tries) => {
                let next = request_after(&self.setup.plan, number, tries);
                let outcomes = outcomes_of(&self.setup.plan, number, blocks);
                self.go_on_writing(number, next, outcomes, outbox);
            }
            Request::PrmEnd | Request::PrmEndAfter(_) => {
                self.phase = State::Waiting;
                self.asked = None;
                self.left = self.setup.options.waiting_patience;
            }
            // Not reached: `decide` has handled the response to a Release, with any status.
            Request::Release(_) => self.asked = None,
        }
    }

    // The device answered the Write with this number, and this became of its records. This request follows.
    fn go_on_writing(&mut self, number: u16, next: Request, outcomes: Outcomes, outbox: &mut Outbox)
        requires empty { outbox.old.items ≡ [] }
        ensures state { self.new ≡ with_live self.old (after_write self.old.setup self.old.live number next outcomes).live }
        ensures frames { boxed outbox.new
            ≡ map (bytes_of self.old.setup) (after_write self.old.setup self.old.live number next outcomes).sent }
    {
        match outcomes {
            Outcomes::AllWritten => self.write(next, outbox),
            Outcomes::Refused(place, status) => {
                let first = first_of(&self.setup.plan, number);
                self.refuse_record(next, first + u32::from(place), status, outbox);
            }
            // This is not an answer: the Write is sent again, and the device repeats its answer.
            Outcomes::Unreadable => {}
        }
    }

    // Writes records, or ends the parameters.
    fn write(&mut self, request: Request, outbox: &mut Outbox)
        requires empty { outbox.old.items ≡ [] }
        ensures state { self.new ≡ with_live self.old (writing self.old.setup request self.old.live).live }
        ensures frames { boxed outbox.new ≡ map (bytes_of self.old.setup) (writing self.old.setup request self.old.live).sent }
    {
        self.ask(phase_for(request), request, outbox);
    }

    // The Connect is answered.
    fn connect(&mut self, blocks: &[u8], outbox: &mut Outbox)
        requires empty { outbox.old.items ≡ [] }
        ensures state { self.new ≡ with_live self.old (connected self.old.setup self.old.live blocks.now (all_found 400 blocks.now nothing)).live }
        ensures frames { boxed outbox.new
            ≡ map (bytes_of self.old.setup) (connected self.old.setup self.old.live blocks.now (all_found 400 blocks.now nothing)).sent }
    {
        // Blocks that cannot be read are not an answer: the Connect is sent again, and the device repeats its answer.
        if let Some(found) = found_in(MOST_BLOCKS, blocks) {
            self.connect_by(&found, blocks, outbox);
        }
    }

    // The Connect is answered with these blocks.
    fn connect_by(&mut self, found: &Found, blocks: &[u8], outbox: &mut Outbox)
        requires empty { outbox.old.items ≡ [] }
        ensures state { self.new ≡ with_live self.old (connected_by self.old.setup self.old.live blocks.now found.now).live }
        ensures frames { boxed outbox.new ≡ map (bytes_of self.old.setup) (connected_by self.old.setup self.old.live blocks.now found.now).sent }
    {
        if !found.is_whole() {
            return;
        }
        // The device has established the relation anyway, and keeps it until it is released.
        if found.differs {
            self.release(Cause::ModuleDiff, outbox);
            return;
        }
        let Some(frame_id) = found.output else {
            return;
        };
        let Some(reference) = found.alarm else {
            return;
        };
        self.places.open(&self.setup.plan, MOST_BLOCKS, blocks);
        self.relate(frame_id, reference, found.deviates, outbox);
    }

    // The relation is established, of which these places are known.
    fn relate(&mut self, frame_id: u16, reference: u16, deviates: bool, outbox: &mut Outbox)
        requires empty { outbox.old.items ≡ [] }
        ensures state { self.new ≡ with_live self.old (related_by self.old.setup self.old.live
            (chosen_by (Some frame_id) (Some reference) deviates)).live }
        ensures frames { boxed outbox.new ≡ map (bytes_of self.old.setup) (related_by self.old.setup self.old.live
            (chosen_by (Some frame_id) (Some reference) deviates)).sent }
    {
        let times = self.setup.plan.times();
        let provider = Provider::start(times.send_clock_factor, times.reduction_ratio);
        self.exchange
            .relate(route_of(self.device, frame_id, reference), provider);
        self.stands = true;
        self.deviates = deviates;
        let first = Request::writing_from(&self.setup.plan, 0);
        self.write(first, outbox);
    }

    // A call.
    fn hear_call(&mut self, caller: &Caller, call: &Call<'_>, outbox: &mut Outbox)
        requires empty { outbox.old.items ≡ [] }
        ensures state { self.new ≡ with_live self.old (called self.old.setup self.old.live caller.now (asked call.now)
            (block_of_ready (asked call.now))).live }
        ensures frames { boxed outbox.new
            ≡ map (bytes_of self.old.setup) (called self.old.setup self.old.live caller.now (asked call.now)
            (block_of_ready (asked call.now))).sent }
    {
        match ready_in(call) {
            Some(block) => self.hear_ready(caller, call, &block, outbox),
            None => self.take_other_call(caller, call, outbox),
        }
    }

    // An ApplicationReady of a start-up.
    fn hear_ready(
        &mut self,
        caller: &Caller,
        call: &Call<'_>,
        block: &ControlBlock,
        outbox: &mut Outbox,
    )
        requires empty { outbox.old.items ≡ [] }
        ensures state { self.new ≡ with_live self.old (called self.old.setup self.old.live caller.now (asked call.now) (Some block.now)).live }
        ensures frames { boxed outbox.new
            ≡ map (bytes_of self.old.setup) (called self.old.setup self.old.live caller.now (asked call.now) (Some block.now)).sent }
    {
        if is_ready(&self.setup, block) {
            self.answer_ready(caller, call, block, outbox);
        }
    }

    // A call that is no ApplicationReady of a start-up, and the turn of a place that begins after it.
    fn take_other_call(&mut self, caller: &Caller, call: &Call<'_>, outbox: &mut Outbox)
        requires empty { outbox.old.items ≡ [] }
        ensures state { self.new ≡ with_live self.old (after_turn self.old.setup (can_begin self.old.live)
            (plug_called self.old.setup self.old.live caller.now (asked call.now) (plug_block (asked call.now)))).live }
        ensures frames { boxed outbox.new
            ≡ map (bytes_of self.old.setup) (after_turn self.old.setup (can_begin self.old.live)
            (plug_called self.old.setup self.old.live caller.now (asked call.now) (plug_block (asked call.now)))).sent }
    {
        let could = self.can_begin();
        self.hear_plug_call(caller, call, outbox);
        self.go_on_turn(could, outbox);
    }

    // ApplicationReady: data is exchanged from now on.
    fn answer_ready(
        &mut self,
        caller: &Caller,
        call: &Call<'_>,
        block: &ControlBlock,
        outbox: &mut Outbox,
    )
        requires empty { outbox.old.items ≡ [] }
        ensures state { self.new
            ≡ with_live self.old (readied self.old.live caller.now (asked call.now) block.now self.old.live.phase).live }
        ensures frames { boxed outbox.new
            ≡ map (bytes_of self.old.setup) (readied self.old.live caller.now (asked call.now) block.now self.old.live.phase).sent }
    {
        match self.phase {
            // Also in Ending: the answer to PrmEnd may be lost or late, and with this call the device says that it has
            // accepted PrmEnd.
            State::Ending | State::Waiting => {
                self.phase = State::Exchanging;
                self.asked = None;
                self.left = 0;
                self.exchange.begin();
                send_ready_answer(&self.setup, caller, call, block, outbox);
            }
            // The answer was lost, and the device asks again.
            State::Exchanging => send_ready_answer(&self.setup, caller, call, block, outbox),
            State::Looking
            | State::Addressing
            | State::Connecting
            | State::Writing
            | State::Ended(_) => {}
        }
    }

    // A cyclic frame.
    #[inline(always)]
    pub(crate) fn hear_cyclic(&mut self, source: Mac, frame_id: u16, body: &[u8])
        ensures { self.new ≡ with_live self.old (come self.old.live source frame_id body.now) }
    {
        if self.stands {
            self.exchange.receive(source, frame_id, body);
        }
    }

    // An alarm frame.
    fn hear_alarm(
        &mut self,
        source: Mac,
        under: Priority,
        header: &Header,
        notice: &Notice<Report<'_>>,
        outbox: &mut Outbox,
    )
        requires empty { outbox.old.items ≡ [] }
        ensures state { self.new ≡ with_live self.old (alarmed self.old.live source under header.now notice.now).live }
        ensures frames { boxed outbox.new ≡ map (bytes_of self.old.setup) (alarmed self.old.live source under header.now notice.now).sent }
    {
        if self.stands && is_alarm(self.exchange.route(), source, header) {
            self.hear_notice(under, notice, outbox);
        }
    }

    // Advances the timers. Returns whether the request is due again.
    fn pass(&mut self) -> bool
        ensures again { result ≡ is_again self.old.live }
        ensures state { self.new ≡ with_live self.old (later self.old.live) }
    {
        // CycleCounter counts units from the start on, in all states, and wraps around as the field does.
        self.units = self.units.wrapping_add(1);
        self.left = self.left.saturating_sub(1);
        if self.waited + 1 == SECOND {
            self.waited = 0;
            true
        } else {
            self.waited += 1;
            false
        }
    }

    // Advances the timers of the exchange.
    #[inline(always)]
    fn tick_exchange(&mut self) -> (Tick, Due, Due)
        ensures brought { result.0 ≡ brought self.old.live }
        ensures high { result.1 ≡ due self.old.live.alarms.sending }
        ensures low { result.2 ≡ due self.old.live.low_alarms.sending }
        ensures state { self.new ≡ with_live self.old (exchange_later self.old.live) }
    {
        let high = self.alarms.tick();
        let low = self.low_alarms.tick();
        (self.exchange.tick(high.or(low)), high, low)
    }

    // A unit of time is over.
    #[inline(always)]
    pub(crate) fn tick(&mut self, outbox: &mut Outbox)
        requires empty { outbox.old.items ≡ [] }
        ensures state { self.new ≡ with_live self.old (ticked self.old.setup self.old.live).live }
        ensures frames { boxed outbox.new ≡ map (bytes_of self.old.setup) (ticked self.old.setup self.old.live).sent }
    {
        if self.is_spent() {
            return self.lose_patience(outbox);
        }
        self.go_on_ticking(outbox)
    }

    // Whether the patience of the phase ends with this unit.
    #[inline(always)]
    fn is_spent(&self) -> bool
        ensures { result ≡ is_spent self.now.live }
    {
        self.left == 1 && is_limited(self.phase)
    }

    // A unit with which the patience of the phase ends.
    #[inline(never)]
    fn lose_patience(&mut self, outbox: &mut Outbox)
        requires empty { outbox.old.items ≡ [] }
        ensures state { self.new
            ≡ with_live self.old (quit self.old.setup NoProgress (later self.old.live) self.old.live.phase).live }
        ensures frames { boxed outbox.new
            ≡ map (bytes_of self.old.setup) (quit self.old.setup NoProgress (later self.old.live) self.old.live.phase).sent }
    {
        let _ = self.pass();
        self.quit(Cause::NoProgress, outbox);
    }

    // A unit with which the patience of the phase does not end.
    #[inline(always)]
    fn go_on_ticking(&mut self, outbox: &mut Outbox)
        requires empty { outbox.old.items ≡ [] }
        ensures state { self.new
            ≡ with_live self.old (gone_on (turn_due self.old.setup (is_again self.old.live) (later self.old.live)) (is_again self.old.live)).live }
        ensures frames { boxed outbox.new
            ≡ map (bytes_of self.old.setup) (gone_on (turn_due self.old.setup (is_again self.old.live) (later self.old.live)) (is_again self.old.live)).sent }
    {
        if self.pass() {
            return self.ask_again(outbox);
        }
        if !self.stands {
            return;
        }
        let (tick, high, low) = self.tick_exchange();
        // With most units nothing is due, and no frame is built. Of the others most bring only outputs, which have
        // their own path.
        if tick.is_nothing() {
            return;
        }
        if tick.is_cyclic_alone() {
            return self.send_outputs(outbox);
        }
        self.bring(&tick, high, low, false, outbox);
    }

    // A unit with which the request is due again. A turn that waits since before data was exchanged begins with it.
    #[inline(never)]
    fn ask_again(&mut self, outbox: &mut Outbox)
        requires empty { outbox.old.items ≡ [] }
        ensures state { self.new ≡ with_live self.old (gone_on (begun_turn self.old.setup self.old.live) true).live }
        ensures frames { boxed outbox.new ≡ map (bytes_of self.old.setup) (gone_on (begun_turn self.old.setup self.old.live) true).sent }
    {
        self.begin_turn();
        if !self.stands {
            return self.send_request_again(true, outbox);
        }
        let (tick, high, low) = self.tick_exchange();
        self.bring(&tick, high, low, true, outbox);
    }

    // What a unit of time brings: a timeout ends the relation, otherwise what is due is sent.
    #[inline(never)]
    fn bring(&mut self, tick: &Tick, high: Due, low: Due, is_request: bool, outbox: &mut Outbox)
        requires empty { outbox.old.items ≡ [] }
        ensures state { self.new ≡ with_live self.old (flowed self.old.live high low is_request tick.now tick.now.ending).live }
        ensures frames { boxed outbox.new
            ≡ map (bytes_of self.old.setup) (flowed self.old.live high low is_request tick.now tick.now.ending).sent }
    {
        match tick.ending() {
            Some(reason) => self.end_by(reason, outbox),
            None => self.send_due(high, low, is_request, tick.is_cyclic(), outbox),
        }
    }

    // Ends the relation, and informs the device of the reason.
    fn end_by(&mut self, reason: Abort, outbox: &mut Outbox)
        requires empty { outbox.old.items ≡ [] }
        ensures state { self.new ≡ with_live self.old (ended_by self.old.live reason).live }
        ensures frames { boxed outbox.new ≡ map (bytes_of self.old.setup) (ended_by self.old.live reason).sent }
    {
        let route = self.exchange.route();
        let header = header_of(&self.alarms, route, PduType::Error);
        send_alarm_end(&self.setup, route, &header, reason, outbox);
        self.end(cause_of(reason));
    }

    // Sends what is due with a unit: that of the relation, and the request again if it is due.
    fn send_due(&self, high: Due, low: Due, is_request: bool, is_cyclic: bool, outbox: &mut Outbox)
        requires empty { outbox.old.items ≡ [] }
        ensures frames { boxed outbox.new
            ≡ map (bytes_of self.now.setup) (due_frames self.now.live (is_repeated high) (is_repeated low) is_request is_cyclic) }
    {
        // They are sent in this order, so that the definition of a step is one list.
        self.send_ack_again(Priority::High, high.is_again(), outbox);
        self.send_ack_again(Priority::Low, low.is_again(), outbox);
        self.send_pending_again(is_request, outbox);
        self.send_outputs_due(is_cyclic, outbox);
    }

    // The AlarmAck of a priority again, if it is due and there is one.
    fn send_ack_again(&self, priority: Priority, is_due: bool, outbox: &mut Outbox)
        requires room { array_vec_len outbox.old < 4 }
        ensures frames { boxed outbox.new
            ≡ boxed outbox.old ++ map (bytes_of self.now.setup) (where_due is_due (acks_of self.now.live priority)) }
        ensures few { array_vec_len outbox.new ≤ array_vec_len outbox.old + 1 }
    {
        if !is_due {
            return;
        }
        let Some(ack) = self.end_of(priority).confirming() else {
            return;
        };
        self.send_ack(priority, &ack, outbox);
    }

    // The request again, if it is due and there is one.
    fn send_request_again(&self, is_due: bool, outbox: &mut Outbox)
        requires room { array_vec_len outbox.old < 4 }
        ensures frames { boxed outbox.new
            ≡ boxed outbox.old ++ map (bytes_of self.now.setup) (where_due is_due (requests_of self.now.live.device self.now.live.asked)) }
        ensures few { array_vec_len outbox.new ≤ array_vec_len outbox.old + 1 }
    {
        if !is_due {
            return;
        }
        let Some(request) = self.asked else {
            return;
        };
        send_request(&self.setup, self.device, request, outbox);
    }

    // The request that waits again, of the start-up or else beside the exchange, if it is due and there is one.
    fn send_pending_again(&self, is_due: bool, outbox: &mut Outbox)
        requires room { array_vec_len outbox.old < 4 }
        ensures frames { boxed outbox.new
            ≡ boxed outbox.old ++ map (bytes_of self.now.setup) (where_due is_due (pending_of self.now.live)) }
        ensures few { array_vec_len outbox.new ≤ array_vec_len outbox.old + 1 }
    {
        if !is_due {
            return;
        }
        match self.asked {
            Some(request) => send_request(&self.setup, self.device, request, outbox),
            None => self.send_beside_again(outbox),
        }
    }

    // The request after a plug again, or else that of the application, if one waits.
    fn send_beside_again(&self, outbox: &mut Outbox)
        requires room { array_vec_len outbox.old < 4 }
        ensures frames { boxed outbox.new ≡ boxed outbox.old ++ map (bytes_of self.now.setup) (beside_of self.now.live) }
        ensures few { array_vec_len outbox.new ≤ array_vec_len outbox.old + 1 }
    {
        if self.access.plug().is_some() {
            self.send_plug(outbox);
        } else {
            self.send_access_again(outbox);
        }
    }

    // The request of the application again, if one waits.
    fn send_access_again(&self, outbox: &mut Outbox)
        requires room { array_vec_len outbox.old < 4 }
        ensures frames { boxed outbox.new ≡ boxed outbox.old ++ map (bytes_of self.now.setup) (accesses_of self.now.live) }
        ensures few { array_vec_len outbox.new ≤ array_vec_len outbox.old + 1 }
    {
        let Some(request) = self.access.waiting() else {
            return;
        };
        send_record_request(
            &self.setup,
            self.device,
            &request,
            self.access.octets(),
            outbox,
        );
    }

    // The outputs.
    #[inline(never)]
    fn send_outputs(&self, outbox: &mut Outbox)
        requires room { array_vec_len outbox.old < 4 }
        ensures frames { boxed outbox.new ≡ boxed outbox.old ++ map (bytes_of self.now.setup) (outputs_of self.now.live) }
        ensures few { array_vec_len outbox.new ≤ array_vec_len outbox.old + 1 }
    {
        send_outputs(&self.setup, self.units, &self.exchange, outbox);
    }

    // The outputs, if they are due.
    fn send_outputs_due(&self, is_due: bool, outbox: &mut Outbox)
        requires room { array_vec_len outbox.old < 4 }
        ensures frames { boxed outbox.new
            ≡ boxed outbox.old ++ map (bytes_of self.now.setup) (where_due is_due (outputs_of self.now.live)) }
        ensures few { array_vec_len outbox.new ≤ array_vec_len outbox.old + 1 }
    {
        if is_due {
            self.send_outputs(outbox);
        }
    }
}
