//! The parameters of a place after its plug (IEC 61158-6-10, 5.2.3 to 5.2.5): the records of the plan are written to it one after
//! another, then PrmEnd is sent, and then the device says that the place is ready. One place has its turn at a time, in the order of the
//! plugs, beside the exchange.
ghost use Rattle.std.specs.Prelude.{◌≡◌, ◌<◌, ◌≤◌, ◌+◌, ◌++◌, Some, [], map};
ghost use Rattle.arrayvec.specs.ArrayVec.{array_vec_len};
ghost use Rattle.rpc_core.specs.Call.{asked};
ghost use Rattle.rpc_core.specs.Response.{answered as responded_as};
ghost use Rattle.controller_messages.specs.declared.plug_request.PlugStep.TheVariants.{Record};
ghost use Rattle.controller_messages.specs.PlugRequests.{plug_ready_in as plug_block};
ghost use Rattle.controller_messages.specs.Sent.{bytes_of};
ghost use Rattle.controller_core.specs.stored.State.{with_live};
ghost use Rattle.controller_core.specs.Machine.{begun_turn, can_begin, is_end_of, is_plug_awaited, plug_asked, plug_called, plug_passed, plug_passed_by, plug_readied, plug_refused, plug_rejected, plug_replied, plug_responded, plugs_of, refused_place, state_of_step, step_from, then_turn};
ghost use Rattle.frame_codec.specs.Outbox.{boxed};

use crate::{Controller, RefusedRecord, State};
use controller_messages::{
    PlugRequest, PlugStep, Refusal, call_number, is_plug_ready, plug_ready_in, send_plug_answer,
    send_plug_request,
};
use frame_codec::{Caller, Outbox};
use plan_places::{PlaceState, record_from};
use plans::Plan;
use rpc_core::{Call, Response, Status};

/// What is asked of a place: the first of its records from this number on, or PrmEnd if it has none.
fn step_from(plan: &Plan, slot: u16, subslot: u16, from: u32) -> PlugStep
    ensures { result ≡ step_from plan.now slot subslot from }
{
    match record_from(plan, slot, subslot, from) {
        Some(number) => PlugStep::Record(number),
        None => PlugStep::PrmEnd,
    }
}

/// The state of a place of which this is asked, after the plug with this number.
fn state_of(step: PlugStep, number: u16) -> PlaceState
    ensures { result ≡ state_of_step step number }
{
    match step {
        PlugStep::Record(_) => PlaceState::Writing(number),
        PlugStep::PrmEnd => PlaceState::Ending(number),
    }
}

impl Controller {
    /// Whether a place waits for its turn, and nothing is in its way: data is exchanged, and no request waits for its answer.
    pub(crate) fn can_begin(&self) -> bool
        ensures { result ≡ can_begin self.now.live }
    {
        self.stands
            && matches!(self.phase, State::Exchanging)
            && self.access.is_free()
            && self.places.next_waiting().is_some()
    }

    /// The next turn begins, if one can: its first request waits for its answer from now on.
    pub(crate) fn begin_turn(&mut self)
        ensures { self.new ≡ with_live self.old (begun_turn self.old.setup self.old.live) }
    {
        if !self.can_begin() {
            return;
        }
        let Some(plug) = self.places.next_waiting() else {
            return;
        };
        let step = step_from(&self.setup.plan, plug.slot, plug.subslot, 0);
        self.ask_plug(plug.slot, plug.subslot, plug.number, step);
    }

    // This is asked of a place from now on.
    fn ask_plug(&mut self, slot: u16, subslot: u16, number: u16, step: PlugStep)
        ensures { self.new ≡ with_live self.old (plug_asked self.old.setup slot subslot number step self.old.live) }
    {
        let request = PlugRequest {
            sequence: call_number(&self.setup.plan, self.access.calls()),
            slot,
            subslot,
            number,
            step,
        };
        self.waited = 0;
        self.places.set(slot, subslot, state_of(step, number));
        self.access.make_plug(request);
    }

    /// Appends the request after a plug that waits for its answer, if one does.
    pub(crate) fn send_plug(&self, outbox: &mut Outbox)
        requires room { array_vec_len outbox.old < 4 }
        ensures frames { boxed outbox.new ≡ boxed outbox.old ++ map (bytes_of self.now.setup) (plugs_of self.now.live) }
        ensures few { array_vec_len outbox.new ≤ array_vec_len outbox.old + 1 }
    {
        if let Some(request) = self.access.plug() {
            send_plug_request(&self.setup, self.device, &request, outbox);
        }
    }

    /// After an event: the next turn begins, and its first request is sent, if a turn could not begin before the event (`could`) and can now.
    /// A turn that could begin before waits for the end of a second: data exchange begins with the answer to ApplicationReady alone.
    pub(crate) fn go_on_turn(&mut self, could: bool, outbox: &mut Outbox)
        requires room { array_vec_len outbox.old < 4 }
        ensures state { self.new ≡ with_live self.old (then_turn self.old.setup could self.old.live).live }
        ensures frames { boxed outbox.new
            ≡ boxed outbox.old ++ map (bytes_of self.old.setup) (then_turn self.old.setup could self.old.live).sent }
    {
        if could || !self.can_begin() {
            return;
        }
        self.begin_turn();
        self.send_plug(outbox);
    }

    // ---- the answer to a request

    /// A response, while this request after a plug waits.
    pub(crate) fn hear_plug_response(
        &mut self,
        request: PlugRequest,
        response: &Response<'_>,
        outbox: &mut Outbox,
    )
        requires empty { outbox.old.items ≡ [] }
        ensures state { self.new
            ≡ with_live self.old (plug_responded self.old.setup self.old.live (responded_as response.now) request).live }
        ensures frames { boxed outbox.new
            ≡ map (bytes_of self.old.setup) (plug_responded self.old.setup self.old.live (responded_as response.now) request).sent }
    {
        let header = &response.header;
        if !request.is_answered(&self.setup, &header.activity, header.sequence) {
            return;
        }
        self.take_plug_response(request, response.status);
        self.send_plug(outbox);
    }

    // The response to this request has this status: what follows of the turn is asked, or the turn is over.
    fn take_plug_response(&mut self, request: PlugRequest, status: Status)
        ensures { self.new ≡ with_live self.old (plug_replied self.old.setup self.old.live status request) }
    {
        self.access.finish_plug();
        if status.is_done() {
            self.pass_step(request);
        } else {
            self.refuse_step(request, status);
        }
    }

    // After a step that was done, or is left out: the next one of the same turn. After PrmEnd the ApplicationReady is awaited. A further
    // alarm of the place has dropped the rest of the turn.
    fn pass_step(&mut self, request: PlugRequest)
        ensures { self.new ≡ with_live self.old (plug_passed self.old.setup self.old.live request) }
    {
        match request.step {
            PlugStep::Record(number) => self.ask_behind(request, number),
            PlugStep::PrmEnd => {}
        }
    }

    // After the record with this number of the plan.
    fn ask_behind(&mut self, request: PlugRequest, number: u16)
        ensures { self.new ≡ with_live self.old (plug_passed_by self.old.setup self.old.live request (Record number)) }
    {
        let (slot, subslot) = (request.slot, request.subslot);
        if !self.places.has_turn(slot, subslot) {
            return;
        }
        let step = step_from(&self.setup.plan, slot, subslot, u32::from(number) + 1);
        self.ask_plug(slot, subslot, request.number, step);
    }

    // The device refuses a step with this status. A record is passed over if the plan says so.
    fn refuse_step(&mut self, request: PlugRequest, status: Status)
        ensures { self.new ≡ with_live self.old (plug_refused self.old.setup self.old.live status request request.step) }
    {
        match request.step {
            PlugStep::Record(number) => self.refuse_plug_record(request, number, status),
            PlugStep::PrmEnd => {
                self.refusal = Some(status);
                self.refuse_place(request);
            }
        }
    }

    // The device refuses the record with this number of the plan.
    fn refuse_plug_record(&mut self, request: PlugRequest, number: u16, status: Status)
        ensures { self.new ≡ with_live self.old (plug_refused self.old.setup self.old.live status request (Record number)) }
    {
        self.refusal = Some(status);
        self.refused_record = Some(RefusedRecord {
            number: u32::from(number),
            status,
        });
        if self.setup.plan.continues_on_refused_record() {
            self.pass_step(request);
        } else {
            self.refuse_place(request);
        }
    }

    // The turn is over, and its place is refused, if it still has its turn.
    fn refuse_place(&mut self, request: PlugRequest)
        ensures { self.new ≡ with_live self.old (refused_place request self.old.live) }
    {
        if self.places.has_turn(request.slot, request.subslot) {
            self.places
                .set(request.slot, request.subslot, PlaceState::Refused);
        }
    }

    /// A reject or a fault, while this request after a plug waits.
    pub(crate) fn hear_plug_refusal(&mut self, request: PlugRequest, refusal: &Refusal)
        ensures { self.new ≡ with_live self.old (plug_rejected self.old.setup self.old.live refusal.now request) }
    {
        if !request.is_answered(&self.setup, &refusal.activity, refusal.sequence) {
            return;
        }
        self.access.finish_plug();
        self.refusal = Some(refusal.status);
        self.refuse_place(request);
    }

    // ---- ApplicationReady for a plug

    /// A call that is no ApplicationReady of a start-up.
    pub(crate) fn hear_plug_call(&mut self, caller: &Caller, call: &Call<'_>, outbox: &mut Outbox)
        requires empty { outbox.old.items ≡ [] }
        ensures state { self.new ≡ with_live self.old (plug_called self.old.setup self.old.live caller.now (asked call.now)
            (plug_block (asked call.now))).live }
        ensures frames { boxed outbox.new
            ≡ map (bytes_of self.old.setup) (plug_called self.old.setup self.old.live caller.now (asked call.now)
            (plug_block (asked call.now))).sent }
    {
        let Some(block) = plug_ready_in(call) else {
            return;
        };
        if is_plug_ready(&self.setup, &block) && self.is_awaited(block.alarm_sequence_number) {
            self.make_ready(block.alarm_sequence_number);
            send_plug_answer(&self.setup, caller, call, &block, outbox);
        }
    }

    // Whether an ApplicationReady with this number is one of a place, while data is exchanged.
    fn is_awaited(&self, number: u16) -> bool
        ensures { result ≡ is_plug_awaited self.now.live number }
    {
        matches!(self.phase, State::Exchanging) && self.places.is_awaited(number)
    }

    // The place with this number is there. With this call the device says that it has accepted PrmEnd, so its answer is not needed.
    fn make_ready(&mut self, number: u16)
        ensures { self.new ≡ with_live self.old (plug_readied self.old.live number) }
    {
        self.places.make_ready(number);
        if self.ends_with(number) {
            self.access.finish_plug();
        }
    }

    // Whether the PrmEnd after the plug with this number waits for its answer.
    fn ends_with(&self, number: u16) -> bool
        ensures { result ≡ is_end_of number self.now.live.access.plug }
    {
        match self.access.plug() {
            Some(request) => matches!(request.step, PlugStep::PrmEnd) && request.number == number,
            None => false,
        }
    }
}
