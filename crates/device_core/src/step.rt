// One step: what an event is, and its outcome.
ghost use Rattle.std.specs.Prelude.{◌≡◌, ◌≢◌, ◌<◌, ◌≤◌, ◌+◌, ◌++◌, ◌-◌, ◌^◌, ◌&&◌, [], true, false, List, ℕ, Option, Some, map, option_map};
ghost use Rattle.arrayvec.specs.ArrayVec.{array_vec_len};
ghost use Rattle.settings_journal.specs.settings_store.Carries.{Holds};
ghost use Rattle.dcp_core.specs.Request.{Asked};
ghost use Rattle.device_frames.specs.Heard.{Asks, heard_alarm, heard_by, heard_content, heard_of, heard_reply};
ghost use Rattle.frame_codec.specs.Frame.{arp, datagram, frame_of};
ghost use Rattle.frame_codec.specs.Meaning.{IsNoRealTime, RealTime};
ghost use Rattle.pn_alarms.specs.Message.{message_of};
ghost use Rattle.device_frames.specs.declared.event.Event.TheVariants.{Application, Frame};
ghost use Rattle.device_frames.specs.declared.local.Local.TheVariants.{Input};
ghost use Rattle.relations.specs.Farewells.{farewell_of};
ghost use Rattle.relations.specs.RelationState.{RelationState, flow_of};
ghost use Rattle.relations.specs.Timers.{farewell_for, left_behind};
ghost use Rattle.device_core.specs.Log.{err_log, with_log};
ghost use Rattle.device_core.specs.State.{Live, Station, counter_of, with_rest};
ghost use Rattle.device_frames.specs.Sendable.{AreSendable};
ghost use Rattle.device_frames.specs.Sent.{bytes_of};
ghost use Rattle.device_core.specs.Handled.{handled_alarm, handled_message, handled_cyclic, handled_given, handled_local, handled_raised, handled_rated, handled_received};
ghost use Rattle.device_core.specs.Handled.{handled_ready, handled_turned, ticked, unit_rest, unit_sent};
ghost use Rattle.device_core.specs.Asking.{ended_by, left_asked};
ghost use Rattle.device_core.specs.Behind.{is_low_reply};
ghost use Rattle.device_frames.specs.Relation.{farewells_in, inputs_of};
ghost use Rattle.device_core.specs.Behind.{CanSend, behind, brought, calls_due, due_in, frames_of};
ghost use Rattle.device_core.specs.Machine.{end_of};
ghost use Rattle.rpc_core.specs.Call.{Asked as Called};
ghost use Rattle.rpc_core.specs.Cache.{looked, again};
ghost use Rattle.device_core.specs.Faults.{StepGoesOn};
ghost use Rattle.device_core.specs.Leaps.{live_due_in};
ghost use Rattle.device_core.specs.Steady.{IsSteadyAt};
ghost use Rattle.relations.specs.declared.steady.Steady.{Steady};
ghost use Rattle.device_core.specs.Steps.{Steps, Identifies, IsServed, IsAgain, IsExactStep, IsQuietStep, StaysReliable};
ghost use Rattle.frame_codec.specs.Outbox.{boxed};

use crate::asking::{ended_by, leave};
use crate::logging::{log_err, log_fate, uuid_of};
use crate::{Device, Event, Local, Note, Octets};
use asked_records::Given;
use cyclic_data::Received;
use dcp_core::Service;
use device_frames::{
    Caller, RealTimeKind, is_asked, is_called, kind_of, open_frame, real_time_in, send_alarm,
    send_alarm_again, send_alarm_reply, send_farewell, send_inputs, send_inputs_of, send_low_alarm,
    send_plug_ready, send_ready, send_ready_again,
};
use diagnosis::{Change, Diagnosis, Priority};
use flash_model::Flash;
use frame_codec::{ContentKind, OpenFrame, Outbox, RealTimeFrame, datagram_at, packet_at};
use pn_alarms::{Abort, Header, Message, PduFate, read_message};
use pn_values::Mac;
use relations::{DataExchange, Elapsed, InputStatus, Repeated, put_status};

impl<F: Flash<S>, const S: usize> Device<F, S> {
    /// Handles an event, and replaces the content of the outbox by the frames to be sent.
    pub fn step(&mut self, event: &Event<'_>, outbox: &mut Outbox) -> Note
        ensures steps { Steps F.Flash self.old (heard_of self.old.station.identity event.now) (boxed outbox.new) result self.new }

        // If the failure counter of the flash, below 2^64 - 1, does not rise, the step is exactly the specified one. Over a
        // reliable flash with no failed commit it always is, the flash stays reliable, and no commit fails.
        ensures exact { F.failures self.new.flash ≡ F.failures self.old.flash → F.failures self.old.flash < 2 ^ 64 - 1 →
            IsExactStep self.old event.now (boxed outbox.new) result self.new }
        ensures reliable { F.is_reliable self.old.flash → self.old.live.values.has_failed ≡ false →
            F.is_reliable self.new.flash × (self.new.live.values.has_failed ≡ false)
            × IsExactStep self.old event.now (boxed outbox.new) result self.new }

        // For any flash faults, the device goes on: a fault shows only in the answers to commands and in the settings.
        ensures goes_on { StepGoesOn self.old.station self.old.live (heard_of self.old.station.identity event.now) (boxed outbox.new) result
            self.new.live }

        // An event that is not `Done` changes nothing and sends nothing. An Identify request changes nothing; if it
        // matches, it is answered, only with the identity and the running settings.
        ensures refused { result ≢ Note.Done → (self.new ≡ self.old) × (outbox.new.items ≡ []) }
        ensures identify { (asker : Mac) (request : Asked) → heard_of self.old.station.identity event.now ≡ Asks asker request →
            request.service ≡ Service.Identify →
            Identifies self.old asker request (boxed outbox.new) result self.new }

        // A call that was answered gets the same frame again, while that frame is kept.
        ensures again { (call : Called) (frame : List ℕ) → IsServed self.old.station self.old.live (heard_of self.old.station.identity event.now) call →
            looked call.header.activity call.header.sequence self.old.live.rest.calls ≡ again frame →
            IsAgain self.old frame (boxed outbox.new) result self.new }
    {
        outbox.clear(); // of what the event before sent
        self.respond(event, outbox)
    }

    /// Sets the input of a submodule, which is only read and not kept: it does what `step` does with that event, and sends nothing.
    pub fn give_input(&mut self, slot: u16, subslot: u16, value: &[u8]) -> Note
        ensures quiet { IsQuietStep self.old (Application (Input slot subslot (record { items = value.now }))) result self.new }
        // It changes nothing that is due.
        ensures due { live_due_in self.new.live ≡ live_due_in self.old.live }
        ensures steady { (steady : Steady) → IsSteadyAt steady self.old.live → IsSteadyAt steady self.new.live }
    {
        self.give(slot, subslot, value)
    }

    /// Takes a cyclic frame that the relation accepts, which is only read and not kept: it does what `step` does with the event of
    /// these octets, and sends nothing. Returns whether the octets are such a frame; if not, nothing changes.
    #[inline(always)]
    pub fn take_cyclic(&mut self, octets: &[u8]) -> bool
        ensures taken { result ≡ true → IsQuietStep self.old (Frame (record { items = octets.now })) Note.Done self.new }
        ensures left { result ≡ false → self.new ≡ self.old }
        // It only puts off what is due.
        ensures due { live_due_in self.old.live ≤ live_due_in self.new.live }
        ensures steady { (steady : Steady) → IsSteadyAt steady self.old.live → IsSteadyAt steady self.new.live }
    {
        match real_time_in(octets) {
            Some(frame) => self.take_real_time(&frame),
            None => false,
        }
    }

    // The same of a frame of EtherType 0x8892.
    #[inline(always)]
    fn take_real_time(&mut self, frame: &RealTimeFrame) -> bool
        ensures taken { (octets : List ℕ) → heard_of self.old.station.identity (Frame (record { items = octets }))
            ≡ heard_content self.old.station.identity frame.now.destination frame.now.source (RealTime frame.now.frame_id frame.now.body.now) →
            result ≡ true → IsQuietStep self.old (Frame (record { items = octets })) Note.Done self.new }
        ensures left { result ≡ false → self.new ≡ self.old }
        ensures due { live_due_in self.old.live ≤ live_due_in self.new.live }
        ensures steady { (steady : Steady) → IsSteadyAt steady self.old.live → IsSteadyAt steady self.new.live }
    {
        match kind_of(&self.identity, frame.destination, frame.frame_id) {
            RealTimeKind::Cyclic => {
                is_done(self.hear_cyclic(frame.source, frame.frame_id, frame.body))
            }
            RealTimeKind::Alarm | RealTimeKind::Request | RealTimeKind::Elsewhere => false,
        }
    }

    // The outcome of an event.
    fn respond(&mut self, event: &Event<'_>, outbox: &mut Outbox) -> Note
        requires empty { outbox.old.items ≡ [] }
        ensures steps { Steps F.Flash self.old (heard_of self.old.station.identity event.now) (boxed outbox.new) result self.new }
        ensures reliable { StaysReliable F.Flash self.old self.new }
    {
        // Using a field makes the invariant known here.
        let _ = &self.identity;
        match event {
            Event::Tick => self.tick(outbox),
            Event::Application(local) => self.apply(local, outbox),
            Event::Neighbour(neighbour) => self.meet(neighbour),
            Event::Frame(bytes) => self.hear(bytes.as_slice(), outbox),
            Event::Call(caller, address, octets) => {
                self.hear_datagram(caller, *address, octets.as_slice(), outbox)
            }
        }
    }

    // What the application says.
    fn apply(&mut self, local: &Local<Octets<'_, 1519>>, outbox: &mut Outbox) -> Note
        requires empty { outbox.old.items ≡ [] }
        ensures state { self.new ≡ behind self.old (handled_local self.old.station self.old.live local.now) }
        ensures frames { boxed outbox.new ≡ frames_of self.old (handled_local self.old.station self.old.live local.now) }
        ensures sendable { CanSend self.old (handled_local self.old.station self.old.live local.now) }
        ensures note { result ≡ (end_of self.old.station self.old.live (handled_local self.old.station self.old.live local.now)).note }
    {
        match local {
            Local::Input(slot, subslot, value) => self.give(*slot, *subslot, value.as_slice()),
            Local::Alarm(slot, subslot, octets) => {
                self.raise(*slot, *subslot, octets.as_slice(), outbox)
            }
            Local::Status(slot, subslot, is_good) => self.rate(*slot, *subslot, *is_good),
            Local::Pull(slot, subslot) => self.pull(*slot, *subslot, outbox),
            Local::PullModule(slot) => self.pull_module(*slot, outbox),
            Local::Plug(slot, module_ident, submodule) => {
                self.plug(*slot, *module_ident, submodule, outbox)
            }
            Local::ReadyAt(slot, subslot) => self.get_ready_at(*slot, *subslot, outbox),
            Local::Diagnosis(slot, subslot, channel, error, appears) => self.diagnose(
                &Change {
                    diagnosis: Diagnosis {
                        slot: *slot,
                        subslot: *subslot,
                        channel: *channel,
                        error: *error,
                    },
                    appears: *appears,
                },
                outbox,
            ),
            Local::Ready => self.get_ready(outbox),
            Local::ProviderState(is_running) => self.turn(*is_running),
            Local::Answer(number, octets) => {
                self.answer(*number, &Given::Octets(octets.as_slice()), outbox)
            }
            Local::Written(number) => self.answer(*number, &Given::Done, outbox),
            Local::Refuse(number, code1, code2) => {
                self.answer(*number, &Given::Refused(*code1, *code2), outbox)
            }
        }
    }

    // A frame: it is read first, and then its destination is checked. Real-time frames are checked first, and the rare
    // ones are handled in functions of their own: when both were opened as one, the addresses were copied to memory for
    // cyclic frames too.
    #[inline(never)]
    fn hear(&mut self, octets: &[u8], outbox: &mut Outbox) -> Note
        requires stored { Holds (F.image self.old.flash) self.old.live.values }
        requires empty { outbox.old.items ≡ [] }
        ensures steps { Steps F.Flash self.old (heard_of self.old.station.identity (Frame (record { items = octets.now }))) (boxed outbox.new)
            result self.new }
        ensures reliable { StaysReliable F.Flash self.old self.new }
    {
        match real_time_in(octets) {
            Some(frame) => self.hear_real_time(&frame, outbox),
            None => self.hear_other(octets, outbox),
        }
    }

    // A frame of EtherType 0x8892.
    #[inline(always)]
    fn hear_real_time(&mut self, frame: &RealTimeFrame, outbox: &mut Outbox) -> Note
        requires stored { Holds (F.image self.old.flash) self.old.live.values }
        requires empty { outbox.old.items ≡ [] }
        ensures steps { Steps F.Flash self.old (heard_content self.old.station.identity frame.now.destination frame.now.source
            (RealTime frame.now.frame_id frame.now.body.now)) (boxed outbox.new) result self.new }
        ensures reliable { StaysReliable F.Flash self.old self.new }
    {
        let (source, frame_id, body) = (frame.source, frame.frame_id, frame.body);
        match kind_of(&self.identity, frame.destination, frame_id) {
            RealTimeKind::Cyclic => self.hear_cyclic(source, frame_id, body),
            RealTimeKind::Alarm => self.read_alarm(source, frame_id, body, outbox),
            RealTimeKind::Request => self.read_and_serve(source, frame_id, body, outbox),
            RealTimeKind::Elsewhere => Note::NotMine,
        }
    }

    // A frame that is not a frame of real-time data.
    #[inline(never)]
    fn hear_other(&mut self, octets: &[u8], outbox: &mut Outbox) -> Note
        requires stored { Holds (F.image self.old.flash) self.old.live.values }
        requires empty { outbox.old.items ≡ [] }
        requires other { IsNoRealTime (frame_of octets.now) }
        ensures steps { Steps F.Flash self.old (heard_of self.old.station.identity (Frame (record { items = octets.now }))) (boxed outbox.new)
            result self.new }
        ensures reliable { StaysReliable F.Flash self.old self.new }
    {
        let Some(frame) = open_frame(octets) else {
            return Note::Fault;
        };
        match frame.kind {
            // Its FrameID is incomplete.
            ContentKind::RealTime => Note::Fault,
            ContentKind::Arp => self.hear_packet(&frame, outbox),
            ContentKind::Internet => self.hear_udp(&frame, outbox),
        }
    }

    // An ARP packet.
    #[inline(never)]
    fn hear_packet(&mut self, frame: &OpenFrame, outbox: &mut Outbox) -> Note
        requires stored { Holds (F.image self.old.flash) self.old.live.values }
        requires empty { outbox.old.items ≡ [] }
        ensures steps { Steps F.Flash self.old (heard_by self.old.station.identity frame.now.destination frame.now.source
            (arp.read frame.now.content.now)) (boxed outbox.new) result self.new }
        ensures reliable { StaysReliable F.Flash self.old self.new }
    {
        let Ok(packet) = packet_at(frame.content) else {
            return Note::Fault;
        };
        if !is_asked(&self.identity, frame.destination) {
            return Note::NotMine;
        }
        self.resolve(frame.source, &packet, outbox)
    }

    // A datagram, to any IP address.
    #[inline(never)]
    fn hear_udp(&mut self, frame: &OpenFrame, outbox: &mut Outbox) -> Note
        requires stored { Holds (F.image self.old.flash) self.old.live.values }
        requires empty { outbox.old.items ≡ [] }
        ensures steps { Steps F.Flash self.old (heard_by self.old.station.identity frame.now.destination frame.now.source
            (datagram.read frame.now.content.now)) (boxed outbox.new) result self.new }
        ensures reliable { StaysReliable F.Flash self.old self.new }
    {
        let Ok(datagram) = datagram_at(frame.content) else {
            return Note::Fault;
        };
        if !is_called(&self.identity, frame.destination, datagram.destination.port) {
            return Note::NotMine;
        }
        let caller = Caller {
            mac: frame.source,
            endpoint: datagram.source,
        };
        self.hear_datagram(&caller, datagram.destination.address, datagram.body, outbox)
    }

    // The octets that follow the FrameID of an alarm frame.
    #[inline(never)]
    fn read_alarm(&mut self, source: Mac, frame_id: u16, body: &[u8], outbox: &mut Outbox) -> Note
        requires stored { Holds (F.image self.old.flash) self.old.live.values }
        requires empty { outbox.old.items ≡ [] }
        ensures steps { Steps F.Flash self.old (heard_alarm source frame_id body.now (message_of body.now)) (boxed outbox.new) result self.new }
        ensures reliable { StaysReliable F.Flash self.old self.new }
    {
        match read_message(body) {
            Ok((header, message)) => {
                self.hear_under(source, Priority::of(frame_id), &header, &message, outbox)
            }
            Err(_) => self.read_low_confirm(source, body, outbox),
        }
    }

    // What an alarm frame says, under the FrameID of this priority.
    fn hear_under(
        &mut self,
        source: Mac,
        priority: Priority,
        header: &Header,
        message: &Message,
        outbox: &mut Outbox,
    ) -> Note
        requires stored { Holds (F.image self.old.flash) self.old.live.values }
        requires empty { outbox.old.items ≡ [] }
        ensures steps { Steps F.Flash self.old (heard_reply source priority header.now message.now) (boxed outbox.new) result self.new }
        ensures reliable { StaysReliable F.Flash self.old self.new }
    {
        if is_low_reply(priority, message) {
            return self.hear_low_reply(source, header, message, outbox);
        }
        self.hear_alarm(source, header, message, outbox)
    }

    // CycleCounter.
    #[inline(always)]
    fn counter(&self) -> u16
        ensures { result ≡ counter_of self.now.live.rest.units }
    {
        (self.units % 65_536) as u16
    }

    // A unit of time is over, first for the relation, and then for what is asked of the application.
    pub(crate) fn tick(&mut self, outbox: &mut Outbox) -> Note
        requires empty { outbox.old.items ≡ [] }
        ensures state { self.new ≡ behind self.old (ticked self.old.station self.old.live) }
        ensures frames { boxed outbox.new ≡ frames_of self.old (ticked self.old.station self.old.live) }
        ensures sendable { CanSend self.old (ticked self.old.station self.old.live) }
        ensures note { result ≡ Note.Done }
    {
        let _ = self.pass_unit_of_relation(outbox);
        self.count_asked(outbox)
    }

    // The timers advance. If a timeout ends the relation, nothing more is done.
    #[inline(always)]
    fn pass_unit_of_relation(&mut self, outbox: &mut Outbox) -> Note
        requires empty { outbox.old.items ≡ [] }
        ensures state { self.new ≡ with_rest self.old (unit_rest self.old.live) }
        ensures frames { boxed outbox.new ≡ map (bytes_of self.old.station.identity) (unit_sent self.old.live) }
        ensures sendable { AreSendable self.old.station.identity (unit_sent self.old.live) }
        ensures note { result ≡ Note.Done }
    {
        // The lamp's time and the units, of which CycleCounter is the end, continue when a relation ends: they belong to the
        // station.
        self.lamp = self.lamp.saturating_sub(1);
        self.units = self.units.wrapping_add(1);
        let elapsed = self.relation.elapse();
        // With most units nothing is due, and no frame is built. Of the others most bring only inputs, which have their
        // own path.
        if elapsed.is_nothing() {
            return Note::Done;
        }
        if elapsed.is_inputs() {
            return self.send_inputs(outbox);
        }
        self.bring(elapsed, outbox)
    }

    // What a unit of time brings: a timeout ends the relation, otherwise what is due is sent.
    #[inline(never)]
    fn bring(&mut self, elapsed: Elapsed, outbox: &mut Outbox) -> Note
        requires empty { outbox.old.items ≡ [] }
        requires apart { elapsed.is_ready ≡ true → elapsed.is_plug_ready ≡ false }
        ensures state { self.new ≡ with_rest self.old (with_log (err_log (farewell_for elapsed.tick.ending self.old.live.rest.link))
            (record self.old.live.rest {
              link = left_behind elapsed.tick.ending self.old.live.rest.link;
              asked = left_asked (ended_by (farewell_for elapsed.tick.ending self.old.live.rest.link)) self.old.live.rest.asked;
            })) }
        ensures frames { boxed outbox.new ≡ map (bytes_of self.old.station.identity) (brought self.old elapsed) }
        ensures sendable { AreSendable self.old.station.identity (brought self.old elapsed) }
        ensures note { result ≡ Note.Done }
    {
        match elapsed.tick.ending() {
            Some(reason) => self.end(reason, outbox),
            None => self.send_each(
                repeated_with(&elapsed, self.relation.repeated()),
                &elapsed,
                elapsed.tick.is_cyclic(),
                outbox,
            ),
        }
        Note::Done
    }

    // A timeout is over: the relation ends, which is logged, and its ERR is sent.
    #[inline(never)]
    fn end(&mut self, reason: Abort, outbox: &mut Outbox)
        requires empty { outbox.old.items ≡ [] }
        ensures state { self.new ≡ with_rest self.old (with_log (err_log (option_map (farewell_of reason) self.old.live.rest.link))
            (record self.old.live.rest {
              link = None;
              asked = left_asked (ended_by (option_map (farewell_of reason) self.old.live.rest.link)) self.old.live.rest.asked;
            })) }
        ensures frames { boxed outbox.new
            ≡ map (bytes_of self.old.station.identity) (farewells_in (option_map (farewell_of reason) self.old.live.rest.link)) }
        ensures sendable { AreSendable self.old.station.identity (farewells_in (option_map (farewell_of reason) self.old.live.rest.link)) }
    {
        let ended = self.relation.end(reason);
        log_err(&mut self.log, self.units, &ended);
        leave(&mut self.asked, &ended_by(&ended));
        if let Some(farewell) = ended {
            send_farewell(&self.identity, &farewell, outbox);
        }
    }

    // Only inputs are due.
    #[inline(always)]
    pub(crate) fn send_inputs(&self, outbox: &mut Outbox) -> Note
        requires { outbox.old.items ≡ [] }
        ensures note { result ≡ Note.Done }
        ensures frames { boxed outbox.new
            ≡ map (bytes_of self.now.station.identity) (inputs_of (counter_of self.now.live.rest.units) (flow_of self.now.live.rest.link)) }
        ensures sendable { AreSendable self.now.station.identity (inputs_of (counter_of self.now.live.rest.units) (flow_of self.now.live.rest.link)) }
    {
        match self.relation.exchange() {
            Some(exchange) => self.send_inputs_of(exchange, outbox),
            None => Note::Done,
        }
    }

    // The inputs of the exchange of the relation, and nothing else. The outbox is cleared once more, so that the
    // frame's place in it is known here.
    #[inline(always)]
    fn send_inputs_of(&self, exchange: &DataExchange, outbox: &mut Outbox) -> Note
        ensures note { result ≡ Note.Done }
        ensures frames { boxed outbox.new
            ≡ map (bytes_of self.now.station.identity) (inputs_of (counter_of self.now.live.rest.units) (Some exchange.now)) }
        ensures sendable { AreSendable self.now.station.identity (inputs_of (counter_of self.now.live.rest.units) (Some exchange.now)) }
    {
        outbox.clear();
        send_inputs_of(&self.identity, self.counter(), exchange, outbox);
        Note::Done
    }

    // The alarms of each priority, ApplicationReady or that of a plug, and inputs, each if it is due.
    #[inline(never)]
    fn send_each(&self, repeated: Repeated, elapsed: &Elapsed, is_cyclic: bool, outbox: &mut Outbox)
        requires empty { outbox.old.items ≡ [] }
        requires apart { elapsed.now.is_ready ≡ true → elapsed.now.is_plug_ready ≡ false }
        ensures frames { boxed outbox.new ≡ map (bytes_of self.now.station.identity) (due_in self.now repeated elapsed.now is_cyclic) }
        ensures sendable { AreSendable self.now.station.identity (due_in self.now repeated elapsed.now is_cyclic) }
    {
        let counter = self.counter();
        send_alarm_again(&self.identity, repeated.high, &self.relation, outbox);
        send_low_alarm(&self.identity, repeated.low, &self.relation, outbox);
        self.send_calls(elapsed.is_ready, elapsed.is_plug_ready, outbox);
        send_inputs(&self.identity, counter, is_cyclic, &self.relation, outbox);
    }

    // ApplicationReady, which is due only before data is exchanged, or that of a plug, which is due only from then on.
    fn send_calls(&self, is_ready: bool, is_plug_ready: bool, outbox: &mut Outbox)
        requires room { array_vec_len outbox.old < 4 }
        requires apart { is_ready ≡ true → is_plug_ready ≡ false }
        ensures frames { boxed outbox.new ≡ boxed outbox.old ++ map (bytes_of self.now.station.identity) (calls_due self.now is_ready is_plug_ready) }
        ensures sendable { AreSendable self.now.station.identity (calls_due self.now is_ready is_plug_ready) }
        ensures few { array_vec_len outbox.new ≤ array_vec_len outbox.old + 1 }
    {
        let address = self.store.running().suite.address();
        if is_ready {
            send_ready_again(&self.identity, address, is_ready, &self.relation, outbox);
            return;
        }
        send_plug_ready(
            &self.identity,
            address,
            is_plug_ready,
            &self.relation,
            outbox,
        );
    }

    // A cyclic frame: its outputs are accepted, or it changes nothing.
    #[inline(always)]
    fn hear_cyclic(&mut self, source: Mac, frame_id: u16, body: &[u8]) -> Note
        ensures state { self.new ≡ behind self.old (handled_cyclic self.old.live source frame_id body.now) }
        ensures due { live_due_in self.old.live ≤ live_due_in self.new.live }
        ensures steady { (steady : Steady) → IsSteadyAt steady self.old.live → IsSteadyAt steady self.new.live }
        ensures note { result ≡ (end_of self.old.station self.old.live (handled_cyclic self.old.live source frame_id body.now)).note }
    {
        let received = self.relation.receive(source, frame_id, body);
        note_of(received)
    }

    // An input that the application gives.
    #[inline(never)]
    fn give(&mut self, slot: u16, subslot: u16, value: &[u8]) -> Note
        ensures state { self.new ≡ behind self.old (handled_given self.old.live slot subslot value.now) }
        ensures due { live_due_in self.new.live ≡ live_due_in self.old.live }
        ensures steady { (steady : Steady) → IsSteadyAt steady self.old.live → IsSteadyAt steady self.new.live }
        ensures note { result ≡ (end_of self.old.station self.old.live (handled_given self.old.live slot subslot value.now)).note }
    {
        if self.relation.give(slot, subslot, value) {
            Note::Done
        } else {
            Note::Refused
        }
    }

    // A status that the application gives to the inputs of a submodule.
    #[inline(never)]
    fn rate(&mut self, slot: u16, subslot: u16, is_good: bool) -> Note
        ensures state { self.new ≡ behind self.old (handled_rated self.old.station self.old.live slot subslot is_good) }
        ensures note { result
            ≡ (end_of self.old.station self.old.live (handled_rated self.old.station self.old.live slot subslot is_good)).note }
    {
        let status = InputStatus {
            slot,
            subslot,
            is_good,
        };
        if !put_status(&mut self.statuses, &self.real, status) {
            return Note::Refused;
        }
        self.relation.rate(slot, subslot, is_good);
        Note::Done
    }

    // The application runs from now on, or is stopped.
    #[inline(never)]
    fn turn(&mut self, is_running: bool) -> Note
        ensures state { self.new ≡ behind self.old (handled_turned self.old.live is_running) }
        ensures note { result ≡ (end_of self.old.station self.old.live (handled_turned self.old.live is_running)).note }
    {
        self.is_running = is_running;
        self.relation.set_running(is_running);
        Note::Done
    }

    // An alarm that the application raises.
    #[inline(never)]
    fn raise(&mut self, slot: u16, subslot: u16, octets: &[u8], outbox: &mut Outbox) -> Note
        requires empty { outbox.old.items ≡ [] }
        ensures state { self.new ≡ behind self.old (handled_raised self.old.station self.old.live slot subslot octets.now) }
        ensures frames { boxed outbox.new ≡ frames_of self.old (handled_raised self.old.station self.old.live slot subslot octets.now) }
        ensures sendable { CanSend self.old (handled_raised self.old.station self.old.live slot subslot octets.now) }
        ensures note { result ≡ (end_of self.old.station self.old.live
            (handled_raised self.old.station self.old.live slot subslot octets.now)).note }
    {
        if !self.relation.raise(&self.real, slot, subslot, octets) {
            return Note::Refused;
        }
        send_alarm(&self.identity, &self.relation, outbox);
        Note::Done
    }

    // The application is ready: if the relation waits for that, ApplicationReady is sent.
    #[inline(never)]
    fn get_ready(&mut self, outbox: &mut Outbox) -> Note
        requires empty { outbox.old.items ≡ [] }
        ensures state { self.new ≡ behind self.old (handled_ready self.old.live) }
        ensures frames { boxed outbox.new ≡ frames_of self.old (handled_ready self.old.live) }
        ensures sendable { CanSend self.old (handled_ready self.old.live) }
        ensures note { result ≡ (end_of self.old.station self.old.live (handled_ready self.old.live)).note }
    {
        if !self.relation.get_ready() {
            return Note::Refused;
        }
        let address = self.store.running().suite.address();
        send_ready(&self.identity, address, &self.relation, outbox);
        Note::Done
    }

    // An alarm frame: it belongs to the relation or not. Data is answered, and the ERR of the controller ends the
    // relation.
    #[inline(always)]
    pub(crate) fn hear_alarm(
        &mut self,
        source: Mac,
        header: &Header,
        message: &Message,
        outbox: &mut Outbox,
    ) -> Note
        requires empty { outbox.old.items ≡ [] }
        ensures state { self.new ≡ behind self.old (handled_alarm self.old.live source header.now message.now) }
        ensures frames { boxed outbox.new ≡ frames_of self.old (handled_alarm self.old.live source header.now message.now) }
        ensures sendable { CanSend self.old (handled_alarm self.old.live source header.now message.now) }
        ensures note { result ≡ (end_of self.old.station self.old.live (handled_alarm self.old.live source header.now message.now)).note }
    {
        if !self
            .relation
            .is_alarm(source, header.destination, header.source)
        {
            return Note::NoRelation;
        }
        self.hear_message(message, outbox)
    }

    // What an alarm frame of the relation says: data is answered, an ACK counts or does not, and ERR ends the relation, which
    // is logged.
    #[tactic(auto, using(crate::proofs::Exchanged::stays_ignored, crate::proofs::Logged::message_leaves))]
    fn hear_message(&mut self, message: &Message, outbox: &mut Outbox) -> Note
        requires empty { outbox.old.items ≡ [] }
        ensures state { self.new ≡ behind self.old (handled_message self.old.live message.now) }
        ensures frames { boxed outbox.new ≡ frames_of self.old (handled_message self.old.live message.now) }
        ensures sendable { CanSend self.old (handled_message self.old.live message.now) }
        ensures note { result ≡ (end_of self.old.station self.old.live (handled_message self.old.live message.now)).note }
    {
        let uuid = uuid_of(&self.relation);
        let fate = self.relation.hear(message);
        log_fate(&mut self.log, self.units, uuid, fate);
        match fate {
            PduFate::Data(taken) => {
                send_alarm_reply(&self.identity, taken, &self.relation, outbox);
                Note::Done
            }
            PduFate::Done => Note::Done,
            PduFate::Aborted(_) => {
                leave(&mut self.asked, &uuid);
                Note::Done
            }
            // A NACK, or an ACK of another number, is not an error, and changes nothing.
            PduFate::Ignored => Note::Filter,
        }
    }
}

// Whether an alarm frame under the FrameID of this priority may be an ACK of low priority.
fn is_low_reply(priority: Priority, message: &Message) -> bool
    ensures { result ≡ is_low_reply priority message.now }
{
    match priority {
        Priority::High => false,
        Priority::Low => matches!(message, Message::Ack(_)),
    }
}

// The alarms that a unit of time brings again, which it does not if it ends the relation.
fn repeated_with(elapsed: &Elapsed, repeated: Repeated) -> Repeated
    ensures { result ≡ record { high = elapsed.now.tick.is_alarm && repeated.high; low = elapsed.now.tick.is_alarm && repeated.low } }
{
    let is_alarm = elapsed.tick.is_alarm();
    Repeated {
        high: is_alarm && repeated.high,
        low: is_alarm && repeated.low,
    }
}

// Whether this note is `Done`.
fn is_done(note: Note) -> bool
    ensures done { result ≡ true → note ≡ Note.Done }
    ensures undone { result ≡ false → note ≢ Note.Done }
{
    matches!(note, Note::Done)
}

// The note for a cyclic frame.
fn note_of(received: Received) -> Note
    ensures { (station : Station) (live : Live) (link : Option RelationState) →
        result ≡ (end_of station live (handled_received live received link)).note }
{
    match received {
        Received::Foreign => Note::NoRelation,
        Received::Short => Note::Fault,
        Received::Stale => Note::StaleCycle,
        Received::Taken => Note::Done,
    }
}
