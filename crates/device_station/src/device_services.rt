//! All that is beside a device in a station.
ghost use Rattle.std.specs.Prelude.{◌≡◌, ◌<◌, ◌≤◌, ◌+◌, ◌++◌, ◌&&◌, ◌||◌, [], ◌∷◌, if◌then◌else◌, false, true};
ghost use Rattle.arrayvec.specs.ArrayVec.{array_vec_len};
ghost use Rattle.frame_codec.specs.Outbox.{boxed};
ghost use Rattle.services.specs.Answer.{frame_in};
ghost use Rattle.device_station.specs.Beside.{Beside, IsUndisputed, by_address, by_call, by_concern, event_beside, joined_by_concern, heard_beside, is_dropped as is_dropped_by, joined_from, joined_of};
ghost use Rattle.device_station.specs.Views.{joined_in, note_in, piece_as};
ghost use Rattle.services.specs.Concern.{IsShort, concern_as};
ghost use Rattle.services.specs.Views.{call_as};
ghost use Rattle.device_station.specs.Serving.{after_piece, called_reply, completed, meets, piece_of};
ghost use Rattle.services.specs.State.{frames_in};
ghost use Rattle.std.specs.Prelude.{is_some};
ghost use Rattle.device_station.specs.Serving.{NoNews, NoneSends, announces, disputes, due_in, heard, knows, news_in, observed};
ghost use Rattle.lldp.specs.Announcement.{announcement as announcement_of};
ghost use Rattle.std.specs.Prelude.{Some, None, nat_eq};
ghost use Rattle.std.specs.Cmp.Lexicographic.{pointwise};
ghost use Rattle.device_station.specs.Serving.{aged, met, overheard, said_of, sent_by_tick, serving_at, serving_ticks, ticked, told};

use crate::JoinedCall;
use device_core::{Caller, Event, Note};
use frame_codec::{Frame, Outbox};
use lldp::{Heard, Link, Neighbours, announcement};
use pn_values::{Identity, Settings, StationName};
use rpc_services::{Heard as Pieced, Joiner, Kind, mapped_call};
use services::{Called, Concern, Role, Services, only_conflicts_are_counted};
use std::marker::Model;

/// What the services beside a device made of an event.
#[derive(Clone, Copy)]
pub enum Attended {
    /// The station gives the event this note.
    Noted(Note),
    /// It completed a call, which the device is now given. The note of the station is `Done`.
    Joined,
}

/// What a frame that the device dropped is to the calls of which fragments are missing.
#[derive(Drop)]
pub(crate) enum Piece {
    /// It brings no fragment that is accepted.
    Other,
    /// It brings a fragment of a call that is joined, acknowledged, or completes a call that nobody serves. This frame answers it, if
    /// one does: the acknowledgement, or the rejection of the call.
    Taken(Option<Frame>),
    /// It completes a call of the device. The answer acknowledges it.
    Completes,
}

/// All that is beside a device in a station: the services of its IP address, its neighbours by LLDP, and the calls of which
/// fragments came. Clauses see it as one machine.
///
/// It learns of the device what a step does: its note, and whether it sent a frame. It reads the device's identity and
/// its running settings, and changes nothing of it but the neighbour that it knows: the owner gives it `news` before the next
/// event.
#[derive(Drop)]
pub struct DeviceServices {
    ip: Services,
    near: Neighbours,
    // The running name.
    name: StationName,
    // What the host says of the link.
    is_up: bool,
    link: Option<Link>,
    // Whether the neighbour changed since it was reported to the device.
    has_news: bool,
    // The calls of which fragments are missing.
    pieces: Joiner,
}

impl Model for DeviceServices {
    ghost use Rattle.device_station.specs.Serving.{Serving};

    ghost Value = { Serving };

    ghost view = { λ beside. record {
      ip = beside.ip;
      near = beside.near;
      name = beside.name;
      is_up = beside.is_up;
      link = beside.link;
      has_news = beside.has_news;
      pieces = beside.pieces;
    } };
}

impl DeviceServices {
    /// What is beside a device at its start, with these running settings. It announces the IP address, and itself by LLDP.
    pub fn new(identity: &Identity, running: &Settings) -> DeviceServices
        ensures { result ≡ serving_at identity.now running.now }
    {
        DeviceServices {
            ip: Services::new(Role::Device, identity.mac, running.suite.address()),
            near: Neighbours::new(identity.mac),
            name: running.name.copy(),
            is_up: true,
            link: None,
            has_news: false,
            pieces: Joiner::new(Kind::Calls),
        }
    }

    /// What the host says of the link: whether it is up, and which link it is, if that is known. Without this the link is up.
    pub fn set_link(&mut self, is_up: bool, link: Option<Link>)
        ensures { self.new ≡ record self.old { is_up = is_up; link = link } }
    {
        self.is_up = is_up;
        self.link = link;
    }

    /// What must be reported to the device, if the neighbour changed since the last report: the owner gives it this event.
    #[inline(never)]
    pub fn news(&self) -> Option<Event<'static>>
        ensures { result ≡ (if self.now.has_news then Some (news_in self.now) else None) }
    {
        if self.has_news {
            Some(self.neighbour_event())
        } else {
            None
        }
    }

    /// Whether there is something to report to the device: the neighbour changed since the last report.
    pub fn has_news(&self) -> bool
        ensures { result ≡ self.now.has_news }
    {
        self.has_news
    }

    /// It was reported to the device.
    pub fn set_told(&mut self)
        ensures { self.new ≡ told self.old }
    {
        self.has_news = false;
    }

    /// The event that reports the neighbour to the device, or that none is known.
    #[inline(never)]
    pub(crate) fn neighbour_event(&self) -> Event<'static>
        ensures { result ≡ news_in self.now }
    {
        match self.near.neighbour() {
            Some(neighbour) => Event::Neighbour(Some(neighbour.copy())),
            None => Event::Neighbour(None),
        }
    }

    /// How many frames of ARP came from another station that uses the running IP address.
    pub fn conflicts(&self) -> u64
        ensures { result ≡ self.now.ip.conflicts }
    {
        self.ip.conflicts()
    }

    /// Tells the running settings after a step.
    pub fn observe(&mut self, running: &Settings)
        ensures { self.new ≡ observed self.old running.now }
    {
        self.ip.observe(running.suite.address());
        if !self.is_named(running) {
            self.name = running.name.copy();
        }
    }

    /// Whether this is the running name that it knows.
    fn is_named(&self, running: &Settings) -> bool
        ensures { result ≡ pointwise nat_eq running.now.name self.now.name }
    {
        running.name.as_bytes() == self.name.as_bytes()
    }

    /// Whether these are the running settings that it knows, as far as it reads them.
    pub fn knows(&self, running: &Settings) -> bool
        ensures { result ≡ knows self.now running.now }
    {
        running.suite.address() == self.ip.address() && self.is_named(running)
    }

    // ---- events

    /// What it does with an event, once the device has given it this note. Appends the frames to send to the outbox. Returns
    /// the note of the station, or that the event completed a call, which is written into `call`.
    pub fn attend(
        &mut self,
        identity: &Identity,
        event: &Event<'_>,
        note: Note,
        has_sent: bool,
        outbox: &mut Outbox,
        call: &mut JoinedCall,
    ) -> Attended
        requires empty { outbox.old.items ≡ [] }
        // A conflict was dropped or answered by the device.
        requires known { is_dropped_by note ≡ false → has_sent ≡ false → IsUndisputed self.old event.now }
        ensures state { self.new ≡ (event_beside identity.now self.old note event.now).services }
        ensures frames { boxed outbox.new ≡ (event_beside identity.now self.old note event.now).sent }
        ensures note { note_in result ≡ (event_beside identity.now self.old note event.now).note }
        ensures call { joined_in result call.new ≡ joined_of self.old note event.now }
    {
        match event {
            Event::Frame(bytes) => {
                self.attend_frame(identity, bytes.as_slice(), note, has_sent, outbox, call)
            }
            Event::Tick => {
                self.tick(outbox);
                Attended::Noted(note)
            }
            Event::Call(..) | Event::Neighbour(..) | Event::Application(_) => Attended::Noted(note),
        }
    }

    /// What it does with a frame, once the device has given it this note. It answers the frame if the device dropped it.
    /// Returns the note of the station, or that the frame completed a call, which is written into `call`.
    pub fn attend_frame(
        &mut self,
        identity: &Identity,
        bytes: &[u8],
        note: Note,
        has_sent: bool,
        outbox: &mut Outbox,
        call: &mut JoinedCall,
    ) -> Attended
        requires empty { outbox.old.items ≡ [] }
        // A conflict was dropped or answered by the device.
        requires known { is_dropped_by note ≡ false → has_sent ≡ false → disputes self.old bytes.now ≡ false }
        ensures state { self.new ≡ (heard_beside identity.now self.old note bytes.now).services }
        ensures frames { boxed outbox.new ≡ (heard_beside identity.now self.old note bytes.now).sent }
        ensures note { note_in result ≡ (heard_beside identity.now self.old note bytes.now).note }
        ensures call { joined_in result call.new ≡ joined_from self.old note bytes.now }
    {
        if is_dropped(note) {
            return self.answer(identity, bytes, note, outbox, call);
        }
        // Most frames of an exchange are accepted without an answer. A packet of ARP is not, so these are not read again.
        only_conflicts_are_counted();
        if has_sent {
            return Attended::Noted(self.overhear(bytes, note));
        }
        Attended::Noted(note)
    }

    /// It hears a frame that the device dropped, and answers it. A fragment of a call is acknowledged, or completes its call.
    #[inline(never)]
    fn answer(
        &mut self,
        identity: &Identity,
        bytes: &[u8],
        note: Note,
        outbox: &mut Outbox,
        call: &mut JoinedCall,
    ) -> Attended
        requires empty { outbox.old.items ≡ [] }
        requires dropped { is_dropped_by note ≡ true }
        ensures state { self.new ≡ (heard_beside identity.now self.old note bytes.now).services }
        ensures frames { boxed outbox.new ≡ (heard_beside identity.now self.old note bytes.now).sent }
        ensures note { note_in result ≡ (heard_beside identity.now self.old note bytes.now).note }
        ensures call { joined_in result call.new ≡ joined_from self.old note bytes.now }
    {
        let concern = self.ip.concern(bytes);
        self.handle(identity, bytes, &concern, note, outbox, call)
    }

    /// It handles a frame that the device dropped, by what of it concerns the services.
    fn handle(
        &mut self,
        identity: &Identity,
        bytes: &[u8],
        concern: &Concern<'_>,
        note: Note,
        outbox: &mut Outbox,
        call: &mut JoinedCall,
    ) -> Attended
        requires empty { outbox.old.items ≡ [] }
        requires short { IsShort (concern_as concern.now) }
        ensures state { self.new ≡ (by_concern identity.now self.old note bytes.now (concern_as concern.now)).services }
        ensures frames { boxed outbox.new ≡ (by_concern identity.now self.old note bytes.now (concern_as concern.now)).sent }
        ensures note { note_in result ≡ (by_concern identity.now self.old note bytes.now (concern_as concern.now)).note }
        ensures call { joined_in result call.new ≡ joined_by_concern self.old (concern_as concern.now) }
    {
        match *concern {
            Concern::Call(ref called) => self.answer_call(identity, called, note, outbox, call),
            Concern::OtherType => Attended::Noted(note_of(self.meet(bytes), note)),
            Concern::Nothing | Concern::Packet { .. } | Concern::Echo(_) => {
                Attended::Noted(self.answer_alone(concern, note, outbox))
            }
        }
    }

    /// The services of the IP address answer a frame that is no call. Returns the note for it.
    fn answer_alone(&mut self, concern: &Concern<'_>, note: Note, outbox: &mut Outbox) -> Note
        requires empty { outbox.old.items ≡ [] }
        requires short { IsShort (concern_as concern.now) }
        ensures state { self.new ≡ (by_address self.old note (concern_as concern.now)).services }
        ensures frames { boxed outbox.new ≡ (by_address self.old note (concern_as concern.now)).sent }
        ensures note { result ≡ (by_address self.old note (concern_as concern.now)).note }
    {
        let disputed = self.ip.is_disputed(concern);
        let reply = self.ip.answer(concern);
        put_reply(&reply, disputed, note, outbox)
    }

    /// It answers a call that the device dropped. A fragment of one is acknowledged, or completes its call.
    fn answer_call(
        &mut self,
        identity: &Identity,
        called: &Called<'_>,
        note: Note,
        outbox: &mut Outbox,
        call: &mut JoinedCall,
    ) -> Attended
        requires empty { outbox.old.items ≡ [] }
        ensures state { self.new ≡ (by_call identity.now self.old note (call_as called.now)).services }
        ensures frames { boxed outbox.new ≡ (by_call identity.now self.old note (call_as called.now)).sent }
        ensures note { note_in result ≡ (by_call identity.now self.old note (call_as called.now)).note }
        ensures call { joined_in result call.new ≡ completed (piece_of self.old (Some (call_as called.now))) }
    {
        match self.join(called, call) {
            Piece::Other => {
                Attended::Noted(put_reply(&self.replied(identity, called), false, note, outbox))
            }
            Piece::Taken(own) => Attended::Noted(put_reply(&own, true, note, outbox)),
            Piece::Completes => Attended::Joined,
        }
    }

    /// It hears a message of a neighbour. Returns whether the frame carries one.
    fn meet(&mut self, bytes: &[u8]) -> bool
        ensures state { self.new ≡ met self.old bytes.now }
        ensures taken { result ≡ meets self.old bytes.now }
    {
        match self.near.hear(bytes) {
            Heard::Nothing => false,
            Heard::Same => true,
            Heard::Changed => {
                self.has_news = true;
                true
            }
        }
    }

    /// It hears a fragment of a call. A call of the device that is complete with it is written into `call`.
    fn join(&mut self, called: &Called<'_>, call: &mut JoinedCall) -> Piece
        ensures state { self.new ≡ after_piece self.old (Some (call_as called.now)) }
        ensures piece { piece_as result call.new ≡ piece_of self.old (Some (call_as called.now)) }
    {
        match self.pieces.hear(called.body, &mut call.octets) {
            Pieced::Nothing | Pieced::Dropped(None) => Piece::Other,
            Pieced::Dropped(Some(fack)) => Piece::Taken(Some(
                self.ip.reply(called, fack.as_slice()),
            )),
            Pieced::Waits(Some(fack)) => Piece::Taken(Some(self.ip.reply(called, fack.as_slice()))),
            Pieced::Waits(None) => Piece::Taken(None),
            Pieced::Joined => match self.ip.refuse(called, call.octets.as_slice()) {
                Some(frame) => Piece::Taken(Some(frame)),
                None => {
                    call.caller = Caller {
                        mac: called.source,
                        endpoint: called.caller,
                    };
                    call.address = self.ip.address();
                    Piece::Completes
                }
            },
        }
    }

    /// The answer to a call that the device dropped and that is no fragment: the refusal of one that nobody serves, or else the answer
    /// of the endpoint mapper.
    #[inline(never)]
    fn replied(&self, identity: &Identity, called: &Called<'_>) -> Option<Frame>
        ensures { frame_in result ≡ called_reply identity.now self.now (call_as called.now) }
    {
        match self.ip.refuse(called, called.body) {
            Some(frame) => Some(frame),
            None => mapped_call(&self.ip, identity, called),
        }
    }

    /// It hears a frame that the device answered. Only a conflict concerns it.
    #[inline(never)]
    pub(crate) fn overhear(&mut self, bytes: &[u8], note: Note) -> Note
        ensures state { self.new ≡ overheard self.old bytes.now }
        ensures note { result ≡ (if disputes self.old bytes.now then Note.Done else note) }
    {
        only_conflicts_are_counted();
        if !self.ip.disputes(bytes) {
            return note;
        }
        let _ = self.ip.hear(bytes);
        Note::Done
    }

    // ---- ticks

    /// Handles a tick, which is 31.25 microseconds. Appends the frames to send to the outbox.
    pub fn tick(&mut self, outbox: &mut Outbox)
        requires room { array_vec_len outbox.old ≤ 2 }
        ensures state { self.new ≡ ticked self.old }
        ensures frames { boxed outbox.new ≡ boxed outbox.old ++ sent_by_tick self.old }
    {
        let announces = self.announces();
        self.ip.tick(outbox);
        self.announce_if(announces, outbox);
        self.age();
    }

    /// A tick passes at the neighbour, which is forgotten if its time is over, and at the calls of which fragments are missing.
    fn age(&mut self)
        ensures { self.new ≡ aged self.old }
    {
        if self.near.tick() {
            self.has_news = true;
        }
        self.pieces.tick();
    }

    /// Appends the frame of LLDP to the outbox, if it is due.
    fn announce_if(&self, announces: bool, outbox: &mut Outbox)
        requires { array_vec_len outbox.old < 4 }
        ensures { boxed outbox.new ≡ boxed outbox.old ++ (if announces then announcement_of (said_of self.now) ∷ [] else []) }
    {
        if announces {
            self.announce(outbox);
        }
    }

    /// Whether the next tick sends LLDP.
    fn announces(&self) -> bool
        ensures { result ≡ announces self.now }
    {
        self.is_up && self.near.is_sending()
    }

    /// Appends the frame of LLDP to the outbox.
    #[inline(never)]
    fn announce(&self, outbox: &mut Outbox)
        requires { array_vec_len outbox.old < 4 }
        ensures { boxed outbox.new ≡ boxed outbox.old ++ announcement_of (said_of self.now) ∷ [] }
    {
        let frame = announcement(self.near.mac(), &self.name, self.ip.address(), self.link);
        outbox.put_copy(&frame);
    }

    /// The number of ticks up to and including the next one that sends a frame or forgets the neighbour, unless something is heard
    /// or the settings change.
    pub fn due_in(&self) -> u32
        ensures value { result ≡ due_in self.now }
        ensures some { 0 < result }
    {
        self.ip.due_in().min(self.near.due_in())
    }

    /// Lets ticks pass that send nothing and forget no neighbour: fewer than `due_in` returns.
    pub fn pass(&mut self, ticks: u32)
        requires { ticks < due_in self.old }
        // It has the same effect as that many ticks, one by one, and none of them sends a frame or forgets the neighbour.
        ensures state { self.new ≡ serving_ticks ticks self.old }
        ensures none { NoneSends ticks self.old }
        ensures same { NoNews ticks self.old }
    {
        self.ip.pass(ticks);
        self.near.pass(ticks);
        self.pieces.elapse(ticks);
    }
}

/// Puts the answer to a frame into the outbox, if there is one. Returns the note for the frame.
fn put_reply(reply: &Option<Frame>, taken: bool, note: Note, outbox: &mut Outbox) -> Note
    requires empty { outbox.old.items ≡ [] }
    ensures frames { boxed outbox.new ≡ frames_in (frame_in reply.now) }
    ensures note { result ≡ (if is_some (frame_in reply.now) || taken then Note.Done else note) }
{
    match reply {
        Some(frame) => {
            outbox.put_copy(frame);
            Note::Done
        }
        None => note_of(taken, note),
    }
}

/// The note for a frame that was not answered.
fn note_of(disputed: bool, note: Note) -> Note
    ensures { result ≡ (if disputed then Note.Done else note) }
{
    if disputed { Note::Done } else { note }
}

/// Whether the device dropped a frame.
fn is_dropped(note: Note) -> bool
    ensures { result ≡ is_dropped_by note }
{
    match note {
        Note::NotMine | Note::Fault => true,
        Note::Done
        | Note::Filter
        | Note::OldCall
        | Note::NoRelation
        | Note::StaleCycle
        | Note::Refused => false,
    }
}
