//! A port of a device with the services beside it, and the work of their last step that the host has not fetched yet.
ghost use Rattle.std.specs.Prelude.{◌≡◌, ◌≢◌, ◌==◌, ◌<◌, ◌≤◌, ℕ, [], None, Some, IfSome, IsSome, MatchResult, false, length, take, true};
ghost use Rattle.std.specs.Option.{option_map};
ghost use Rattle.device_station.specs.port.State.{IsIdle, IsRead, closed, has_some, has_work as is_left, waiting as waiting_in};
ghost use Rattle.device_station.specs.declared.port.stage.Stage.TheVariants.{Booted, Made};
ghost use Rattle.device_frames.specs.declared.event.Event.TheVariants.{Application, Frame as Framed};
ghost use Rattle.device_frames.specs.declared.local.Local.TheVariants.{Alarm, Answer, Diagnosis, Input, Plug, ProviderState, Pull, PullModule, Ready, ReadyAt, Refuse, Status, Written};
ghost use Rattle.device_core.specs.OpenAlarm.{has_open_alarm};
ghost use Rattle.device_core.specs.State.{station_named};
ghost use Rattle.device_station.specs.port.Pace.{AreCalm};
ghost use Rattle.device_station.specs.port.Served.{IsFetched, IsNextBoth, advanced_both, barred_both, conflicts_of, due_both, frames_of, linked_both, lost_both, or_own as kind_or_own, waiting_both};
ghost use Rattle.device_station.specs.port.ServedSteps.{AnswersBoth, HearsBoth, IsOfApplication, KnowsBothOrNot, PassesBothOrNot, QuietOrNot, SendsBothOrNot, SkipsOrNot};
ghost use Rattle.device_station.specs.port.ServedSteps.{StartsBothOrNot, StepsBoth, TellsBoth, TicksBoth};

use crate::port::beside::{
    begin, catch_up, due_of, follow, observe, pass_both, rest_of, soonest, tell_neighbour,
};
use crate::port::device::{DevicePort, Passed, Work};
use crate::port::own::OwnFrames;
use crate::port::{Refusal, Stage};
use crate::{
    DeviceServices, Recorded, RecordedFlash, conflicts_are_noticed, quiet_units_are_ticks,
};
use asked_records::NamedRecords;
use device_core::{Device, Event, Note, Octets};
use flash_model::Sector;
use frame_codec::Frame;
use lldp::Link;
use pn_values::{Identity, Real, RealSubmodule};
use relations::DeviceOptions;
use services::only_conflicts_are_counted;
use std::marker::Model;
use wire::at_most;

/// A device with the services beside it, if it has any, and the work of their last step that the host has not fetched yet: flash
/// calls, then frames of the device, then frames of the services.
///
/// A port is made, given the content of both sectors of the chip, and booted. Then events go in, one at a time, and
/// after each the host fetches all work. It carries out each flash call, durably, before the next one, and all of them
/// before it sends the first frame. A call that fails on its side counts as lost power.
///
/// As long as nothing is due, units of time are only counted for the services. They learn of them all at once, before
/// anything else concerns them.
#[derive(Drop)]
pub struct Port {
    port: DevicePort,
    /// Whether services begin when the device starts.
    serves: bool,
    services: Option<DeviceServices>,
    /// Fewer units than this many surely bring nothing to the services, and they have nothing to see or to tell before; 0 if that is
    /// not known.
    rest: u32,
    /// The same of the services as they learned of units last: that many less `rest` have passed since.
    limit: u32,
    /// The frames of the services, or the call that they joined.
    own: OwnFrames,
    /// The number of these frames that the host has fetched.
    frames_past: usize,
}

impl Model for Port {
    ghost use Rattle.std.specs.Prelude.{◌-◌, drop};
    ghost use Rattle.device_station.specs.port.Pace.{IsPaced, caught_up};
    ghost use Rattle.device_station.specs.port.Served.{Served};

    ghost Value = { Served };

    ghost view = { λ all. record {
      port = all.port;
      serves = all.serves;
      services = caught_up (all.limit - all.rest) all.services;
      frames = drop all.frames_past all.own.frames;
    } };

    ghost invariant = { λ all. IsPaced all.rest all.limit all.port.device.live.values all.services (drop all.frames_past all.own.frames) };
}

impl Port {
    ghost use Rattle.std.specs.Prelude.{⊤};
    ghost use mathlib.Core.Option.{none};
    ghost use types.Logic.{sem};
    ghost use denote.Follow.{follows_so};
    ghost use Rattle.device_station.specs.recorded.Entry.{call_of};
    ghost use Rattle.device_station.specs.recorded.Fits.{fits_in};
    ghost use Rattle.device_station.specs.contracts.port.served.Port.{the_row};
    ghost use Rattle.device_station.specs.port.Served.{FetchesBoth, FetchesCallBoth};

    /// A device that did not start, over a chip whose content is not known yet, whose application answers these records, with services
    /// or alone.
    #[inline(always)]
    pub fn new(
        identity: Identity,
        real: Real,
        options: DeviceOptions,
        named: NamedRecords,
        serves: bool,
    ) -> Port
        ensures station { result.port.device.station ≡ station_named identity real options named }
        ensures stage { result.port.stage ≡ Made }
        ensures fetched { IsFetched result }
        ensures serves { result.serves ≡ serves }
        ensures services { result.services ≡ None }
    {
        Port {
            port: DevicePort::new(identity, real, options, named),
            serves,
            services: None,
            rest: 0,
            limit: 0,
            own: OwnFrames::new(),
            frames_past: 0,
        }
    }

    /// The stage of the port.
    pub fn stage(&self) -> Stage
        ensures { result ≡ self.now.port.stage }
    {
        self.port.stage()
    }

    /// Why the port reports nothing, if it does not.
    pub fn closed(&self) -> Option<Refusal>
        ensures { result ≡ closed self.now.port.stage }
    {
        self.port.closed()
    }

    /// The device, which a host reads while the port is open.
    pub fn device(&self) -> &Device<RecordedFlash<4096>, 4096>
        ensures { result.now ≡ self.now.port.device }
    {
        self.port.device()
    }

    // The device, if the port is open. No commit of it fails.
    pub(crate) fn open(&self) -> Result<&Device<RecordedFlash<4096>, 4096>, Refusal>
        ensures { IsRead (closed self.now.port.stage) (λ device. (device.now ≡ self.now.port.device)
            × (self.now.port.device.live.values.has_failed ≡ false)) result }
    {
        self.port.open()
    }

    /// How many frames of ARP came from another station that uses the running IP address; 0 without services.
    pub fn conflicts(&self) -> u64
        ensures { result ≡ conflicts_of self.now.services }
    {
        match &self.services {
            Some(services) => services.conflicts(),
            None => 0,
        }
    }

    /// What the host says of the link: whether it is up, and which link it is, if that is known. Without this the link is up. Without
    /// services nothing is sent that tells it.
    pub fn set_link(&mut self, is_up: bool, link: Option<Link>) -> Result<(), Refusal>
        ensures { MatchResult result (λ _. (closed self.old.port.stage ≡ None)
            × (self.new ≡ linked_both is_up link self.old)) (λ refusal. (closed self.old.port.stage ≡ Some refusal) × (self.new ≡ self.old)) }
    {
        if let Some(refusal) = self.port.closed() {
            return Err(refusal);
        }
        catch_up(&mut self.services, self.limit - self.rest);
        self.rest = 0;
        self.limit = 0;
        if let Some(services) = &mut self.services {
            services.set_link(is_up, link);
        }
        Ok(())
    }

    // ---- a start

    /// Sets the content of a sector of the chip, before a start, as the port does.
    pub fn fill(&mut self, sector: Sector, octets: &[u8]) -> Result<(), Refusal>
        ensures { KnowsBothOrNot self.old sector octets.now result self.new }
    {
        catch_up(&mut self.services, self.limit - self.rest);
        self.rest = 0;
        self.limit = 0;
        self.port.fill(sector, octets)
    }

    /// Starts from the content of the chip, as the port does. Services begin with the device, if the station has them.
    pub fn boot(&mut self) -> Result<(), Refusal>
        ensures { StartsBothOrNot self.old result self.new }
    {
        catch_up(&mut self.services, self.limit - self.rest);
        self.rest = 0;
        self.limit = 0;
        match self.port.boot() {
            Ok(()) => {
                self.frames_past = self.own.len();
                begin(&mut self.services, self.serves, &self.port);
                Ok(())
            }
            Err(refusal) => Err(refusal),
        }
    }

    // ---- events

    /// Handles a received frame: its octets from the destination address on. Of a frame that is longer than any valid one only the
    /// first 1,519 octets are read. Returns `None` if it was accepted in silence, as most frames are: the note is `Done`, and no work
    /// remains.
    #[inline(always)]
    pub fn frame(&mut self, octets: &[u8]) -> Option<Result<Note, Refusal>>
        ensures { HearsBoth self.old (Framed (record { items = take 1519 octets.now })) result self.new }
    {
        // Most frames are cyclic data: the services have no part in them.
        if self.take_cyclic(octets) {
            return None;
        }
        Some(self.hear(octets))
    }

    /// The same with any frame.
    #[inline(never)]
    pub fn hear(&mut self, octets: &[u8]) -> Result<Note, Refusal>
        ensures { AnswersBoth self.old (Framed (record { items = take 1519 octets.now })) result self.new }
    {
        match self.barred() {
            Some(refusal) => Err(refusal),
            None => {
                self.tell();
                Ok(self.take_frame(octets))
            }
        }
    }

    // The same once the device knows its neighbour.
    fn take_frame(&mut self, octets: &[u8]) -> Note
        requires { barred_both self.old ≡ None }
        ensures { StepsBoth self.old (Framed (record { items = take 1519 octets.now })) result self.new }
    {
        conflicts_are_noticed();
        catch_up(&mut self.services, self.limit - self.rest);
        self.rest = 0;
        self.limit = 0;
        let octets = at_most(octets, 1519);
        let note = self.port.take(&Event::Frame(Octets::of(octets)));
        self.frames_past = 0;
        follow(
            &mut self.port,
            &mut self.services,
            octets,
            note,
            &mut self.own,
        )
    }

    /// The same with a cyclic frame, as most frames are, if it is known that events are accepted, that no process alarm is open, and that
    /// the services have no part in it. Returns whether it was accepted in silence: the note is `Done`, and no work remains; if not,
    /// nothing changes.
    #[inline(always)]
    pub fn take_cyclic(&mut self, octets: &[u8]) -> bool
        ensures taken { result ≡ true → HearsBoth self.old (Framed (record { items = take 1519 octets.now })) None self.new }
        ensures left { result ≡ false → self.new ≡ self.old }
        ensures closed { result ≡ true → has_open_alarm self.old.port.device.live.rest.link ≡ false }
    {
        if self.rest == 0 {
            return false;
        }
        if !self.port.is_steady() {
            return false;
        }
        quiet_units_are_ticks();
        conflicts_are_noticed();
        only_conflicts_are_counted();
        self.port.hear_cyclic(at_most(octets, 1519))
    }

    /// Sets the input of a submodule. Returns `None` if it was accepted in silence, as most are: the note is `Done`, and no work remains.
    #[inline(always)]
    pub fn input(&mut self, slot: u16, subslot: u16, octets: &[u8]) -> Option<Result<Note, Refusal>>
        ensures { HearsBoth self.old (Application (Input slot subslot (record { items = take 1519 octets.now }))) result self.new }
    {
        if self.rest == 0 {
            return Some(self.get_input(slot, subslot, octets));
        }
        if !self.port.is_steady() {
            return Some(self.get_input(slot, subslot, octets));
        }
        quiet_units_are_ticks();
        match self.port.give(slot, subslot, at_most(octets, 1519)) {
            Note::Done => None,
            note => Some(Ok(note)),
        }
    }

    // Any input.
    #[inline(never)]
    fn get_input(&mut self, slot: u16, subslot: u16, octets: &[u8]) -> Result<Note, Refusal>
        ensures { AnswersBoth self.old (Application (Input slot subslot (record { items = take 1519 octets.now }))) result self.new }
    {
        self.apply(&Event::input(slot, subslot, octets))
    }

    /// Raises an alarm of a submodule.
    #[inline(never)]
    pub fn alarm(&mut self, slot: u16, subslot: u16, octets: &[u8]) -> Result<Note, Refusal>
        ensures { AnswersBoth self.old (Application (Alarm slot subslot (record { items = take 1519 octets.now }))) result self.new }
    {
        self.apply(&Event::alarm(slot, subslot, octets))
    }

    /// Sets the status of the inputs of a submodule.
    #[inline(never)]
    pub fn status(&mut self, slot: u16, subslot: u16, is_good: bool) -> Result<Note, Refusal>
        ensures { AnswersBoth self.old (Application (Status slot subslot is_good)) result self.new }
    {
        self.apply(&Event::status(slot, subslot, is_good))
    }

    /// A diagnosis of a submodule appears or disappears: of this channel, and with this ChannelErrorType.
    #[inline(never)]
    pub fn diagnosis(
        &mut self,
        slot: u16,
        subslot: u16,
        channel: u16,
        error: u16,
        appears: bool,
    ) -> Result<Note, Refusal>
        ensures { AnswersBoth self.old (Application (Diagnosis slot subslot channel error appears)) result self.new }
    {
        self.apply(&Event::diagnosis(slot, subslot, channel, error, appears))
    }

    /// The submodule in this slot and subslot is pulled. Its module stays, also without submodules.
    #[inline(never)]
    pub fn pull(&mut self, slot: u16, subslot: u16) -> Result<Note, Refusal>
        ensures { AnswersBoth self.old (Application (Pull slot subslot)) result self.new }
    {
        self.apply(&Event::pull(slot, subslot))
    }

    /// The module in this slot is pulled, with all its submodules.
    #[inline(never)]
    pub fn pull_module(&mut self, slot: u16) -> Result<Note, Refusal>
        ensures { AnswersBoth self.old (Application (PullModule slot)) result self.new }
    {
        self.apply(&Event::pull_module(slot))
    }

    /// This submodule is plugged into this slot, with a module of this ident number if the slot is empty.
    #[inline(never)]
    pub fn plug(
        &mut self,
        slot: u16,
        module_ident: u32,
        submodule: RealSubmodule,
    ) -> Result<Note, Refusal>
        ensures { AnswersBoth self.old (Application (Plug slot module_ident submodule)) result self.new }
    {
        self.apply(&Event::plug(slot, module_ident, submodule))
    }

    /// The application is ready for the plug in this slot and subslot.
    #[inline(never)]
    pub fn ready_at(&mut self, slot: u16, subslot: u16) -> Result<Note, Refusal>
        ensures { AnswersBoth self.old (Application (ReadyAt slot subslot)) result self.new }
    {
        self.apply(&Event::ready_at(slot, subslot))
    }

    /// The application is ready.
    #[inline(never)]
    pub fn ready(&mut self) -> Result<Note, Refusal>
        ensures { AnswersBoth self.old (Application Ready) result self.new }
    {
        self.apply(&Event::ready())
    }

    /// The application runs from now on, or is stopped.
    #[inline(never)]
    pub fn provider_state(&mut self, is_running: bool) -> Result<Note, Refusal>
        ensures { AnswersBoth self.old (Application (ProviderState is_running)) result self.new }
    {
        self.apply(&Event::provider_state(is_running))
    }

    /// The application answers the question with this number by the octets of a record.
    #[inline(never)]
    pub fn answer(&mut self, number: u32, octets: &[u8]) -> Result<Note, Refusal>
        ensures { AnswersBoth self.old (Application (Answer number (record { items = take 1519 octets.now }))) result self.new }
    {
        self.apply(&Event::answer(number, octets))
    }

    /// The application has written the record of the question with this number.
    #[inline(never)]
    pub fn written(&mut self, number: u32) -> Result<Note, Refusal>
        ensures { AnswersBoth self.old (Application (Written number)) result self.new }
    {
        self.apply(&Event::written(number))
    }

    /// The application refuses the question with this number, with this ErrorCode1 and ErrorCode2.
    #[inline(never)]
    pub fn refuse(&mut self, number: u32, code1: u8, code2: u8) -> Result<Note, Refusal>
        ensures { AnswersBoth self.old (Application (Refuse number code1 code2)) result self.new }
    {
        self.apply(&Event::refuse(number, code1, code2))
    }

    /// Any event but a frame and a unit of time: of the services it only lets them see the running settings.
    #[inline(never)]
    pub fn apply(&mut self, event: &Event<'_>) -> Result<Note, Refusal>
        requires { IsOfApplication event.now }
        ensures { AnswersBoth self.old event.now result self.new }
    {
        match self.barred() {
            Some(refusal) => Err(refusal),
            None => {
                self.tell();
                Ok(self.take(event))
            }
        }
    }

    // The same once the device knows its neighbour.
    fn take(&mut self, event: &Event<'_>) -> Note
        requires free { barred_both self.old ≡ None }
        requires kind { IsOfApplication event.now }
        ensures { StepsBoth self.old event.now result self.new }
    {
        catch_up(&mut self.services, self.limit - self.rest);
        self.rest = 0;
        self.limit = 0;
        let note = self.port.take(event);
        observe(&self.port, &mut self.services);
        note
    }

    /// Lets units of time pass if they surely bring nothing, as most do, and returns what is due then. No work remains then. `None`
    /// if none passed: they may bring something, or work remains.
    #[inline(always)]
    pub fn glide(&mut self, units: u32) -> Option<u32>
        ensures { SkipsOrNot self.old units result self.new }
    {
        if units >= self.rest {
            return None;
        }
        quiet_units_are_ticks();
        let Some(due) = self.port.glide(units) else {
            return None;
        };
        // The services do not know of them yet.
        self.rest -= units;
        Some(soonest(due, self.rest, &self.services))
    }

    /// Lets units of time pass up to the first that sends inputs, if they surely bring nothing else, and returns how many remain, and
    /// what is due then. The frame of the inputs is the only work then. `None` if none passed: they may bring something else or no
    /// inputs, or work remains.
    #[inline(always)]
    pub fn send(&mut self, units: u32) -> Option<Passed>
        ensures { SendsBothOrNot self.old units result self.new }
    {
        if units >= self.rest {
            return None;
        }
        quiet_units_are_ticks();
        let Some(passed) = self.port.send(units) else {
            return None;
        };
        // The services do not know of them yet.
        self.rest -= units - passed.left;
        Some(Passed {
            left: passed.left,
            due: soonest(passed.due, self.rest, &self.services),
        })
    }

    /// Lets units of time pass before a frame, as far as they bring nothing. Returns how many remain: some only if the next one brings
    /// something, or if the services have something to see or to tell first.
    #[inline(always)]
    pub fn pass_quiet(&mut self, units: u32) -> Result<u32, Refusal>
        ensures { QuietOrNot self.old units result self.new }
    {
        match self.glide(units) {
            Some(_) => Ok(0),
            None => self.pass_some(units),
        }
    }

    // The same if it is not known how many bring nothing.
    #[inline(never)]
    fn pass_some(&mut self, units: u32) -> Result<u32, Refusal>
        ensures { QuietOrNot self.old units result self.new }
    {
        if let Some(refusal) = self.barred() {
            return Err(refusal);
        }
        catch_up(&mut self.services, self.limit - self.rest);
        let rest = rest_of(&self.port, &self.services);
        self.rest = rest;
        self.limit = rest;
        if rest <= 1 {
            return Ok(units);
        }
        quiet_units_are_ticks();
        let due = self.port.device().due();
        let first = due.min(rest);
        let quiet = units.min(first - 1);
        let _ = self.port.skip(quiet);
        // The services do not know of them yet.
        self.rest = rest - quiet;
        Ok(units - quiet)
    }

    /// Lets units of time pass, up to the first that sends something. Returns how many remain, and what is due then.
    #[inline(always)]
    pub fn tick(&mut self, units: u32) -> Result<Passed, Refusal>
        ensures { PassesBothOrNot self.old units result self.new }
    {
        if units >= self.rest {
            return self.tick_both(units);
        }
        // The services have no part in them: they are only counted for these.
        quiet_units_are_ticks();
        let passed = self.port.tick(units)?;
        self.rest -= units - passed.left;
        Ok(Passed {
            left: passed.left,
            due: soonest(passed.due, self.rest, &self.services),
        })
    }

    /// Reports that a flash call failed on the host's side, which counts as lost power. The remaining work is dropped,
    /// and nothing is handed out any more.
    pub fn lose(&mut self) -> Result<(), Refusal>
        ensures { MatchResult result (λ _. (closed self.old.port.stage ≡ None)
            × (self.new ≡ lost_both self.old)) (λ refusal. (closed self.old.port.stage ≡ Some refusal) × (self.new ≡ self.old)) }
    {
        match self.port.lose() {
            Ok(()) => {
                self.frames_past = self.own.len();
                Ok(())
            }
            Err(refusal) => Err(refusal),
        }
    }

    // ---- work

    /// The next piece of work.
    pub fn work(&self) -> Result<Work<'_>, Refusal>
        ensures { IsRead (closed self.now.port.stage) (λ work. IsNextBoth self.now work) result }
    {
        match self.port.closed() {
            Some(refusal) => Err(refusal),
            None => Ok(self.next()),
        }
    }

    // The same of any port.
    fn next(&self) -> Work<'_>
        ensures { IsNextBoth self.now result }
    {
        match self.port.next() {
            Work::Nothing => self.next_own(),
            Work::Carry(call) => Work::Carry(call),
            Work::Send(octets) => Work::Send(octets),
        }
    }

    // The next frame of the services, if one remains.
    fn next_own(&self) -> Work<'_>
        requires { IsIdle self.now.port }
        ensures { IsNextBoth self.now result }
    {
        if self.frames_past < self.own.len() {
            return Work::Send(self.own.frame(self.frames_past));
        }
        Work::Nothing
    }

    /// Marks that piece as fetched.
    pub fn advance(&mut self)
        ensures { self.new ≡ advanced_both self.old }
    {
        if self.port.has_work() {
            self.port.advance();
        } else if self.frames_past < self.own.len() {
            self.frames_past += 1;
        }
    }

    /// Whether frames of the device remain.
    pub fn has_frames(&self) -> bool
        ensures { result ≡ has_some self.now.port.frames }
    {
        self.port.has_frames()
    }

    /// Whether it is known that frames of the device are the only work.
    #[inline(always)]
    pub fn sends(&self) -> bool
        ensures open { result ≡ true → closed self.now.port.stage ≡ None }
        ensures calls { result ≡ true → self.now.port.calls ≡ [] }
        ensures frames { result ≡ true → has_some self.now.port.frames ≡ true }
        ensures own { result ≡ true → self.now.frames ≡ [] }
    {
        if self.rest == 0 {
            return false;
        }
        self.port.sends()
    }

    /// Whether flash calls of the last step remain.
    pub fn has_calls(&self) -> bool
        ensures { result ≡ has_some self.now.port.calls }
    {
        self.port.has_calls()
    }

    /// The kind of the next piece of work, as of a port: 1 for a program call, 2 for an erase, 3 for a frame, 0 if no work
    /// remains.
    #[inline(always)]
    pub fn waiting(&self) -> u32
        ensures { result ≡ waiting_both self.now }
    {
        if self.port.has_calls() {
            return self.waiting_call();
        }
        if self.port.has_frames() {
            return 3;
        }
        self.waiting_own()
    }

    // The same if a flash call may remain. It has a function of its own: most events make none.
    #[inline(never)]
    fn waiting_call(&self) -> u32
        ensures { result ≡ waiting_both self.now }
    {
        or_own(self.port.waiting(), self.waiting_own())
    }

    // The kind of the next piece of work, if none of the port remains.
    fn waiting_own(&self) -> u32
        ensures { result ≡ waiting_in [] self.now.frames }
    {
        if self.has_own_frames() { 3 } else { 0 }
    }

    /// Takes the next flash call, which is then fetched, and says the kind of the piece of work after it.
    pub fn fetch_call(&mut self, more: &mut u32) -> Recorded<'_>
        requires { has_some self.old.port.calls ≡ true }
        ensures* fetches { sem 𝓛 (follows_so the_row the_row self.entry.ghost_name none (λ _ _. ⊤) (λ new. FetchesCallBoth self.old (call_of result) more.new new)) }
        // It lies in its sector, and programs at most 437 octets.
        ensures fits { fits_in 4096 (call_of result) ≡ true }
    {
        let own = self.waiting_own();
        let call = self.port.fetch_call(more);
        *more = or_own(*more, own);
        call
    }

    /// Takes the next frame of the device once no flash call remains. It is then fetched. Says the kind of the piece of work
    /// after it.
    pub fn fetch_frame(&mut self, more: &mut u32) -> Option<&Frame>
        requires calls { self.old.port.calls ≡ [] }
        requires frames { has_some self.old.port.frames ≡ true }
        ensures* { sem 𝓛 (follows_so the_row the_row self.entry.ghost_name none (λ _ _. ⊤) (λ new. FetchesBoth self.old (option_map (λ frame. frame.now.items) result) more.new new)) }
    {
        let own = self.waiting_own();
        let frame = self.port.fetch_frame(more);
        *more = or_own(*more, own);
        frame
    }

    /// The same if the services have no frame.
    #[inline(always)]
    pub fn fetch_only(&mut self, more: &mut u32) -> Option<&Frame>
        requires calls { self.old.port.calls ≡ [] }
        requires own { self.old.frames ≡ [] }
        requires frames { has_some self.old.port.frames ≡ true }
        ensures* { sem 𝓛 (follows_so the_row the_row self.entry.ghost_name none (λ _ _. ⊤) (λ new. FetchesBoth self.old (option_map (λ frame. frame.now.items) result) more.new new)) }
    {
        self.port.fetch_frame(more)
    }

    /// Takes the octets of the next frame of the services once no work of the port remains.
    pub fn fetch_own(&mut self, more: &mut u32) -> Option<&[u8]>
        requires calls { self.old.port.calls ≡ [] }
        requires frames { self.old.port.frames ≡ [] }
        ensures* fetches { sem 𝓛 (follows_so the_row the_row self.entry.ghost_name none (λ _ _. ⊤) (λ new. FetchesBoth self.old (option_map (λ octets. octets.now) result) more.new new)) }
        ensures short { IfSome result (λ octets. length octets.now ≤ 1518) }
    {
        let past = self.frames_past;
        if past >= self.own.len() {
            *more = 0;
            return None;
        }
        self.frames_past = past + 1;
        *more = self.waiting_own();
        Some(self.own.frame(past))
    }

    // ---- what is due

    /// The number of units up to and including the next one that brings something to the device, or to the services beside it.
    pub fn due(&mut self) -> Result<u32, Refusal>
        ensures same { self.new ≡ self.old }
        ensures due { MatchResult result (λ due. (closed self.old.port.stage ≡ None)
            × (due ≡ due_both self.old)) (λ refusal. closed self.old.port.stage ≡ Some refusal) }
    {
        match self.port.closed() {
            Some(refusal) => Err(refusal),
            None => Ok(self.count()),
        }
    }

    // Counts the units until something is due, which then is known, if events are accepted.
    #[inline(never)]
    pub fn count(&mut self) -> u32
        ensures same { self.new ≡ self.old }
        ensures due { result ≡ due_both self.old }
    {
        let has_own = self.has_own_frames();
        catch_up(&mut self.services, self.limit - self.rest);
        let due = due_of(&self.port, &self.services);
        let rest = if has_own {
            0
        } else {
            rest_of(&self.port, &self.services)
        };
        self.rest = rest;
        self.limit = rest;
        due
    }

    // ---- one step

    // Why no event is accepted now.
    fn barred(&self) -> Option<Refusal>
        ensures { result ≡ barred_both self.now }
    {
        match self.port.closed() {
            Some(refusal) => Some(refusal),
            None if self.has_work() => Some(Refusal::HasWork),
            None => None,
        }
    }

    /// Whether work of the last step remains.
    pub fn has_work(&self) -> bool
        ensures { result ≡ is_left self.now.port.calls (frames_of self.now) }
    {
        self.port.has_work() || self.has_own_frames()
    }

    // Whether frames of the services remain.
    fn has_own_frames(&self) -> bool
        ensures { result ≡ has_some self.now.frames }
    {
        self.frames_past < self.own.len()
    }

    // The neighbour is reported to the device, if that changed.
    #[inline(never)]
    fn tell(&mut self)
        requires free { barred_both self.old ≡ None }
        ensures tells { TellsBoth self.old self.new }
        ensures free { barred_both self.new ≡ None }
    {
        catch_up(&mut self.services, self.limit - self.rest);
        self.rest = 0;
        self.limit = 0;
        tell_neighbour(&mut self.port, &mut self.services);
    }

    // ---- units of time

    // Lets units of time pass that may bring something to the services, up to the first that sends something.
    #[inline(never)]
    fn tick_both(&mut self, units: u32) -> Result<Passed, Refusal>
        ensures { PassesBothOrNot self.old units result self.new }
    {
        if let Some(refusal) = self.barred() {
            return Err(refusal);
        }
        let mut left = units;
        while left > 0 {
            left -= self.leap(left);
            if self.has_work() {
                break;
            }
        }
        Ok(Passed {
            left,
            due: self.count(),
        })
    }

    // Lets units of time pass, at least one and at most as many as these, up to the first that brings something to the services
    // or sends something. Returns how many passed.
    fn leap(&mut self, most: u32) -> u32
        requires free { barred_both self.old ≡ None }
        requires some { 0 < most }
        ensures some { 0 < result }
        ensures most { result ≤ most }
        ensures ticks { TicksBoth result self.old self.new }
        ensures stage { self.new.port.stage ≡ Booted }
        ensures quiet { self.new.port.calls ≡ [] }
    {
        catch_up(&mut self.services, self.limit - self.rest);
        self.rest = 0;
        self.limit = 0;
        self.frames_past = 0;
        tell_neighbour(&mut self.port, &mut self.services);
        pass_both(&mut self.port, &mut self.services, most, &mut self.own)
    }
}

// The kind of the piece after one of a port, if this is the kind of the next one of the services.
fn or_own(kind: u32, own: u32) -> u32
    ensures { result ≡ kind_or_own kind own }
{
    if kind == 0 { own } else { kind }
}
