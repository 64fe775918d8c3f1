//! A device, and the work of its last step that the host has not fetched yet.
ghost use Rattle.std.specs.Prelude.{◌≡◌, ◌≢◌, ◌+◌, ◌-◌, ◌<◌, ◌≤◌, ◌%◌, ◌^◌, [], None, Some, IfOk, MatchResult, ℕ, false, length, option_map, true};
ghost use Rattle.std.specs.Prelude.{⊤};
ghost use mathlib.Core.Option.{none};
ghost use types.Logic.{sem};
ghost use denote.Follow.{follows_so};
ghost use Rattle.flash_model.specs.Image.{erased};
ghost use Rattle.device_station.specs.recorded.Entry.{call_of};
ghost use Rattle.device_station.specs.recorded.Fits.{fits_in};
ghost use Rattle.device_station.specs.recorded.Record.{image_of, recalled, record_of};
ghost use Rattle.device_frames.specs.declared.event.Event.TheVariants.{Application, Frame as Framed};
ghost use Rattle.device_frames.specs.declared.local.Local.TheVariants.{Input};
ghost use Rattle.device_station.specs.port.State.{IsIdle, IsNext, IsRead, advanced, barred, closed, has_some, has_work as is_left, kind_of, lost, waiting as kind_in, work_kind};
ghost use Rattle.device_station.specs.port.State.{past_start as too_late};
ghost use Rattle.device_station.specs.port.Steps.{GlidesOrNot, KnowsOrNot, Passes, PassesOrNot, SendsOrNot, StartsOrNot, Takes, Ticks};
ghost use Rattle.device_core.specs.Leaps.{live_due_in};
ghost use Rattle.device_core.specs.State.{station_named};
ghost use Rattle.frame_codec.specs.Outbox.{boxed};
ghost use Rattle.device_core.specs.OpenAlarm.{has_open_alarm};
ghost use Rattle.device_station.specs.Beside.{beside, is_dropped, joined_beside};
ghost use Rattle.device_station.specs.Leaps.{services_due};
ghost use Rattle.device_station.specs.Serving.{disputes};
ghost use Rattle.device_station.specs.Views.{joined_in, note_in};
ghost use Rattle.device_station.specs.port.Pace.{TicksBeside};

use crate::port::own::OwnFrames;
use crate::port::{Refusal, Stage};
use crate::recording::{leap, leap_steady, skip, skip_steady, step, step_cyclic, step_input};
use crate::{Attended, DeviceServices, Recorded, RecordedFlash};
use asked_records::NamedRecords;
use device_core::{Device, Event, Note};
use flash_model::Sector;
use frame_codec::{Frame, Outbox};
use pn_values::{Identity, Real};
use relations::{DeviceOptions, Steady};
use settings_journal::Fill;
use std::marker::Model;

/// The number of octets of each of the two sectors.
pub const SECTOR_SIZE: usize = 4096;

/// The part of a port that is the device alone: the device, and the work of its last step that the host has not fetched yet,
/// flash calls, then frames.
#[derive(Drop)]
pub(crate) struct DevicePort {
    device: Device<RecordedFlash<4096>, 4096>,
    outbox: Outbox,
    stage: Stage,
    /// The number of recorded flash calls that the host has fetched.
    calls_past: usize,
    /// The number of frames in the outbox that the host has fetched.
    frames_past: usize,
    /// When the next units bring something, if only the timers of an exchange run, or if there is no relation. It is known after units
    /// of time. An input and a cyclic frame leave it known, any other event makes it unknown.
    steady: Steady,
}

impl Model for DevicePort {
    ghost use Rattle.std.specs.Prelude.{◌≤◌, length, drop};
    ghost use Rattle.frame_codec.specs.Outbox.{boxed};
    ghost use Rattle.device_station.specs.recorded.Record.{recalled};
    ghost use Rattle.device_station.specs.port.State.{State, IsKnown, IsSteady};

    ghost Value = { State };

    ghost view = { λ port. record {
      device = port.device;
      stage = port.stage;
      calls = drop port.calls_past (recalled port.device.flash);
      frames = drop port.frames_past (boxed port.outbox);
    } };

    ghost invariant = { λ port. (port.calls_past ≤ length (recalled port.device.flash))
        × (port.frames_past ≤ length port.outbox.items)
        × IsSteady port.stage port.device.live.values.has_failed (drop port.calls_past (recalled port.device.flash))
        (drop port.frames_past (boxed port.outbox))
        × IsKnown port.steady port.device.live port.stage (drop port.calls_past (recalled port.device.flash)) };
}

/// What units of time left to do.
#[derive(Clone, Copy, Debug, PartialEq, Eq)]
pub struct Passed {
    /// The number of units that did not pass.
    pub left: u32,
    /// What is due after those that passed, as `Port::due` returns it.
    pub due: u32,
}

/// A piece of work.
#[derive(Drop)]
pub enum Work<'a> {
    /// No work remains.
    Nothing,
    /// A flash call.
    Carry(Recorded<'a>),
    /// A frame to be sent: its octets.
    Send(&'a [u8]),
}

// The octets of a sector of the chip.
#[derive(Drop)]
struct Chip<'a> {
    sector: Sector,
    octets: &'a [u8],
}

impl Fill<RecordedFlash<4096>> for Chip<'_> {
    ghost use Rattle.std.specs.Prelude.{◌≡◌, length};
    ghost use Rattle.device_station.specs.recorded.Record.{record_of, filled};

    ghost post = { λ chip old new. length chip.octets.now ≡ 4096 →
        record_of new ≡ filled 4096 (record_of old) chip.sector chip.octets.now };

    fn fill(&self, flash: &mut RecordedFlash<4096>) {
        flash.put_sector(self.sector, self.octets);
    }
}

impl DevicePort {
    ghost use Rattle.device_station.specs.contracts.port.device.DevicePort.{the_row};
    ghost use Rattle.device_station.specs.port.State.{FetchesCall, FetchesFrame};

    // A device that did not start, over a chip whose content is not known yet.
    #[inline(always)]
    pub(crate) fn new(
        identity: Identity,
        real: Real,
        options: DeviceOptions,
        named: NamedRecords,
    ) -> DevicePort
        ensures station { result.device.station ≡ station_named identity real options named }
        ensures stage { result.stage ≡ Stage.Made }
        ensures idle { IsIdle result }
        ensures chip { image_of result.device.flash ≡ record { first = erased 4096; second = erased 4096 } }
    {
        DevicePort {
            device: Device::unstarted_named(identity, real, options, named, RecordedFlash::blank()),
            outbox: Outbox::new(),
            stage: Stage::Made,
            calls_past: 0,
            frames_past: 0,
            steady: Steady { inputs: 0, held: 0 },
        }
    }

    // The stage of the port.
    pub(crate) fn stage(&self) -> Stage
        ensures { result ≡ self.now.stage }
    {
        self.stage
    }

    // Why the port reports nothing, if it does not.
    pub(crate) fn closed(&self) -> Option<Refusal>
        ensures { result ≡ closed self.now.stage }
    {
        why_closed(self.stage)
    }

    // Whether it is known that events are accepted and no process alarm is open: only the timers of an exchange run, and no frame
    // remains.
    #[inline(always)]
    pub(crate) fn is_steady(&self) -> bool
        ensures open { result ≡ true → barred self.now ≡ None }
        ensures closed { result ≡ true → has_open_alarm self.now.device.live.rest.link ≡ false }
    {
        if self.steady.inputs == 0 {
            return false;
        }
        !self.has_frames()
    }

    // Whether work of the last step remains.
    pub(crate) fn has_work(&self) -> bool
        ensures { result ≡ is_left self.now.calls self.now.frames }
    {
        if self.has_calls() {
            return true;
        }
        self.has_frames()
    }

    // Whether flash calls of the last step remain.
    pub(crate) fn has_calls(&self) -> bool
        ensures { result ≡ has_some self.now.calls }
    {
        self.calls_past < self.device.flash().stored()
    }

    // Whether frames of the last step remain.
    pub(crate) fn has_frames(&self) -> bool
        ensures { result ≡ has_some self.now.frames }
    {
        self.frames_past < self.outbox.len()
    }

    // ---- a start

    // Sets the content of a sector of the chip, before a start. Returns `BadLength` if it does not have 4,096 octets.
    pub(crate) fn fill(&mut self, sector: Sector, octets: &[u8]) -> Result<(), Refusal>
        ensures { KnowsOrNot self.old sector octets.now result self.new }
    {
        if let Some(late) = past_start(self.stage) {
            return Err(late);
        }
        if octets.len() != SECTOR_SIZE {
            return Err(Refusal::BadLength);
        }
        self.device.fill(&Chip { sector, octets });
        // No stored call is one of a step.
        self.calls_past = self.device.flash().stored();
        self.steady = Steady::unknown();
        Ok(())
    }

    // Starts from the content of the chip, and writes nothing. Returns `Foreign` if the content cannot be read.
    pub(crate) fn boot(&mut self) -> Result<(), Refusal>
        ensures { StartsOrNot self.old result self.new }
    {
        match past_start(self.stage) {
            Some(late) => Err(late),
            None => self.start(),
        }
    }

    // Starts a port that was only made.
    fn start(&mut self) -> Result<(), Refusal>
        requires { too_late self.old.stage ≡ None }
        ensures { StartsOrNot self.old result self.new }
    {
        self.steady = Steady::unknown();
        match self.device.load() {
            Ok(()) => {
                self.stage = Stage::Booted;
                Ok(())
            }
            Err(_) => Err(Refusal::Foreign),
        }
    }

    // ---- events

    // Lets units of time pass, up to the first that sends something. Returns how many remain, and what is due then.
    #[inline(always)]
    pub(crate) fn tick(&mut self, units: u32) -> Result<Passed, Refusal>
        ensures passes { PassesOrNot self.old units result self.new }
        // No unit makes a flash call.
        ensures quiet { IfOk result (λ passed. self.new.calls ≡ []) }
    {
        match self.barred() {
            Some(refusal) => Err(refusal),
            None => Ok(self.pass(units)),
        }
    }

    // Reports that a flash call failed on the host's side, which counts as lost power. The remaining work is dropped,
    // and nothing is handed out any more.
    pub(crate) fn lose(&mut self) -> Result<(), Refusal>
        ensures { MatchResult result (λ _. (closed self.old.stage ≡ None)
            × (self.new ≡ lost self.old)) (λ refusal. (closed self.old.stage ≡ Some refusal) × (self.new ≡ self.old)) }
    {
        if let Some(refusal) = why_closed(self.stage) {
            return Err(refusal);
        }
        self.calls_past = self.device.flash().stored();
        self.frames_past = self.outbox.len();
        self.stage = Stage::Lost;
        self.steady = Steady::unknown();
        Ok(())
    }

    // ---- work

    // The next piece of work.
    pub(crate) fn next(&self) -> Work<'_>
        ensures { IsNext self.now result }
    {
        let flash = self.device.flash();
        if self.calls_past < flash.stored() {
            return Work::Carry(flash.call(self.calls_past));
        }
        if self.frames_past < self.outbox.len() {
            return Work::Send(self.outbox.as_slice()[self.frames_past].as_slice());
        }
        Work::Nothing
    }

    // Marks that piece as fetched.
    pub(crate) fn advance(&mut self)
        ensures { self.new ≡ advanced self.old }
    {
        if self.calls_past < self.device.flash().stored() {
            self.calls_past += 1;
        } else if self.frames_past < self.outbox.len() {
            self.frames_past += 1;
        }
    }

    // Takes the next flash call, which is then fetched, and says the kind of the piece of work after it.
    pub(crate) fn fetch_call(&mut self, more: &mut u32) -> Recorded<'_>
        requires { has_some self.old.calls ≡ true }
        ensures* fetches { sem 𝓛 (follows_so the_row the_row self.entry.ghost_name none (λ _ _. ⊤) (λ new. FetchesCall self.old (call_of result) more.new new)) }
        // It lies in its sector, and programs at most 437 octets.
        ensures fits { fits_in 4096 (call_of result) ≡ true }
    {
        let past = self.calls_past;
        // One remains, so the next position is a length of the record at most.
        let _ = self.device.flash().stored();
        self.calls_past = past + 1;
        *more = self.waiting();
        self.device.flash().call(past)
    }

    // Takes the next frame once no flash call remains. It is then fetched. Says the kind of the piece of work after it.
    #[inline(always)]
    pub(crate) fn fetch_frame(&mut self, more: &mut u32) -> Option<&Frame>
        requires { self.old.calls ≡ [] }
        ensures* { sem 𝓛 (follows_so the_row the_row self.entry.ghost_name none (λ _ _. ⊤) (λ new. FetchesFrame self.old (option_map (λ frame. frame.now.items) result) more.new new)) }
    {
        if self.frames_past < self.outbox.len() {
            let past = self.frames_past;
            self.frames_past = past + 1;
            *more = self.waiting_frame();
            return Some(&self.outbox.as_slice()[past]);
        }
        *more = 0;
        None
    }

    // The kind of the next piece of work.
    pub(crate) fn waiting(&self) -> u32
        ensures { result ≡ kind_in self.now.calls self.now.frames }
    {
        if self.has_calls() {
            return kind(&self.next());
        }
        self.waiting_frame()
    }

    // The same if no flash call remains.
    pub(crate) fn waiting_frame(&self) -> u32
        requires { self.now.calls ≡ [] }
        ensures { result ≡ kind_in self.now.calls self.now.frames }
    {
        if self.has_frames() { 3 } else { 0 }
    }

    // The device, if the port is open. No commit of it fails.
    pub(crate) fn open(&self) -> Result<&Device<RecordedFlash<4096>, 4096>, Refusal>
        ensures { IsRead (closed self.now.stage) (λ device. (device.now ≡ self.now.device) × (self.now.device.live.values.has_failed ≡ false)) result }
    {
        match why_closed(self.stage) {
            Some(refusal) => Err(refusal),
            None => Ok(&self.device),
        }
    }

    // The device.
    pub(crate) fn device(&self) -> &Device<RecordedFlash<4096>, 4096>
        ensures { result.now ≡ self.now.device }
    {
        &self.device
    }

    // ---- one step

    // Why no event is accepted now.
    #[inline(always)]
    pub(crate) fn barred(&self) -> Option<Refusal>
        ensures { result ≡ barred self.now }
    {
        match self.stage {
            Stage::Booted if self.has_work() => Some(Refusal::HasWork),
            Stage::Booted => None,
            Stage::Made | Stage::Lost => Some(unopened(self.stage)),
        }
    }

    // Handles an event. All work of the step before is fetched.
    #[inline(always)]
    pub(crate) fn take(&mut self, event: &Event<'_>) -> Note
        requires { barred self.old ≡ None }
        ensures { Takes self.old event.now result self.new }
    {
        let before = counted(self.device.flash());
        let note = step(&mut self.device, event, &mut self.outbox);
        self.calls_past = older(before, self.device.flash());
        self.frames_past = 0;
        self.steady = Steady::unknown(); // the event may change it
        note
    }

    // The same with a cyclic frame, if the relation accepts it. It is only read, and makes no work.
    #[inline(always)]
    pub(crate) fn hear_cyclic(&mut self, octets: &[u8]) -> bool
        requires { barred self.old ≡ None }
        ensures taken { result ≡ true → Takes self.old (Framed (record { items = octets.now })) Note.Done self.new }
        ensures left { result ≡ false → self.new ≡ self.old }
        ensures free { barred self.new ≡ None }
    {
        step_cyclic(&mut self.device, octets)
    }

    // The same with an input, which is only read, and makes no work.
    #[inline(always)]
    pub(crate) fn give(&mut self, slot: u16, subslot: u16, octets: &[u8]) -> Note
        requires { barred self.old ≡ None }
        ensures takes { Takes self.old (Application (Input slot subslot (record { items = octets.now }))) result self.new }
        ensures free { barred self.new ≡ None }
    {
        step_input(&mut self.device, slot, subslot, octets)
    }

    // What services do with a frame that the device has handled, if it left no frame. Its outbox is free then: theirs go through it.
    pub(crate) fn attend(
        &mut self,
        services: &mut DeviceServices,
        octets: &[u8],
        note: Note,
        own: &mut OwnFrames,
    ) -> Attended
        requires free { self.old.frames ≡ [] }
        requires known { is_dropped note ≡ false → disputes services.old octets.now ≡ false }
        ensures same { self.new ≡ self.old }
        ensures beside { record { services = services.new; sent = own.new.frames; note = note_in result }
            ≡ beside self.old.device.station.identity services.old self.old.device.live.values note (Framed (record { items = octets.now })) }
        ensures call { joined_in result own.new.call
            ≡ joined_beside services.old self.old.device.live.values note (Framed (record { items = octets.now })) }
    {
        let attended = own.attend(&self.device, services, octets, note, &mut self.outbox);
        self.outbox.clear();
        self.frames_past = 0;
        attended
    }

    // What they do in a unit of time that is about to pass, in the same way.
    pub(crate) fn follow_unit(&mut self, services: &mut DeviceServices, own: &mut OwnFrames)
        requires free { self.old.frames ≡ [] }
        requires due { 1 ≤ services_due self.old.device.live.values services.old }
        ensures same { self.new ≡ self.old }
        ensures ticks { TicksBeside 1 self.old.device.station.identity self.old.device.live.values services.old services.new own.new.frames }
    {
        own.follow_unit(&self.device, services, &mut self.outbox);
        self.outbox.clear();
        self.frames_past = 0;
    }

    // ---- units of time. None of them makes a flash call, so the flash is not looked at.

    // Whether it is known that frames of the device are the only work: only the timers of an exchange run.
    #[inline(always)]
    pub(crate) fn sends(&self) -> bool
        ensures open { result ≡ true → closed self.now.stage ≡ None }
        ensures calls { result ≡ true → self.now.calls ≡ [] }
        ensures frames { result ≡ true → has_some self.now.frames ≡ true }
    {
        if self.steady.inputs == 0 {
            return false;
        }
        self.has_frames()
    }

    // Lets units of time pass with which nothing is due, if it is known that nothing is. Returns what is due then; `None` if they did
    // not pass.
    #[inline(always)]
    pub(crate) fn glide(&mut self, units: u32) -> Option<u32>
        ensures { GlidesOrNot self.old units result self.new }
    {
        if self.has_frames() || units >= self.steady.inputs {
            return None;
        }
        skip_steady(&mut self.device, units, &mut self.steady);
        Some(self.steady.inputs)
    }

    // Lets units of time pass up to the first that sends inputs, if it is known that nothing else is due. Returns how many remain, and
    // what is due then; `None` if none passed.
    #[inline(always)]
    pub(crate) fn send(&mut self, units: u32) -> Option<Passed>
        ensures { SendsOrNot self.old units result self.new }
    {
        if self.has_frames() {
            return None;
        }
        let inputs = self.steady.inputs;
        if inputs == 0 {
            return None;
        }
        if units < inputs {
            return None;
        }
        if inputs >= self.steady.held {
            return None;
        }
        leap_steady(&mut self.device, &mut self.steady, &mut self.outbox);
        self.frames_past = 0;
        Some(Passed {
            left: units - inputs,
            due: due_of(self.steady.inputs, &self.device),
        })
    }

    // Lets units of time pass by leaps, up to the first that sends something.
    #[inline(never)]
    fn pass(&mut self, units: u32) -> Passed
        requires { barred self.old ≡ None }
        ensures passes { Passes self.old units result.left self.new }
        ensures due { result.due ≡ live_due_in self.new.device.live }
        ensures quiet { self.new.calls ≡ [] }
    {
        let mut left = units;
        let mut due = self.device.due();
        while left >= due {
            left -= due;
            due = self.leap(due);
            if self.has_frames() {
                return Passed { left, due };
            }
        }
        Passed {
            left: 0,
            due: self.skip(left),
        }
    }

    // Lets units of time pass, at most as many as are due. All work of the step before is fetched. Returns what is due then.
    fn leap(&mut self, units: u32) -> u32
        requires free { barred self.old ≡ None }
        requires few { units ≤ live_due_in self.old.device.live }
        ensures ticks { Ticks units self.old self.new }
        ensures stage { self.new.stage ≡ Stage.Booted }
        ensures due { result ≡ live_due_in self.new.device.live }
        ensures some { 0 < result }
        ensures quiet { self.new.calls ≡ [] }
    {
        leap(&mut self.device, units, &mut self.outbox);
        self.frames_past = 0;
        self.steady = self.device.steady();
        self.device.due()
    }

    // Lets units of time pass with which nothing is due, while events are accepted: fewer than `due` returns. Returns what
    // is due then.
    pub(crate) fn skip(&mut self, units: u32) -> u32
        requires free { barred self.old ≡ None }
        requires few { units < live_due_in self.old.device.live }
        ensures ticks { Ticks units self.old self.new }
        // No work remains: nothing was sent.
        ensures free { barred self.new ≡ None }
        ensures due { result ≡ live_due_in self.new.device.live }
        ensures quiet { self.new.calls ≡ [] }
    {
        skip(&mut self.device, units);
        self.steady = self.device.steady();
        self.device.due()
    }
}

// What is due of a device: these inputs, if their unit is known.
#[inline(always)]
fn due_of(inputs: u32, device: &Device<RecordedFlash<4096>, 4096>) -> u32
    requires { 0 < inputs → live_due_in device.now.live ≡ inputs }
    ensures { result ≡ live_due_in device.now.live }
{
    if inputs == 0 {
        return count(device);
    }
    inputs
}

// The same, asked of each timer.
#[inline(never)]
fn count(device: &Device<RecordedFlash<4096>, 4096>) -> u32
    ensures { result ≡ live_due_in device.now.live }
{
    device.due()
}

// Why a port reports nothing at this stage.
fn why_closed(stage: Stage) -> Option<Refusal>
    ensures { result ≡ closed stage }
{
    match stage {
        Stage::Made => Some(Refusal::NotBooted),
        Stage::Booted => None,
        Stage::Lost => Some(Refusal::PowerLost),
    }
}

// Why a port is not open. It has a function of its own, so that an open port only compares its stage once.
#[inline(never)]
fn unopened(stage: Stage) -> Refusal
    requires { stage ≢ Stage.Booted }
    ensures { closed stage ≡ Some result }
{
    match stage {
        Stage::Made => Refusal::NotBooted,
        Stage::Booted | Stage::Lost => Refusal::PowerLost,
    }
}

// Why a port may not be started at this stage.
fn past_start(stage: Stage) -> Option<Refusal>
    ensures { result ≡ too_late stage }
{
    match stage {
        Stage::Made => None,
        Stage::Booted => Some(Refusal::IsBooted),
        Stage::Lost => Some(Refusal::PowerLost),
    }
}

// The number of calls that a flash ever recorded, modulo 2 to the 32.
fn counted(flash: &RecordedFlash<4096>) -> u32
    ensures value { result ≡ (record_of flash.now).count }
    ensures small { (record_of flash.now).count < 2 ^ 32 }
{
    flash.count()
}

// The number of stored calls that are older than those recorded since the count was `before`.
fn older(before: u32, flash: &RecordedFlash<4096>) -> usize
    ensures most { result ≤ length (recalled flash.now) }
    ensures exact { (calls : ℕ) → (record_of flash.now).count ≡ (before + calls) % 2 ^ 32 → calls ≤ length (recalled flash.now) →
        calls ≤ 48 →
        result ≡ length (recalled flash.now) - calls }
{
    let newer = flash.count().wrapping_sub(before) as usize;
    flash.stored().saturating_sub(newer)
}

// The kind of a piece of work.
fn kind(work: &Work<'_>) -> u32
    ensures { result ≡ work_kind work.now }
{
    match work {
        Work::Nothing => 0,
        Work::Carry(call) => call_kind(call),
        Work::Send(_) => 3,
    }
}

// The kind of a flash call.
#[inline(never)]
fn call_kind(call: &Recorded<'_>) -> u32
    ensures { result ≡ kind_of (call_of call.now) }
{
    match call {
        Recorded::Program { .. } => 1,
        Recorded::Erase { .. } => 2,
    }
}
