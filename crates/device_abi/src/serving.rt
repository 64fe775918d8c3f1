//! One operation of the host.
ghost use Rattle.std.specs.Prelude.{◌≡◌, ◌≤◌, ℕ, IfSome, Ok, Option, Some, [], length, min, option_map, slice_get, take, true};
ghost use Rattle.device_frames.specs.declared.event.Event.TheVariants.{Application, Frame as Framed};
ghost use Rattle.device_frames.specs.declared.local.Local.TheVariants.{ProviderState, Ready as IsReady};
ghost use Rattle.device_station.specs.recorded.Entry.{call_of};
ghost use Rattle.device_station.specs.recorded.Fits.{fits_in};
ghost use Rattle.relations.specs.Exchanged.{provider_in};
ghost use Rattle.relations.specs.RelationState.{passed_of, phase_of, taken_of};
ghost use Rattle.std.specs.Prelude.{⊤};
ghost use mathlib.Core.Option.{none};
ghost use types.Logic.{sem};
ghost use denote.Follow.{follows_so};
ghost use Rattle.device_station.specs.contracts.port.served.Port.{the_row as Row};
ghost use Rattle.device_station.specs.port.State.{IsRead, closed, has_some};
ghost use Rattle.device_station.specs.port.Served.{advanced_both, conflicts_of, due_both, frames_of, waiting_both};
ghost use Rattle.c_layout.specs.Places.{place_in};
ghost use Rattle.c_layout.specs.Reported.{with_octets};
ghost use Rattle.device_abi.specs.Serves.{IsAlarm, IsBoot, IsCall, IsDiagnosis, IsEvent, IsFrameAfter, IsInput, IsLink, IsLoss, HandsOut, IsHanded, IsOutput, with_frame, with_nothing};
ghost use Rattle.device_abi.specs.Serves.{IsNumber, IsReceived, IsReceivedAt, IsReceivedOf, IsRecordAt, IsRecordOf, IsProvider, IsProviderAt, IsProviderOf, IsSector, IsSettings, IsState, IsStatus, IsTick, IsValueOf, Serves, answer_of, back_at, link_of};
ghost use Rattle.device_abi.specs.declared.confirmation.Confirmation.TheVariants.{Nothing};
ghost use Rattle.device_abi.specs.Confirmed.{is_open as is_open_in, with_confirmation};
ghost use Rattle.device_abi.specs.Reasons.{why_not_ready as why_not_ready_in};
ghost use Rattle.device_abi.specs.Serves.{IsEventWith, IsTickWith};
ghost use Rattle.device_abi.specs.Serves.{IsOutcome, IsSaid, is_refused as is_refused_in, reached_in, with_statuses};
ghost use Rattle.device_abi.specs.Serves.{noted as is_noted, operation_of as operation_in, with_passed, phase_number};
ghost use Rattle.device_abi.specs.Serves.{sector_number as number_of, sector_of, settings_octets, value_of};

use crate::asking::{answer, refuse, tell_asked, written};
use crate::confirmation::{Confirmation, acknowledged_in, is_open, over_by};
use crate::modules::{plug, pull, pull_module, ready_at, tell_expected};
use crate::operation::{Operation, operation_of};
use crate::reason::{
    Reason, why_no_alarm, why_no_diagnosis, why_no_input, why_no_status, why_not_ready,
};
use c_layout::{
    BAD_LENGTH, NO_FRAME, NO_RECORD, NO_SLOT, Op, REFUSED, UNKNOWN, pair_of, place_of, put,
    put_more,
};
use device_core::Note;
use device_station::{Port, Recorded, Refusal};
use diagnosis::{Change, Diagnosis};
use flash_model::Sector;
use frame_codec::Frame;
use lldp::Link;
use pn_values::Settings;
use records::TakenRecord;
use relations::{Phase, ProviderStatus, ReceivedValue};

/// Carries out one operation, with the given octets. Returns 0, or why nothing changed.
pub fn serve(port: &mut Port, op: &mut Op, given: &[u8]) -> u32
    ensures { Serves (operation_in op.old.what) port.old op.old given.now result port.new op.new }
{
    // What happens in each millisecond of an exchange makes few comparisons.
    if op.what == 4 {
        return tick(port, op);
    }
    if op.what == 24 {
        return frame_after(port, op, given);
    }
    if op.what == 5 {
        return input(port, op, given);
    }
    if op.what == 25 {
        return received(port, op);
    }
    if op.what == 8 {
        return output(port, op);
    }
    if op.what == 3 {
        return frame(port, op, given);
    }
    serve_other(port, op, given)
}

// The same of any operation.
#[inline(never)]
fn serve_other(port: &mut Port, op: &mut Op, given: &[u8]) -> u32
    ensures { Serves (operation_in op.old.what) port.old op.old given.now result port.new op.new }
{
    match operation_of(op.what) {
        Some(operation) => perform(operation, port, op, given),
        None => UNKNOWN,
    }
}

// Carries out a known operation. Each has a function of its own, so that a unit of time saves no register that only another
// operation needs.
fn perform(operation: Operation, port: &mut Port, op: &mut Op, given: &[u8]) -> u32
    ensures { Serves (Some operation) port.old op.old given.now result port.new op.new }
{
    match operation {
        Operation::Sector => fill(port, op, given),
        Operation::Boot => boot(port),
        Operation::Frame => frame(port, op, given),
        Operation::Tick => tick(port, op),
        Operation::Input => input(port, op, given),
        Operation::Alarm => alarm(port, op, given),
        Operation::Output => output(port, op),
        Operation::State => state(port, op),
        Operation::Running => tell_settings(port.running(), op),
        Operation::Stored => tell_settings(port.stored(), op),
        Operation::Lose => lose(port),
        Operation::Record => tell_taken(port, op),
        Operation::Left => tell_number(port.left(), &mut op.commits),
        Operation::Due => tell_number(port.due(), &mut op.due),
        Operation::Status => status(port, op),
        Operation::Ready => ready(port, op),
        Operation::Provider => provider(port, op),
        Operation::Diagnosis => diagnosis(port, op),
        Operation::Conflicts => tell_number(conflicts(port), &mut op.count),
        Operation::Link => link(port, op, given),
        Operation::Passed => tell_passed_record(port, op),
        Operation::PassedOn => tell_number(port.passed_on(), &mut op.count),
        Operation::FrameAfter => frame_after(port, op, given),
        Operation::Received => received(port, op),
        Operation::Run => provider_state(port, op, true),
        Operation::Stop => provider_state(port, op, false),
        Operation::Pull => pull(port, op),
        Operation::PullModule => pull_module(port, op),
        Operation::Plug => plug(port, op, given),
        Operation::ReadyAt => ready_at(port, op),
        Operation::Expected => tell_expected(port, op),
        Operation::Asked => tell_asked(port, op),
        Operation::Answer => answer(port, op, given),
        Operation::Written => written(port, op),
        Operation::Refuse => refuse(port, op, given),
    }
}

// ---- a start

// The content of a sector of the chip, before a start.
#[inline(never)]
fn fill(port: &mut Port, op: &Op, given: &[u8]) -> u32
    ensures { IsSector (sector_of op.now.sector) port.old given.now result port.new }
{
    match sector_at(op.sector) {
        Some(sector) => done(port.fill(sector, given)),
        None => BAD_LENGTH,
    }
}

// The sector of this number.
fn sector_at(number: u32) -> Option<Sector>
    ensures { result ≡ sector_of number }
{
    match number {
        0 => Some(Sector::First),
        1 => Some(Sector::Second),
        _ => None,
    }
}

// A start.
#[inline(never)]
fn boot(port: &mut Port) -> u32
    ensures { IsBoot port.old result port.new }
{
    done(port.boot())
}

// The result of what was done, or refused.
fn done(outcome: Result<(), Refusal>) -> u32
    ensures { result ≡ answer_of outcome }
{
    match outcome {
        Ok(()) => 0,
        Err(refusal) => refusal.number(),
    }
}

// ---- events

// A frame. Most frames are cyclic data.
#[inline(never)]
fn frame(port: &mut Port, op: &mut Op, given: &[u8]) -> u32
    ensures { IsEvent port.old (Framed (record { items = take 1519 given.now })) op.old result port.new op.new }
{
    if port.take_cyclic(given) {
        return silent(op);
    }
    hear(port, op, given)
}

// Any frame.
#[inline(never)]
fn hear(port: &mut Port, op: &mut Op, given: &[u8]) -> u32
    ensures { IsEvent port.old (Framed (record { items = take 1519 given.now })) op.old result port.new op.new }
{
    if is_open(port) {
        return hear_open(port, op, given);
    }
    hear_any(port, op, given)
}

// The same while an alarm is open.
#[inline(never)]
fn hear_open(port: &mut Port, op: &mut Op, given: &[u8]) -> u32
    requires { is_open_in port.old ≡ true }
    ensures { IsEvent port.old (Framed (record { items = take 1519 given.now })) op.old result port.new op.new }
{
    let status = acknowledged_in(port, given);
    let answer = hear_any(port, op, given);
    if is_open(port) {
        return answer;
    }
    tell_confirmation(over_by(status), op);
    answer
}

// A frame, and that nothing became of an open alarm.
fn hear_any(port: &mut Port, op: &mut Op, given: &[u8]) -> u32
    ensures { IsEventWith Nothing port.old (Framed (record { items = take 1519 given.now })) op.old result port.new op.new }
{
    let outcome = port.hear(given);
    noted(outcome, port, op)
}

// Reports what became of the open alarm.
fn tell_confirmation(became: Confirmation, op: &mut Op)
    ensures { op.new ≡ with_confirmation became op.old }
{
    match became {
        Confirmation::Nothing => op.confirmed = 0,
        Confirmation::Acknowledged(status) => {
            op.confirmed = 1;
            op.status = status;
        }
        Confirmation::GivenUp => op.confirmed = 2,
    }
}

// A frame after units of time that passed before it: those that bring nothing pass first.
#[inline(never)]
fn frame_after(port: &mut Port, op: &mut Op, given: &[u8]) -> u32
    ensures { IsFrameAfter port.old given.now op.old result port.new op.new }
{
    match port.pass_quiet(op.units) {
        Ok(left) => {
            op.units = left;
            frame(port, op, given)
        }
        Err(refusal) => refusal.number(),
    }
}

// An event was accepted, and no work remains.
#[inline(always)]
fn silent(op: &mut Op) -> u32
    ensures answer { result ≡ 0 }
    ensures reported { op.new ≡ record op.old { note = 0; work = 0; confirmed = 0 } }
{
    op.note = 0;
    op.work = 0;
    op.confirmed = 0;
    0
}

#[inline(never)]
fn input(port: &mut Port, op: &mut Op, given: &[u8]) -> u32
    ensures { IsInput (place_in op.old.slot op.old.subslot) port.old given.now op.old result port.new op.new }
{
    match place_of(op) {
        Some(place) => get_input(port, op, place, given),
        None => NO_SLOT,
    }
}

// The same of the submodule in this slot and subslot.
#[inline(always)]
fn get_input(port: &mut Port, op: &mut Op, place: (u16, u16), given: &[u8]) -> u32
    ensures { IsInput (Some place) port.old given.now op.old result port.new op.new }
{
    match port.input(place.0, place.1, given) {
        Some(outcome) => {
            let why = why_no_input(port.device(), place.0, place.1, given.len());
            conclude(outcome, why, port, op)
        }
        None => silent(op),
    }
}

#[inline(never)]
fn alarm(port: &mut Port, op: &mut Op, given: &[u8]) -> u32
    ensures { IsAlarm (place_in op.old.slot op.old.subslot) port.old given.now op.old result port.new op.new }
{
    match place_of(op) {
        Some(place) => raise(port, op, place, given),
        None => NO_SLOT,
    }
}

// The same of the submodule in this slot and subslot.
fn raise(port: &mut Port, op: &mut Op, place: (u16, u16), given: &[u8]) -> u32
    ensures { IsAlarm (Some place) port.old given.now op.old result port.new op.new }
{
    let outcome = port.alarm(place.0, place.1, given);
    let why = why_no_alarm(port.device(), place.0, place.1, given.len());
    conclude(outcome, why, port, op)
}

// The status of the inputs of a submodule: `is_good` is 0 if they are bad.
#[inline(never)]
fn status(port: &mut Port, op: &mut Op) -> u32
    ensures { IsStatus (place_in op.old.slot op.old.subslot) port.old op.old result port.new op.new }
{
    match place_of(op) {
        Some(place) => rate(port, op, place),
        None => NO_SLOT,
    }
}

// The same of the submodule in this slot and subslot.
fn rate(port: &mut Port, op: &mut Op, place: (u16, u16)) -> u32
    ensures { IsStatus (Some place) port.old op.old result port.new op.new }
{
    let outcome = port.status(place.0, place.1, op.is_good != 0);
    let why = why_no_status(port.device(), place.0, place.1);
    conclude(outcome, why, port, op)
}

// A diagnosis of a submodule; it disappears if `appears` is 0.
#[inline(never)]
fn diagnosis(port: &mut Port, op: &mut Op) -> u32
    ensures { IsDiagnosis (place_in op.old.slot op.old.subslot) (place_in op.old.channel op.old.error) port.old op.old result port.new op.new }
{
    match place_of(op) {
        Some(place) => diagnosis_at(port, op, place),
        None => NO_SLOT,
    }
}

// The same of the submodule in this slot and subslot.
fn diagnosis_at(port: &mut Port, op: &mut Op, place: (u16, u16)) -> u32
    ensures { IsDiagnosis (Some place) (place_in op.old.channel op.old.error) port.old op.old result port.new op.new }
{
    match pair_of(op.channel, op.error) {
        Some(what) => diagnose(port, op, place, what),
        None => NO_SLOT,
    }
}

// The same with this channel and error.
fn diagnose(port: &mut Port, op: &mut Op, place: (u16, u16), what: (u16, u16)) -> u32
    ensures { IsDiagnosis (Some place) (Some what) port.old op.old result port.new op.new }
{
    let change = Change {
        diagnosis: Diagnosis {
            slot: place.0,
            subslot: place.1,
            channel: what.0,
            error: what.1,
        },
        appears: op.appears != 0,
    };
    let outcome = port.diagnosis(place.0, place.1, what.0, what.1, change.appears);
    let why = why_no_diagnosis(port.device(), &change);
    conclude(outcome, why, port, op)
}

// The application is ready.
#[inline(never)]
fn ready(port: &mut Port, op: &mut Op) -> u32
    ensures { IsSaid port.old IsReady (why_not_ready_in (reached_in port.old)) op.old result port.new op.new }
{
    let outcome = port.ready();
    let why = why_not_ready(port.device());
    conclude(outcome, why, port, op)
}

// The application runs from now on, or is stopped. No device refuses that.
#[inline(never)]
fn provider_state(port: &mut Port, op: &mut Op, is_running: bool) -> u32
    ensures { IsEventWith Nothing port.old (Application (ProviderState is_running)) op.old result port.new op.new }
{
    let outcome = port.provider_state(is_running);
    noted(outcome, port, op)
}

// The outcome of what the application said. This is why, if the device refused it.
#[inline(never)]
pub(crate) fn conclude(outcome: Result<Note, Refusal>, why: Reason, port: &Port, op: &mut Op) -> u32
    ensures { IsOutcome outcome why port.now op.old result op.new }
{
    if is_refused(&outcome) {
        op.reason = why.number();
        return REFUSED;
    }
    noted(outcome, port, op)
}

// Whether the device refused an event.
fn is_refused(outcome: &Result<Note, Refusal>) -> bool
    ensures { result ≡ is_refused_in outcome.now }
{
    match outcome {
        Ok(note) => note.number() == 7,
        Err(_) => false,
    }
}

// The outcome of an event and the kind of the first piece of its work, and that nothing became of an open alarm; or why it was refused.
#[inline(never)]
fn noted(outcome: Result<Note, Refusal>, port: &Port, op: &mut Op) -> u32
    ensures answer { result ≡ answer_of outcome }
    ensures reported { op.new ≡ is_noted outcome Nothing port.now op.old }
{
    match outcome {
        Ok(note) => {
            op.note = u32::from(note.number());
            op.work = port.waiting();
            op.confirmed = 0;
            0
        }
        Err(refusal) => refusal.number(),
    }
}

// Units of time. Most bring nothing.
#[inline(never)]
fn tick(port: &mut Port, op: &mut Op) -> u32
    ensures { IsTick port.old op.old result port.new op.new }
{
    match port.glide(op.units) {
        Some(due) => tell_passed(op, due, 0, 0),
        None => tick_more(port, op),
    }
}

// Units of time that may bring something, mostly inputs alone.
#[inline(never)]
fn tick_more(port: &mut Port, op: &mut Op) -> u32
    ensures { IsTick port.old op.old result port.new op.new }
{
    match port.send(op.units) {
        Some(passed) => tell_passed(op, passed.due, passed.left, 3),
        None => tick_any(port, op),
    }
}

// Any units of time.
#[inline(never)]
fn tick_any(port: &mut Port, op: &mut Op) -> u32
    ensures { IsTick port.old op.old result port.new op.new }
{
    if is_open(port) {
        return tick_open(port, op);
    }
    tick_all(port, op)
}

// The same while an alarm is open.
#[inline(never)]
fn tick_open(port: &mut Port, op: &mut Op) -> u32
    requires { is_open_in port.old ≡ true }
    ensures { IsTick port.old op.old result port.new op.new }
{
    let answer = tick_all(port, op);
    if is_open(port) {
        return answer;
    }
    tell_confirmation(Confirmation::GivenUp, op);
    answer
}

// The same, and that nothing became of an open alarm.
#[inline(never)]
fn tick_all(port: &mut Port, op: &mut Op) -> u32
    ensures { IsTickWith Nothing port.old op.old result port.new op.new }
{
    match port.tick(op.units) {
        Ok(passed) => {
            let work = port.waiting();
            tell_passed(op, passed.due, passed.left, work)
        }
        Err(refusal) => refusal.number(),
    }
}

// Reports units that passed: what is due then, the number that remains, and the kind of the first piece of work; and that nothing became of
// an open alarm.
#[inline(always)]
fn tell_passed(op: &mut Op, due: u32, left: u32, work: u32) -> u32
    ensures answer { result ≡ 0 }
    ensures reported { op.new ≡ record op.old { units = left; due = due; note = 0; work = work; confirmed = 0 } }
{
    op.due = due;
    op.units = left;
    op.note = 0;
    op.work = work;
    op.confirmed = 0;
    0
}

// Power is lost on the host's side.
#[inline(never)]
fn lose(port: &mut Port) -> u32
    ensures { IsLoss port.old result port.new }
{
    done(port.lose())
}

// ---- work

/// Hands out the next piece of work, which is then fetched: its octets, and in the operation what belongs to it and the
/// kind of the piece after it. `answer` is 0, or says why nothing was handed out.
pub fn hand_out<'a>(port: &'a mut Port, op: &mut Op, answer: &mut u32) -> &'a [u8]
    ensures* { sem 𝓛 (follows_so Row Row port.entry.ghost_name none (λ _ _. ⊤)
        (λ new. HandsOut (closed port.old.port.stage) port.old op.old answer.new result.now new op.new)) }
{
    // Most frames are those of inputs.
    if port.sends() {
        *answer = 0;
        return hand_out_only(port, op);
    }
    hand_out_any(port, op, answer)
}

// Any piece of work.
#[inline(never)]
fn hand_out_any<'a>(port: &'a mut Port, op: &mut Op, answer: &mut u32) -> &'a [u8]
    ensures* { sem 𝓛 (follows_so Row Row port.entry.ghost_name none (λ _ _. ⊤)
        (λ new. HandsOut (closed port.old.port.stage) port.old op.old answer.new result.now new op.new)) }
{
    if let Some(refusal) = port.closed() {
        *answer = refusal.number();
        return &[];
    }
    *answer = 0;
    if port.has_calls() {
        return hand_out_call(port, op);
    }
    if port.has_frames() {
        return hand_out_frame(port, op);
    }
    hand_out_own(port, op)
}

// Hands out the next frame of the device, if the services have none.
#[inline(always)]
fn hand_out_only<'a>(port: &'a mut Port, op: &mut Op) -> &'a [u8]
    requires calls { port.old.port.calls ≡ [] }
    requires own { port.old.frames ≡ [] }
    requires frames { has_some port.old.port.frames ≡ true }
    ensures* { sem 𝓛 (follows_so Row Row port.entry.ghost_name none (λ _ _. ⊤) (λ new. IsHanded port.old.port.calls (frames_of port.old)
        (record op.old { more = waiting_both new }) result.now op.new × (new ≡ advanced_both port.old))) }
{
    match port.fetch_only(&mut op.more) {
        Some(frame) => tell_frame(frame, op),
        None => tell_nothing(op),
    }
}

// Hands out the next frame of the device.
#[inline(never)]
fn hand_out_frame<'a>(port: &'a mut Port, op: &mut Op) -> &'a [u8]
    requires calls { port.old.port.calls ≡ [] }
    requires frames { has_some port.old.port.frames ≡ true }
    ensures* { sem 𝓛 (follows_so Row Row port.entry.ghost_name none (λ _ _. ⊤) (λ new. IsHanded port.old.port.calls (frames_of port.old)
        (record op.old { more = waiting_both new }) result.now op.new × (new ≡ advanced_both port.old))) }
{
    match port.fetch_frame(&mut op.more) {
        Some(frame) => tell_frame(frame, op),
        None => tell_nothing(op),
    }
}

// Hands out the next frame of the services, or nothing.
#[inline(never)]
fn hand_out_own<'a>(port: &'a mut Port, op: &mut Op) -> &'a [u8]
    requires calls { port.old.port.calls ≡ [] }
    requires frames { port.old.port.frames ≡ [] }
    ensures* { sem 𝓛 (follows_so Row Row port.entry.ghost_name none (λ _ _. ⊤) (λ new. IsHanded port.old.port.calls (frames_of port.old)
        (record op.old { more = waiting_both new }) result.now op.new × (new ≡ advanced_both port.old))) }
{
    match port.fetch_own(&mut op.more) {
        Some(octets) => tell_octets(octets, op),
        None => tell_nothing(op),
    }
}

// Reports that no work remains.
fn tell_nothing<'a>(op: &mut Op) -> &'a [u8]
    ensures octets { result.now ≡ [] }
    ensures reported { op.new ≡ with_nothing op.old }
{
    op.work = 0;
    op.length = 0;
    &[]
}

// Hands out the next flash call. It has a function of its own, so that a frame, which is far more frequent, saves no
// register that only a call needs.
#[inline(never)]
fn hand_out_call<'a>(port: &'a mut Port, op: &mut Op) -> &'a [u8]
    requires { has_some port.old.port.calls ≡ true }
    ensures* { sem 𝓛 (follows_so Row Row port.entry.ghost_name none (λ _ _. ⊤) (λ new. IsHanded port.old.port.calls (frames_of port.old)
        (record op.old { more = waiting_both new }) result.now op.new × (new ≡ advanced_both port.old))) }
{
    let call = port.fetch_call(&mut op.more);
    tell_call(call, op)
}

// Reports a frame, and returns its octets.
#[inline(always)]
fn tell_frame<'a>(frame: &'a Frame, op: &mut Op) -> &'a [u8]
    ensures octets { result.now ≡ frame.now.items }
    ensures reported { op.new ≡ with_frame frame.now.items op.old }
{
    tell_octets(frame.as_slice(), op)
}

// Reports a frame of these octets, and returns them.
#[inline(always)]
fn tell_octets<'a>(octets: &'a [u8], op: &mut Op) -> &'a [u8]
    requires { length octets.now ≤ 1518 }
    ensures octets { result.now ≡ octets.now }
    ensures reported { op.new ≡ with_frame octets.now op.old }
{
    op.work = 3;
    op.length = octets.len() as u32;
    octets
}

// Reports a flash call, and returns the octets that it programs.
#[inline(never)]
fn tell_call<'a>(call: Recorded<'a>, op: &mut Op) -> &'a [u8]
    requires { fits_in 4096 (call_of call) ≡ true }
    ensures { IsCall (call_of call.entry) op.old result.now op.new }
{
    match call {
        Recorded::Program {
            sector,
            place,
            bytes,
        } => {
            op.work = 1;
            op.sector = sector_number(sector);
            op.place = place;
            op.length = bytes.len() as u32;
            bytes
        }
        Recorded::Erase { sector } => {
            op.work = 2;
            op.sector = sector_number(sector);
            op.length = 0;
            &[]
        }
    }
}

fn sector_number(sector: Sector) -> u32
    ensures { result ≡ number_of sector }
{
    match sector {
        Sector::First => 0,
        Sector::Second => 1,
    }
}

// ---- values that are reported

#[inline(never)]
fn output(port: &Port, op: &mut Op) -> u32
    ensures { IsOutput (place_in op.old.slot op.old.subslot) port.now.port op.old result op.new }
{
    match place_of(op) {
        Some(place) => tell_output(port, place.0, place.1, op),
        None => NO_SLOT,
    }
}

// The output of a submodule, or why it has none.
fn tell_output(port: &Port, slot: u16, subslot: u16, op: &mut Op) -> u32
    ensures { IsValueOf (closed port.now.port.stage) (value_of port.now.port slot subslot) op.old result op.new }
{
    match port.output(slot, subslot) {
        Ok(value) => {
            put(op, value);
            0
        }
        Err(refusal) => refusal.number(),
    }
}

#[inline(never)]
fn state(port: &Port, op: &mut Op) -> u32
    ensures { IsState (closed port.now.port.stage) port.now.port op.old result op.new }
{
    match port.phase() {
        Ok(phase) => tell_state(phase, port, op),
        Err(refusal) => refusal.number(),
    }
}

// The phase, and the number of units for which the lamp still flashes.
fn tell_state(phase: Option<Phase>, port: &Port, op: &mut Op) -> u32
    requires { phase ≡ phase_of port.now.port.device.live.rest.link }
    ensures { IsState (closed port.now.port.stage) port.now.port op.old result op.new }
{
    match port.lamp() {
        Ok(lamp) => {
            op.phase = number_of_phase(phase);
            op.lamp = lamp;
            0
        }
        Err(refusal) => refusal.number(),
    }
}

fn number_of_phase(phase: Option<Phase>) -> u32
    ensures { result ≡ phase_number phase }
{
    match phase {
        None => 0,
        Some(Phase::Started) => 1,
        Some(Phase::Preparing | Phase::Awaiting) => 2,
        Some(Phase::Exchanging) => 3,
    }
}

// Settings, or why they are not reported.
#[inline(never)]
fn tell_settings(settings: Result<&Settings, Refusal>, op: &mut Op) -> u32
    ensures { (why : Option Refusal) (known : Settings) → IsRead why (λ held. held.now ≡ known) settings.entry → IsSettings why known op.old result op.new }
{
    match settings {
        Ok(settings) => {
            put_settings(settings, op);
            0
        }
        Err(refusal) => refusal.number(),
    }
}

// Settings: address, mask and gateway, the I&M texts, and the name.
fn put_settings(settings: &Settings, op: &mut Op)
    ensures { op.new ≡ with_octets (settings_octets settings.now) op.old }
{
    put(op, &settings.suite.address());
    put_more(op, &settings.suite.mask());
    put_more(op, &settings.suite.gateway());
    put_more(op, settings.im1.as_bytes());
    put_more(op, settings.im2.as_bytes());
    put_more(op, settings.im3.as_bytes());
    put_more(op, settings.im4.as_bytes());
    put_more(op, settings.name.as_bytes());
}

// A number in its place of an operation, or why it is not reported.
#[inline(never)]
fn tell_number(number: Result<u32, Refusal>, place: &mut u32) -> u32
    ensures { (why : Option Refusal) (known : ℕ) → IsRead why (λ held. held ≡ known) number → IsNumber why known place.old result place.new }
{
    match number {
        Ok(number) => {
            *place = number;
            0
        }
        Err(refusal) => refusal.number(),
    }
}

// How many conflicts of the running IP address the services have counted, at most the maximum of 32 bits.
fn conflicts(port: &Port) -> Result<u32, Refusal>
    ensures { IsRead (closed port.now.port.stage) (λ held. held ≡ min (conflicts_of port.now.services) 4294967295) result }
{
    match port.closed() {
        Some(refusal) => Err(refusal),
        None => Ok(port.conflicts().min(0xFFFF_FFFF) as u32),
    }
}

// What the host says of the link: `is_up` is 0 if it is down, and the given octets say which link it is, if any are given.
#[inline(never)]
fn link(port: &mut Port, op: &Op, given: &[u8]) -> u32
    ensures { IsLink (link_of given.now) port.old op.now result port.new }
{
    match link_in(given) {
        Ok(link) => done(port.set_link(op.is_up != 0, link)),
        Err(refusal) => refusal.number(),
    }
}

// Which link these octets say, if they say one: what is supported and enabled, what is advertised, and the type of the MAU.
fn link_in(given: &[u8]) -> Result<Option<Link>, Refusal>
    ensures { result ≡ link_of given.now }
{
    match given {
        [] => Ok(None),
        [support, high, low, mau_high, mau_low] => Ok(Some(Link {
            support: *support,
            capability: u16::from_be_bytes([*high, *low]),
            mau_type: u16::from_be_bytes([*mau_high, *mau_low]),
        })),
        _ => Err(Refusal::BadLength),
    }
}

// What the controller says of the output of a submodule.
#[inline(never)]
fn provider(port: &Port, op: &mut Op) -> u32
    ensures { IsProvider (place_in op.old.slot op.old.subslot) port.now.port op.old result op.new }
{
    match place_of(op) {
        Some(place) => tell_provider(port, place.0, place.1, op),
        None => NO_FRAME,
    }
}

// The same, or why nothing is known of it.
fn tell_provider(port: &Port, slot: u16, subslot: u16, op: &mut Op) -> u32
    ensures { IsProviderOf (closed port.now.port.stage) (provider_in slot subslot port.now.port.device.live.rest.link) op.old result op.new }
{
    match port.provider(slot, subslot) {
        Ok(status) => tell_statuses(status, op),
        Err(refusal) => refusal.number(),
    }
}

// The IOPS and DataStatus of the last accepted frame, if there was one.
fn tell_statuses(status: Option<ProviderStatus>, op: &mut Op) -> u32
    ensures { IsProviderAt status op.old result op.new }
{
    match status {
        Some(status) => {
            tell_status(status, op);
            0
        }
        None => NO_FRAME,
    }
}

// What the controller says of a value.
fn tell_status(status: ProviderStatus, op: &mut Op)
    ensures { op.new ≡ with_statuses status op.old }
{
    op.iops = u32::from(status.iops);
    op.data_status = u32::from(status.data_status.0);
}

// The output of a submodule in the last accepted frame, with what the controller says of it.
#[inline(never)]
fn received(port: &Port, op: &mut Op) -> u32
    ensures { IsReceived (place_in op.old.slot op.old.subslot) port.now.port op.old result op.new }
{
    match place_of(op) {
        Some(place) => tell_received(port, place.0, place.1, op),
        None => NO_FRAME,
    }
}

// The same, or why nothing is known of it.
fn tell_received(port: &Port, slot: u16, subslot: u16, op: &mut Op) -> u32
    ensures { IsReceivedOf (closed port.now.port.stage) (provider_in slot subslot port.now.port.device.live.rest.link) (value_of port.now.port slot subslot) op.old
        result op.new }
{
    match port.received_value(slot, subslot) {
        Ok(found) => tell_found(found, op),
        Err(refusal) => refusal.number(),
    }
}

// The output that was found, if one was.
#[inline(always)]
fn tell_found(found: Option<ReceivedValue<'_>>, op: &mut Op) -> u32
    requires { IfSome found (λ value. length value.octets.now ≤ 1440) }
    ensures { IsReceivedAt (option_map (λ value. value.status) found.entry) (option_map (λ value. value.octets.now) found.entry) op.old result op.new }
{
    match found {
        Some(value) => {
            put(op, value.octets);
            tell_status(value.status, op);
            0
        }
        None => NO_FRAME,
    }
}

// A parameter record that the relation accepted, by its number.
#[inline(never)]
fn tell_taken(port: &Port, op: &mut Op) -> u32
    ensures { IsRecordOf (closed port.now.port.stage) (slice_get (taken_of port.now.port.device.live.rest.link) op.old.number) op.old result op.new }
{
    match port.taken() {
        Ok(records) => tell_record(records, op),
        Err(refusal) => refusal.number(),
    }
}

// One of these records.
fn tell_record(records: &[TakenRecord], op: &mut Op) -> u32
    ensures { IsRecordAt (slice_get records.now op.old.number) op.old result op.new }
{
    match records.get(op.number as usize) {
        Some(entry) => tell_one(entry, op),
        None => NO_RECORD,
    }
}

// This record.
fn tell_one(entry: &TakenRecord, op: &mut Op) -> u32
    ensures { IsRecordAt (Some entry.now) op.old result op.new }
{
    op.slot = u32::from(entry.slot);
    op.subslot = u32::from(entry.subslot);
    op.index = u32::from(entry.index);
    put(op, entry.value.as_slice());
    0
}

// A parameter record that the relation passed on, counted back from the last one.
#[inline(never)]
fn tell_passed_record(port: &Port, op: &mut Op) -> u32
    ensures { IsRecordOf (closed port.now.port.stage) (back_at (passed_of port.now.port.device.live.rest.link).last op.old.number) op.old result op.new }
{
    match port.passed() {
        Ok(records) => tell_back(records, op),
        Err(refusal) => refusal.number(),
    }
}

// One of these records, counted back from the last one.
fn tell_back(records: &[TakenRecord], op: &mut Op) -> u32
    ensures { IsRecordAt (back_at records.now op.old.number) op.old result op.new }
{
    let back = op.number as usize;
    if back >= records.len() {
        return NO_RECORD;
    }
    match records.get(records.len() - 1 - back) {
        Some(entry) => tell_one(entry, op),
        None => NO_RECORD,
    }
}
