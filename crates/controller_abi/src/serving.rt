//! One operation of the host.
ghost use Rattle.std.specs.Prelude.{◌≡◌, ◌==◌, Some, length, not, option_map, slice_get, take};
ghost use Rattle.cyclic_data.specs.exchange.Process.{value_at};
ghost use Rattle.lldp.specs.State.{Known};
ghost use Rattle.lldp.specs.Views.{peer_as};
ghost use Rattle.controller_core.specs.declared.stored.event.Event.TheVariants.{Frame as Framed, Give as Given, Read as Reads, Status as Rated, Write as Writes};
ghost use Rattle.controller_messages.specs.Access.{record_of};
ghost use Rattle.controller_core.specs.Machine.{can_request, end_of, provider_of, report_in};
ghost use Rattle.c_layout.specs.Places.{place_in};
ghost use Rattle.controller_abi.specs.Outputs.{why_not_fit, why_not_rated, why_not_read, why_not_set, why_not_written};
ghost use Rattle.controller_abi.specs.State.{after, has_frames, port_due_in};
ghost use Rattle.controller_abi.specs.Serves.{IsAlarm, IsAnswered, IsDiagnosis, IsEvent, IsGift, IsHandOut, IsInput, IsNeighbour, IsPlace, IsPlaceIn, IsProvider, IsProviderAt, IsRead, IsRefusal, IsRefusedRecord, IsReported, IsSet, IsStatus, IsTick, IsValue, IsWrite, Performs, Serves};
ghost use Rattle.controller_abi.specs.Serves.{index_in, priority_in, status_number as status_number_in, structure_number as structure_number_in};
ghost use Rattle.controller_abi.specs.Serves.{cause_number, operation_of as operation_in, phase_number, planned_output, why_no_place};
ghost use Rattle.controller_abi.specs.Serves.{status_number as status_number_in, with_alarm, with_conflicts, with_diagnoses, with_neighbour, with_next, with_state};

use crate::operation::{Operation, operation_of};
use crate::port::Port;
use arrayvec::ArrayVec;
use block_codec::AlarmNotification;
use c_layout::{BAD_LENGTH, HAS_WORK, NO_FRAME, NO_SLOT, Op, UNKNOWN, place_of, put};
use controller_core::{Event, PlaceState, ProviderStatus, State};
use diagnosis::{Priority, Report};
use frame_codec::Bytes;
use lldp::Neighbour;
use rpc_core::Status;
use wire::{append, at_most};

/// No call, or no record of the plan, was refused yet.
const NO_REFUSAL: u32 = 25;

/// No data is exchanged, or a request of the application waits for its answer.
const BUSY: u32 = 26;

/// No request of the application was answered.
const NO_ANSWER: u32 = 27;

/// The controller was not started.
const NOT_MADE: u32 = 17;

/// The maximum number of octets of a record in one call.
const MOST_RECORD: usize = 1308;

/// Carries out one operation of a controller that was started, with the given octets. Returns 0, or why nothing changed.
pub fn serve(port: &mut Port, op: &mut Op, given: &[u8]) -> u32
    ensures { Serves (operation_in op.old.what) port.old op.old given.now result port.new op.new }
{
    if !port.is_started() {
        return NOT_MADE;
    }
    serve_started(port, op, given)
}

// The same of a controller that was started. What happens in each millisecond of an exchange makes few comparisons.
#[inline(always)]
fn serve_started(port: &mut Port, op: &mut Op, given: &[u8]) -> u32
    ensures { Performs (operation_in op.old.what) port.old op.old given.now result port.new op.new }
{
    if op.what == 7 {
        return next(port, op);
    }
    if op.what == 4 {
        return tick(port, op);
    }
    if op.what == 3 {
        return frame(port, given);
    }
    if op.what == 5 {
        return give(port, op, given);
    }
    if op.what == 8 {
        return value(port, op);
    }
    serve_other(port, op, given)
}

// The same of any operation.
#[inline(never)]
fn serve_other(port: &mut Port, op: &mut Op, given: &[u8]) -> u32
    ensures { Performs (operation_in op.old.what) port.old op.old given.now result port.new op.new }
{
    match operation_of(op.what) {
        Some(operation) => perform(operation, port, op, given),
        None => UNKNOWN,
    }
}

// Carries out a known operation.
fn perform(operation: Operation, port: &mut Port, op: &mut Op, given: &[u8]) -> u32
    ensures { Performs (Some operation) port.old op.old given.now result port.new op.new }
{
    match operation {
        Operation::Frame => frame(port, given),
        Operation::Tick => tick(port, op),
        Operation::Give => give(port, op, given),
        Operation::Next => next(port, op),
        Operation::Value => value(port, op),
        Operation::State => state(port, op),
        Operation::Alarm => alarm(port, op),
        Operation::Stop => offer(port, &Event::Stop),
        Operation::Due => due(port, op),
        Operation::Status => status(port, op),
        Operation::Provider => provider(port, op),
        Operation::Conflicts => conflicts(port, op),
        Operation::Refusal => refusal(port, op),
        Operation::ReadRecord => read_record(port, op),
        Operation::WriteRecord => write_record(port, op, given),
        Operation::Answer => answer(port, op),
        Operation::RefusedRecord => refused_record(port, op),
        Operation::Report => report(port, op),
        Operation::Diagnoses => diagnoses(port, op),
        Operation::Diagnosis => diagnosis(port, op),
        Operation::Neighbour => neighbour(port, op),
        Operation::Place => place(port, op),
    }
}

// ---- events

// Handles an event, if no frames of the step before remain.
fn offer(port: &mut Port, event: &Event) -> u32
    ensures { IsEvent (has_frames port.old.frames) port.old event.now result port.new }
{
    if port.has_work() {
        return HAS_WORK;
    }
    port.take(event);
    0
}

#[inline(never)]
fn frame(port: &mut Port, given: &[u8]) -> u32
    ensures { IsEvent (has_frames port.old.frames) port.old (Framed (record { items = take 1519 given.now })) result port.new }
{
    if port.has_work() {
        return HAS_WORK;
    }
    // Most frames are cyclic data, which needs no event.
    if port.take_cyclic(at_most(given, 1519)) {
        return 0;
    }
    take_frame(port, given)
}

// The same of any frame.
#[inline(never)]
fn take_frame(port: &mut Port, given: &[u8]) -> u32
    ensures answer { result ≡ 0 }
    ensures state { port.new ≡ after port.old (Framed (record { items = take 1519 given.now })) }
{
    port.take(&Event::Frame(first_of(given)));
    0
}

#[inline(never)]
fn give(port: &mut Port, op: &Op, given: &[u8]) -> u32
    ensures { IsGift (place_in op.now.slot op.now.subslot) port.old given.now result port.new }
{
    match place_of(op) {
        Some(place) => set(port, place.0, place.1, given),
        None => no_place(port),
    }
}

// Sets the output of a submodule, or returns why not.
#[inline(always)]
fn set(port: &mut Port, slot: u16, subslot: u16, given: &[u8]) -> u32
    ensures { IsSet (why_not_set (has_frames port.old.frames) (planned_output port.old slot subslot) (length given.now)) port.old (Given slot subslot (record { items = take 1519 given.now })) result port.new }
{
    match why_not(port, slot, subslot, given.len()) {
        Some(why) => why,
        None => {
            port.take_output(slot, subslot, at_most(given, 1519));
            0
        }
    }
}

// Why no value of this size is set as the output of a submodule, if it is not set.
fn why_not(port: &Port, slot: u16, subslot: u16, size: usize) -> Option<u32>
    ensures { result ≡ why_not_set (has_frames port.now.frames) (planned_output port.now slot subslot) size }
{
    if port.has_work() {
        return Some(HAS_WORK);
    }
    match port.output_at(slot, subslot) {
        Some(output) => why_not_in(output, size),
        None => Some(NO_SLOT),
    }
}

// Why a value of this size is not set as an output of this length, if it is not set.
fn why_not_in(output: u16, size: usize) -> Option<u32>
    ensures { result ≡ why_not_fit output size }
{
    if output == 0 {
        return Some(NO_SLOT);
    }
    if usize::from(output) != size {
        return Some(BAD_LENGTH);
    }
    None
}

// The status of the output of a submodule: `is_good` is 0 if it is bad.
fn status(port: &mut Port, op: &Op) -> u32
    ensures { IsStatus (place_in op.now.slot op.now.subslot) port.old (not (op.now.is_good == 0)) result port.new }
{
    match place_of(op) {
        Some(place) => rate(port, place.0, place.1, op.is_good != 0),
        None => no_place(port),
    }
}

// Sets the status of the output of a submodule, or returns why not.
#[inline(never)]
fn rate(port: &mut Port, slot: u16, subslot: u16, is_good: bool) -> u32
    ensures { IsSet (why_not_rated (has_frames port.old.frames) (planned_output port.old slot subslot)) port.old (Rated slot subslot is_good) result port.new }
{
    match why_unrated(port, slot, subslot) {
        Some(why) => why,
        None => {
            port.take(&Event::Status(slot, subslot, is_good));
            0
        }
    }
}

// Why the status of the output of a submodule is not set, if it is not set.
fn why_unrated(port: &Port, slot: u16, subslot: u16) -> Option<u32>
    ensures { result ≡ why_not_rated (has_frames port.now.frames) (planned_output port.now slot subslot) }
{
    if port.has_work() {
        return Some(HAS_WORK);
    }
    match port.output_at(slot, subslot) {
        Some(0) | None => Some(NO_SLOT),
        Some(_) => None,
    }
}

// The application reads a record.
fn read_record(port: &mut Port, op: &Op) -> u32
    ensures { IsRead (place_in op.now.slot op.now.subslot) (index_in op.now.index) port.old result port.new }
{
    match (place_of(op), index_of(op)) {
        (Some(place), Some(index)) => read_at(port, place.0, place.1, index),
        _ => no_place(port),
    }
}

// Reads a record, or returns why not.
#[inline(never)]
fn read_at(port: &mut Port, slot: u16, subslot: u16, index: u16) -> u32
    ensures { IsSet (why_not_read (has_frames port.old.frames) (can_request port.old.controller.live)) port.old (Reads slot subslot index) result port.new }
{
    match why_unread(port) {
        Some(why) => why,
        None => {
            port.take(&Event::Read(slot, subslot, index));
            0
        }
    }
}

// Why no record is read, if it is not read.
fn why_unread(port: &Port) -> Option<u32>
    ensures { result ≡ why_not_read (has_frames port.now.frames) (can_request port.now.controller.live) }
{
    if port.has_work() {
        return Some(HAS_WORK);
    }
    if port.controller().can_request() {
        None
    } else {
        Some(BUSY)
    }
}

// The application writes a record.
fn write_record(port: &mut Port, op: &Op, given: &[u8]) -> u32
    ensures { IsWrite (place_in op.now.slot op.now.subslot) (index_in op.now.index) port.old given.now result port.new }
{
    match (place_of(op), index_of(op)) {
        (Some(place), Some(index)) => write_at(port, place.0, place.1, index, given),
        _ => no_place(port),
    }
}

// Writes a record, or returns why not.
#[inline(never)]
fn write_at(port: &mut Port, slot: u16, subslot: u16, index: u16, given: &[u8]) -> u32
    ensures { IsSet (why_not_written (has_frames port.old.frames) (can_request port.old.controller.live) (length given.now)) port.old (Writes slot subslot index (record { items = take 1519 given.now })) result port.new }
{
    match why_unwritten(port, given.len()) {
        Some(why) => why,
        None => {
            port.take(&Event::Write(slot, subslot, index, first_of(given)));
            0
        }
    }
}

// Why no record of this size is written, if it is not written.
fn why_unwritten(port: &Port, size: usize) -> Option<u32>
    ensures { result ≡ why_not_written (has_frames port.now.frames) (can_request port.now.controller.live) size }
{
    if port.has_work() {
        return Some(HAS_WORK);
    }
    if size > MOST_RECORD {
        return Some(BAD_LENGTH);
    }
    why_unread(port)
}

// The index of a record that is asked for, if it is a number of 16 bits.
fn index_of(op: &Op) -> Option<u16>
    ensures { result ≡ index_in op.now.index }
{
    if op.index < 65536 {
        Some(op.index as u16)
    } else {
        None
    }
}

// Why no output is set at an invalid place.
fn no_place(port: &Port) -> u32
    ensures { result ≡ why_no_place (has_frames port.now.frames) }
{
    if port.has_work() { HAS_WORK } else { NO_SLOT }
}

#[inline(never)]
fn tick(port: &mut Port, op: &mut Op) -> u32
    ensures { IsTick (has_frames port.old.frames) port.old op.old result port.new op.new }
{
    if port.has_work() {
        return HAS_WORK;
    }
    op.units = port.pass(op.units);
    0
}

// The given octets, cut to the most that an event has.
fn first_of(octets: &[u8]) -> Bytes
    ensures { result ≡ record { items = take 1519 octets.now } }
{
    let mut bytes = Bytes::new();
    let _ = bytes.try_extend_from_slice(at_most(octets, 1519));
    bytes
}

// ---- frames

// The next frame, which is marked as fetched.
#[inline(never)]
fn next(port: &mut Port, op: &mut Op) -> u32
    ensures { IsHandOut port.old op.old result port.new op.new }
{
    if !port.has_work() {
        op.work = 0;
        op.length = 0;
        return 0;
    }
    next_frame(port, op)
}

// The same if a frame remains.
#[inline(never)]
fn next_frame(port: &mut Port, op: &mut Op) -> u32
    ensures { IsHandOut port.old op.old result port.new op.new }
{
    hand_out(port, op);
    port.advance();
    0
}

// What is handed out next.
fn hand_out(port: &Port, op: &mut Op)
    ensures { op.new ≡ with_next port.now.frames op.old }
{
    match port.next() {
        Some(frame) => {
            op.work = 3;
            put(op, frame.as_slice());
        }
        None => {
            op.work = 0;
            op.length = 0;
        }
    }
}

// ---- values that are reported

#[inline(never)]
fn value(port: &Port, op: &mut Op) -> u32
    ensures { IsInput (place_in op.old.slot op.old.subslot) port.now op.old result op.new }
{
    match place_of(op) {
        Some(place) => tell_value(port, place.0, place.1, op),
        None => NO_SLOT,
    }
}

// The input of a submodule, or that it has none.
fn tell_value(port: &Port, slot: u16, subslot: u16, op: &mut Op) -> u32
    ensures { IsValue (value_at port.now.controller.live.cyclic slot subslot) op.old result op.new }
{
    match port.controller().value(slot, subslot) {
        Some(value) => {
            put(op, value);
            0
        }
        None => NO_SLOT,
    }
}

fn state(port: &Port, op: &mut Op) -> u32
    ensures answer { result ≡ 0 }
    ensures reported { op.new ≡ with_state port.now.controller.live.phase op.old }
{
    let reached = port.controller().state();
    op.phase = number_of_phase(reached);
    op.cause = number_of_cause(reached);
    0
}

fn number_of_phase(reached: State) -> u32
    ensures { result ≡ phase_number reached }
{
    match reached {
        State::Looking => 1,
        State::Addressing => 2,
        State::Connecting => 3,
        State::Writing => 4,
        State::Ending => 5,
        State::Waiting => 6,
        State::Exchanging => 7,
        State::Ended(_) => 8,
    }
}

fn number_of_cause(reached: State) -> u32
    ensures { result ≡ cause_number reached }
{
    match reached {
        State::Ended(cause) => u32::from(cause.number()),
        _ => 0,
    }
}

// The number of units up to and including the next one with which anything is due.
fn due(port: &Port, op: &mut Op) -> u32
    ensures answer { result ≡ 0 }
    ensures reported { op.new ≡ record op.old { due = port_due_in port.now } }
{
    op.due = port.due();
    0
}

// How many conflicts of the controller's address were heard.
fn conflicts(port: &Port, op: &mut Op) -> u32
    ensures answer { result ≡ 0 }
    ensures reported { op.new ≡ with_conflicts port.now.services.ip.conflicts op.old }
{
    op.count = port.conflicts().min(0xFFFF_FFFF) as u32;
    0
}

// What the device says of the input of a submodule.
fn provider(port: &Port, op: &mut Op) -> u32
    ensures { IsProvider (place_in op.old.slot op.old.subslot) port.now op.old result op.new }
{
    match place_of(op) {
        Some(place) => {
            let status = port.controller().provider(place.0, place.1);
            tell_statuses(status, op)
        }
        None => NO_FRAME,
    }
}

// The IOPS and DataStatus of the last accepted frame, if there was one.
fn tell_statuses(status: Option<ProviderStatus>, op: &mut Op) -> u32
    ensures { IsProviderAt status op.old result op.new }
{
    match status {
        Some(status) => {
            op.iops = u32::from(status.iops);
            op.data_status = u32::from(status.data_status.0);
            0
        }
        None => NO_FRAME,
    }
}

// The last alarm that was accepted.
fn alarm(port: &Port, op: &mut Op) -> u32
    ensures { IsAlarm port.now.controller.live.alarm op.old result op.new }
{
    match port.controller().alarm() {
        Some(alarm) => {
            tell_alarm(&alarm, op);
            0
        }
        None => NO_SLOT,
    }
}

// Reports an alarm.
fn tell_alarm(alarm: &AlarmNotification<'_>, op: &mut Op)
    ensures { op.new ≡ with_alarm alarm.now op.old }
{
    op.alarm_type = u32::from(alarm.alarm_type);
    op.slot = u32::from(alarm.slot_number);
    op.subslot = u32::from(alarm.subslot_number);
    op.specifier = u32::from(alarm.alarm_specifier);
    put(op, at_most(alarm.alarm_data.octets(), 1520));
}

// The last alarm of a priority that was accepted: `is_low` is 0 for high.
fn report(port: &Port, op: &mut Op) -> u32
    ensures { IsReported (report_in port.now.controller.live (priority_in op.old.is_low)) (end_of port.now.controller.live (priority_in op.old.is_low)).seen op.old result op.new }
{
    let priority = priority_of(op.is_low);
    let number = port.controller().accepted(priority);
    match port.controller().report(priority) {
        Some(report) => tell_report(&report, number, op),
        None => NO_SLOT,
    }
}

// The priority of this number.
fn priority_of(is_low: u32) -> Priority
    ensures { result ≡ priority_in is_low }
{
    if is_low == 0 {
        Priority::High
    } else {
        Priority::Low
    }
}

// Reports an alarm with its number.
fn tell_report(report: &Report<'_>, number: Option<u16>, op: &mut Op) -> u32
    ensures { IsReported (Some report.now) number op.old result op.new }
{
    match number {
        Some(number) => {
            op.structure = structure_number(report.user_structure);
            op.sequence = u32::from(number);
            tell_alarm(&report.notification, op);
            0
        }
        None => NO_SLOT,
    }
}

// The number of a UserStructureIdentifier.
fn structure_number(structure: Option<u16>) -> u32
    ensures { result ≡ structure_number_in structure }
{
    match structure {
        Some(structure) => u32::from(structure),
        None => 65_536,
    }
}

// ---- the device's diagnosis

// How many diagnoses exist, and how many found no room in the list.
fn diagnoses(port: &Port, op: &mut Op) -> u32
    ensures answer { result ≡ 0 }
    ensures reported { op.new ≡ with_diagnoses port.now.controller.live.diagnosis op.old }
{
    op.count = port.controller().diagnoses().len() as u32;
    op.left_out = port.controller().diagnoses_left_out();
    0
}

// The diagnosis at a place of the list.
fn diagnosis(port: &Port, op: &mut Op) -> u32
    ensures { IsDiagnosis (slice_get port.now.controller.live.diagnosis.existing op.old.number) op.old result op.new }
{
    match port.controller().diagnoses().get(op.number as usize) {
        Some(diagnosis) => {
            op.slot = u32::from(diagnosis.slot);
            op.subslot = u32::from(diagnosis.subslot);
            op.channel = u32::from(diagnosis.channel);
            op.error = u32::from(diagnosis.error);
            0
        }
        None => NO_SLOT,
    }
}

// ---- the places of the plan

// What is known of a place of the plan.
fn place(port: &Port, op: &mut Op) -> u32
    ensures { IsPlace (place_in op.old.slot op.old.subslot) port.now op.old result op.new }
{
    match place_of(op) {
        Some(place) => tell_place(port.controller().place(place.0, place.1), op),
        None => NO_SLOT,
    }
}

// Reports the state of a place, if it is one.
fn tell_place(state: Option<PlaceState>, op: &mut Op) -> u32
    ensures { IsPlaceIn state op.old result op.new }
{
    match state {
        Some(state) => {
            op.phase = state.number();
            0
        }
        None => NO_SLOT,
    }
}

// ---- the neighbour

// The neighbour by LLDP that is known.
fn neighbour(port: &Port, op: &mut Op) -> u32
    ensures { IsNeighbour (option_map (λ (k : Known). k.peer) port.now.services.near.known) op.old result op.new }
{
    match port.neighbour() {
        Some(neighbour) => {
            tell_neighbour(neighbour, op);
            0
        }
        None => NO_SLOT,
    }
}

// Reports a neighbour.
fn tell_neighbour(neighbour: &Neighbour, op: &mut Op)
    ensures { op.new ≡ with_neighbour (peer_as neighbour.now) op.old }
{
    let mut octets: ArrayVec<u8, 516> = ArrayVec::new();
    append(&mut octets, &neighbour.mac.octets);
    append(&mut octets, neighbour.port.as_slice());
    append(&mut octets, neighbour.chassis.as_slice());
    op.port_length = neighbour.port.len() as u32;
    op.chassis_length = neighbour.chassis.len() as u32;
    put(op, octets.as_slice());
}

// ---- what was refused, and what was answered

// A status as a number.
fn status_number(status: Status) -> u32
    ensures { result ≡ status_number_in status }
{
    let kind = u32::from(status.code) * 256 + u32::from(status.decode);
    (kind * 256 + u32::from(status.code1)) * 256 + u32::from(status.code2)
}

// The last status with which the device refused a call.
fn refusal(port: &Port, op: &mut Op) -> u32
    ensures { IsRefusal port.now.controller.live.refusal op.old result op.new }
{
    match port.controller().refusal() {
        Some(status) => {
            op.status = status_number(status);
            0
        }
        None => NO_REFUSAL,
    }
}

// The last record of the plan that the device refused.
fn refused_record(port: &Port, op: &mut Op) -> u32
    ensures { IsRefusedRecord port.now.controller.live.refused_record op.old result op.new }
{
    match port.controller().refused_record() {
        Some(refused) => {
            op.number = refused.number;
            op.status = status_number(refused.status);
            0
        }
        None => NO_REFUSAL,
    }
}

// What the last request of the application was answered with.
fn answer(port: &Port, op: &mut Op) -> u32
    ensures { IsAnswered port.now.controller.live.access.answer (record_of port.now.controller.live.access) op.old result op.new }
{
    match port.controller().answer() {
        Some(answer) => {
            op.status = status_number(answer.status);
            put(op, at_most(port.controller().record(), 1520));
            0
        }
        None => NO_ANSWER,
    }
}
