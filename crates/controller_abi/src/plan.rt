//! The plan of a station, as it lies in the memory of the host.
ghost use Rattle.std.specs.Prelude.{◌≡◌, ◌≤◌, ◌==◌, true, nat_le, not, length, map};
ghost use Rattle.std.specs.List.{AllByRecursion, list_all, list_any};
ghost use Rattle.pn_values.specs.IpSuite.{is_host, is_suite};
ghost use Rattle.pn_values.specs.StationName.{IsStationName};
ghost use Rattle.station_names.specs.Valid.{is_station_name};
ghost use Rattle.plans.specs.Plan.{plan_of};
ghost use Rattle.controller_station.specs.Served.{begun};
ghost use Rattle.c_layout.specs.Modules.{is_module, is_submodule, module_of};
ghost use Rattle.controller_abi.specs.State.{IsUnstarted, opened};
ghost use Rattle.controller_abi.specs.Plans.{IsShort, IsWritten, are_addresses as is_addressed, are_low as is_low, are_named};
ghost use Rattle.controller_abi.specs.Plans.{are_numbers as are_all_numbers, are_ordered as is_in_order};
ghost use Rattle.controller_abi.specs.Plans.{are_placed as are_all_placed, are_times as is_timed, controller_name_in};
ghost use Rattle.controller_abi.specs.Plans.{does_part_take, does_take, fault_of, fault_of_length as of_length, length_number};
ghost use Rattle.controller_abi.specs.Plans.{has_room as has_all_room, is_item, is_name as is_named, is_part};
ghost use Rattle.controller_abi.specs.Plans.{is_plan as is_planned, is_record, is_rising, is_sound as is_all_sound};
ghost use Rattle.controller_abi.specs.Plans.{is_written as is_all_written, modules_in, name_in, options_in, parts_of, record_of, records_in};
ghost use Rattle.controller_abi.specs.Plans.{is_told, own_of, suite_in, why_not_made};

use crate::port::Port;
use arrayvec::ArrayVec;
use c_layout::{
    BAD_ABI, BAD_PLAN, Module, PLAN_FAULT, Parameter, SMALL_ROOM, Submodule, are_modules,
    are_parameters, modules,
};
use controller_core::ControllerOptions;
use plans::{
    Controller, ControllerIdentity, Parts, Plan, PlanRecord, Station, Times, TooLong, too_long,
};
use pn_values::{IpSuite, Mac, Real, StationName};
use station_names::check;
use uuid::Uuid;
use wire::at_most;

/// The version of the header.
const ABI: u32 = 11;

/// The number of octets of the memory for a port.
const ROOM: usize = 40960;

/// The number of octets of an operation.
const OP_SIZE: usize = 1680;

// The faults of a plan, with the numbers that a catalogue with the same fault has.
const NUMBER: u32 = PLAN_FAULT + 4;

const NOT_ALLOWED: u32 = PLAN_FAULT + 5;

const TOO_MANY: u32 = PLAN_FAULT + 6;

const FRAME_LONG: u32 = PLAN_FAULT + 7;

const CONNECT_LONG: u32 = PLAN_FAULT + 8;

const NAME: u32 = PLAN_FAULT + 9;

const ADDRESS: u32 = PLAN_FAULT + 10;

/// A parameter record that the controller writes at start-up.
#[repr(C)]
#[derive(Drop)]
pub struct WrittenRecord {
    pub slot: u16,
    pub subslot: u16,
    pub index: u16,
    pub length: u16,
    pub octets: [u8; 64],
}

/// What the controller says of itself to tools by DCP.
#[repr(C)]
#[derive(Drop)]
pub struct WrittenIdentity {
    pub vendor_id: u16,
    pub device_id: u16,
    /// The number of octets of the type of station, 1 to 25. 0: the controller is no DCP station.
    pub station_type_length: u32,
    pub station_type: [u8; 28],
}

/// The plan of a station.
#[repr(C)]
#[derive(Drop)]
pub struct WrittenPlan {
    pub name: [u8; 240],
    pub controller_name: [u8; 240],
    pub name_length: u32,
    pub controller_name_length: u32,
    pub address: [u8; 4],
    pub mask: [u8; 4],
    pub gateway: [u8; 4],
    pub controller_address: [u8; 4],
    pub controller_mac: [u8; 6],
    pub vendor_id: u16,
    pub device_id: u16,
    pub send_clock_factor: u16,
    pub reduction_ratio: u16,
    pub data_hold_factor: u16,
    pub station_type_length: u32,
    pub station_type: [u8; 28],
    pub module_count: u32,
    pub record_count: u32,
    pub modules: [Module; 16],
    pub records: [WrittenRecord; 32],
    /// Whether the start-up goes on after a record that the device refused: 0 for no.
    pub continue_on_refused_record: u32,
    /// Whether a Write of the start-up carries several records (MultipleWrite): 0 for no.
    pub multiple_write: u32,
    /// Whether the controller releases the relation when it ends because the device refused a record: 0 for no.
    pub release_on_refused_record: u32,
    /// For how many units of 31.25 microseconds a state of the start-up lasts at most: 0 for no limit.
    pub patience: u32,
    /// The same for the state in which the controller waits for the ApplicationReady.
    pub waiting_patience: u32,
    /// Whether the controller writes the records of a submodule again after it was plugged: 0 for no.
    pub parameters_after_plug: u32,
    /// Whether the controller sends a Release when its Connect is refused with State conflict: 0 for no.
    pub persistent_start: u32,
    /// What the controller says of itself to tools by DCP, if it is a DCP station.
    pub identity: WrittenIdentity,
}

/// Why no controller is made from this plan, or 0: another version or size of an operation than the library's, too
/// little memory, an invalid plan, or an ARUUID that is zero.
pub fn judge(size: usize, abi: u32, op_size: usize, written: &WrittenPlan, ar: &[u8; 16]) -> u32
    ensures { result ≡ why_not_made size abi op_size written.now ar.now }
{
    if abi != ABI || op_size != OP_SIZE {
        return BAD_ABI;
    }
    if size < ROOM {
        return SMALL_ROOM;
    }
    if fault_in(written) != 0 || Uuid::from_bytes(*ar).is_nil() {
        return BAD_PLAN;
    }
    0
}

/// The controller of this plan, with the ARUUID of its relation and the activity of its calls, before it starts. It is
/// small to make, so it can be written where it stays: `start` then completes it in place.
#[inline(always)]
pub fn unstarted(written: &WrittenPlan, ar: &[u8; 16], activity: &[u8; 16]) -> Port
    requires { is_planned written.now ≡ true }
    ensures { IsUnstarted (record { plan = parts_of written.now; ar = ar.now; activity = activity.now; options = options_in written.now }) result }
{
    Port::unstarted(
        planned(written),
        Uuid::from_bytes(*ar),
        Uuid::from_bytes(*activity),
        options_in(written),
    )
}

/// The options of the controller.
fn options_in(written: &WrittenPlan) -> ControllerOptions
    ensures { result ≡ options_in written.now }
{
    ControllerOptions {
        patience: written.patience,
        waiting_patience: written.waiting_patience,
    }
}

/// Starts the controller in place. Its opening frame waits to be fetched, and nothing else remains.
#[inline(never)]
pub fn start(port: &mut Port)
    ensures { port.new ≡ opened (begun port.old.controller.setup) }
{
    port.start();
}

// ---- whether it is a valid plan

/// The first fault of a plan, with the number that a catalogue with this fault has, or 0. What is invalid in a
/// catalogue is invalid in a plan too.
pub fn fault_in(written: &WrittenPlan) -> u32
    ensures { result ≡ fault_of written.now }
{
    if !has_room(written) {
        return TOO_MANY;
    }
    if !are_numbers(written) {
        return NUMBER;
    }
    if !are_named(written) {
        return NAME;
    }
    if !are_addresses(written) {
        return ADDRESS;
    }
    if !are_placed(written) {
        return NOT_ALLOWED;
    }
    if !are_low(written) {
        return TOO_MANY;
    }
    fault_of_length(written)
}

// Whether a cyclic frame or the Connect is too long.
#[inline(never)]
fn fault_of_length(written: &WrittenPlan) -> u32
    requires { is_all_written written.now ≡ true }
    ensures { result ≡ of_length (plan_of (parts_of written.now)) }
{
    number_of(too_long(&parts_in(written)))
}

// The number for what is too long, 0 if nothing is.
fn number_of(long: Option<TooLong>) -> u32
    ensures { result ≡ length_number long }
{
    match long {
        None => 0,
        Some(TooLong::Frame) => FRAME_LONG,
        Some(TooLong::Connect) => CONNECT_LONG,
    }
}

// Whether no count is greater than its list can hold.
fn has_room(written: &WrittenPlan) -> bool
    ensures { result ≡ has_all_room written.now }
{
    written.module_count <= 16
        && are_modules(&written.modules[..written.module_count as usize])
        && written.record_count <= 32
}

fn are_numbers(written: &WrittenPlan) -> bool
    requires { has_all_room written.now ≡ true }
    ensures { result ≡ are_all_numbers written.now }
{
    let modules = &written.modules[..written.module_count as usize];
    let records = &written.records[..written.record_count as usize];
    is_told(&written.identity)
        && are_times(written)
        && are_sound(modules)
        && are_records(records, modules)
}

// Whether the controller is no DCP station, or its type of station is one.
fn is_told(identity: &WrittenIdentity) -> bool
    ensures { result ≡ is_told identity.now }
{
    identity.station_type_length == 0 || identity_of(identity).is_some()
}

fn are_times(written: &WrittenPlan) -> bool
    ensures { result ≡ is_timed written.now }
{
    written.send_clock_factor >= 1
        && written.send_clock_factor <= 128
        && written.reduction_ratio >= 1
        && written.reduction_ratio <= 512
        && written.data_hold_factor >= 1
        && written.data_hold_factor <= 7680
}

// Whether modules, their submodules and the parameter records of these are in their ranges.
fn are_sound(modules: &[Module]) -> bool
    requires { list_all is_module modules.now ≡ true }
    ensures { result ≡ list_all is_all_sound modules.now }
{
    for entry in modules {
        if !is_sound(entry) {
            return false;
        }
    }
    true
}

fn is_sound(entry: &Module) -> bool
    requires { is_module entry.now ≡ true }
    ensures { result ≡ is_all_sound entry.now }
{
    let submodules = &entry.submodules[..entry.submodule_count as usize];
    entry.ident >= 1 && are_subslots_rising(submodules) && are_parts(submodules)
}

fn are_subslots_rising(submodules: &[Submodule]) -> bool
    ensures { result ≡ is_rising 1 (map (λ part. part.subslot) submodules.now) }
{
    let mut next = 1u32;
    for submodule in submodules {
        if u32::from(submodule.subslot) < next {
            return false;
        }
        next = u32::from(submodule.subslot) + 1;
    }
    true
}

fn are_parts(submodules: &[Submodule]) -> bool
    requires { list_all is_submodule submodules.now ≡ true }
    ensures { result ≡ list_all is_part submodules.now }
{
    for submodule in submodules {
        if !is_part(submodule) {
            return false;
        }
    }
    true
}

fn is_part(submodule: &Submodule) -> bool
    requires { is_submodule submodule.now ≡ true }
    ensures { result ≡ is_part submodule.now }
{
    submodule.subslot <= 36863
        && are_parameters(&submodule.parameters[..submodule.parameter_count as usize])
}

// Whether each record is one that a submodule of these modules accepts.
fn are_records(records: &[WrittenRecord], modules: &[Module]) -> bool
    requires { list_all is_module modules.now ≡ true }
    ensures { result ≡ list_all (is_record modules.now) records.now }
{
    for entry in records {
        if !is_record(entry, modules) {
            return false;
        }
    }
    true
}

fn is_record(entry: &WrittenRecord, modules: &[Module]) -> bool
    requires { list_all is_module modules.now ≡ true }
    ensures { result ≡ is_record modules.now entry.now }
{
    entry.length <= 64 && is_taken(entry, modules)
}

fn is_taken(entry: &WrittenRecord, modules: &[Module]) -> bool
    requires { list_all is_module modules.now ≡ true }
    ensures { result ≡ list_any (does_take entry.now) modules.now }
{
    for plugged in modules {
        if does_take(plugged, entry) {
            return true;
        }
    }
    false
}

fn does_take(plugged: &Module, entry: &WrittenRecord) -> bool
    requires { is_module plugged.now ≡ true }
    ensures { result ≡ does_take entry.now plugged.now }
{
    plugged.slot == entry.slot
        && do_parts_take(
            &plugged.submodules[..plugged.submodule_count as usize],
            entry,
        )
}

fn do_parts_take(submodules: &[Submodule], entry: &WrittenRecord) -> bool
    requires { list_all is_submodule submodules.now ≡ true }
    ensures { result ≡ list_any (does_part_take entry.now) submodules.now }
{
    for submodule in submodules {
        if does_part_take(submodule, entry) {
            return true;
        }
    }
    false
}

fn does_part_take(submodule: &Submodule, entry: &WrittenRecord) -> bool
    requires { is_submodule submodule.now ≡ true }
    ensures { result ≡ does_part_take entry.now submodule.now }
{
    submodule.subslot == entry.subslot
        && is_item(
            &submodule.parameters[..submodule.parameter_count as usize],
            entry,
        )
}

// Whether one of these parameter records has the index and the length of a record.
fn is_item(items: &[Parameter], entry: &WrittenRecord) -> bool
    ensures { result ≡ list_any (is_item entry.now) items.now }
{
    for item in items {
        if item.index == entry.index && item.length == entry.length {
            return true;
        }
    }
    false
}

fn are_named(written: &WrittenPlan) -> bool
    ensures { result ≡ are_named written.now }
{
    is_name(&written.name, written.name_length)
        && is_name(&written.controller_name, written.controller_name_length)
}

fn is_name(octets: &[u8; 240], length: u32) -> bool
    ensures { result ≡ is_named length octets.now }
{
    length <= 240 && is_valid(&octets[..length as usize])
}

// Whether a text is a valid station name.
fn is_valid(text: &[u8]) -> bool
    ensures { result ≡ is_station_name text.now }
{
    check(text).is_ok()
}

fn are_addresses(written: &WrittenPlan) -> bool
    ensures { result ≡ is_addressed written.now }
{
    is_suite_in(written)
        && written.controller_mac[0].is_multiple_of(2)
        && is_host(written.controller_address[0])
}

fn is_suite_in(written: &WrittenPlan) -> bool
    ensures { result ≡ is_suite (suite_in written.now) }
{
    IpSuite::new(written.address, written.mask, written.gateway).is_some()
}

// Whether an address that begins with this octet is a host address.
fn is_host(octet: u8) -> bool
    ensures { result ≡ is_host octet }
{
    (1..=126).contains(&octet) || (128..=223).contains(&octet)
}

// Whether the modules are in order, and no record belongs to the access point.
fn are_placed(written: &WrittenPlan) -> bool
    requires { has_all_room written.now ≡ true }
    ensures { result ≡ are_all_placed written.now }
{
    are_ordered(&written.modules[..written.module_count as usize])
        && are_past_point(&written.records[..written.record_count as usize])
}

// Whether the first module is the access point, in slot 0, and those after it are in the order of their slots.
fn are_ordered(modules: &[Module]) -> bool
    ensures { result ≡ is_in_order modules.now }
{
    match modules.first() {
        Some(first) => first.slot == 0 && are_slots_rising(&modules[1..]),
        None => false,
    }
}

fn are_slots_rising(modules: &[Module]) -> bool
    ensures { result ≡ is_rising 1 (map (λ entry. entry.slot) modules.now) }
{
    let mut least = 1u32;
    for entry in modules {
        if u32::from(entry.slot) < least {
            return false;
        }
        least = u32::from(entry.slot) + 1;
    }
    true
}

fn are_past_point(records: &[WrittenRecord]) -> bool
    ensures { result ≡ list_all (λ entry. not (entry.slot == 0)) records.now }
{
    for entry in records {
        if entry.slot == 0 {
            return false;
        }
    }
    true
}

fn are_low(written: &WrittenPlan) -> bool
    requires { has_all_room written.now ≡ true }
    ensures { result ≡ is_low written.now }
{
    are_slots_low(&written.modules[..written.module_count as usize])
}

fn are_slots_low(modules: &[Module]) -> bool
    ensures { result ≡ list_all (λ entry. nat_le entry.slot 15) modules.now }
{
    for entry in modules {
        if entry.slot > 15 {
            return false;
        }
    }
    true
}

// ---- the plan

// The plan, which has no fault: it is not judged again. It is inlined, so that a caller's stack holds its parts once.
#[inline(always)]
fn planned(written: &WrittenPlan) -> Plan
    requires { is_planned written.now ≡ true }
    ensures { result ≡ parts_of written.now }
{
    Plan::judged(parts_in(written))
}

// The parts of the plan, each in its range. It is inlined for the same reason.
#[inline(always)]
fn parts_in(written: &WrittenPlan) -> Parts
    requires { IsWritten written.now }
    ensures value { result ≡ parts_of written.now }
    ensures named { IsStationName (name_in written.now) }
    ensures controlled { IsStationName (controller_name_in written.now) }
{
    Parts {
        station: station_in(written),
        controller: controller_in(written),
        times: times_of(written),
        real: real_in(written),
        records: records_of(written),
        continue_on_refused_record: written.continue_on_refused_record != 0,
        release_on_refused_record: written.release_on_refused_record != 0,
        multiple_write: written.multiple_write != 0,
        parameters_after_plug: written.parameters_after_plug != 0,
        persistent_start: written.persistent_start != 0,
        identity: identity_of(&written.identity),
    }
}

// What the controller says of itself to tools. None if its type of station is not one.
fn identity_of(identity: &WrittenIdentity) -> Option<ControllerIdentity>
    ensures { result ≡ own_of identity.now }
{
    let octets = at_most(
        &identity.station_type,
        identity.station_type_length as usize,
    );
    ControllerIdentity::new(identity.vendor_id, identity.device_id, octets)
}

fn station_in(written: &WrittenPlan) -> Station
    requires few { written.now.name_length ≤ 240 }
    requires named { is_station_name (name_in written.now) ≡ true }
    requires addressed { is_suite (suite_in written.now) ≡ true }
    ensures value { result ≡ (parts_of written.now).station }
    ensures valid { IsStationName (name_in written.now) }
{
    Station {
        name: name_of(&written.name[..written.name_length as usize]),
        suite: suite_of(written),
        vendor_id: written.vendor_id,
        device_id: written.device_id,
    }
}

fn controller_in(written: &WrittenPlan) -> Controller
    requires few { written.now.controller_name_length ≤ 240 }
    requires named { is_station_name (controller_name_in written.now) ≡ true }
    ensures value { result ≡ (parts_of written.now).controller }
    ensures valid { IsStationName (controller_name_in written.now) }
{
    Controller {
        name: name_of(&written.controller_name[..written.controller_name_length as usize]),
        mac: Mac {
            octets: written.controller_mac,
        },
        address: written.controller_address,
    }
}

fn name_of(text: &[u8]) -> StationName
    requires { is_station_name text.now ≡ true }
    ensures value { result ≡ text.now }
    ensures valid { IsStationName text.now }
{
    match check(text) {
        Ok(name) => name,
        Err(_) => unreachable!(),
    }
}

fn suite_of(written: &WrittenPlan) -> IpSuite
    requires { is_suite (suite_in written.now) ≡ true }
    ensures { result ≡ suite_in written.now }
{
    match IpSuite::new(written.address, written.mask, written.gateway) {
        Some(suite) => suite,
        None => unreachable!(),
    }
}

fn times_of(written: &WrittenPlan) -> Times
    ensures { result ≡ (parts_of written.now).times }
{
    Times {
        send_clock_factor: written.send_clock_factor,
        reduction_ratio: written.reduction_ratio,
        data_hold_factor: written.data_hold_factor,
    }
}

// The modules that are plugged.
#[inline(never)]
fn real_in(written: &WrittenPlan) -> Real
    requires few { written.now.module_count ≤ 16 }
    requires small { list_all is_module (modules_in written.now) ≡ true }
    ensures { result ≡ record { modules = record { items = map module_of (modules_in written.now) } } }
{
    Real {
        modules: modules(&written.modules[..written.module_count as usize]),
    }
}

// The records, in the order in which they are written.
#[inline(never)]
fn records_of(written: &WrittenPlan) -> ArrayVec<PlanRecord, 32>
    requires few { written.now.record_count ≤ 32 }
    requires short { AllByRecursion IsShort (records_in written.now) }
    ensures { result ≡ record { items = map record_of (records_in written.now) } }
{
    records(&written.records[..written.record_count as usize])
}

fn records(written: &[WrittenRecord]) -> ArrayVec<PlanRecord, 32>
    requires few { length written.now ≤ 32 }
    requires short { AllByRecursion IsShort written.now }
    ensures { result ≡ record { items = map record_of written.now } }
{
    let mut records = ArrayVec::new();
    for entry in written {
        records.push(record_in(entry));
    }
    records
}

fn record_in(entry: &WrittenRecord) -> PlanRecord
    requires { entry.now.length ≤ 64 }
    ensures { result ≡ record_of entry.now }
{
    let mut data = ArrayVec::new();
    let _ = data.try_extend_from_slice(&entry.octets[..entry.length as usize]);
    PlanRecord {
        slot: entry.slot,
        subslot: entry.subslot,
        index: entry.index,
        data,
    }
}
