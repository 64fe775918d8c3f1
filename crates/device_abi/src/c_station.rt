//! The fixed properties of a device, as they lie in the memory of the host.
ghost use Rattle.std.specs.Prelude.{◌≡◌, ◌≤◌, true};
ghost use Rattle.std.specs.List.{list_all};
ghost use Rattle.c_layout.specs.Modules.{is_module};
ghost use Rattle.device_abi.specs.Made.{IsMade, why_not_made};
ghost use Rattle.device_abi.specs.Stations.{fault_of, has_interval, has_room as has_all_room, identity_of, is_single as has_own_mac, is_station};
ghost use Rattle.device_abi.specs.Stations.{has_names, modules_in, name_of, names_of, numbers_of, options_of, real_of};

use crate::plugged::{are_carried, are_described, are_parted, are_slots};
use arrayvec::ArrayVec;
use asked_records::{NamedRecords, RecordName};
use c_layout::{
    BAD_ABI, BAD_DATA, BAD_MAC, BAD_OPTION, BAD_PARAMETER, BAD_RECORD, BAD_SLOT, BAD_STATION,
    BAD_SUBSLOT, Module, SMALL_ROOM, are_modules, modules,
};
use device_station::Port;
use pn_values::{Identity, Mac, Real};
use relations::DeviceOptions;

/// The version of the header.
const ABI: u32 = 11;

/// The number of octets of the memory for a port.
const ROOM: usize = 77312;

/// The number of octets of an operation.
const OP_SIZE: usize = 1680;

/// The identity that a device has from the factory, the modules that are plugged, at most 16, and the records that its
/// application answers, at most 16.
#[repr(C)]
#[derive(Drop)]
pub struct Station {
    pub mac: [u8; 6],
    pub vendor_id: u16,
    pub device_id: u16,
    pub instance: u16,
    pub hardware_revision: u16,
    pub profile_id: u16,
    pub profile_specific_type: u16,
    pub station_type_length: u16,
    pub station_type: [u8; 28],
    pub order_id: [u8; 20],
    pub serial_number: [u8; 16],
    pub software_revision: [u8; 4],
    /// The smallest interval of cyclic frames, in units of 31.25 microseconds; 0 is as 1.
    pub smallest_interval: u32,
    /// Not 0: inputs are bad until they are given.
    pub inputs_begin_bad: u16,
    /// Not 0: the application says when it is ready.
    pub ready_by_application: u16,
    /// Not 0: a relation is held by its own controller alone.
    pub only_own_controller: u32,
    /// Not 0: records that are written while data is exchanged are passed on and not kept.
    pub records_passed_on: u32,
    /// Not 0: the numbers that a device gives itself go round from relation to relation.
    pub numbers_go_round: u32,
    /// With that the number of the first relation since the start, modulo 65,536.
    pub first_number: u32,
    /// Not 0: a Read Implicit leaves the stored answers alone.
    pub reads_not_kept: u32,
    /// Not 0: a call of the relation is asked of the application before a Read Implicit.
    pub asks_own_first: u32,
    /// Not 0: the device has no services beside it.
    pub without_services: u32,
    pub module_count: u32,
    pub modules: [Module; 16],
    pub record_count: u32,
    pub records: [Record; 16],
}

/// A record that the application answers.
#[repr(C)]
#[derive(Drop)]
pub struct Record {
    pub slot: u16,
    pub subslot: u16,
    pub index: u16,
    pub greatest_length: u16,
    /// Not 0: it can be read.
    pub is_readable: u16,
    /// Not 0: it can be written.
    pub is_writable: u16,
}

/// Why no device is made from this station, or 0: another version or size of an operation than the library's, too
/// little memory, or the first fault of the station.
pub fn judge(size: usize, abi: u32, op_size: usize, station: &Station) -> u32
    ensures { result ≡ why_not_made size abi op_size station.now }
{
    if abi != ABI || op_size != OP_SIZE {
        return BAD_ABI;
    }
    if size < ROOM {
        return SMALL_ROOM;
    }
    fault_in(station)
}

/// A port of this station that did not start.
#[inline(always)]
pub fn port_of(station: &Station) -> Port
    requires { is_station station.now ≡ true }
    ensures { IsMade station.now result }
{
    Port::new(
        identity_in(station),
        real_in(station),
        options_in(station),
        named_in(station),
        station.without_services == 0,
    )
}

// ---- whether it is a valid station

// The first fault of a station, or 0.
fn fault_in(station: &Station) -> u32
    ensures { result ≡ fault_of station.now }
{
    if !has_room(station) {
        return BAD_STATION;
    }
    let modules = &station.modules[..station.module_count as usize];
    if !is_single(station) {
        return BAD_MAC;
    }
    if !are_slots(modules) {
        return BAD_SLOT;
    }
    if !are_parted(modules) {
        return BAD_SUBSLOT;
    }
    if !are_carried(modules) {
        return BAD_DATA;
    }
    if !are_described(modules) {
        return BAD_PARAMETER;
    }
    if !is_interval(station) {
        return BAD_OPTION;
    }
    if !are_named(station) {
        return BAD_RECORD;
    }
    0
}

// Whether no count of a station is greater than its list can hold.
fn has_room(station: &Station) -> bool
    ensures { result ≡ has_all_room station.now }
{
    station.station_type_length <= 25
        && station.module_count <= 16
        && are_modules(&station.modules[..station.module_count as usize])
        && station.record_count <= 16
}

// Whether the MAC address is that of one station, and not of a group.
fn is_single(station: &Station) -> bool
    ensures { result ≡ has_own_mac station.now }
{
    station.mac[0].is_multiple_of(2)
}

// Whether the smallest interval is one that a Connect may have.
fn is_interval(station: &Station) -> bool
    ensures { result ≡ has_interval station.now }
{
    station.smallest_interval <= 65536
}

// Whether the records that the application answers are in their ranges, each once.
#[inline(never)]
fn are_named(station: &Station) -> bool
    requires { station.now.record_count ≤ 16 }
    ensures { result ≡ has_names station.now }
{
    NamedRecords::of(names_in(station).as_slice()).is_ok()
}

// ---- the values

// The identity of the device.
fn identity_in(station: &Station) -> Identity
    requires { station.now.station_type_length ≤ 25 }
    ensures { result ≡ identity_of station.now }
{
    let mut station_type = ArrayVec::new();
    let _ = station_type.try_extend_from_slice(
        &station.station_type[..station.station_type_length as usize],
    );
    Identity {
        mac: Mac {
            octets: station.mac,
        },
        station_type,
        vendor_id: station.vendor_id,
        device_id: station.device_id,
        instance: station.instance,
        order_id: station.order_id,
        serial_number: station.serial_number,
        hardware_revision: station.hardware_revision,
        software_revision: station.software_revision,
        profile_id: station.profile_id,
        profile_specific_type: station.profile_specific_type,
    }
}

// What the application decides where the device is made.
#[inline(always)]
fn options_in(station: &Station) -> DeviceOptions
    ensures { result ≡ options_of station.now }
{
    DeviceOptions {
        smallest_interval: station.smallest_interval,
        inputs_begin_bad: station.inputs_begin_bad != 0,
        ready_by_application: station.ready_by_application != 0,
        only_own_controller: station.only_own_controller != 0,
        records_passed_on: station.records_passed_on != 0,
        numbers_from: numbers_in(station),
        reads_not_kept: station.reads_not_kept != 0,
        asks_own_first: station.asks_own_first != 0,
    }
}

// From which number on the numbers of relations go round, if they do.
fn numbers_in(station: &Station) -> Option<u16>
    ensures { result ≡ numbers_of station.now }
{
    if station.numbers_go_round == 0 {
        return None;
    }
    Some((station.first_number % 65_536) as u16)
}

// The records that the application answers.
#[inline(never)]
fn named_in(station: &Station) -> NamedRecords
    requires few { station.now.record_count ≤ 16 }
    requires named { has_names station.now ≡ true }
    ensures { result ≡ names_of station.now }
{
    match NamedRecords::of(names_in(station).as_slice()) {
        Ok(named) => named,
        Err(_) => NamedRecords::new(),
    }
}

fn names_in(station: &Station) -> ArrayVec<RecordName, 16>
    requires { station.now.record_count ≤ 16 }
    ensures { result.items ≡ names_of station.now }
{
    let mut names = ArrayVec::new();
    for written in &station.records[..station.record_count as usize] {
        names.push(name_in(written));
    }
    names
}

fn name_in(written: &Record) -> RecordName
    ensures { result ≡ name_of written.now }
{
    RecordName {
        slot: written.slot,
        subslot: written.subslot,
        index: written.index,
        greatest_length: written.greatest_length,
        is_readable: written.is_readable != 0,
        is_writable: written.is_writable != 0,
    }
}

// The modules that are plugged.
#[inline(never)]
fn real_in(station: &Station) -> Real
    requires few { station.now.module_count ≤ 16 }
    requires small { list_all is_module (modules_in station.now) ≡ true }
    ensures { result ≡ real_of station.now }
{
    Real {
        modules: modules(&station.modules[..station.module_count as usize]),
    }
}
