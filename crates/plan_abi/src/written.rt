//! Writes a plan into a struct of the host's memory.
ghost use Rattle.std.specs.Prelude.{◌≡◌, ◌≤◌, ◌<◌, Some, length, map, min, option_map, replicate, take};
ghost use Rattle.plans.specs.Plan.{AreShort};
ghost use Rattle.c_layout.specs.Modules.{module_of, parameter_of, submodule_of};
ghost use Rattle.controller_abi.specs.Plans.{own_of, parts_of, record_of};
ghost use Rattle.plan_abi.specs.Readings.{IsBlank, IsFilled, over, no_module, no_parameter, no_record, no_submodule, no_submodules, type_of};
ghost use Rattle.plan_abi.specs.Readings.{no_identity, written_identity, written_module, written_parameter, written_record, written_submodule};

use c_layout::{Module, Parameter, Submodule};
use controller_abi::{WrittenIdentity, WrittenPlan, WrittenRecord};
use plans::{ControllerIdentity, Plan, PlanRecord};
use pn_values::{ParameterRecord, RealModule, RealSubmodule};

/// Sets all of a plan to zero.
pub fn clear(written: &mut WrittenPlan)
    ensures { IsBlank written.new }
{
    written.name = [0; 240];
    written.controller_name = [0; 240];
    written.name_length = 0;
    written.controller_name_length = 0;
    written.address = [0; 4];
    written.mask = [0; 4];
    written.gateway = [0; 4];
    written.controller_address = [0; 4];
    written.controller_mac = [0; 6];
    written.vendor_id = 0;
    written.device_id = 0;
    written.send_clock_factor = 0;
    written.reduction_ratio = 0;
    written.data_hold_factor = 0;
    written.station_type_length = 0;
    written.station_type = [0; 28];
    written.module_count = 0;
    written.record_count = 0;
    clear_modules(&mut written.modules);
    clear_records(&mut written.records);
    written.continue_on_refused_record = 0;
    written.multiple_write = 0;
    written.release_on_refused_record = 0;
    written.patience = 0;
    written.waiting_patience = 0;
    written.parameters_after_plug = 0;
    written.persistent_start = 0;
    written.identity = no_identity();
}

fn clear_modules(places: &mut [Module])
    ensures kept { length places.new ≡ length places.old }
    ensures blank { places.new ≡ replicate (length places.old) no_module }
{
    for index in 0..places.len() {
        places[index] = no_module();
    }
}

fn clear_records(places: &mut [WrittenRecord])
    ensures kept { length places.new ≡ length places.old }
    ensures blank { places.new ≡ replicate (length places.old) no_record }
{
    for index in 0..places.len() {
        places[index] = no_record();
    }
}

/// Fills a plan that is all zero from a plan and a type of station. Of a type of more than 28 octets only the length is written.
pub fn put(written: &mut WrittenPlan, plan: &Plan, station_type: &[u8])
    requires { IsBlank written.old }
    ensures whole { parts_of written.new ≡ plan.now }
    ensures filled { IsFilled plan.now station_type.now written.new }
{
    let name = plan.station().name.as_bytes();
    let controller_name = plan.controller().name.as_bytes();
    let suite = plan.station().suite;
    let times = plan.times();
    let modules = plan.real().modules.as_slice();
    let records = plan.records();
    put_octets(&mut written.name, name);
    put_octets(&mut written.controller_name, controller_name);
    written.name_length = name.len() as u32;
    written.controller_name_length = controller_name.len() as u32;
    written.address = suite.address();
    written.mask = suite.mask();
    written.gateway = suite.gateway();
    written.controller_address = plan.controller().address;
    written.controller_mac = plan.controller().mac.octets;
    written.vendor_id = plan.station().vendor_id;
    written.device_id = plan.station().device_id;
    written.send_clock_factor = times.send_clock_factor;
    written.reduction_ratio = times.reduction_ratio;
    written.data_hold_factor = times.data_hold_factor;
    written.module_count = modules.len() as u32;
    written.record_count = records.len() as u32;
    put_modules(&mut written.modules, modules);
    put_records(&mut written.records, records);
    written.station_type_length = length_of(station_type);
    put_octets(&mut written.station_type, type_of(station_type));
    written.continue_on_refused_record = u32::from(plan.continues_on_refused_record());
    written.multiple_write = u32::from(plan.has_multiple_write());
    written.release_on_refused_record = u32::from(plan.release_on_refused_record());
    written.parameters_after_plug = u32::from(plan.has_parameters_after_plug());
    written.persistent_start = u32::from(plan.persistent_start());
    written.identity = identity_in(plan.identity());
}

// What a controller says of itself to tools, if it says anything.
fn identity_in(identity: Option<&ControllerIdentity>) -> WrittenIdentity
    ensures laid { result ≡ written_identity (option_map (λ own. own.now) identity.entry) }
    ensures whole { own_of result ≡ option_map (λ own. own.now) identity.entry }
{
    match identity {
        Some(own) => told_in(own),
        None => no_identity(),
    }
}

fn told_in(own: &ControllerIdentity) -> WrittenIdentity
    ensures laid { result ≡ written_identity (Some own.now) }
    ensures whole { own_of result ≡ Some own.now }
{
    let station_type = own.station_type();
    let mut octets = [0u8; 28];
    put_octets(&mut octets, station_type);
    WrittenIdentity {
        vendor_id: own.vendor_id(),
        device_id: own.device_id(),
        station_type_length: station_type.len() as u32,
        station_type: octets,
    }
}

fn no_identity() -> WrittenIdentity
    ensures { result ≡ no_identity }
{
    WrittenIdentity {
        vendor_id: 0,
        device_id: 0,
        station_type_length: 0,
        station_type: [0; 28],
    }
}

// The octets of a type of station: none if it has more than 28.
fn type_of(station_type: &[u8]) -> &[u8]
    ensures value { result.now ≡ type_of station_type.now }
    ensures short { length result.now ≤ 28 }
{
    if station_type.len() <= 28 {
        station_type
    } else {
        &[]
    }
}

// The length of a type of station, at most 2^32 - 1.
fn length_of(station_type: &[u8]) -> u32
    ensures { result ≡ min (length station_type.now) 4294967295 }
{
    if station_type.len() <= 0xFFFF_FFFF {
        station_type.len() as u32
    } else {
        0xFFFF_FFFF
    }
}

#[tactic(auto, using(crate::proofs::Laid::front))]
fn put_octets(place: &mut [u8], octets: &[u8])
    requires { length octets.now ≤ length place.old }
    ensures kept { length place.new ≡ length place.old }
    ensures laid { place.new ≡ over place.old octets.now }
    ensures value { take (length octets.now) place.new ≡ octets.now }
{
    place[..octets.len()].copy_from_slice(octets);
}

// ---- the records

fn record_in(entry: &PlanRecord) -> WrittenRecord
    requires { length entry.now.data.items ≤ 64 }
    ensures { result ≡ written_record entry.now }
{
    let data = entry.data.as_slice();
    let mut octets = [0u8; 64];
    put_octets(&mut octets, data);
    WrittenRecord {
        slot: entry.slot,
        subslot: entry.subslot,
        index: entry.index,
        length: data.len() as u16,
        octets,
    }
}

fn no_record() -> WrittenRecord
    ensures { result ≡ no_record }
{
    WrittenRecord {
        slot: 0,
        subslot: 0,
        index: 0,
        length: 0,
        octets: [0; 64],
    }
}

fn put_records(places: &mut [WrittenRecord], given: &[PlanRecord])
    requires few { length given.now ≤ length places.old }
    requires short { AreShort given.now }
    ensures kept { length places.new ≡ length places.old }
    ensures laid { places.new ≡ over places.old (map written_record given.now) }
    ensures value { map record_of (take (length given.now) places.new) ≡ given.now }
{
    for index in 0..given.len() {
        places[index] = record_in(&given[index]);
    }
}

// ---- the modules that are plugged

fn parameter_in(entry: &ParameterRecord) -> Parameter
    ensures { result ≡ written_parameter entry.now }
{
    Parameter {
        index: entry.index,
        length: entry.length,
    }
}

fn no_parameter() -> Parameter
    ensures { result ≡ no_parameter }
{
    Parameter {
        index: 0,
        length: 0,
    }
}

fn put_parameters(places: &mut [Parameter], given: &[ParameterRecord])
    requires { length given.now ≤ length places.old }
    ensures kept { length places.new ≡ length places.old }
    ensures laid { places.new ≡ over places.old (map written_parameter given.now) }
    ensures value { map parameter_of (take (length given.now) places.new) ≡ given.now }
{
    for index in 0..given.len() {
        places[index] = parameter_in(&given[index]);
    }
}

fn submodule_in(entry: &RealSubmodule) -> Submodule
    ensures { result ≡ written_submodule entry.now }
{
    let given = entry.parameters.as_slice();
    let mut parameters = [no_parameter(), no_parameter()];
    put_parameters(&mut parameters, given);
    Submodule {
        ident: entry.ident,
        subslot: entry.subslot,
        input: entry.input,
        output: entry.output,
        parameter_count: given.len() as u16,
        parameters,
    }
}

fn no_submodule() -> Submodule
    ensures { result ≡ no_submodule }
{
    Submodule {
        ident: 0,
        subslot: 0,
        input: 0,
        output: 0,
        parameter_count: 0,
        parameters: [no_parameter(), no_parameter()],
    }
}

fn put_submodules(places: &mut [Submodule], given: &[RealSubmodule])
    requires { length given.now ≤ length places.old }
    ensures kept { length places.new ≡ length places.old }
    ensures laid { places.new ≡ over places.old (map written_submodule given.now) }
    ensures value { map submodule_of (take (length given.now) places.new) ≡ given.now }
{
    for index in 0..given.len() {
        places[index] = submodule_in(&given[index]);
    }
}

fn no_submodules() -> [Submodule; 4]
    ensures { result ≡ no_submodules }
{
    [
        no_submodule(),
        no_submodule(),
        no_submodule(),
        no_submodule(),
    ]
}

fn module_in(entry: &RealModule) -> Module
    ensures { result ≡ written_module entry.now }
{
    let given = entry.submodules.as_slice();
    let mut submodules = no_submodules();
    put_submodules(&mut submodules, given);
    Module {
        ident: entry.ident,
        slot: entry.slot,
        submodule_count: given.len() as u16,
        submodules,
    }
}

fn no_module() -> Module
    ensures { result ≡ no_module }
{
    Module {
        ident: 0,
        slot: 0,
        submodule_count: 0,
        submodules: no_submodules(),
    }
}

fn put_modules(places: &mut [Module], given: &[RealModule])
    requires { length given.now ≤ length places.old }
    ensures kept { length places.new ≡ length places.old }
    ensures laid { places.new ≡ over places.old (map written_module given.now) }
    ensures value { map module_of (take (length given.now) places.new) ≡ given.now }
{
    for index in 0..given.len() {
        places[index] = module_in(&given[index]);
    }
}
