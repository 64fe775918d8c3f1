//! The project: names, addresses and times, and which module is in which slot.
ghost use Rattle.std.specs.Prelude.{◌≡◌, List, string_bytes};
ghost use Rattle.wire.specs.Codec.{Gives};
ghost use Rattle.serde_json.specs.View.{view};
ghost use Rattle.catalogue.specs.keys.Reader.{Reads};
ghost use Rattle.plans.specs.Identity.{OwnIdentity};
ghost use Rattle.catalogue.specs.Modules.{Module};
ghost use Rattle.catalogue.specs.Projects.{Station, Controller, Project, station, controller, controller_in, reduction, project, told, told_as, told_in, typed};

use crate::SlotItem;
use crate::keys::{
    CatalogueFault, Key, PlacedFault, Step, flag_at, list, member_at, string, text, word_at,
};
use crate::module::ModuleTable;
use plans::ControllerIdentity;
use serde_json::Value;
use std::alloc::Global;
use std::marker::Model;

/// The controller's station name, Ethernet address and IP address, as the catalogue's texts, and what it says of itself to tools.
#[derive(Drop)]
pub struct ControllerItem {
    pub name: String,
    pub mac: String,
    pub address: String,
    /// With it the controller is a DCP station.
    pub identity: Option<ControllerIdentity>,
}

impl Model for ControllerItem {
    ghost Value = { Controller };

    ghost view = { λ item. record { name = string_bytes item.name; mac = string_bytes item.mac; address = string_bytes item.address; identity = item.identity } };
}

/// The station's name and IP suite, as the catalogue's texts.
#[derive(Drop)]
pub struct StationItem {
    pub name: String,
    pub address: String,
    pub mask: String,
    pub gateway: String,
}

impl Model for StationItem {
    ghost Value = { Station };

    ghost view = { λ item. record {
      name = string_bytes item.name;
      address = string_bytes item.address;
      mask = string_bytes item.mask;
      gateway = string_bytes item.gateway;
    } };
}

/// The project: what a controller wants of a station.
#[derive(Drop)]
pub struct Project {
    pub station: StationItem,
    pub controller: ControllerItem,
    pub send_clock_factor: u16,
    pub reduction_ratio: u16,
    pub data_hold_factor: u16,
    pub slots: Vec<SlotItem>,
    /// Whether the start-up goes on after a record that the device refused.
    pub continue_on_refused_record: bool,
    /// Whether the controller releases the relation when it ends because the device refused a record.
    pub release_on_refused_record: bool,
    /// Whether the controller writes the records of a submodule again after it was plugged.
    pub parameters_after_plug: bool,
    /// Whether the controller releases a relation that the device holds already (a Connect that is refused with State conflict).
    pub persistent_start: bool,
}

impl Model for Project {
    ghost Value = { Project };

    ghost view = { λ item. record {
      station = item.station;
      controller = item.controller;
      send_clock_factor = item.send_clock_factor;
      reduction_ratio = item.reduction_ratio;
      data_hold_factor = item.data_hold_factor;
      slots = item.slots.items;
      continue_on_refused_record = item.continue_on_refused_record;
      release_on_refused_record = item.release_on_refused_record;
      parameters_after_plug = item.parameters_after_plug;
      persistent_start = item.persistent_start;
    } };
}

/// Reads the station's name and IP suite from the project's JSON object.
#[tactic(auto, unfolding(crate::specs::Projects::station))]
fn station(alloc: Global, tree: &Value) -> Result<StationItem, PlacedFault>
    ensures { Reads (λ found. found) result (station (view tree.now)) }
{
    let name = string(alloc, tree, Key::NameOfStation)?;
    let address = string(alloc, tree, Key::IpAddress)?;
    let mask = string(alloc, tree, Key::SubnetMask)?;
    let gateway = string(alloc, tree, Key::Gateway)?;
    Ok(StationItem {
        name,
        address,
        mask,
        gateway,
    })
}

/// The identity with these parts. The fault is `Number` if the type of station does not have 1 to 25 octets that are printable.
fn told_as(
    vendor_id: u16,
    device_id: u16,
    station_type: &str,
) -> Result<ControllerIdentity, PlacedFault>
    ensures { Reads (λ own. own) result (told_as vendor_id device_id station_type.now) }
{
    match ControllerIdentity::new(vendor_id, device_id, station_type.as_bytes()) {
        Some(own) => Ok(own),
        None => Err(PlacedFault::at(Key::StationType, CatalogueFault::Number)),
    }
}

/// Reads the type of station, and makes the identity with these numbers.
#[tactic(auto, unfolding(crate::specs::Projects::typed))]
fn typed(tree: &Value, vendor_id: u16, device_id: u16) -> Result<ControllerIdentity, PlacedFault>
    ensures { Reads (λ own. own) result (typed vendor_id device_id (view tree.now)) }
{
    match text(tree, Key::StationType) {
        Ok(station_type) => told_as(vendor_id, device_id, station_type),
        Err(found) => Err(found),
    }
}

/// Reads what the controller says of itself to tools from its JSON object.
#[tactic(auto, unfolding(crate::specs::Projects::told))]
fn told(tree: &Value) -> Result<ControllerIdentity, PlacedFault>
    ensures { Reads (λ own. own) result (told (view tree.now)) }
{
    let vendor_id = word_at(tree, Key::VendorId, 0, 0xFFFF)?;
    let device_id = word_at(tree, Key::DeviceId, 0, 0xFFFF)?;
    typed(tree, vendor_id, device_id)
}

/// Reads what the controller says of itself to tools from the object at `Identity`. `None` if the key is absent.
#[tactic(auto, unfolding(crate::specs::Projects::told_in))]
fn told_in(tree: &Value) -> Result<Option<ControllerIdentity>, PlacedFault>
    ensures { Reads (λ identity. identity) result (told_in (view tree.now)) }
{
    match tree.get(Key::Identity.name()) {
        None => Ok(None),
        Some(item) => match told(item) {
            Ok(own) => Ok(Some(own)),
            Err(found) => Err(found.further(Step::At(Key::Identity))),
        },
    }
}

/// Reads the controller from its JSON object.
#[tactic(auto, unfolding(crate::specs::Projects::controller))]
fn controller(alloc: Global, tree: &Value) -> Result<ControllerItem, PlacedFault>
    ensures { Reads (λ found. found) result (controller (view tree.now)) }
{
    let name = string(alloc, tree, Key::NameOfStation)?;
    let mac = string(alloc, tree, Key::Mac)?;
    let address = string(alloc, tree, Key::IpAddress)?;
    let identity = told_in(tree)?;
    Ok(ControllerItem {
        name,
        mac,
        address,
        identity,
    })
}

/// Reads the controller from the object at `Controller`.
#[tactic(auto, unfolding(crate::specs::Projects::controller_in))]
fn controller_in(alloc: Global, tree: &Value) -> Result<ControllerItem, PlacedFault>
    ensures { Reads (λ found. found) result (controller_in (view tree.now)) }
{
    let item = member_at(tree, Key::Controller)?;
    match controller(alloc, item) {
        Ok(found) => Ok(found),
        Err(found) => Err(found.further(Step::At(Key::Controller))),
    }
}

/// Reads the ReductionRatio. The fault is `Number` if the interval is shorter than the device's shortest (`least_interval`, in units of 31.25
/// microseconds).
#[tactic(auto, unfolding(crate::specs::Projects::reduction))]
fn reduction(tree: &Value, send_clock: u16, least_interval: u32) -> Result<u16, PlacedFault>
    ensures { Gives (λ n. n) result (reduction send_clock least_interval (view tree.now)) }
{
    let reduction = word_at(tree, Key::ReductionRatio, 1, 512)?;
    if (send_clock as u32) * (reduction as u32) < least_interval {
        return Err(PlacedFault::at(Key::ReductionRatio, CatalogueFault::Number));
    }
    Ok(reduction)
}

/// Reads the project from its JSON object. `least_interval` is the device's shortest interval in units of 31.25 microseconds; `modules` are
/// those of the catalogue.
#[tactic(auto, unfolding(crate::specs::Projects::project))]
pub(crate) fn project_of(
    alloc: Global,
    tree: &Value,
    least_interval: u32,
    modules: &ModuleTable,
) -> Result<Project, PlacedFault>
    ensures { Reads (λ found. found) result (project least_interval modules.now (view tree.now)) }
{
    let station = station(alloc, tree)?;
    let controller = controller_in(alloc, tree)?;
    let send_clock_factor = word_at(tree, Key::SendClockFactor, 1, 128)?;
    let reduction_ratio = reduction(tree, send_clock_factor, least_interval)?;
    let data_hold_factor = word_at(tree, Key::DataHoldFactor, 1, 7680)?;
    let slots = list(alloc, modules, tree, Key::Slots)?;
    let continue_on_refused_record = flag_at(tree, Key::ContinueOnRefusedRecord)?;
    let release_on_refused_record = flag_at(tree, Key::ReleaseOnRefusedRecord)?;
    let parameters_after_plug = flag_at(tree, Key::ParametersAfterPlug)?;
    let persistent_start = flag_at(tree, Key::PersistentStart)?;
    Ok(Project {
        station,
        controller,
        send_clock_factor,
        reduction_ratio,
        data_hold_factor,
        slots,
        continue_on_refused_record,
        release_on_refused_record,
        parameters_after_plug,
        persistent_start,
    })
}
