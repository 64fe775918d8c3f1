//! Reads a whole catalogue.
ghost use Rattle.std.specs.Prelude.{◌≡◌, IfOk, IfErr, List};
ghost use Rattle.serde_json.specs.View.{view};
ghost use Rattle.catalogue.specs.keys.Reader.{Reads};
ghost use Rattle.catalogue.specs.Modules.{Module};
ghost use Rattle.catalogue.specs.Catalogues.{Catalogue, Found, Refuses, identity, identity_in, access_point_in, project_in, catalogue};
ghost use Rattle.catalogue.specs.Kept.{IsInRange};

use crate::access_point::access_point;
use crate::keys::{CatalogueFault, Key, PlacedFault, Step, member_at, word_at};
use crate::module::{ModuleTable, modules_at};
use crate::project::project_of;
use crate::{AccessPoint, ModuleItem, Project};
use serde_json::Value;
use std::alloc::Global;
use std::marker::Model;

/// The device's identity: VendorID and DeviceID.
#[derive(Clone, Copy, Drop)]
pub struct DeviceIdentity {
    pub vendor_id: u16,
    pub device_id: u16,
}

/// A catalogue: a device, the modules that it can have, and the project that is configured with it.
#[derive(Drop)]
pub struct Catalogue {
    pub identity: DeviceIdentity,
    pub access_point: AccessPoint,
    pub modules: Vec<ModuleItem>,
    pub project: Project,
}

impl Model for Catalogue {
    ghost Value = { Catalogue };

    ghost view = { λ item. record {
      identity = item.identity;
      access_point = item.access_point;
      modules = item.modules.items;
      project =
          item.project;
    } };
}

/// Reads the device's identity from its JSON object.
#[tactic(auto, unfolding(crate::specs::Catalogues::identity))]
fn identity(tree: &Value) -> Result<DeviceIdentity, PlacedFault>
    ensures { Reads (λ found. found) result (identity (view tree.now)) }
{
    let vendor_id = word_at(tree, Key::VendorId, 0, 0xFFFF)?;
    let device_id = word_at(tree, Key::DeviceId, 0, 0xFFFF)?;
    Ok(DeviceIdentity {
        vendor_id,
        device_id,
    })
}

/// Reads the device's identity from the object at `DeviceIdentity`.
#[tactic(auto, unfolding(crate::specs::Catalogues::identity_in))]
fn identity_in(tree: &Value) -> Result<DeviceIdentity, PlacedFault>
    ensures { Reads (λ found. found) result (identity_in (view tree.now)) }
{
    let item = member_at(tree, Key::DeviceIdentity)?;
    match identity(item) {
        Ok(found) => Ok(found),
        Err(found) => Err(found.further(Step::At(Key::DeviceIdentity))),
    }
}

/// Reads the access point from the object at `DeviceAccessPointItem`.
#[tactic(auto, unfolding(crate::specs::Catalogues::access_point_in))]
fn access_point_in(alloc: Global, tree: &Value) -> Result<AccessPoint, PlacedFault>
    ensures { Reads (λ found. found) result (access_point_in (view tree.now)) }
{
    let item = member_at(tree, Key::DeviceAccessPointItem)?;
    match access_point(alloc, item) {
        Ok(found) => Ok(found),
        Err(found) => Err(found.further(Step::At(Key::DeviceAccessPointItem))),
    }
}

/// Reads the project from the object at `Project`. `least_interval` is that of the device, in units of 31.25 microseconds.
#[tactic(auto, unfolding(crate::specs::Catalogues::project_in))]
fn project_in(
    alloc: Global,
    tree: &Value,
    least_interval: u32,
    modules: &ModuleTable,
) -> Result<Project, PlacedFault>
    ensures { Reads (λ found. found) result (project_in least_interval modules.now (view tree.now)) }
{
    let item = member_at(tree, Key::Project)?;
    match project_of(alloc, item, least_interval, modules) {
        Ok(found) => Ok(found),
        Err(found) => Err(found.further(Step::At(Key::Project))),
    }
}

/// The shortest interval of the device, in units of 31.25 microseconds.
fn least_interval(access_point: &AccessPoint) -> u32
    ensures { result ≡ access_point.now.least_interval }
{
    access_point.least_interval
}

/// Reads a catalogue from a JSON value. Returns the first fault in the order of the keys and its place; or `OutOfMemory`.
#[tactic(auto, unfolding(crate::specs::Catalogues::catalogue))]
pub fn read_tree(alloc: Global, tree: &Value) -> Result<Catalogue, PlacedFault>
    ensures { Reads (λ found. found) result (catalogue (view tree.now)) }
{
    let identity = identity_in(tree)?;
    let access_point = access_point_in(alloc, tree)?;
    let modules = modules_at(alloc, tree, Key::ModuleItem)?;
    let least_interval = least_interval(&access_point);
    let project = project_in(alloc, tree, least_interval, &modules)?;
    Ok(Catalogue {
        identity,
        access_point,
        modules: modules.into_items(),
        project,
    })
}

/// Reads a catalogue from JSON text. Returns the first fault in the order of the keys and its place: `Json` if the text is not JSON; or
/// `OutOfMemory`.
pub fn read(alloc: Global, text: &[u8]) -> Result<Catalogue, PlacedFault>
    ensures found { IfOk result (Found text.now) }
    ensures kept { IfOk result IsInRange }
    ensures refused { IfErr result (Refuses text.now) }
{
    let tree = match Value::from_slice(alloc, text) {
        Ok(tree) => tree,
        Err(error) if error.is_memory() => {
            return Err(PlacedFault::here(CatalogueFault::OutOfMemory));
        }
        Err(_) => return Err(PlacedFault::here(CatalogueFault::Json)),
    };
    read_tree(alloc, &tree)
}
