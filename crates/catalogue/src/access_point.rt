//! The device access point: what the device is, and which modules may be in which slots.
ghost use Rattle.std.specs.Prelude.{◌≡◌, List, string_bytes};
ghost use Rattle.serde_json.specs.View.{view, items_view};
ghost use Rattle.catalogue.specs.keys.Reader.{Reads};
ghost use Rattle.catalogue.specs.AccessPoints.{AccessPoint, Reference, slots_in, slots_at, reference, access_point};

use crate::SubmoduleTable;
use crate::keys::{
    Entry, Key, PlacedFault, Step, each_of, flag_at, items_at, list, long_at, string,
};
use crate::submodules::submodules_at;
use serde_json::Value;
use std::alloc::Global;
use std::marker::Model;

/// The slots in which a module may be.
#[derive(Drop)]
pub struct ModuleReference {
    /// The module's ID.
    pub target: String,
    pub allowed_in: Vec<u64>,
    pub fixed_in: Vec<u64>,
}

impl Model for ModuleReference {
    ghost Value = { Reference };

    ghost view = { λ item. record {
      target = string_bytes item.target;
      allowed_in = item.allowed_in.items;
      fixed_in = item.fixed_in.items;
    } };
}

/// The device access point: the module in slot 0, and what the device is.
#[derive(Drop)]
pub struct AccessPoint {
    pub ident: u32,
    pub physical_slots: Vec<u16>,
    /// The type of station (DNS_CompatibleName) that the device sends in its response to an Identify request.
    pub station_type: String,
    /// The shortest interval of cyclic frames, in units of 31.25 microseconds (MinDeviceInterval).
    pub least_interval: u32,
    pub submodules: SubmoduleTable,
    pub references: Vec<ModuleReference>,
    /// Whether one Write can carry several records (MultipleWriteSupported).
    pub multiple_write: bool,
}

impl Model for AccessPoint {
    ghost Value = { AccessPoint };

    ghost view = { λ item. record {
      ident = item.ident;
      physical_slots = item.physical_slots.items;
      station_type = string_bytes
          item.station_type;
      least_interval = item.least_interval;
      submodules = item.submodules;
      references = item.references.items;
      multiple_write = item.multiple_write;
    } };
}

/// The slot numbers that these values are. An entry that is not a whole number is reported before one that is out of its range.
fn slots_of(alloc: Global, trees: &[Value]) -> Result<Vec<u16>, PlacedFault>
    ensures { Reads (λ slots. slots.items) result (slots_in (items_view trees.now)) }
{
    let _numbers: Vec<u64> = each_of(alloc, &(), trees)?;
    each_of(alloc, &(), trees)
}

/// The list of slot numbers at a key. An empty list if the key is absent.
#[tactic(auto, unfolding(crate::specs::AccessPoints::slots_at))]
fn slots_at(alloc: Global, tree: &Value, key: Key) -> Result<Vec<u16>, PlacedFault>
    ensures { Reads (λ slots. slots.items) result (slots_at key (view tree.now)) }
{
    let trees = items_at(tree, key)?;
    match slots_of(alloc, trees) {
        Ok(slots) => Ok(slots),
        Err(found) => Err(found.further(Step::At(key))),
    }
}

impl Entry<()> for ModuleReference {
    ghost reader = { λ _ _ tree. reference tree };

    #[tactic(auto, unfolding(crate::specs::AccessPoints::reference))]
    fn read(
        alloc: Global,
        _context: &(),
        _before: &[ModuleReference],
        tree: &Value,
    ) -> Result<ModuleReference, PlacedFault> {
        let target = string(alloc, tree, Key::ModuleItemTarget)?;
        let allowed_in = list(alloc, &(), tree, Key::AllowedInSlots)?;
        let fixed_in = list(alloc, &(), tree, Key::FixedInSlots)?;
        Ok(ModuleReference {
            target,
            allowed_in,
            fixed_in,
        })
    }
}

/// Reads the device access point from its JSON object. Returns the first fault and its place.
#[tactic(auto, unfolding(crate::specs::AccessPoints::access_point))]
pub(crate) fn access_point(alloc: Global, tree: &Value) -> Result<AccessPoint, PlacedFault>
    ensures { Reads (λ found. found) result (access_point (view tree.now)) }
{
    let ident = long_at(tree, Key::ModuleIdentNumber, 1, 0xFFFF_FFFF)?;
    let physical_slots = slots_at(alloc, tree, Key::PhysicalSlots)?;
    let station_type = string(alloc, tree, Key::StationType)?;
    let least_interval = long_at(tree, Key::MinDeviceInterval, 1, 65_536)?;
    let submodules = submodules_at(alloc, tree, Key::VirtualSubmoduleItem)?;
    let references = list(alloc, &(), tree, Key::ModuleItemRef)?;
    let multiple_write = flag_at(tree, Key::MultipleWriteSupported)?;
    Ok(AccessPoint {
        ident,
        physical_slots,
        station_type,
        least_interval,
        submodules,
        references,
        multiple_write,
    })
}
