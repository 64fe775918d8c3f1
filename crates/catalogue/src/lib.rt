//! Reads the catalogue of a station, which is JSON with the names of GSDML, to structs.
#![tactic(auto)]

mod access_point;
mod catalogue;
mod keys;
mod module;
mod parameters;
mod project;
mod slot;
mod submodule;
mod submodules;

pub use access_point::{AccessPoint, ModuleReference};
pub use catalogue::{Catalogue, DeviceIdentity, read, read_tree};
pub use keys::{
    CatalogueFault, Entry, Key, PlacedFault, Step, each_of, flag_at, items_at, list, long_at,
    member_at, number_in, string, text, whole, whole_at, word_at,
};
pub use module::ModuleItem;
pub use parameters::ParameterTable;
pub use project::{ControllerItem, Project, StationItem};
pub use slot::{RecordItem, SlotItem};
pub use submodule::{ParameterItem, SubmoduleItem};
pub use submodules::SubmoduleTable;
