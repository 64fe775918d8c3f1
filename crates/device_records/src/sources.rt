//! What the records of a device are made of.
use crate::log_data::Log;
use diagnosis::Diagnoses;
use lldp::Neighbour;
use pn_values::{Identity, Settings};
use relations::Relation;

/// What the records of a device are made of, besides its modules.
#[derive(Clone, Copy)]
pub struct Sources<'a> {
    /// The relation.
    pub relation: &'a Relation,
    /// The units since the start of the device.
    pub units: u64,
    /// The log.
    pub log: &'a Log,
    /// The fixed identity.
    pub identity: &'a Identity,
    /// The running settings.
    pub settings: &'a Settings,
    /// The neighbour of the station, if one is known.
    pub neighbour: &'a Option<Neighbour>,
    /// The diagnoses that exist.
    pub diagnoses: &'a Diagnoses,
}
