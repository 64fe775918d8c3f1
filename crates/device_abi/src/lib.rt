//! A station as a host in C drives it: the operations of the library for C, and the law for hosts.
//!
//! `serving` carries out an operation, `modules` those of pulls and plugs, `asking` those of
//! records that the application answers, `reason` says why the device refused what its
//! application said, `confirmation` what became of an open alarm, `plugged` and `c_station` are
//! what a host writes of a station, `submodule` what it plugs. `host` is the reference host, with the law for hosts.
#![tactic(auto)]

mod asking;
mod c_station;
mod confirmation;
mod host;
mod modules;
mod operation;
mod plugged;
mod reason;
mod serving;
mod submodule;

pub use c_station::{Record, Station, judge, port_of};
pub use confirmation::Confirmation;
pub use host::{Operation, play};
pub use reason::Reason;
pub use serving::{hand_out, serve};
