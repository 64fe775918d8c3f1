//! The values of a PROFINET IO device: addresses, the station name, I&M texts, the settings that survive a power
//! failure, the commands that change them, and the modules of a device.
#![tactic(auto)]

mod command;
mod demo;
mod identity;
mod im_value;
mod ip_suite;
mod mac;
mod real;
mod set_item;
mod settings;
mod station_name;

pub use command::Command;
pub use demo::{demo_identity, demo_modules};
pub use identity::Identity;
pub use im_value::{ImValue, Padded};
pub use ip_suite::IpSuite;
pub use mac::Mac;
pub use real::{ParameterRecord, Real, RealModule, RealSubmodule};
pub use set_item::{BlockError, SetItem};
pub use settings::Settings;
pub use station_name::StationName;
