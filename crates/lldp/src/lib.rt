//! Neighbours by LLDP (IEEE 802.1AB): what a station says of itself to the station at the other end of its cable, what it
//! hears of that one, and the name that it has by its place (AliasName, IEC 61158-6-10, 4.3.1.4.16).
//!
//! It is a machine of its own over frames and ticks. It knows the MAC address of the station; the running name and IP
//! address are given where they are sent. It stores nothing: a restart begins again. One neighbour is known at a time, so a
//! storm of frames costs no memory.
#![tactic(auto)]

mod fault;
mod frame;
mod law;
mod leaps;
mod machine;
mod message;
mod neighbour;
mod station;
mod tlv;
mod writing;

pub use fault::LldpFault;
pub use law::{
    announcements_come_each_five_seconds, formats_are_sound, neighbours_live_as_long_as_told,
};
pub use machine::{Heard, Neighbours};
pub use neighbour::Neighbour;
pub use station::Link;
pub use writing::{PORT_NAME, announcement, own_chassis};
