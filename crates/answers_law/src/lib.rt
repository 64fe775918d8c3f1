//! Which frames a device answers by DCP and by ARP, with which octets, and to which it is silent.
//!
//! The clauses are in words of this crate's own: `specs/Requests.antt` has the requests, `specs/Answers.antt` the answers, both at fixed places
//! with the clauses of the standards beside them. They share nothing with the machine of the device, which is proved to meet them.
#![tactic(auto)]

mod device;

pub use device::device_answers;
