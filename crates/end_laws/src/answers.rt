//! The law of a device's answers to calls: each is one whole datagram. The function has no code.

mod law;

pub use law::answers_are_one_datagram;
