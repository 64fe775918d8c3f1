//! A controller in a station: the controller, and all that is beside it. That is the services of its IP address and its
//! neighbour by LLDP. It answers requests of ARP (RFC 826) and echo requests (RFC 792) itself, so a device whose calls go
//! through the IP stack of its system can call it, and no system beside the controller has to have its address. It
//! announces itself to the station at the other end of its cable, and hears that one (IEEE 802.1AB). If its plan has an
//! identity, it is a DCP station, and tools see it.
//!
//! The controller in it is the controller alone: what is beside it receives only the frames that the controller does not
//! answer, and its frames follow those of the controller.
#![tactic(auto)]

mod beside;
mod law;
mod outbox;
mod served;

pub use beside::ControllerServices;
pub use law::{a_station_has_its_controller_alone, tools_add_their_answers_alone};
pub use outbox::ServedOutbox;
pub use served::ServedController;
