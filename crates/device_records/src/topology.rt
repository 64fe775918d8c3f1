//! The records of the port and of the interface of a device (IEC 61158-6-10, 5.2.28): PDPortDataReal, PDInterfaceDataReal and
//! PDRealData. Engineering tools draw the topology of a plant from them.

mod blocks;
mod interface;
mod network;
mod port;

pub use interface::put_interface;
pub use network::put_network;
pub use port::put_port;
