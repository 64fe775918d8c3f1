//! Alarms of PROFINET IO (IEC 61158-6-10, 4.8): the PDUs that send and acknowledge alarms, the PDU that ends a
//! relation, the sender that repeats alarms, and the receiver that accepts each alarm once.
#![tactic(auto)]

mod abort;
mod controller;
mod device;
mod fault;
mod law;
mod message;
mod numbers;
mod pdu;
mod reading;
mod receiver;
mod repeats;
mod sender;
mod writing;

pub use abort::Abort;
pub use controller::ControllerAlarms;
pub use device::{DeviceAlarms, PduFate};
pub use fault::AlarmFault;
pub use law::fitting_pdus_are_read;
pub use message::{Message, Notice, read_message, status_in};
pub use pdu::{Header, Pdu, PduType};
pub use reading::{read_ack, read_pdu};
pub use receiver::{Receiver, Taken};
pub use repeats::{Due, NEVER, Repeats};
pub use sender::{Alarm, RaiseFault, Reply, Sender};
pub use writing::{alarm_front, data_front, pdu_front};
