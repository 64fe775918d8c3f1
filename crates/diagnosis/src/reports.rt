//! Alarms as a controller receives them (IEC 61158-6-10, 4.8 and 5.2.5): of both priorities, of each type, and with any
//! UserStructureIdentifier or none; the alarms of low priority that a device sends, and their AlarmAck.

mod law;
mod message;
mod priority;
mod report;
mod writing;

pub use law::reports_are_read;
pub use message::{read_alarm, read_low_message};
pub use priority::Priority;
pub use report::{Report, low_ack_octets, read_low_ack, read_report};
pub use writing::low_alarm_front;
