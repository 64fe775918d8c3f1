//! What the communication relations of an application relation exchange (IEC 61158-6-10, 4.7 and 4.8; protocol machines
//! PPM, CPM and ALPMI of a device): frames of inputs, which are sent each interval, frames of outputs, which are
//! accepted or not, and alarms.
//!
//! An exchange is opened with the answer to a Connect, and begins with the answer to ApplicationReady. Its owner knows
//! whether its relation exists, and builds the frames. This module writes the octets that follow the FrameID.

mod alarms;
mod cyclic;
mod data_exchange;
mod laws;
mod low;
mod marks;
mod opening;
mod statuses;

pub use cyclic::Repeated;
pub use data_exchange::DataExchange;
pub use laws::exchange_is_kept;
pub use marks::{Mark, Starting};
pub use statuses::{InputStatus, forget_statuses, is_bad, is_plugged, put_status};
