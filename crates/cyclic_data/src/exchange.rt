//! What both ends of cyclic data have in common (IEC 61158-6-10, 4.7; protocol machines PPM and CPM): frames that are
//! sent each interval, frames that are accepted or not, and the data hold time. A device sends inputs and accepts
//! outputs; a controller sends outputs and accepts inputs. Each has its own end of the alarms, and passes in what is
//! due of them.
//!
//! The owner of an end knows whether its relation exists, and asks the end for the frames to send.

mod exchange;
mod frames;
mod laws;
mod opening;
mod received;
mod route;
mod units;

pub use exchange::{CyclicExchange, ProviderStatus, ReceivedValue};
pub use frames::send_cyclic;
pub use laws::cyclic_data_is_kept;
pub use opening::Statuses;
pub use received::Received;
pub use route::Route;
pub use units::Tick;
