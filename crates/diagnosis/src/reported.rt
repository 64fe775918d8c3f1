//! The diagnosis of a device, as a controller knows it: what the device's alarms report of its channels, and of what was
//! pulled (IEC 61158-6-10, 5.2.5 and 5.2.6).

mod channel;
mod law;
mod pulled;
mod reported;

pub use channel::{ChannelReport, Specifier, channel_report};
pub use law::reports_are_followed;
pub use pulled::pulled_by;
pub use reported::{MOST_DIAGNOSES, ReportedDiagnoses};
