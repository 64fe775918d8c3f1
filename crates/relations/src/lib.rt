//! The application relation of a device with its controller (IEC 61158-6-10, protocol machine CMDEV): how it is
//! established, controlled and ended, and how long each of its phases waits.
//!
//! A relation returns what must be sent as a value: `Ready` for the call ApplicationReady, and `Farewell` for the ERR
//! that ends it. Its owner builds the frames. The blocks of answers and calls are built here.
#![tactic(auto)]

mod calls;
mod connect;
mod exchange;
mod exchanged;
mod farewell;
mod hearing;
mod laws;
mod numbers;
mod options;
mod output;
mod passed;
mod phase;
mod plugging;
mod ready;
mod relation;
mod steady;
mod time;

pub use cyclic_data::{ProviderStatus, ReceivedValue};
pub use exchange::{
    DataExchange, InputStatus, Mark, Repeated, Starting, exchange_is_kept, forget_statuses, is_bad,
    is_plugged, put_status,
};
pub use farewell::Farewell;
pub use hearing::ReadyAnswer;
pub use laws::{phases_are_kept, time_is_kept};
pub use numbers::{NUMBERS, made_after, number_of};
pub use options::{Application, DeviceOptions};
pub use phase::{Partner, Phase};
pub use plugging::{Outgoing, PlugAnswer, PlugReady};
pub use pn_alarms::Abort;
pub use ready::Ready;
pub use relation::{Relation, RelationParts};
pub use steady::Steady;
pub use time::Elapsed;
