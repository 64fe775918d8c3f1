//! Cyclic data of PROFINET IO (IEC 61158-6-10, 5.2.4.3 and 4.7): the place of each submodule in the frames of a
//! communication relation, the content of the frames, and which frames are due, accepted, or too late.
#![tactic(auto)]

mod exchange;
mod fault;
mod image;
mod judge;
mod laid_out;
mod layout;
mod octets;
mod place;
mod received;
mod status;
mod tail;
mod timing;
mod zero_octets;

pub use exchange::{
    CyclicExchange, ProviderStatus, Received, ReceivedValue, Route, Statuses, Tick,
    cyclic_data_is_kept, send_cyclic,
};
pub use fault::LayoutFault;
pub use image::Image;
pub use layout::Layout;
pub use place::{ExpectedData, Place, PlaceKind};
pub use received::ReceivedImage;
pub use status::{DataStatus, GOOD, StationState};
pub use tail::{CyclicTail, ShortFrame, put_cyclic, read_cyclic};
pub use timing::{Consumer, Provider};
pub use zero_octets::zeros;
