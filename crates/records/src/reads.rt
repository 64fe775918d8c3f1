//! Records that are read (IEC 61158-6-10, 5.2.3): the order in which a call is checked, and its response.

mod answering;
mod judging;
mod listing;
mod naming;
mod parameters;
mod serving;
mod within;

pub use answering::put_read_answer;
pub use judging::{check_place, read_request};
pub use listing::{Level, Listing, listing_of, put_identification, serve_listing};
pub use naming::names_relation;
pub use parameters::parameter_length;
pub use serving::{Blocks, serve};
pub use within::{request_within, serve_within};
