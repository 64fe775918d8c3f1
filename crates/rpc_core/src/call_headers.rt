//! The headers of calls and of their answers (The Open Group C706, 12.5), in either byte order, and what answers pings and calls
//! that nobody serves.

mod call;
mod unserved;

pub use call::{
    Extent, Head, Names, Opening, Turn, head_at, is_little, put_head, put_long, put_short,
};
pub use unserved::{
    Refusal, Refused, Rejection, answer_head, is_read, names_mapper, refusal_bytes, sent_uuid,
    unserved_answer,
};
