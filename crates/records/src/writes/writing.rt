use crate::writes::{Entries, Write};
use block_codec::IodWriteReq;

/// What a Write asks for.
#[derive(Drop)]
pub enum Writing<'a> {
    /// One record.
    One(Write),
    /// The records of a list, in order, with the header of the request.
    Each(IodWriteReq, Entries<'a>),
}
