// Responses.
use crate::{Kind, Service};
use pn_values::BlockError;

/// The outcome of a block of a Set, or of a pair of a Get: BlockError (IEC 61158-6-10, 4.3.1.4.6).
#[derive(Clone, Copy, Debug, PartialEq, Eq)]
pub enum Outcome {
    Known(BlockError),
    /// A number without a name here. It is not success.
    Other(u8),
}

/// A block of a response.
#[derive(Clone, Copy)]
pub enum ResponseBlock<'a> {
    /// A value that a station reports.
    Value {
        kind: Kind,
        /// BlockInfo.
        info: u16,
        /// The octets after BlockInfo.
        value: &'a [u8],
    },
    /// The outcome of the block or pair of this kind.
    Outcome {
        kind: Kind,
        outcome: Outcome,
    },
}

/// The blocks of a response, read in place one after another.
#[derive(Clone, Copy)]
pub struct ResponseBlocks<'a> {
    pub(crate) bytes: &'a [u8],
}

/// A response to a Get, a Set or an Identify.
#[derive(Clone, Copy)]
pub struct Response<'a> {
    pub service: Service,
    /// Whether the station supports the service: ServiceType is 1 and not 5.
    pub is_supported: bool,
    /// Transaction: that of the request.
    pub xid: u32,
    pub blocks: ResponseBlocks<'a>,
}
