// Requests.
ghost use Rattle.std.specs.Prelude.{◌≡◌};
ghost use Rattle.dcp_core.specs.DcpFault.{number_of};

use crate::Kind;
use arrayvec::ArrayVec;

/// Why bytes are not a request.
#[derive(Clone, Copy, Debug, PartialEq, Eq)]
pub enum DcpFault {
    /// The header is incomplete, or DCPDataLength is more than what follows it.
    Length = 1,
    /// ServiceID, ServiceType and FrameID are not those of a request.
    Service = 2,
    /// A block or pair is incomplete, there are more than 16, or a block of a Set has no BlockQualifier.
    Block = 3,
}

impl DcpFault {
    /// The number of the fault, 1 to 3.
    pub fn number(self) -> u8
        ensures { result ≡ number_of self }
    {
        self as u8
    }
}

/// ServiceID.
#[derive(Clone, Copy, Debug, PartialEq, Eq)]
pub enum Service {
    Get,
    Set,
    Identify,
}

/// A block of a request, or a pair of a Get, which has no contents.
#[derive(Clone, Copy)]
pub struct Block<'a> {
    pub kind: Kind,
    /// The octets that Length counts, BlockQualifier included.
    pub contents: &'a [u8],
}

// Only `ArrayVec` needs a default of its elements.
impl Default for Block<'_> {
    ghost use Rattle.std.specs.Prelude.{◌≡◌, []};
    ghost use Rattle.dcp_core.specs.declared.kind.Kind.TheVariants.{All};

    ghost is_default = { λ block. (block.kind ≡ All) × (block.contents.now ≡ []) };

    fn default() -> Self {
        Block {
            kind: Kind::All,
            contents: &[],
        }
    }
}

/// A Get, Set or Identify request.
#[derive(Drop)]
pub struct Request<'a> {
    pub service: Service,
    /// Transaction, which the response repeats.
    pub xid: u32,
    pub blocks: ArrayVec<Block<'a>, 16>,
}
