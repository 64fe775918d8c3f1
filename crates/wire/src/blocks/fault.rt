//! The reasons why octets are not a block.
ghost use Rattle.std.specs.Prelude.{◌≡◌};
ghost use Rattle.wire.specs.blocks.Faults.{number_of};

/// Why octets are not a block. The first fault found is reported: Truncated, then Kind, then the fields in their order.
#[derive(Clone, Copy, Debug, PartialEq, Eq)]
pub enum BlockFault {
    /// There are fewer than four octets, or fewer octets than BlockLength counts.
    Truncated,
    /// The BlockType is not known.
    Kind,
    /// A field runs past BlockLength, or octets follow the last field.
    Length,
    /// BlockVersionHigh, field 2, is not 1, or BlockVersionLow, field 3, is not 0.
    Version(u8),
    /// There are more than 256 entries of one kind.
    Count,
    /// The field with this number has a value that is not accepted. Fields are counted from 4.
    Field(u8),
}

impl BlockFault {
    /// The number of the fault, from 1.
    pub fn number(self) -> u8
        ensures { result ≡ number_of self }
    {
        match self {
            BlockFault::Truncated => 1,
            BlockFault::Kind => 2,
            BlockFault::Length => 3,
            BlockFault::Version(_) => 4,
            BlockFault::Count => 5,
            BlockFault::Field(_) => 6,
        }
    }
}
