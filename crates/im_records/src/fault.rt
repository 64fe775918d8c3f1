//! Why a record is not accepted.
ghost use Rattle.std.specs.Prelude.{◌≡◌};
ghost use Rattle.im_records.specs.Faults.{number_of};

/// Why a record is not accepted. The first fault found is reported.
#[derive(Clone, Copy, Debug, PartialEq, Eq)]
pub enum RecordFault {
    /// No writable record has this index.
    Index,
    /// The record is not as long as the record of this index.
    Length,
    /// The record is not the block of this index: BlockType, BlockLength or the version differs.
    Block,
}

impl RecordFault {
    /// The number of the fault, from 1.
    pub fn number(self) -> u8
        ensures { result ≡ number_of self }
    {
        match self {
            RecordFault::Index => 1,
            RecordFault::Length => 2,
            RecordFault::Block => 3,
        }
    }
}
