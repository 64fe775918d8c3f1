// A recorded call, and how it is stored.

use flash_model::Sector;

/// The maximum number of calls that are stored: those of a Set of 16 commands, three for each.
pub const MOST_CALLS: usize = 48;

/// The maximum number of bytes of a program call that is recorded: those of a base.
pub const MOST_BYTES: usize = 437;

/// A call that was recorded. Its bytes lie in the sector that it programmed.
#[derive(Drop)]
pub enum Recorded<'a> {
    /// Bytes programmed from a position in a sector on.
    Program {
        sector: Sector,
        place: u32,
        bytes: &'a [u8],
    },
    /// A sector erased.
    Erase {
        sector: Sector,
    },
}

/// A stored call: where it was, and for how many bytes. The bytes are those of the sector.
#[derive(Clone, Copy)]
pub enum Entry {
    /// That many bytes programmed from a position in a sector on.
    Program {
        sector: Sector,
        place: u32,
        length: u16,
    },
    /// A sector erased.
    Erase {
        sector: Sector,
    },
}

// The value of an entry that is not in use. It is never seen.
impl Default for Entry {
    fn default() -> Self {
        Entry::Erase {
            sector: Sector::First,
        }
    }
}
