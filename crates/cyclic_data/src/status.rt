//! The statuses of data: IOPS and IOCS, and DataStatus.
ghost use Rattle.std.specs.Prelude.{⊤, ◌≡◌, [], ◌∷◌, codes};
ghost use Rattle.cyclic_data.specs.Status.{data_status_of, in_order};

use bitflags::{Flag, Flags, bitflag_items};

/// IOPS and IOCS of good data (IEC 61158-6-10, 4.7.2.1.1).
pub const GOOD: u8 = 0x80;

/// DataStatus of a cyclic frame (IEC 61158-6-10, 4.7.2.1.3).
#[derive(Clone, Copy, PartialEq, Eq, Debug)]
pub struct DataStatus(pub u8);

bitflag_items! {
    impl DataStatus: u8 {
        const PRIMARY = 1;
        const DATA_VALID = 4;
        const PROVIDER_RUNS = 16;
        const NO_PROBLEM = 32;
    }
}

impl Flags for DataStatus {
    type Bits = u8;

    ghost exact = { ⊤ };

    ghost table = { (codes "PRIMARY", 1) ∷ (codes "DATA_VALID", 4) ∷ (codes "PROVIDER_RUNS", 16) ∷ (codes "NO_PROBLEM", 32) ∷ [] };

    ghost set_of = { λ status. status.0 };

    fn flags<'a>() -> &'a [Flag<DataStatus>] {
        DataStatus::FLAGS
    }

    fn bits(&self) -> u8 {
        self.0
    }

    fn from_bits_retain(bits: u8) -> DataStatus {
        DataStatus(bits)
    }
}

/// What a station says of itself in DataStatus of the cyclic frames that it sends.
#[derive(Clone, Copy, PartialEq, Eq, Debug)]
pub struct StationState {
    /// ProviderState: whether its application runs (`true`: Run; `false`: Stop).
    pub is_running: bool,
    /// StationProblemIndicator: whether it has a problem.
    pub has_problem: bool,
}

impl StationState {
    /// A station that runs and has no problem.
    pub fn in_order() -> StationState
        ensures { result ≡ in_order }
    {
        StationState {
            is_running: true,
            has_problem: false,
        }
    }

    /// DataStatus of the frames of a primary provider in this state, whose data is valid.
    pub fn data_status(self) -> DataStatus
        ensures { result.0 ≡ data_status_of self }
    {
        match (self.is_running, self.has_problem) {
            (true, false) => DataStatus(0x35),
            (true, true) => DataStatus(0x15),
            (false, false) => DataStatus(0x25),
            (false, true) => DataStatus(0x05),
        }
    }
}
