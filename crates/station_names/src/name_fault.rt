// The faults of a station name.
ghost use Rattle.std.specs.Prelude.{◌≡◌};
ghost use Rattle.station_names.specs.NameFault.{number_of};

use thiserror::Error;

/// Why a text is not a NameOfStation (IEC 61158-6-10, 4.3.1.4.15). If the text has several faults, the one with the
/// smallest number is reported.
#[derive(Clone, Copy, Debug, PartialEq, Eq, Error)]
pub enum NameFault {
    #[error("a station name has at most 240 bytes")]
    TooLong = 1,
    #[error("a label of a station name is empty")]
    EmptyLabel = 2,
    #[error("a label of a station name has at most 63 bytes")]
    LabelTooLong = 3,
    #[error("a station name has only the letters a to z, digits, hyphens and dots")]
    BadByte = 4,
    #[error("a label of a station name neither begins nor ends with a hyphen")]
    HyphenEnd = 5,
    #[error("a station name does not look like an IP address")]
    LooksLikeAddress = 6,
    #[error("a station name does not begin with the name of a port")]
    PortForm = 7,
}

impl NameFault {
    /// All faults, in the order in which they are looked for.
    pub const ALL: [NameFault; 7] = [
        NameFault::TooLong,
        NameFault::EmptyLabel,
        NameFault::LabelTooLong,
        NameFault::BadByte,
        NameFault::HyphenEnd,
        NameFault::LooksLikeAddress,
        NameFault::PortForm,
    ];

    /// The number of the fault, 1 to 7.
    pub fn number(self) -> u8
        ensures { result ≡ number_of self }
    {
        self as u8
    }
}
