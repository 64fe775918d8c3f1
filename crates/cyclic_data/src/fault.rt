//! The faults of places that are not a layout.
ghost use Rattle.std.specs.Prelude.{◌≡◌};
ghost use Rattle.cyclic_data.specs.Layout.{fault_number};

/// Why the places of a communication relation are not a layout. The first fault in this order, over all places, is
/// reported.
#[derive(Clone, Copy, Debug, PartialEq, Eq)]
pub enum LayoutFault {
    /// A place ends after the octets that DataLength counts.
    Outside,
    /// Two places have an octet in common.
    Overlap,
    /// A place is not expected, or is listed twice.
    Unknown,
    /// A submodule that is expected has no place for its data or its IOCS.
    Missing,
}

impl LayoutFault {
    /// The number of the fault, from 1.
    pub fn number(self) -> u8
        ensures { result ≡ fault_number self }
    {
        match self {
            LayoutFault::Outside => 1,
            LayoutFault::Overlap => 2,
            LayoutFault::Unknown => 3,
            LayoutFault::Missing => 4,
        }
    }
}
