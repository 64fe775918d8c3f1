//! Why a port did nothing.
ghost use Rattle.std.specs.Prelude.{◌≡◌};
ghost use Rattle.device_station.specs.port.Refusals.{refusal_number};

/// Why a port did nothing.
#[derive(Clone, Copy, Debug, PartialEq, Eq)]
pub enum Refusal {
    /// The port has not started yet.
    NotBooted = 5,
    /// The port has already started.
    IsBooted = 6,
    /// Work of the step before was not fetched yet.
    HasWork = 7,
    /// A sector has another number of octets.
    BadLength = 8,
    /// No submodule with an output is plugged there.
    NoSlot = 9,
    /// The content of the flash was not written by a device with this layout.
    Foreign = 11,
    /// Power was lost since it started.
    PowerLost = 14,
}

impl Refusal {
    /// The number of this refusal.
    pub fn number(self) -> u32
        ensures { result ≡ refusal_number self }
    {
        self as u32
    }
}
