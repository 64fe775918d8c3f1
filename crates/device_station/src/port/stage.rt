//! The stage of a port.

/// The stage of a port.
#[derive(Clone, Copy, Debug, PartialEq, Eq)]
pub enum Stage {
    /// It was made, and waits for the content of the chip.
    Made,
    /// It started, and accepts events.
    Booted,
    /// A flash call failed on the host's side, which counts as lost power: the port must be made again.
    Lost,
}
