use device_core::Local;
use frame_codec::Bytes;
use lldp::Neighbour;

/// An end of the network.
#[derive(Clone, Copy, Debug, PartialEq, Eq)]
pub enum End {
    /// The device.
    Device,
    /// Its controller.
    Controller,
}

/// A move: one thing that may happen.
#[derive(Drop)]
pub enum Move {
    /// The frame with this number, among all that either end ever sent, is delivered to this end. It is skipped if it
    /// does not exist, and so is a cyclic frame to an end that has left its relation.
    Deliver(End, usize),
    /// A unit of 31.25 microseconds passes at this end.
    Tick(End),
    /// The device's application says this to it.
    Application(Local<Bytes>),
    /// The services beside the device tell it its neighbour, or that it has none.
    Neighbour(Option<Neighbour>),
    /// The controller's application sets the output of the submodule in this slot and subslot.
    Give(u16, u16, Bytes),
    /// The controller's application says whether the output of the submodule in this slot and subslot is good.
    OutputStatus(u16, u16, bool),
    /// The controller's application reads the record with this index of the submodule in this slot and subslot.
    Read(u16, u16, u16),
    /// The controller's application writes these octets to the record with this index of the submodule in this slot and
    /// subslot.
    Write(u16, u16, u16, Bytes),
    /// The controller's application stops it.
    Stop,
}
