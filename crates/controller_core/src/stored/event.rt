use frame_codec::Bytes;

/// What happens to a controller.
#[derive(Drop)]
pub enum Event {
    /// These octets came from the network. Of a longer frame only the first 1,519 octets are given, which are refused
    /// in the same way.
    Frame(Bytes),
    /// A unit of 31.25 microseconds is over.
    Tick,
    /// The application sets the output of the submodule in this slot and subslot.
    Give(u16, u16, Bytes),
    /// The application says whether the output of the submodule in this slot and subslot is good.
    Status(u16, u16, bool),
    /// The application reads the record with this index of the submodule in this slot and subslot. Only while data is
    /// exchanged and no other request waits (`can_request`); otherwise nothing happens.
    Read(u16, u16, u16),
    /// The application writes these octets, at most 1,308, to the record with this index of the submodule in this slot and
    /// subslot. The same holds; with more octets nothing happens.
    Write(u16, u16, u16, Bytes),
    /// The application stops the controller.
    Stop,
}
