//! Places in cyclic frames, and the submodules that are expected to have them.
ghost use Rattle.std.specs.Prelude.{◌≡◌, ◌<◌, ◌≤◌, length, drop, IfSome};
ghost use Rattle.cyclic_data.specs.Places.{opposite_of, data_in, taken, found_from};
ghost use Rattle.cyclic_data.specs.Rising.{is_before, rises, rises_from};
ghost use Rattle.cyclic_data.specs.Layout.{is_same_kind, is_of};

use connect_blocks::{IocrType, SubmoduleData};

/// The content of a place.
#[derive(Clone, Copy, Debug, Default, PartialEq, Eq)]
pub enum PlaceKind {
    /// An IODataObject: the data of a submodule, followed by its IOPS.
    #[default]
    Data,
    /// An IOCS: the status of the consumer of the submodule's data in the frames of the other direction.
    Iocs,
}

impl PlaceKind {
    /// Whether the two kinds are the same.
    fn is(self, other: PlaceKind) -> bool
        ensures { result ≡ is_same_kind self other }
    {
        match (self, other) {
            (PlaceKind::Data, PlaceKind::Data) | (PlaceKind::Iocs, PlaceKind::Iocs) => true,
            (PlaceKind::Data, PlaceKind::Iocs) | (PlaceKind::Iocs, PlaceKind::Data) => false,
        }
    }
}

/// A place in a cyclic frame.
#[derive(Clone, Copy, Debug, Default, PartialEq, Eq)]
pub struct Place {
    /// The content of the place.
    pub kind: PlaceKind,
    /// SlotNumber.
    pub slot: u16,
    /// SubslotNumber.
    pub subslot: u16,
    /// FrameOffset, in octets from the first octet after the FrameID.
    pub offset: u16,
    /// The number of octets: the data and one octet of IOPS, or one octet of IOCS.
    pub size: u16,
}

impl Place {
    /// Whether it is the place of this kind and submodule.
    pub(crate) fn is_of(&self, kind: PlaceKind, slot: u16, subslot: u16) -> bool
        ensures { result ≡ is_of kind slot subslot self.now }
    {
        // Most places differ in the slot.
        self.slot == slot && self.subslot == subslot && kind.is(self.kind)
    }
}

/// A submodule that is expected, and its data in cyclic frames.
#[derive(Clone, Copy, Default)]
pub struct ExpectedData {
    /// SlotNumber.
    pub slot: u16,
    /// SubslotNumber.
    pub subslot: u16,
    /// The lengths of its input and its output.
    pub io_data: SubmoduleData,
}

impl ExpectedData {
    /// Whether the submodule is in an earlier slot, or in an earlier subslot of the same slot.
    fn is_before(&self, other: &ExpectedData) -> bool
        ensures { result ≡ is_before self.now other.now }
    {
        self.slot < other.slot || (self.slot == other.slot && self.subslot < other.subslot)
    }

    /// The number of octets that the submodule takes in the frames of a direction, as data with its IOPS or as an IOCS.
    /// `None` if it takes none there.
    pub fn taken(&self, direction: IocrType, kind: PlaceKind) -> Option<u32>
        ensures value { result ≡ taken direction kind self.now.io_data }
        ensures few { IfSome result (λ size. size ≤ 65536) }
    {
        taken(direction, kind, self.io_data)
    }
}

/// The other direction.
fn opposite_of(direction: IocrType) -> IocrType
    ensures { result ≡ opposite_of direction }
{
    match direction {
        IocrType::Input => IocrType::Output,
        IocrType::Output => IocrType::Input,
    }
}

/// The number of octets of data that a submodule has in the frames of a direction. `None` if it has no data there.
fn data_in(direction: IocrType, io_data: SubmoduleData) -> Option<u16>
    ensures { result ≡ data_in direction io_data }
{
    match (direction, io_data.input, io_data.output) {
        // A submodule without data shows the controller by its IOPS that it is there: an object of no octets among the
        // inputs.
        (IocrType::Input, None, None) => Some(0),
        (IocrType::Input, input, _) => input,
        (IocrType::Output, _, output) => output,
    }
}

/// The number of octets that a submodule takes in the frames of a direction. `None` if it takes none there.
pub(crate) fn taken(direction: IocrType, kind: PlaceKind, io_data: SubmoduleData) -> Option<u32>
    ensures value { result ≡ taken direction kind io_data }
    ensures some { IfSome result (λ size. 0 < size) }
    ensures few { IfSome result (λ size. size ≤ 65536) }
{
    match kind {
        PlaceKind::Data => data_in(direction, io_data).map(|size| u32::from(size) + 1),
        PlaceKind::Iocs => data_in(opposite_of(direction), io_data).map(|_| 1),
    }
}

/// The first submodule that is expected in a subslot, from index `from` on: its index and its data.
pub(crate) fn find(
    expected: &[ExpectedData],
    from: usize,
    slot: u16,
    subslot: u16,
) -> Option<(usize, SubmoduleData)>
    ensures found { result ≡ found_from slot subslot from (drop from expected.now) }
    ensures below { IfSome result (λ found. found.0 < length expected.now) }
{
    for index in from..expected.len() {
        let sub = &expected[index];
        if sub.slot == slot && sub.subslot == subslot {
            return Some((index, sub.io_data));
        }
    }
    None
}

/// Whether the submodules are in the order of their slots and subslots.
pub(crate) fn rises(expected: &[ExpectedData]) -> bool
    ensures { result ≡ rises expected.now }
{
    match expected {
        [first, rest @ ..] => rises_from(*first, rest),
        [] => true,
    }
}

/// Whether the submodules after `first` are in that order.
fn rises_from(first: ExpectedData, rest: &[ExpectedData]) -> bool
    ensures { result ≡ rises_from first rest.now }
{
    let mut last = first;
    for sub in rest {
        if !last.is_before(sub) {
            return false;
        }
        last = *sub;
    }
    true
}
