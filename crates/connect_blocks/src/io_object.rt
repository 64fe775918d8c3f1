//! The place of a submodule's data or status in a cyclic frame.
ghost use Rattle.std.specs.Prelude.{◌≡◌, ◌+◌, ◌≤◌, ◌++◌, List, ℕ};
ghost use Rattle.arrayvec.specs.ArrayVec.{array_vec_len};
ghost use Rattle.wire.specs.Codec.{Gives};
ghost use Rattle.connect_blocks.specs.Objects.{io_object};

use arrayvec::ArrayVec;
use wire::{BlockFault, put_fields, read_fields};

/// An IODataObject or an IOCS of an IOCRBlockReq: the place in the frame of a submodule's data or of its consumer status.
#[derive(Clone, Copy, Default)]
pub struct IoObject {
    /// SlotNumber.
    pub slot_number: u16,
    /// SubslotNumber.
    pub subslot_number: u16,
    /// FrameOffset, in octets from the first octet after the FrameID.
    pub frame_offset: u16,
}

macro_rules! io_object_fields {
    ($with:ident $args:tt) => {
        $with! { $args IoObject {
            slot_number: u16,
            subslot_number: u16,
            frame_offset: u16,
        } }
    };
}

/// Reads a place. Returns it and the rest.
#[tactic(auto, unfolding(crate::specs::Objects::io_object))]
pub(crate) fn io_object_at(bytes: &[u8]) -> Result<(IoObject, &[u8]), BlockFault>
    ensures { Gives (λ x. (x.0, x.1.now)) result (io_object.read bytes.now) }
{
    io_object_fields!(read_fields[bytes])
}

/// Appends a place. There must be room.
#[tactic(auto, unfolding(crate::specs::Objects::io_object))]
pub(crate) fn put_io_object<const N: usize>(out: &mut ArrayVec<u8, N>, value: &IoObject)
    requires { array_vec_len out.old + 6 ≤ N }
    ensures items { (tail : List ℕ) → out.new.items ++ tail ≡ out.old.items ++ io_object.write value.now tail }
    ensures len { array_vec_len out.new ≡ array_vec_len out.old + 6 }
    ensures fits { io_object.Fits value.now }
{
    io_object_fields!(put_fields [out, value]);
}
