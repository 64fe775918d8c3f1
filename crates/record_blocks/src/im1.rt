//! I&M1: the function and the location of a device.
ghost use Rattle.std.specs.Prelude.{◌≡◌, ◌+◌, ◌≤◌, ◌++◌, List, ℕ};
ghost use Rattle.arrayvec.specs.ArrayVec.{array_vec_len};
ghost use Rattle.wire.specs.Codec.{Gives};
ghost use Rattle.wire.specs.blocks.Fields.{body};
ghost use Rattle.record_blocks.specs.Im1.{im1};

use arrayvec::ArrayVec;
use wire::{BlockFault, len_fields, put_fields, read_body};

/// 0x0021: I&M1 (IEC 61158-6-10, 5.2.3.22).
#[derive(Clone, Copy)]
pub struct Im1 {
    /// IM_Tag_Function, padded with spaces.
    pub im_tag_function: [u8; 32],
    /// IM_Tag_Location, padded with spaces.
    pub im_tag_location: [u8; 22],
}

macro_rules! im1_fields {
    ($with:ident $args:tt) => {
        $with! { $args Im1 {
            im_tag_function: octets 32,
            im_tag_location: octets 22,
        } }
    };
}

/// Reads the part of an I&M1 that BlockLength counts: the version and the fields, to the last octet.
#[tactic(auto, unfolding(wire::specs::blocks::Fields::body, crate::specs::Im1::im1))]
pub fn im1_at(bytes: &[u8]) -> Result<Im1, BlockFault>
    ensures { Gives (λ x. x) result ((body im1).read bytes.now) }
{
    im1_fields!(read_body[bytes])
}

/// Appends the fields of an I&M1. There must be room.
#[tactic(auto, unfolding(crate::specs::Im1::im1))]
pub fn put_im1<const N: usize>(out: &mut ArrayVec<u8, N>, value: &Im1)
    requires { array_vec_len out.old + im1.size value.now ≤ N }
    ensures items { (tail : List ℕ) → out.new.items ++ tail ≡ out.old.items ++ im1.write value.now tail }
    ensures len { array_vec_len out.new ≡ array_vec_len out.old + im1.size value.now }
    ensures fits { im1.Fits value.now }
{
    im1_fields!(put_fields [out, value]);
}

/// The number of octets that the fields of an I&M1 take.
#[tactic(auto, unfolding(crate::specs::Im1::im1))]
pub fn im1_len(value: &Im1) -> usize
    ensures size { result ≡ im1.size value.now }
    ensures few { result ≡ 54 }
{
    im1_fields!(len_fields[value])
}
