//! I&M3: a description of the device by its user.
ghost use Rattle.std.specs.Prelude.{◌≡◌, ◌+◌, ◌≤◌, ◌++◌, List, ℕ};
ghost use Rattle.arrayvec.specs.ArrayVec.{array_vec_len};
ghost use Rattle.wire.specs.Codec.{Gives};
ghost use Rattle.wire.specs.blocks.Fields.{body};
ghost use Rattle.record_blocks.specs.Im3.{im3};

use arrayvec::ArrayVec;
use wire::{BlockFault, len_fields, put_fields, read_body};

/// 0x0023: I&M3 (IEC 61158-6-10, 5.2.3.22).
#[derive(Clone, Copy)]
pub struct Im3 {
    /// IM_Descriptor, padded with spaces.
    pub im_descriptor: [u8; 54],
}

macro_rules! im3_fields {
    ($with:ident $args:tt) => {
        $with! { $args Im3 {
            im_descriptor: octets 54,
        } }
    };
}

/// Reads the part of an I&M3 that BlockLength counts: the version and the fields, to the last octet.
#[tactic(auto, unfolding(wire::specs::blocks::Fields::body, crate::specs::Im3::im3))]
pub fn im3_at(bytes: &[u8]) -> Result<Im3, BlockFault>
    ensures { Gives (λ x. x) result ((body im3).read bytes.now) }
{
    im3_fields!(read_body[bytes])
}

/// Appends the fields of an I&M3. There must be room.
#[tactic(auto, unfolding(crate::specs::Im3::im3))]
pub fn put_im3<const N: usize>(out: &mut ArrayVec<u8, N>, value: &Im3)
    requires { array_vec_len out.old + im3.size value.now ≤ N }
    ensures items { (tail : List ℕ) → out.new.items ++ tail ≡ out.old.items ++ im3.write value.now tail }
    ensures len { array_vec_len out.new ≡ array_vec_len out.old + im3.size value.now }
    ensures fits { im3.Fits value.now }
{
    im3_fields!(put_fields [out, value]);
}

/// The number of octets that the fields of an I&M3 take.
#[tactic(auto, unfolding(crate::specs::Im3::im3))]
pub fn im3_len(value: &Im3) -> usize
    ensures size { result ≡ im3.size value.now }
    ensures few { result ≡ 54 }
{
    im3_fields!(len_fields[value])
}
