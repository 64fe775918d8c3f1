//! I&M4: a signature.
ghost use Rattle.std.specs.Prelude.{◌≡◌, ◌+◌, ◌≤◌, ◌++◌, List, ℕ};
ghost use Rattle.arrayvec.specs.ArrayVec.{array_vec_len};
ghost use Rattle.wire.specs.Codec.{Gives};
ghost use Rattle.wire.specs.blocks.Fields.{body};
ghost use Rattle.record_blocks.specs.Im4.{im4};

use arrayvec::ArrayVec;
use wire::{BlockFault, len_fields, put_fields, read_body};

/// 0x0024: I&M4 (IEC 61158-6-10, 5.2.3.22).
#[derive(Clone, Copy)]
pub struct Im4 {
    /// IM_Signature.
    pub im_signature: [u8; 54],
}

macro_rules! im4_fields {
    ($with:ident $args:tt) => {
        $with! { $args Im4 {
            im_signature: octets 54,
        } }
    };
}

/// Reads the part of an I&M4 that BlockLength counts: the version and the fields, to the last octet.
#[tactic(auto, unfolding(wire::specs::blocks::Fields::body, crate::specs::Im4::im4))]
pub fn im4_at(bytes: &[u8]) -> Result<Im4, BlockFault>
    ensures { Gives (λ x. x) result ((body im4).read bytes.now) }
{
    im4_fields!(read_body[bytes])
}

/// Appends the fields of an I&M4. There must be room.
#[tactic(auto, unfolding(crate::specs::Im4::im4))]
pub fn put_im4<const N: usize>(out: &mut ArrayVec<u8, N>, value: &Im4)
    requires { array_vec_len out.old + im4.size value.now ≤ N }
    ensures items { (tail : List ℕ) → out.new.items ++ tail ≡ out.old.items ++ im4.write value.now tail }
    ensures len { array_vec_len out.new ≡ array_vec_len out.old + im4.size value.now }
    ensures fits { im4.Fits value.now }
{
    im4_fields!(put_fields [out, value]);
}

/// The number of octets that the fields of an I&M4 take.
#[tactic(auto, unfolding(crate::specs::Im4::im4))]
pub fn im4_len(value: &Im4) -> usize
    ensures size { result ≡ im4.size value.now }
    ensures few { result ≡ 54 }
{
    im4_fields!(len_fields[value])
}
