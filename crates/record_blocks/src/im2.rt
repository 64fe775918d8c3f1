//! I&M2: the installation date of a device.
ghost use Rattle.std.specs.Prelude.{◌≡◌, ◌+◌, ◌≤◌, ◌++◌, List, ℕ};
ghost use Rattle.arrayvec.specs.ArrayVec.{array_vec_len};
ghost use Rattle.wire.specs.Codec.{Gives};
ghost use Rattle.wire.specs.blocks.Fields.{body};
ghost use Rattle.record_blocks.specs.Im2.{im2};

use arrayvec::ArrayVec;
use wire::{BlockFault, len_fields, put_fields, read_body};

/// 0x0022: I&M2 (IEC 61158-6-10, 5.2.3.22).
#[derive(Clone, Copy)]
pub struct Im2 {
    /// IM_Date, padded with spaces.
    pub im_date: [u8; 16],
}

macro_rules! im2_fields {
    ($with:ident $args:tt) => {
        $with! { $args Im2 {
            im_date: octets 16,
        } }
    };
}

/// Reads the part of an I&M2 that BlockLength counts: the version and the fields, to the last octet.
#[tactic(auto, unfolding(wire::specs::blocks::Fields::body, crate::specs::Im2::im2))]
pub fn im2_at(bytes: &[u8]) -> Result<Im2, BlockFault>
    ensures { Gives (λ x. x) result ((body im2).read bytes.now) }
{
    im2_fields!(read_body[bytes])
}

/// Appends the fields of an I&M2. There must be room.
#[tactic(auto, unfolding(crate::specs::Im2::im2))]
pub fn put_im2<const N: usize>(out: &mut ArrayVec<u8, N>, value: &Im2)
    requires { array_vec_len out.old + im2.size value.now ≤ N }
    ensures items { (tail : List ℕ) → out.new.items ++ tail ≡ out.old.items ++ im2.write value.now tail }
    ensures len { array_vec_len out.new ≡ array_vec_len out.old + im2.size value.now }
    ensures fits { im2.Fits value.now }
{
    im2_fields!(put_fields [out, value]);
}

/// The number of octets that the fields of an I&M2 take.
#[tactic(auto, unfolding(crate::specs::Im2::im2))]
pub fn im2_len(value: &Im2) -> usize
    ensures size { result ≡ im2.size value.now }
    ensures few { result ≡ 16 }
{
    im2_fields!(len_fields[value])
}
