//! Writers of fields. Each appends to a buffer, which must have room.
ghost use Rattle.std.specs.Prelude.{◌≡◌, ◌+◌, ◌<◌, ◌≤◌, ◌^◌, ◌++◌, ℕ, List, length};
ghost use Rattle.arrayvec.specs.ArrayVec.{array_vec_len};
ghost use Rattle.wire.specs.blocks.Fields.{number_bytes, octet_bytes, zeros, version};

use arrayvec::ArrayVec;

/// Appends a number of one octet.
#[inline]
#[tactic(auto, unfolding(crate::specs::blocks::Fields::number_bytes))]
pub fn append_u8<const N: usize>(out: &mut ArrayVec<u8, N>, number: u8)
    requires { array_vec_len out.old + 1 ≤ N }
    ensures items { (tail : List ℕ) → out.new.items ++ tail ≡ out.old.items ++ number_bytes 1 number tail }
    ensures len { array_vec_len out.new ≡ array_vec_len out.old + 1 }
    ensures fits { number < 256 ^ 1 }
{
    crate::writing::append_u8(out, number);
}

/// Appends a number of two octets.
#[inline]
#[tactic(auto, unfolding(crate::specs::blocks::Fields::number_bytes))]
pub fn append_u16<const N: usize>(out: &mut ArrayVec<u8, N>, number: u16)
    requires { array_vec_len out.old + 2 ≤ N }
    ensures items { (tail : List ℕ) → out.new.items ++ tail ≡ out.old.items ++ number_bytes 2 number tail }
    ensures len { array_vec_len out.new ≡ array_vec_len out.old + 2 }
    ensures fits { number < 256 ^ 2 }
{
    crate::writing::append_u16(out, number);
}

/// Appends a number of four octets.
#[inline]
#[tactic(auto, unfolding(crate::specs::blocks::Fields::number_bytes))]
pub fn append_u32<const N: usize>(out: &mut ArrayVec<u8, N>, number: u32)
    requires { array_vec_len out.old + 4 ≤ N }
    ensures items { (tail : List ℕ) → out.new.items ++ tail ≡ out.old.items ++ number_bytes 4 number tail }
    ensures len { array_vec_len out.new ≡ array_vec_len out.old + 4 }
    ensures fits { number < 256 ^ 4 }
{
    crate::writing::append_u32(out, number);
}

/// Appends octets.
#[inline]
#[tactic(auto, unfolding(crate::specs::blocks::Fields::octet_bytes))]
pub fn append<const N: usize>(out: &mut ArrayVec<u8, N>, bytes: &[u8])
    requires { array_vec_len out.old + length bytes.now ≤ N }
    ensures items { (tail : List ℕ) → out.new.items ++ tail ≡ out.old.items ++ octet_bytes bytes.now tail }
    ensures len { array_vec_len out.new ≡ array_vec_len out.old + length bytes.now }
{
    crate::writing::append(out, bytes);
}

/// Appends zeros.
#[tactic(auto, unfolding(crate::specs::blocks::Fields::octet_bytes, crate::specs::blocks::Fields::zeros))]
pub fn append_zeros<const N: usize, const SIZE: usize>(out: &mut ArrayVec<u8, N>)
    requires { array_vec_len out.old + SIZE ≤ N }
    ensures items { (tail : List ℕ) → out.new.items ++ tail ≡ out.old.items ++ octet_bytes (zeros SIZE) tail }
    ensures len { array_vec_len out.new ≡ array_vec_len out.old + SIZE }
{
    crate::writing::append(out, &[0; SIZE]);
}

/// Appends BlockVersionHigh 1 and BlockVersionLow 0.
#[tactic(auto, unfolding(crate::specs::blocks::Fields::version))]
pub fn put_version<const N: usize>(out: &mut ArrayVec<u8, N>)
    requires { array_vec_len out.old + 2 ≤ N }
    ensures items { (tail : List ℕ) → out.new.items ++ tail ≡ out.old.items ++ version.write tt tail }
    ensures len { array_vec_len out.new ≡ array_vec_len out.old + 2 }
{
    append_u8(out, 1);
    append_u8(out, 0);
}

/// The number of octets in `bytes`.
pub fn len_of(bytes: &[u8]) -> usize
    ensures { result ≡ length bytes.now }
{
    bytes.len()
}
