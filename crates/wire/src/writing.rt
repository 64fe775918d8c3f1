//! Writers of the fields that formats are made of.
ghost use Rattle.std.specs.Prelude.{◌≡◌, ◌+◌, ◌<◌, ◌≤◌, ◌^◌, ◌++◌, length};
ghost use Rattle.arrayvec.specs.ArrayVec.{array_vec_len};
ghost use Rattle.byteorder.specs.Endian.{big_bytes};

use arrayvec::ArrayVec;
use byteorder::{BigEndian, ByteOrder};

/// Appends octets. There must be room.
#[inline]
pub fn append<const N: usize>(out: &mut ArrayVec<u8, N>, bytes: &[u8])
    requires { array_vec_len out.old + length bytes.now ≤ N }
    // The octets are appended to the earlier ones.
    ensures items { out.new.items ≡ out.old.items ++ bytes.now }
    // The length grows by the number of octets.
    ensures len { array_vec_len out.new ≡ array_vec_len out.old + length bytes.now }
{
    let _ = out.try_extend_from_slice(bytes);
}

/// Appends a number of one octet. There must be room.
#[inline]
pub fn append_u8<const N: usize>(out: &mut ArrayVec<u8, N>, number: u8)
    requires { array_vec_len out.old < N }
    // The number is appended to the earlier octets.
    ensures items { out.new.items ≡ out.old.items ++ big_bytes 1 number }
    // The length grows by one.
    ensures len { array_vec_len out.new ≡ array_vec_len out.old + 1 }
    // The number fits one octet.
    ensures fits { number < 256 ^ 1 }
{
    out.push(number);
}

/// Appends a number of two octets. There must be room.
#[inline]
pub fn append_u16<const N: usize>(out: &mut ArrayVec<u8, N>, number: u16)
    requires { array_vec_len out.old + 2 ≤ N }
    // The number is appended to the earlier octets, the highest octet first.
    ensures items { out.new.items ≡ out.old.items ++ big_bytes 2 number }
    // The length grows by two.
    ensures len { array_vec_len out.new ≡ array_vec_len out.old + 2 }
    // The number fits two octets.
    ensures fits { number < 256 ^ 2 }
{
    let mut octets = [0; 2];
    BigEndian::write_u16(&mut octets, number);
    append(out, &octets);
}

/// Appends a number of four octets. There must be room.
#[inline]
pub fn append_u32<const N: usize>(out: &mut ArrayVec<u8, N>, number: u32)
    requires { array_vec_len out.old + 4 ≤ N }
    // The number is appended to the earlier octets, the highest octet first.
    ensures items { out.new.items ≡ out.old.items ++ big_bytes 4 number }
    // The length grows by four.
    ensures len { array_vec_len out.new ≡ array_vec_len out.old + 4 }
    // The number fits four octets.
    ensures fits { number < 256 ^ 4 }
{
    let mut octets = [0; 4];
    BigEndian::write_u32(&mut octets, number);
    append(out, &octets);
}

/// Joins two arrays into one. The sizes are known, so nothing is counted.
#[inline(always)]
pub fn join<const A: usize, const B: usize, const N: usize>(
    front: &[u8; A],
    behind: &[u8; B],
) -> [u8; N]
    requires { A + B ≡ N }
    ensures { result ≡ front.now ++ behind.now }
{
    let mut whole = [0; N];
    let (first, rest) = whole.split_at_mut(A);
    first.copy_from_slice(front);
    rest.copy_from_slice(behind);
    whole
}
