//! The frame of a block.
ghost use Rattle.std.specs.Prelude.{◌≡◌, ◌+◌, ◌≤◌, ◌<◌, ◌++◌, length};
ghost use Rattle.arrayvec.specs.ArrayVec.{array_vec_len};
ghost use Rattle.device_records.specs.topology.Blocks.{aligned, block, counted};

use arrayvec::ArrayVec;
use wire::{append, append_u8, append_u16};

/// Padding up to a multiple of four octets.
const ZEROS: [u8; 3] = [0; 3];

/// Appends a block of this type, version 1.0. There must be room.
pub(crate) fn put_block<const N: usize>(out: &mut ArrayVec<u8, N>, kind: u16, octets: &[u8])
    requires size { length octets.now ≤ 1302 }
    requires room { array_vec_len out.old + 6 + length octets.now ≤ N }
    ensures items { out.new.items ≡ out.old.items ++ block kind octets.now }
    ensures len { array_vec_len out.new ≡ array_vec_len out.old + 6 + length octets.now }
{
    append_u16(out, kind);
    append_u16(out, 2 + octets.len() as u16);
    append(out, &[1, 0]);
    append(out, octets);
}

/// Pads the octets of a block with zeros up to a multiple of four octets of the block. There must be room.
pub(crate) fn align<const N: usize>(octets: &mut ArrayVec<u8, N>)
    requires { array_vec_len octets.old + 3 ≤ N }
    ensures items { octets.new.items ≡ aligned octets.old.items }
    ensures len { array_vec_len octets.new ≤ array_vec_len octets.old + 3 }
{
    append(octets, &ZEROS[..3 - (octets.len() + 1) % 4]);
}

/// Appends a text after its length. There must be room.
pub(crate) fn put_counted<const N: usize>(out: &mut ArrayVec<u8, N>, text: &[u8])
    requires size { length text.now ≤ 255 }
    requires room { array_vec_len out.old + 1 + length text.now ≤ N }
    ensures items { out.new.items ≡ out.old.items ++ counted text.now }
    ensures len { array_vec_len out.new ≡ array_vec_len out.old + 1 + length text.now }
{
    append_u8(out, text.len() as u8);
    append(out, text);
}
