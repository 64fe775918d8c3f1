//! The buffer of a frame that is sent.
ghost use Rattle.std.specs.Prelude.{◌≡◌, ◌==◌, ◌+◌, ◌≤◌, ◌<◌, ◌^◌, ◌++◌, [], length, take};
ghost use Rattle.arrayvec.specs.ArrayVec.{array_vec_len};
ghost use Rattle.byteorder.specs.Endian.{big_bytes};

use byteorder::{BigEndian, ByteOrder};
use std::marker::Model;

/// A frame that is sent: 60 to 1,518 octets, without the check sequence. Its buffer is reused. What is cleared stays in
/// it until other octets are written over it, so that no frame costs a second pass over the buffer. Clauses see it as
/// an `ArrayVec`.
#[derive(Drop)]
pub struct Frame {
    room: [u8; 1518],
    used: usize,
}

impl Model for Frame {
    ghost use Rattle.std.specs.Prelude.{◌≡◌, ◌≤◌, ℕ, length, take};
    ghost use Rattle.arrayvec.specs.ArrayVec.{ArrayVec as Items};

    ghost Value = { Items ℕ };

    ghost view = { λ frame. record { items = take frame.used frame.room } };

    ghost invariant = { λ frame. (length frame.room ≡ 1518) × (frame.used ≤ 1518) };
}

/// Writes octets from a position on, and keeps those before it.
#[inline(always)]
fn write_at(room: &mut [u8], start: usize, octets: &[u8])
    requires { start + length octets.now ≤ length room.old }
    ensures front { take (start + length octets.now) room.new ≡ take start room.old ++ octets.now }
    ensures len { length room.new ≡ length room.old }
{
    room[..start + octets.len()][start..].copy_from_slice(octets);
}

impl Frame {
    /// An empty frame buffer.
    pub fn new() -> Frame
        ensures { result.items ≡ [] }
    {
        Frame {
            room: [0; 1518],
            used: 0,
        }
    }

    /// Whether there are no octets.
    #[inline]
    pub fn is_empty(&self) -> bool
        ensures { result ≡ (array_vec_len self.now == 0) }
    {
        self.used == 0
    }

    /// The number of octets.
    #[inline]
    pub fn len(&self) -> usize
        // The result is the number of octets.
        ensures value { result ≡ array_vec_len self.now }
        // There are at most 1,518 octets.
        ensures most { result ≤ 1518 }
    {
        self.used
    }

    /// The octets.
    #[inline]
    pub fn as_slice(&self) -> &[u8]
        // The result is the octets of the frame.
        ensures value { result.now ≡ self.now.items }
        // There are at most 1,518 octets.
        ensures most { length result.now ≤ 1518 }
    {
        &self.room[..self.used]
    }

    /// Replaces the contents by a copy of another frame.
    pub fn copy(&mut self, frame: &Frame)
        ensures { self.new.items ≡ frame.now.items }
    {
        self.clear();
        self.append(frame.as_slice());
    }

    /// Removes all octets.
    #[inline(always)]
    pub fn clear(&mut self)
        ensures { self.new.items ≡ [] }
    {
        self.used = 0;
    }

    /// Appends octets. There must be room.
    #[inline(always)]
    pub fn append(&mut self, octets: &[u8])
        requires { array_vec_len self.old + length octets.now ≤ 1518 }
        // The octets are appended to the earlier ones.
        ensures items { self.new.items ≡ self.old.items ++ octets.now }
        // The length grows by the number of octets.
        ensures len { array_vec_len self.new ≡ array_vec_len self.old + length octets.now }
    {
        let start = self.used;
        write_at(&mut self.room, start, octets);
        self.used = start + octets.len();
    }

    /// Appends a number of one octet. There must be room.
    #[inline(always)]
    pub(crate) fn append_u8(&mut self, number: u8)
        requires { array_vec_len self.old < 1518 }
        ensures items { self.new.items ≡ self.old.items ++ big_bytes 1 number }
        ensures len { array_vec_len self.new ≡ array_vec_len self.old + 1 }
        ensures fits { number < 256 ^ 1 }
    {
        self.append(&[number]);
    }

    /// Appends a number of two octets. There must be room.
    #[inline(always)]
    pub(crate) fn append_u16(&mut self, number: u16)
        requires { array_vec_len self.old + 2 ≤ 1518 }
        ensures items { self.new.items ≡ self.old.items ++ big_bytes 2 number }
        ensures len { array_vec_len self.new ≡ array_vec_len self.old + 2 }
        ensures fits { number < 256 ^ 2 }
    {
        let mut octets = [0; 2];
        BigEndian::write_u16(&mut octets, number);
        self.append(&octets);
    }
}
