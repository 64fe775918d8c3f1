//! Lists of places in a cyclic frame, read without copying them.
ghost use Rattle.std.specs.Prelude.{◌≡◌, ◌+◌, ◌≤◌, ◌<◌, ◌++◌, List, ℕ, IfOk, length, slice_get, ◌==◌};
ghost use Rattle.arrayvec.specs.ArrayVec.{array_vec_len};
ghost use Rattle.wire.specs.Codec.{Gives};
ghost use Rattle.connect_blocks.specs.declared.io_object.IoObject.{IoObject};
ghost use Rattle.connect_blocks.specs.Objects.{next_object, io_objects, objects_in, AreObjects};

use crate::io_object::{IoObject, io_object_at, put_io_object};
use arrayvec::ArrayVec;
use std::marker::Model;
use wire::BlockFault;
use wire::blocks::{append_u16, u16_at};

/// The number of octets that a place takes.
const OBJECT_LEN: usize = 6;

/// A list of at most 256 places. It borrows them: from the octets that were read, or from a list to write.
#[derive(Drop)]
pub struct IoObjects<'a> {
    place: Place<'a>,
}

/// The memory that a list of places borrows.
#[derive(Drop)]
enum Place<'a> {
    /// The octets from the first place on, and the number of places.
    Octets(&'a [u8], usize),
    /// A list of places.
    Listed(&'a [IoObject]),
}

impl<'a> Model for IoObjects<'a> {
    ghost use Rattle.std.specs.Prelude.{List};
    ghost use Rattle.connect_blocks.specs.declared.io_object.IoObject.{IoObject};

    ghost Value = { List IoObject };

    ghost use Rattle.connect_blocks.specs.Places.{objects_at, IsPlace};

    ghost view = { λ inside. objects_at inside.place };

    ghost invariant = { λ inside. IsPlace inside.place };
}

impl<'a> IoObjects<'a> {
    /// The places of a list, borrowed.
    pub fn lent(list: &'a ArrayVec<IoObject, 256>) -> IoObjects<'a>
        ensures { result ≡ list.now.items }
    {
        IoObjects {
            place: Place::Listed(list.as_slice()),
        }
    }

    /// The number of places.
    pub fn len(&self) -> usize
        ensures len { result ≡ length self.now }
        ensures few { result ≤ 256 }
    {
        match self.place {
            Place::Octets(_, count) => count,
            Place::Listed(list) => list.len(),
        }
    }

    /// Whether the list is empty.
    pub fn is_empty(&self) -> bool
        ensures { result ≡ (length self.now == 0) }
    {
        self.len() == 0
    }

    /// The place with this index, counted from 0, or `None` if there are not that many.
    pub fn get(&self, index: usize) -> Option<IoObject>
        ensures { result ≡ slice_get self.now index }
    {
        if index < self.len() {
            Some(self.object(index))
        } else {
            None
        }
    }

    /// The place with this index, counted from 0. The list must have more places than `index`.
    pub(crate) fn object(&self, index: usize) -> IoObject
        requires { index < length self.now }
        ensures { slice_get self.now index ≡ Some result }
    {
        match self.place {
            Place::Octets(octets, count) => object_in(octets, count, index),
            Place::Listed(list) => list[index],
        }
    }
}

/// The place with this index, counted from 0, in octets that begin with more than `index` places.
fn object_in(octets: &[u8], count: usize, index: usize) -> IoObject
    requires read { AreObjects count octets.now }
    requires below { index < length (objects_in count octets.now) }
    requires few { length (objects_in count octets.now) ≤ 256 }
    ensures { slice_get (objects_in count octets.now) index ≡ Some result }
{
    // Only the clauses need the count; the program reads the place alone.
    let _count = count;
    let from = &octets[OBJECT_LEN * index..];
    match io_object_at(from) {
        Ok((object, _)) => object,
        Err(_) => unreachable!(),
    }
}

/// Reads a place that follows `before` others. At most 256 places are accepted.
#[tactic(auto, unfolding(crate::specs::Objects::next_object))]
fn next_object_at(bytes: &[u8], before: usize) -> Result<(IoObject, &[u8]), BlockFault>
    ensures read { (objects : List IoObject) → length objects ≡ before →
        Gives (λ x. (x.0, x.1.now)) result ((next_object objects).read bytes.now) }
    ensures room { IfOk result (λ _. before < 256) }
{
    let (object, rest) = io_object_at(bytes)?;
    if before < 256 {
        Ok((object, rest))
    } else {
        Err(BlockFault::Count)
    }
}

/// Reads a count of places and the places. Returns them and the rest.
#[tactic(auto, unfolding(crate::specs::Objects::io_objects))]
pub(crate) fn io_objects_at(bytes: &[u8]) -> Result<(IoObjects<'_>, &[u8]), BlockFault>
    ensures { Gives (λ x. (x.0, x.1.now)) result (io_objects.read bytes.now) }
{
    let (count, first) = u16_at(bytes)?;
    let mut rest = first;
    for index in 0..count as usize {
        let (_object, behind) = next_object_at(rest, index)?;
        rest = behind;
    }
    let place = Place::Octets(first, count as usize);
    Ok((IoObjects { place }, rest))
}

/// Appends the count of the places and the places. There must be room.
pub(crate) fn put_io_objects<const N: usize>(out: &mut ArrayVec<u8, N>, list: &IoObjects)
    requires { array_vec_len out.old + io_objects.size list.now ≤ N }
    ensures items { (tail : List ℕ) → out.new.items ++ tail ≡ out.old.items ++ io_objects.write list.now tail }
    ensures len { array_vec_len out.new ≡ array_vec_len out.old + io_objects.size list.now }
    ensures fits { io_objects.Fits list.now }
{
    append_u16(out, list.len() as u16);
    for index in 0..list.len() {
        put_io_object(out, &list.object(index));
    }
}

/// The number of octets that the count of the places and the places take.
#[tactic(auto, using(crate::proofs::Objects::list_size))]
pub(crate) fn io_objects_len(list: &IoObjects) -> usize
    ensures size { result ≡ io_objects.size list.now }
    ensures few { result ≤ 1538 }
{
    2 + OBJECT_LEN * list.len()
}
