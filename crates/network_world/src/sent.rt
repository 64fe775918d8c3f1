//! All frames that were ever sent.
ghost use Rattle.std.specs.Prelude.{◌≡◌, ◌+◌, ◌≤◌, ◌++◌, ◌∷◌, [], length, option_map, slice_get, OnOk};
ghost use Rattle.std.specs.Option.{option_copied};
ghost use Rattle.std.specs.Vec.{vec_capacity, vec_len};
ghost use Rattle.network_world.specs.Sent.{octets_of};

use frame_codec::{Frame, Outbox};
use std::alloc::{AllocError, Global};
use std::marker::Model;

/// The maximum number of frames that one event sends.
const MOST_FRAMES: usize = 4;

/// All frames that were ever sent, in order. Clauses see their octets, and how many more there is room for.
#[derive(Drop)]
pub(crate) struct SentFrames {
    /// The opening frame of the controller. It is a field of its own so that it needs no memory.
    opening: Frame,
    /// The frames after it.
    others: Vec<Frame>,
}

impl Model for SentFrames {
    ghost use Rattle.std.specs.Prelude.{◌∷◌, ◌-◌};
    ghost use Rattle.std.specs.Vec.{vec_capacity, vec_len};
    ghost use Rattle.network_world.specs.Sent.{Sent, octets_of};

    ghost Value = { Sent };

    ghost view = { λ sent. record {
      frames = octets_of (sent.opening ∷ sent.others.items);
      room = vec_capacity sent.others - vec_len
          sent.others;
    } };
}

/// A copy of a frame.
fn copy_of(frame: &Frame) -> Frame
    ensures { result.items ≡ frame.now.items }
{
    let mut copy = Frame::new();
    copy.copy(frame);
    copy
}

/// Appends copies of frames. There must be room.
fn append(all: &mut Vec<Frame>, frames: &[Frame])
    requires room { vec_len all.old + length frames.now ≤ vec_capacity all.old }
    ensures { octets_of all.new.items ≡ octets_of all.old.items ++ octets_of frames.now }
{
    for frame in frames {
        let _ = all.push(copy_of(frame));
    }
}

/// The item at this index, if it exists.
fn item_at<T>(list: &[T], number: usize) -> Option<&T>
    ensures { option_copied result ≡ slice_get list.now number }
{
    if number < list.len() {
        Some(&list[number])
    } else {
        None
    }
}

impl SentFrames {
    /// The frames if only this one was sent.
    pub(crate) fn new(alloc: Global, opening: Frame) -> Self
        ensures { result.frames ≡ opening.items ∷ [] }
    {
        SentFrames {
            opening,
            others: Vec::new(alloc),
        }
    }

    /// The frame with this number, counted from 0, if it exists.
    pub(crate) fn at(&self, number: usize) -> Option<&Frame>
        ensures { option_map (λ frame. frame.now.items) result ≡ slice_get self.now.frames number }
    {
        if number == 0 {
            Some(&self.opening)
        } else {
            item_at(self.others.as_slice(), number - 1)
        }
    }

    /// Makes room for the frames that one event may send.
    pub(crate) fn make_room(&mut self) -> Result<(), AllocError>
        ensures same { self.new.frames ≡ self.old.frames }
        ensures room { OnOk result (4 ≤ self.new.room) }
    {
        self.others.reserve(MOST_FRAMES)
    }

    /// Appends the frames that an event sent. There must be room.
    pub(crate) fn keep(&mut self, outbox: &Outbox)
        requires room { 4 ≤ self.old.room }
        ensures { self.new.frames ≡ self.old.frames ++ octets_of outbox.now.items }
    {
        append(&mut self.others, outbox.as_slice());
    }
}
