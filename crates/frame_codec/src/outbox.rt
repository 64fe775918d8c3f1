//! The frames that one event sends.
ghost use Rattle.std.specs.Prelude.{◌≡◌, ◌+◌, ◌<◌, ◌≤◌, ◌==◌, [], ◌∷◌, ◌++◌, length};
ghost use Rattle.arrayvec.specs.ArrayVec.{array_vec_len};
ghost use Rattle.frame_codec.specs.Meaning.{meaning_in, meaning_of};
ghost use Rattle.frame_codec.specs.Frame.{FitsFrame, IsReadBack, frame_bytes};

use crate::writing::{fill, fill_pieces};
use crate::{Frame, Layered, Pieces};
use std::marker::Model;

/// The frames that one event sends, at most four, in order. They are written in place, and their buffers are reused.
/// Clauses see it as an `ArrayVec` of frames.
#[derive(Drop)]
pub struct Outbox {
    frames: [Frame; 4],
    used: usize,
}

impl Model for Outbox {
    ghost use Rattle.std.specs.Prelude.{◌≡◌, ◌≤◌, ℕ, length, take};
    ghost use Rattle.arrayvec.specs.ArrayVec.{ArrayVec as Items};

    ghost Value = { Items (Items ℕ) };

    ghost view = { λ outbox. record { items = take outbox.used outbox.frames } };

    ghost invariant = { λ outbox. (length outbox.frames ≡ 4) × (outbox.used ≤ 4) };
}

impl Outbox {
    /// An empty outbox.
    pub fn new() -> Outbox
        ensures { result.items ≡ [] }
    {
        Outbox {
            frames: [Frame::new(), Frame::new(), Frame::new(), Frame::new()],
            used: 0,
        }
    }

    /// Removes all frames.
    pub fn clear(&mut self)
        ensures { self.new.items ≡ [] }
    {
        self.used = 0;
    }

    /// Whether the outbox is full: it holds four frames.
    pub fn is_full(&self) -> bool
        ensures { result ≡ (array_vec_len self.now == 4) }
    {
        self.used == 4
    }

    /// Whether there are no frames.
    pub fn is_empty(&self) -> bool
        ensures { result ≡ (array_vec_len self.now == 0) }
    {
        self.used == 0
    }

    /// The number of frames.
    pub fn len(&self) -> usize
        // The result is the number of frames.
        ensures value { result ≡ array_vec_len self.now }
        // There are at most four frames.
        ensures most { result ≤ 4 }
    {
        self.used
    }

    /// The frames, in order.
    pub fn as_slice(&self) -> &[Frame]
        // The result is the frames of the outbox.
        ensures value { result.now ≡ self.now.items }
        // There are at most four frames.
        ensures most { length result.now ≤ 4 }
    {
        &self.frames[..self.used]
    }

    /// Appends a frame, padded with zeros to at least 60 octets, the tag included.
    pub fn put(&mut self, layered: &Layered)
        requires room { array_vec_len self.old < 4 }
        // The content has at most 1,500 octets, including a FrameID or the headers of IPv4 and UDP.
        requires fits { FitsFrame (meaning_of layered.now) }
        // The earlier frames stay, and each octet of the new frame is given.
        ensures items { self.new.items ≡ self.old.items ++ record { items = frame_bytes (meaning_of layered.now) } ∷ [] }
        // The new frame is read back.
        ensures again { IsReadBack (meaning_of layered.now) }
        // There is one frame more.
        ensures len { array_vec_len self.new ≡ array_vec_len self.old + 1 }
    {
        let frame = &mut self.frames[self.used];
        frame.clear();
        fill(frame, layered);
        self.used += 1;
    }

    /// Appends a frame of EtherType 0x8892 with its body in two pieces, padded with zeros to at least 60 octets, the
    /// tag included.
    #[inline]
    pub fn put_pieces(&mut self, pieces: &Pieces)
        requires room { array_vec_len self.old < 4 }
        requires fits { FitsFrame (meaning_in pieces.now) }
        // The earlier frames stay, and each octet of the new frame is given.
        ensures items { self.new.items ≡ self.old.items ++ record { items = frame_bytes (meaning_in pieces.now) } ∷ [] }
        // The new frame is read back.
        ensures again { IsReadBack (meaning_in pieces.now) }
        // There is one frame more.
        ensures len { array_vec_len self.new ≡ array_vec_len self.old + 1 }
    {
        let written = &mut self.frames[self.used];
        written.clear();
        fill_pieces(written, pieces);
        self.used += 1;
    }

    /// Appends a copy of a frame.
    pub fn put_copy(&mut self, frame: &Frame)
        requires room { array_vec_len self.old < 4 }
        // The earlier frames stay, and the copy follows them.
        ensures items { self.new.items ≡ self.old.items ++ frame.now ∷ [] }
        // There is one frame more.
        ensures len { array_vec_len self.new ≡ array_vec_len self.old + 1 }
    {
        let place = &mut self.frames[self.used];
        place.copy(frame);
        self.used += 1;
    }
}
