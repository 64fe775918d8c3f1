//! Calls and answers of which fragments are missing.
ghost use Rattle.std.specs.Prelude.{◌≡◌, ◌+◌, ◌≤◌, ◌++◌, length, false, true};
ghost use Rattle.rpc_services.specs.pieces.State.{acknowledged as acknowledged_by, begun, blank, comes_next as comes_next_by, completes as completes_by, continued, holds as holds_by, is_next as is_next_by, is_of as is_of_by, is_unfinished as is_unfinished_by, older, starts, whole_bytes, whole_head};
ghost use Rattle.rpc_services.specs.pieces.Views.{piece_as};

use crate::pieces::joiner::{LONGEST, WholeCall};
use crate::pieces::piece::{Piece, is_activity, is_same};
use arrayvec::ArrayVec;
use rpc_core::{Extent, Head, Names, Opening, Turn, put_head};
use std::marker::Model;
use wire::append;

/// For how many ticks fragments may be missing: 2 seconds.
pub(crate) const LIFETIME: u32 = 64_000;

/// A call or an answer of which fragments are missing, or a place for one.
#[derive(Drop)]
pub(crate) struct Unfinished {
    head: Head,
    left: u32,
    // What follows this room is short, so that a place with nothing is made without a copy of the room, which is not written then. With `left` after
    // it, a station that starts took 17,000 octets of stack more.
    octets: ArrayVec<u8, 4152>,
    next: u16,
    is_whole: bool,
}

impl Model for Unfinished {
    ghost use Rattle.std.specs.Prelude.{◌≤◌, length};
    ghost use Rattle.rpc_services.specs.pieces.State.{Unfinished as Missing};

    ghost Value = { Missing };

    ghost view = { λ u. record { head = u.head; octets = u.octets.items; next = u.next; is_whole = u.is_whole; left = u.left } };

    ghost invariant = { λ u. (u.next ≤ length u.octets.items) × (length u.octets.items ≤ 4152) };
}

/// The header of a whole of this length.
fn whole_head(head: &Head, length: u16) -> Head
    ensures { result ≡ whole_head head.now length }
{
    Head {
        opening: Opening {
            flags: head.opening.flags / 8 * 8,
            ..head.opening
        },
        extent: Extent {
            length,
            fragment: 0,
            authentication: 0,
        },
        ..*head
    }
}

impl Unfinished {
    /// A place with nothing.
    pub(crate) fn blank() -> Unfinished
        ensures { result ≡ blank }
    {
        Unfinished {
            head: Head {
                opening: Opening {
                    packet_type: 0,
                    flags: 0,
                    representation: 0,
                },
                names: Names {
                    object: [0; 16],
                    interface: [0; 16],
                    activity: [0; 16],
                },
                turn: Turn {
                    version: [0; 4],
                    sequence: [0; 4],
                    operation: 0,
                },
                extent: Extent {
                    length: 0,
                    fragment: 0,
                    authentication: 0,
                },
            },
            octets: ArrayVec::new(),
            next: 0,
            is_whole: false,
            left: 0,
        }
    }

    /// In how many ticks it is dropped; 0 if nothing is here.
    pub(crate) fn left(&self) -> u32
        ensures { result ≡ self.now.left }
    {
        self.left
    }

    /// Whether there is a call here that is not finished.
    pub(crate) fn is_unfinished(&self) -> bool
        ensures { result ≡ is_unfinished_by self.now }
    {
        self.left > 0 && !self.is_whole
    }

    /// Whether it is of this activity.
    pub(crate) fn is_of(&self, head: &Head) -> bool
        ensures { result ≡ is_of_by head.now self.now }
    {
        self.left > 0 && is_activity(head, &self.head)
    }

    /// Whether it is this call.
    fn holds(&self, head: &Head) -> bool
        ensures { result ≡ holds_by head.now self.now }
    {
        self.left > 0 && is_same(head, &self.head)
    }

    /// Whether this fragment begins its call here.
    pub(crate) fn is_begun_by(&self, piece: &Piece<'_>) -> bool
        ensures { result ≡ starts self.now (piece_as piece.now) }
    {
        piece.head.extent.fragment == 0 && !self.holds(&piece.head)
    }

    /// A first fragment begins its call.
    pub(crate) fn begin(&mut self, piece: &Piece<'_>)
        ensures { self.new ≡ begun self.old (piece_as piece.now) }
    {
        if self.is_begun_by(piece) {
            self.head = piece.head;
            self.octets.clear();
            self.next = 0;
            self.is_whole = false;
            self.left = LIFETIME;
        }
    }

    /// Whether this fragment is the one that comes next.
    fn comes_next(&self, piece: &Piece<'_>) -> bool
        ensures { result ≡ comes_next_by self.now (piece_as piece.now) }
    {
        self.holds(&piece.head) && piece.head.extent.fragment == self.next
    }

    /// Whether this fragment is the one that comes next, and there is room for it.
    pub(crate) fn is_next(&self, piece: &Piece<'_>) -> bool
        ensures { result ≡ is_next_by self.now (piece_as piece.now) }
    {
        self.holds(&piece.head)
            && piece.head.extent.fragment == self.next
            && self.octets.len() + piece.octets.len() <= LONGEST
    }

    /// Whether this fragment completes the call.
    pub(crate) fn is_completed_by(&self, piece: &Piece<'_>) -> bool
        ensures value { result ≡ completes_by self.now (piece_as piece.now) }
    {
        self.is_next(piece) && piece.is_last()
    }

    /// A fragment that does not complete the call is joined if it comes next. If there is no room for it, the call is given up.
    pub(crate) fn go_on(&mut self, piece: &Piece<'_>)
        requires some { 1 ≤ length piece.now.octets.now }
        requires open { completes_by self.old (piece_as piece.now) ≡ false }
        ensures { self.new ≡ continued self.old (piece_as piece.now) }
    {
        if self.is_next(piece) {
            append(&mut self.octets, piece.octets);
            self.next += 1;
        } else if self.comes_next(piece) {
            self.left = 0;
        }
    }

    /// Finishes the call with its last fragment, and writes it.
    pub(crate) fn complete(&mut self, piece: &Piece<'_>, whole: &mut WholeCall)
        requires { completes_by self.old (piece_as piece.now) ≡ true }
        ensures state { self.new ≡ continued self.old (piece_as piece.now) }
        ensures whole { whole.new.items ≡ whole_bytes self.old.head (self.old.octets ++ piece.now.octets.now) }
    {
        self.put_whole(piece, whole);
        self.is_whole = true;
    }

    /// Writes the call that this fragment completes.
    fn put_whole(&self, piece: &Piece<'_>, whole: &mut WholeCall)
        requires { length self.now.octets + length piece.now.octets.now ≤ 4152 }
        ensures { whole.new.items ≡ whole_bytes self.now.head (self.now.octets ++ piece.now.octets.now) }
    {
        let length = (self.octets.len() + piece.octets.len()) as u16;
        whole.clear();
        put_head(whole, &whole_head(&self.head, length));
        append(whole, self.octets.as_slice());
        append(whole, piece.octets);
    }

    /// The number of the last fragment that is joined, if the sender wants to know it.
    pub(crate) fn acknowledged(&self, piece: &Piece<'_>) -> Option<u16>
        ensures { result ≡ acknowledged_by self.now (piece_as piece.now) }
    {
        if piece.asks() && self.holds(&piece.head) && self.next > 0 {
            Some(self.next - 1)
        } else {
            None
        }
    }

    /// It is older by some ticks.
    pub(crate) fn age(&mut self, ticks: u32)
        ensures { self.new ≡ older ticks self.old }
    {
        self.left = self.left.saturating_sub(ticks);
    }
}
