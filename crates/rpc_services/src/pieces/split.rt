//! The fragments of a call or an answer that is longer than a datagram.
ghost use Rattle.std.specs.Prelude.{◌≡◌, ◌+◌, ◌-◌, ◌*◌, ◌<◌, ◌≤◌, ◌==◌, [], length};
ghost use Rattle.rpc_services.specs.pieces.Split.{carried as carried_by, flags_asking as flags_asking_by, flags_with as flags_with_by, piece_bytes, piece_head as piece_head_by, pieces_in as pieces_by};

use rpc_core::{Datagram, Extent, Head, Opening, put_head};
use wire::{append, at_most, skip};

/// How many octets of a body each fragment but the last one carries. It is a multiple of 8, as C706 wants it of each but the last.
const MOST_CARRIED: usize = 1392;

/// How many fragments a body of this length has.
pub fn pieces_in(length: usize) -> usize
    requires { length ≤ 4152 }
    ensures { result ≡ pieces_by length }
{
    length.div_ceil(MOST_CARRIED)
}

/// What the fragment of this number carries.
fn carried(number: u16, body: &[u8]) -> &[u8]
    requires { number < 4 }
    ensures value { result.now ≡ carried_by number body.now }
    ensures few { length result.now ≤ 1392 }
{
    at_most(skip(body, number as usize * MOST_CARRIED), MOST_CARRIED)
}

/// The flags of a packet whose sender wants acknowledgements, or does not.
fn flags_asking(wanted: bool, flags: u8) -> u8
    ensures value { result ≡ flags_asking_by wanted flags }
    ensures few { result ≤ 248 }
{
    let kept = flags / 16 * 16;
    if wanted { kept } else { kept + 8 }
}

/// The flags of a fragment.
fn flags_with(last: bool, flags: u8) -> u8
    requires { flags ≤ 248 }
    ensures { result ≡ flags_with_by last flags }
{
    if last { flags + 6 } else { flags + 4 }
}

/// The header of the fragment of this number.
fn piece_head(head: &Head, wanted: bool, number: u16, body: &[u8]) -> Head
    requires few { length body.now ≤ 4152 }
    requires there { number < pieces_by (length body.now) }
    ensures { result ≡ piece_head_by head.now wanted number body.now }
{
    let last = number as usize + 1 == pieces_in(body.len());
    Head {
        opening: Opening {
            flags: flags_with(last, flags_asking(wanted, head.opening.flags)),
            ..head.opening
        },
        extent: Extent {
            length: carried(number, body).len() as u16,
            fragment: number,
            authentication: 0,
        },
        ..*head
    }
}

/// Writes the fragment of this number of a call or an answer with this header and body into an empty datagram. `wanted` says
/// whether its receiver acknowledges it.
#[tactic(auto, unfolding(crate::specs::pieces::Split::piece_bytes))]
pub fn put_piece(head: &Head, wanted: bool, number: u16, body: &[u8], datagram: &mut Datagram)
    // The datagram is empty.
    requires empty { datagram.old.items ≡ [] }
    // The body is one that can be joined.
    requires few { length body.now ≤ 4152 }
    // It has such a fragment.
    requires there { number < pieces_by (length body.now) }
    // The octets are exactly those of the fragment.
    ensures exact { datagram.new.items ≡ piece_bytes head.now wanted number body.now }
{
    put_head(datagram, &piece_head(head, wanted, number, body));
    append(datagram, carried(number, body));
}
