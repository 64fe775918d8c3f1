//! Acknowledgements of fragments (C706, 12.5.3.4).
ghost use Rattle.std.specs.Prelude.{◌≡◌};
ghost use Rattle.rpc_services.specs.pieces.State.{fack_bytes, fack_head};
ghost use Rattle.rpc_services.specs.pieces.Views.{piece_as};

use crate::pieces::piece::Piece;
use arrayvec::ArrayVec;
use rpc_core::{Extent, Head, answer_head, is_little, put_head, put_long, put_short};
use wire::append;

/// The acknowledgement of fragments, as the body of a datagram.
pub type Acknowledgement = ArrayVec<u8, 96>;

/// The packet type of an acknowledgement (C706, 12.5.2.2).
const FACK: u8 = 9;

/// The longest datagram that is read.
const DATAGRAM: u32 = 1472;

/// The header of the acknowledgement of fragments up to this number.
fn fack_head(head: &Head, number: u16) -> Head
    ensures { result ≡ fack_head head.now number }
{
    Head {
        extent: Extent {
            length: 16,
            fragment: number,
            authentication: 0,
        },
        ..answer_head(head, FACK, 16)
    }
}

/// The acknowledgement of fragments up to this number, to the sender of this one.
pub(crate) fn acknowledgement(piece: &Piece<'_>, number: u16) -> Acknowledgement
    ensures { result.items ≡ fack_bytes (piece_as piece.now) number }
{
    let little = is_little(piece.head.opening.representation);
    let mut out = Acknowledgement::new();
    put_head(&mut out, &fack_head(&piece.head, number));
    append(&mut out, &[0, 0]);
    put_short(&mut out, little, 4);
    put_long(&mut out, little, DATAGRAM);
    put_long(&mut out, little, DATAGRAM);
    put_short(&mut out, little, piece.serial);
    put_short(&mut out, little, 0);
    out
}
