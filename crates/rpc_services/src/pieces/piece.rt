//! Fragments: which octets are one, and what they carry.
ghost use Rattle.std.specs.Prelude.{◌≡◌, ◌≤◌, length, slice_index, IfSome};
ghost use Rattle.std.specs.Option.{option_map};
ghost use Rattle.rpc_services.specs.pieces.Piece.{asks as asks_by, is_activity as is_activity_by, is_concerned as is_concerned_by, is_fragment as is_fragment_by, is_last as is_last_by, is_piece as is_piece_by, is_same as is_same_by, packet_type_of, piece_of, serial_of};
ghost use Rattle.rpc_services.specs.pieces.Views.{piece_as};

use rpc_core::{Head, Interface, head_at, is_little, sent_uuid};
use wire::at_most;

/// What is joined of fragments.
#[derive(Clone, Copy, Debug, PartialEq, Eq)]
pub enum Kind {
    /// Calls to a device.
    Calls,
    /// Answers to the calls of a controller.
    Answers,
}

/// A fragment of a call or of an answer.
#[derive(Clone, Copy)]
pub(crate) struct Piece<'a> {
    pub(crate) head: Head,
    /// The serial number of the packet: it changes each time that the fragment is sent.
    pub(crate) serial: u16,
    pub(crate) octets: &'a [u8],
}

impl Kind {
    /// The packet type (C706, 12.5.2.2).
    fn packet_type(self) -> u8
        ensures { result ≡ packet_type_of self }
    {
        match self {
            Kind::Calls => 0,
            Kind::Answers => 2,
        }
    }

    /// Whether the interface is right: calls are those to the device.
    fn is_concerned(self, head: &Head) -> bool
        ensures { result ≡ is_concerned_by self head.now }
    {
        match self {
            Kind::Calls => {
                let little = is_little(head.opening.representation);
                head.names.interface == sent_uuid(little, Interface::Device.uuid())
            }
            Kind::Answers => true,
        }
    }

    /// Whether a packet is a fragment of this kind.
    fn is_piece(self, head: &Head, body: &[u8]) -> bool
        ensures { result ≡ is_piece_by self head.now body.now }
    {
        head.opening.representation / 16 < 2
            && head.extent.authentication == 0
            && head.opening.packet_type == self.packet_type()
            && is_fragment(head.opening.flags)
            && 1 <= head.extent.length
            && head.extent.length as usize <= body.len()
            && self.is_concerned(head)
    }

    /// Reads the body of a datagram as a fragment. `None` if it is not a fragment.
    #[tactic(auto, unfolding(crate::specs::pieces::Piece::piece_of))]
    pub(crate) fn read(self, bytes: &[u8]) -> Option<Piece<'_>>
        ensures value { option_map piece_as result ≡ piece_of self bytes.now }
        ensures some { IfSome result (λ piece. 1 ≤ length piece.octets.now) }
    {
        let Ok((head, body)) = head_at(bytes) else {
            return None;
        };
        if !self.is_piece(&head, body) {
            return None;
        }
        Some(Piece {
            head,
            serial: serial_in(bytes),
            octets: at_most(body, head.extent.length as usize),
        })
    }
}

/// The octet at an index, or 0.
fn octet_at(bytes: &[u8], index: usize) -> u8
    ensures { result ≡ slice_index bytes.now index }
{
    match bytes.get(index) {
        Some(octet) => *octet,
        None => 0,
    }
}

/// The serial number of a packet.
fn serial_in(bytes: &[u8]) -> u16
    ensures { result ≡ serial_of bytes.now }
{
    u16::from(octet_at(bytes, 7)) * 256 + u16::from(octet_at(bytes, 79))
}

/// Whether a packet is a fragment (C706, 12.5.2.3).
fn is_fragment(flags: u8) -> bool
    ensures { result ≡ is_fragment_by flags }
{
    flags / 4 % 2 == 1
}

/// Whether two headers are of one activity.
pub(crate) fn is_activity(head: &Head, other: &Head) -> bool
    ensures { result ≡ is_activity_by head.now other.now }
{
    head.names.activity == other.names.activity
}

/// Whether two headers are of one activity and sequence, in one byte order.
pub(crate) fn is_same(head: &Head, other: &Head) -> bool
    ensures { result ≡ is_same_by head.now other.now }
{
    is_activity(head, other)
        && head.turn.sequence == other.turn.sequence
        && head.opening.representation / 16 == other.opening.representation / 16
}

impl Piece<'_> {
    /// Whether it is the last fragment.
    pub(crate) fn is_last(&self) -> bool
        ensures { result ≡ is_last_by self.now.head.opening.flags }
    {
        self.head.opening.flags / 2 % 2 == 1
    }

    /// Whether its sender wants an acknowledgement.
    pub(crate) fn asks(&self) -> bool
        ensures { result ≡ asks_by self.now.head.opening.flags }
    {
        (self.head.opening.flags / 8).is_multiple_of(2)
    }
}
