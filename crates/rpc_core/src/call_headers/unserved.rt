//! Pings, and calls to unknown interfaces or operations (C706, 12.5 and appendix E).
ghost use Rattle.std.specs.Prelude.{◌≡◌};
ghost use Rattle.std.specs.Option.{option_map};
ghost use Rattle.rpc_core.specs.call_headers.Unserved.{answer_bytes, answer_head as answer_head_by, is_read as is_read_by, mapper_uuid, names_interface as names_interface_by, refusal_of, request_refusal, sent_uuid as sent_uuid_by, status_of, unserved_answer as unserved_answer_by};

use crate::call_headers::call::{
    Extent, Head, Names, Opening, head_at, is_little, put_head, put_long,
};
use crate::interface::Interface;
use arrayvec::ArrayVec;
use uuid::Uuid;

/// Why a request is rejected.
#[derive(Clone, Copy, Debug, PartialEq, Eq)]
pub enum Rejection {
    /// The interface has no such operation (`nca_op_rng_error`).
    Operation,
    /// Nobody serves the interface (`nca_unk_if`).
    Interface,
}

/// What answers a ping or a call that nobody serves.
#[derive(Clone, Copy, Debug, PartialEq, Eq)]
pub enum Refusal {
    /// No such call is executed: the answer to a ping.
    NoCall,
    /// The request is rejected.
    Reject(Rejection),
}

/// The answer to a call that nobody serves, as the body of a datagram.
pub type Refused = ArrayVec<u8, 84>;

/// The interface of the endpoint mapper: E1AF8308-5D1F-11C9-91A4-08002B14A0FA.
const MAPPER: [u8; 16] = [
    0xE1, 0xAF, 0x83, 0x08, 0x5D, 0x1F, 0x11, 0xC9, 0x91, 0xA4, 0x08, 0x00, 0x2B, 0x14, 0xA0, 0xFA,
];

impl Rejection {
    /// The status that is sent.
    pub(crate) fn status(self) -> u32
        ensures { result ≡ status_of self }
    {
        match self {
            Rejection::Operation => 0x1C01_0002,
            Rejection::Interface => 0x1C01_0003,
        }
    }
}

/// An identifier as it is sent.
pub fn sent_uuid(little: bool, uuid: Uuid) -> [u8; 16]
    ensures { result ≡ sent_uuid_by little uuid }
{
    match little {
        true => uuid.to_bytes_le(),
        false => uuid.into_bytes(),
    }
}

/// Whether a call names this interface.
fn names_interface(head: &Head, uuid: Uuid) -> bool
    ensures { result ≡ names_interface_by head.now uuid }
{
    head.names.interface == sent_uuid(is_little(head.opening.representation), uuid)
}

/// Whether a call names the interface of the endpoint mapper.
pub fn names_mapper(head: &Head) -> bool
    ensures { result ≡ names_interface_by head.now mapper_uuid }
{
    names_interface(head, Uuid::from_bytes(MAPPER))
}

/// Whether a call is read by its header: a known byte order, no authentication, no fragment, and a body that is present.
pub fn is_read(head: &Head, body: &[u8]) -> bool
    ensures { result ≡ is_read_by head.now body.now }
{
    head.opening.representation / 16 < 2
        && head.extent.authentication == 0
        && (head.opening.flags / 4).is_multiple_of(2)
        && head.extent.fragment == 0
        && head.extent.length as usize <= body.len()
}

/// What answers a request.
fn request_refusal_of(head: &Head) -> Option<Refusal>
    ensures { result ≡ request_refusal head.now }
{
    if names_interface(head, Interface::Device.uuid()) {
        // The device itself answers its operations 0 to 5.
        return if head.turn.operation > 5 {
            Some(Refusal::Reject(Rejection::Operation))
        } else {
            None
        };
    }
    if names_mapper(head) {
        None
    } else {
        Some(Refusal::Reject(Rejection::Interface))
    }
}

/// What answers a call that was read.
fn refused_by(head: &Head) -> Option<Refusal>
    ensures { result ≡ refusal_of head.now }
{
    match head.opening.packet_type {
        1 => Some(Refusal::NoCall),
        0 => request_refusal_of(head),
        _ => None,
    }
}

/// The header of an answer of this packet type before a body of this length, with the flags of a rejection.
pub fn answer_head(head: &Head, packet_type: u8, length: u16) -> Head
    ensures { result ≡ answer_head_by head.now packet_type length }
{
    let names = head.names;
    let turn = head.turn;
    Head {
        opening: Opening {
            packet_type,
            flags: 8,
            representation: head.opening.representation / 16 * 16,
        },
        names,
        turn,
        extent: Extent {
            length,
            fragment: 0,
            authentication: 0,
        },
    }
}

/// The answer that a refusal is.
#[tactic(auto, unfolding(crate::specs::call_headers::Unserved::answer_bytes))]
pub fn refusal_bytes(head: &Head, refusal: Refusal) -> Refused
    ensures { result.items ≡ answer_bytes head.now refusal }
{
    let mut out = Refused::new();
    match refusal {
        Refusal::NoCall => put_head(&mut out, &answer_head(head, 5, 0)),
        Refusal::Reject(rejection) => {
            put_head(&mut out, &answer_head(head, 6, 4));
            put_long(
                &mut out,
                is_little(head.opening.representation),
                rejection.status(),
            );
        }
    }
    out
}

/// The answer to the body of a datagram, if it is a ping or a call that nobody serves.
#[tactic(auto, unfolding(crate::specs::call_headers::Unserved::unserved_answer))]
pub fn unserved_answer(body: &[u8]) -> Option<Refused>
    // The octets of the answer are those of the definition.
    ensures { option_map (λ answer. answer.items) result ≡ unserved_answer_by body.now }
{
    let Ok((head, rest)) = head_at(body) else {
        return None;
    };
    if !is_read(&head, rest) {
        return None;
    }
    match refused_by(&head) {
        Some(refusal) => Some(refusal_bytes(&head, refusal)),
        None => None,
    }
}
