//! The answers of the endpoint mapper to the bodies of datagrams.
ghost use Rattle.std.specs.Prelude.{◌≡◌, Some, IfSome, ◌≤◌, length};
ghost use Rattle.services.specs.Answer.{frame_in};
ghost use Rattle.rpc_core.specs.call_headers.Unserved.{answer_bytes};
ghost use Rattle.rpc_core.specs.declared.call_headers.unserved.Rejection.TheVariants.{Operation};
ghost use Rattle.rpc_core.specs.declared.call_headers.unserved.Refusal.TheVariants.{Reject};
ghost use Rattle.rpc_services.specs.endpoint_mapper.Entry.{freed};
ghost use Rattle.rpc_services.specs.endpoint_mapper.Mapper.{is_mapped as is_mapped_by, lookup_answer, lookup_bytes, low_first, mapped, operation_answer, response, response_head};
ghost use Rattle.rpc_services.specs.endpoint_mapper.Lookup.{lookup};

use crate::endpoint_mapper::lookup::{Lookup, has_entry, lookup_at};
use crate::endpoint_mapper::writing::{put_ended, put_found, put_freed};
use arrayvec::ArrayVec;
use pn_values::Identity;
use rpc_core::{
    Head, Opening, Refusal, Rejection, answer_head, head_at, is_little, is_read, names_mapper,
    put_head, refusal_bytes,
};
use wire::{append, at_most};

/// The answer of the endpoint mapper, as the body of a datagram.
pub type MapperAnswer = ArrayVec<u8, 296>;

/// The operation of a lookup.
const LOOKUP: u16 = 2;

/// The operation that frees a handle.
const HANDLE_FREE: u16 = 4;

/// Whether numbers of a call and of its answer are sent with the lowest octet first.
fn low_first(head: &Head) -> bool
    ensures { result ≡ low_first head.now }
{
    is_little(head.opening.representation)
}

/// The header of a response before a body of this length.
fn response_head(head: &Head, length: u16) -> Head
    ensures { result ≡ response_head head.now length }
{
    let answer = answer_head(head, 2, length);
    Head {
        opening: Opening {
            flags: 10,
            ..answer.opening
        },
        ..answer
    }
}

/// The answer to a lookup.
fn lookup_bytes(identity: &Identity, address: [u8; 4], head: &Head, asked: &Lookup) -> MapperAnswer
    ensures { result.items ≡ lookup_bytes identity.now address head.now asked.now }
{
    let little = low_first(head);
    let mut out = MapperAnswer::new();
    if has_entry(asked) {
        put_head(&mut out, &response_head(head, 216));
        put_found(&mut out, little, identity, address, asked.most);
    } else {
        put_head(&mut out, &response_head(head, 40));
        put_ended(&mut out, little, asked.most);
    }
    out
}

/// The answer to a handle that is freed.
fn freed_bytes(head: &Head) -> MapperAnswer
    ensures { result.items ≡ response head.now 24 (freed (low_first head.now)) }
{
    let mut out = MapperAnswer::new();
    put_head(&mut out, &response_head(head, 24));
    put_freed(&mut out, low_first(head));
    out
}

/// The answer to another operation.
fn rejected_bytes(head: &Head) -> MapperAnswer
    ensures { result.items ≡ answer_bytes head.now (Reject Operation) }
{
    let mut out = MapperAnswer::new();
    let rejection = refusal_bytes(head, Refusal::Reject(Rejection::Operation));
    append(&mut out, rejection.as_slice());
    out
}

/// The answer to a request of this operation with this body.
fn operation_answer(
    identity: &Identity,
    address: [u8; 4],
    head: &Head,
    body: &[u8],
) -> Option<MapperAnswer>
    ensures { frame_in result ≡ operation_answer identity.now address head.now body.now }
{
    match head.turn.operation {
        LOOKUP => match lookup_at(low_first(head), body) {
            Ok((asked, _)) => Some(lookup_bytes(identity, address, head, &asked)),
            Err(_) => None,
        },
        HANDLE_FREE => Some(freed_bytes(head)),
        _ => Some(rejected_bytes(head)),
    }
}

/// Whether a call is a request to the endpoint mapper.
fn is_mapped(head: &Head, body: &[u8]) -> bool
    ensures { result ≡ is_mapped_by head.now body.now }
{
    is_read(head, body) && head.opening.packet_type == 0 && names_mapper(head)
}

/// The answer to the body of a datagram to a device with this address, if it is a request to the endpoint mapper.
#[tactic(auto, unfolding(crate::specs::endpoint_mapper::Mapper::mapped))]
pub fn mapped(identity: &Identity, address: [u8; 4], body: &[u8]) -> Option<MapperAnswer>
    // A lookup that begins and has room gets the entry, any other one that can be read its end, a handle is freed, and
    // another operation is rejected. The octets of each answer are given, in the caller's byte order.
    ensures { frame_in result ≡ mapped identity.now address body.now }
{
    let Ok((head, rest)) = head_at(body) else {
        return None;
    };
    if !is_mapped(&head, rest) {
        return None;
    }
    operation_answer(
        identity,
        address,
        &head,
        at_most(rest, head.extent.length as usize),
    )
}
