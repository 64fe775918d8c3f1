//! Writers of calls and responses.
ghost use Rattle.std.specs.Prelude.{◌≡◌, ◌+◌, ◌<◌, ◌≤◌, ◌++◌, [], List, ℕ, length, IsSome, IfSome, Some, Ok};
ghost use Rattle.arrayvec.specs.ArrayVec.{array_vec_len};
ghost use Rattle.rpc_core.specs.declared.fields.Order.TheVariants.{Big};
ghost use Rattle.rpc_core.specs.declared.interface.Interface.{Interface};
ghost use Rattle.rpc_core.specs.Interface.{interface_uuid};
ghost use Rattle.rpc_core.specs.Header.{opening, names, turn, extent, head, head_for};
ghost use Rattle.rpc_core.specs.Body.{counts, counts_of, status, body_size};
ghost use Rattle.rpc_core.specs.Call.{asked, IsCall, call_of, call_bytes};
ghost use Rattle.rpc_core.specs.Response.{answered, IsResponse, response_of, response_bytes};

use crate::call::REQUEST;
use crate::header::{Extent, Names, Opening, Turn};
use crate::pdu::Counts;
use crate::response::RESPONSE;
use crate::{Call, CallHeader, Response, Status};
use arrayvec::ArrayVec;
use wire::{append, append_u8, append_u16, append_u32};

/// A datagram that is sent: a header of 80 octets, five words, and at most 1,372 octets of blocks.
pub type Datagram = ArrayVec<u8, 1472>;

/// Appends version, packet type, flags and representation.
#[tactic(auto, unfolding(crate::specs::Header::opening))]
fn put_opening(out: &mut Datagram, value: &Opening)
    requires { array_vec_len out.old + 8 ≤ 1472 }
    ensures items { out.new.items ≡ out.old.items ++ opening.write value.now [] }
    ensures len { array_vec_len out.new ≡ array_vec_len out.old + 8 }
    ensures fits { opening.Fits value.now }
{
    append_u8(out, value.version);
    append_u8(out, value.packet_type);
    append_u8(out, value.flags);
    append(out, &[0]);
    append_u8(out, value.representation);
    append(out, &[0; 3]);
}

/// Appends object, interface and activity.
#[tactic(auto, unfolding(crate::specs::Header::names, crate::specs::Fields::uuid))]
fn put_names(out: &mut Datagram, value: &Names)
    requires { array_vec_len out.old + 48 ≤ 1472 }
    ensures items { out.new.items ≡ out.old.items ++ (names Big).write value.now [] }
    ensures len { array_vec_len out.new ≡ array_vec_len out.old + 48 }
    ensures fits { (names Big).Fits value.now }
{
    append(out, &value.object);
    append(out, &value.interface);
    append(out, &value.activity);
}

/// Appends boot time 0, interface version 1, the sequence number and the operation.
#[tactic(auto, unfolding(crate::specs::Header::turn, crate::specs::Fields::ordered))]
fn put_turn(out: &mut Datagram, value: &Turn)
    requires { array_vec_len out.old + 14 ≤ 1472 }
    ensures items { out.new.items ≡ out.old.items ++ (turn Big).write value.now [] }
    ensures len { array_vec_len out.new ≡ array_vec_len out.old + 14 }
    ensures fits { (turn Big).Fits value.now }
{
    append(out, &[0, 0, 0, 0, 0, 0, 0, 1]);
    append_u32(out, value.sequence);
    append_u16(out, value.operation);
}

/// Appends the hints, the body's length, the fragment's number and the authentication.
#[tactic(auto, unfolding(crate::specs::Header::extent, crate::specs::Fields::ordered))]
fn put_extent(out: &mut Datagram, value: &Extent)
    requires { array_vec_len out.old + 10 ≤ 1472 }
    ensures items { out.new.items ≡ out.old.items ++ (extent Big).write value.now [] }
    ensures len { array_vec_len out.new ≡ array_vec_len out.old + 10 }
    ensures fits { (extent Big).Fits value.now }
{
    // There is no hint of an interface or an activity: hints save a look-up that no station here makes.
    append(out, &[0xFF; 4]);
    append_u16(out, value.length);
    append_u16(out, value.fragment);
    append_u8(out, value.authentication);
    append(out, &[0]);
}

/// Appends the header before a body with `carried` octets of blocks.
fn put_head(out: &mut Datagram, packet_type: u8, flags: u8, header: &CallHeader, carried: usize)
    requires empty { out.old.items ≡ [] }
    requires room { carried ≤ 1372 }
    ensures items { out.new.items ≡ head.write (head_for packet_type flags header.now (body_size carried)) [] }
    ensures len { array_vec_len out.new ≡ 80 }
    ensures fits { head.Fits (head_for packet_type flags header.now (body_size carried)) }
{
    put_opening(
        out,
        &Opening {
            version: 4,
            packet_type,
            flags,
            representation: 0,
        },
    );
    put_names(
        out,
        &Names {
            object: header.object.into_bytes(),
            interface: header.interface.into_bytes(),
            activity: header.activity.into_bytes(),
        },
    );
    put_turn(
        out,
        &Turn {
            sequence: header.sequence,
            operation: header.operation,
        },
    );
    put_extent(
        out,
        &Extent {
            length: (20 + carried) as u16,
            fragment: 0,
            authentication: 0,
        },
    );
}

/// Appends the counts of the blocks.
#[tactic(auto, unfolding(crate::specs::Body::counts, crate::specs::Fields::ordered))]
fn put_counts(out: &mut Datagram, value: &Counts)
    requires { array_vec_len out.old + 16 ≤ 1472 }
    ensures items { out.new.items ≡ out.old.items ++ (counts Big).write value.now [] }
    ensures len { array_vec_len out.new ≡ array_vec_len out.old + 16 }
    ensures fits { (counts Big).Fits value.now }
{
    append_u32(out, value.length);
    append_u32(out, value.maximum);
    append_u32(out, value.offset);
    append_u32(out, value.actual);
}

/// Appends the counts of the blocks, and the blocks.
fn put_blocks(out: &mut Datagram, maximum: u32, blocks: &[u8])
    requires room { array_vec_len out.old + length blocks.now + 16 ≤ 1472 }
    ensures items { out.new.items ≡ (out.old.items
        ++ (counts Big).write (counts_of (record { maximum = maximum; blocks = Some blocks.now })) []) ++ blocks.now }
    ensures fits { (counts Big).Fits (counts_of (record { maximum = maximum; blocks = Some blocks.now })) }
{
    let length = blocks.len() as u32;
    put_counts(
        out,
        &Counts {
            length,
            maximum,
            offset: 0,
            actual: length,
        },
    );
    append(out, blocks);
}

/// Appends PNIOStatus.
#[tactic(auto, unfolding(crate::specs::Body::status))]
fn put_status(out: &mut Datagram, value: Status)
    requires { array_vec_len out.old + 4 ≤ 1472 }
    ensures items { out.new.items ≡ out.old.items ++ (status Big).write value [] }
    ensures len { array_vec_len out.new ≡ array_vec_len out.old + 4 }
    ensures fits { (status Big).Fits value }
{
    append_u8(out, value.code);
    append_u8(out, value.decode);
    append_u8(out, value.code1);
    append_u8(out, value.code2);
}

/// Writes a call into an empty datagram, in big endian.
pub fn write_request(call: &Call, datagram: &mut Datagram)
    // The datagram is empty.
    requires empty { datagram.old.items ≡ [] }
    // The call has blocks.
    requires whole { IsSome call.now.blocks }
    // The blocks have at most 1,372 octets.
    requires room { IfSome call.now.blocks (λ blocks. length blocks.now ≤ 1372) }
    // The octets are exactly those of the call, whichever interface is served.
    ensures exact { (interface : Interface) → datagram.new.items ≡ call_bytes interface (asked call.now) }
    // The octets spell the given call, to the interface that it names.
    ensures spelled { (interface : Interface) → call.now.header.interface ≡ interface_uuid interface →
        IsCall interface datagram.new.items (asked call.now) }
    // With anything after them, the octets are read as the given call.
    ensures behind { (interface : Interface) (more : List ℕ) → call.now.header.interface ≡ interface_uuid interface →
        call_of interface (datagram.new.items ++ more) ≡ Ok (asked call.now) }
{
    let blocks = call.blocks.unwrap_or(&[]);
    put_head(datagram, REQUEST, 0x20, &call.header, blocks.len());
    append_u32(datagram, call.args_maximum);
    put_blocks(datagram, call.args_maximum, blocks);
}

/// Writes a response into an empty datagram, in big endian.
pub fn write_response(response: &Response, datagram: &mut Datagram)
    // The datagram is empty.
    requires empty { datagram.old.items ≡ [] }
    // The blocks have at most 1,372 octets.
    requires room { length response.now.blocks.now ≤ 1372 }
    // The octets are exactly those of the response.
    ensures exact { datagram.new.items ≡ response_bytes (answered response.now) }
    // The octets spell the given response.
    ensures spelled { IsResponse datagram.new.items (answered response.now) }
    // With anything after them, the octets are read as the given response.
    ensures behind { (more : List ℕ) → response_of (datagram.new.items ++ more) ≡ Ok (answered response.now) }
{
    put_head(
        datagram,
        RESPONSE,
        0x0A,
        &response.header,
        response.blocks.len(),
    );
    put_status(datagram, response.status);
    put_blocks(datagram, response.maximum_count, response.blocks);
}
