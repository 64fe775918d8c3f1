//! The header of calls and of their answers (C706, 12.5), in either byte order.
ghost use Rattle.std.specs.Prelude.{◌≡◌, ◌+◌, ◌≤◌, [], ◌∷◌, ◌++◌};
ghost use Rattle.arrayvec.specs.ArrayVec.{array_vec_len};
ghost use Rattle.wire.specs.Codec.{Gives};
ghost use Rattle.wire.specs.Checks.{fixed};
ghost use Rattle.rpc_core.specs.Fields.{any};
ghost use Rattle.rpc_core.specs.call_headers.Call.{extent, head, in_order, is_little as is_little_by, names, opening, turn};

use crate::fault::RpcFault;
use arrayvec::ArrayVec;
use byteorder::{ByteOrder, LittleEndian};
use wire::{append, append_u8, append_u16, append_u32, octets_at, split, u8_at, u16_at};

/// Whether numbers are sent with the lowest octet first, by the first octet of the representation.
pub fn is_little(representation: u8) -> bool
    ensures { result ≡ is_little_by representation }
{
    representation / 16 == 1
}

/// The fields before the identifiers.
#[derive(Clone, Copy)]
pub struct Opening {
    pub packet_type: u8,
    pub flags: u8,
    /// The byte order and the character set; the others are ignored.
    pub representation: u8,
}

/// The identifiers, as their octets are sent.
#[derive(Clone, Copy)]
pub struct Names {
    pub object: [u8; 16],
    pub interface: [u8; 16],
    pub activity: [u8; 16],
}

/// The interface's version and the sequence number, as their octets are sent, and the operation.
#[derive(Clone, Copy)]
pub struct Turn {
    pub version: [u8; 4],
    pub sequence: [u8; 4],
    pub operation: u16,
}

/// The length and kind of what follows the header.
#[derive(Clone, Copy)]
pub struct Extent {
    pub length: u16,
    pub fragment: u16,
    pub authentication: u8,
}

/// All fields that are read of a header.
#[derive(Clone, Copy)]
pub struct Head {
    pub opening: Opening,
    pub names: Names,
    pub turn: Turn,
    pub extent: Extent,
}

/// The octets after `size` octets that are ignored.
fn any_at(bytes: &[u8], size: usize) -> Result<&[u8], RpcFault>
    ensures { Gives (λ x. (tt, x.now)) result ((any size []).read bytes.now) }
{
    let (_any, rest) = split(bytes, size, RpcFault::Short)?;
    Ok(rest)
}

/// The octets after the version, which must be 4.
fn version_at(bytes: &[u8]) -> Result<&[u8], RpcFault>
    ensures { Gives (λ x. (tt, x.now)) result ((fixed RpcFault.Version 1 4).read bytes.now) }
{
    let (version, rest) = u8_at(bytes, RpcFault::Version)?;
    if version != 4 {
        return Err(RpcFault::Version);
    }
    Ok(rest)
}

/// A number of two octets, and the octets after it.
#[tactic(auto, unfolding(crate::specs::call_headers::Call::in_order))]
fn number_at(little: bool, bytes: &[u8]) -> Result<(u16, &[u8]), RpcFault>
    ensures { Gives (λ x. (x.0, x.1.now)) result ((in_order little 2).read bytes.now) }
{
    match little {
        true => {
            let (octets, rest) = split(bytes, 2, RpcFault::Short)?;
            Ok((LittleEndian::read_u16(octets), rest))
        }
        false => u16_at(bytes, RpcFault::Short),
    }
}

/// Packet type, flags and representation, and the octets after them.
#[tactic(auto, unfolding(crate::specs::call_headers::Call::opening))]
fn opening_at(bytes: &[u8]) -> Result<(Opening, &[u8]), RpcFault>
    ensures { Gives (λ x. (x.0, x.1.now)) result (opening.read bytes.now) }
{
    let rest = version_at(bytes)?;
    let (packet_type, rest) = u8_at(rest, RpcFault::Short)?;
    let (flags, rest) = u8_at(rest, RpcFault::Short)?;
    let rest = any_at(rest, 1)?;
    let (representation, rest) = u8_at(rest, RpcFault::Short)?;
    let rest = any_at(rest, 3)?;
    Ok((
        Opening {
            packet_type,
            flags,
            representation,
        },
        rest,
    ))
}

/// Object, interface and activity, and the octets after them.
#[tactic(auto, unfolding(crate::specs::call_headers::Call::names))]
fn names_at(bytes: &[u8]) -> Result<(Names, &[u8]), RpcFault>
    ensures { Gives (λ x. (x.0, x.1.now)) result (names.read bytes.now) }
{
    let (object, rest) = octets_at::<16, RpcFault>(bytes, RpcFault::Short)?;
    let (interface, rest) = octets_at::<16, RpcFault>(rest, RpcFault::Short)?;
    let (activity, rest) = octets_at::<16, RpcFault>(rest, RpcFault::Short)?;
    Ok((
        Names {
            object,
            interface,
            activity,
        },
        rest,
    ))
}

/// The interface's version, sequence number and operation, and the octets after them.
#[tactic(auto, unfolding(crate::specs::call_headers::Call::turn))]
fn turn_at(little: bool, bytes: &[u8]) -> Result<(Turn, &[u8]), RpcFault>
    ensures { Gives (λ x. (x.0, x.1.now)) result ((turn little).read bytes.now) }
{
    let rest = any_at(bytes, 4)?;
    let (version, rest) = octets_at::<4, RpcFault>(rest, RpcFault::Short)?;
    let (sequence, rest) = octets_at::<4, RpcFault>(rest, RpcFault::Short)?;
    let (operation, rest) = number_at(little, rest)?;
    Ok((
        Turn {
            version,
            sequence,
            operation,
        },
        rest,
    ))
}

/// The body's length, the fragment's number and the authentication, and the octets after them.
#[tactic(auto, unfolding(crate::specs::call_headers::Call::extent))]
fn extent_at(little: bool, bytes: &[u8]) -> Result<(Extent, &[u8]), RpcFault>
    ensures { Gives (λ x. (x.0, x.1.now)) result ((extent little).read bytes.now) }
{
    let rest = any_at(bytes, 4)?;
    let (length, rest) = number_at(little, rest)?;
    let (fragment, rest) = number_at(little, rest)?;
    let (authentication, rest) = u8_at(rest, RpcFault::Short)?;
    let rest = any_at(rest, 1)?;
    Ok((
        Extent {
            length,
            fragment,
            authentication,
        },
        rest,
    ))
}

/// Reads the header of a call. Returns the octets after it too.
#[tactic(auto, unfolding(crate::specs::call_headers::Call::head))]
pub fn head_at(bytes: &[u8]) -> Result<(Head, &[u8]), RpcFault>
    ensures { Gives (λ x. (x.0, x.1.now)) result (head.read bytes.now) }
{
    let (opening, rest) = opening_at(bytes)?;
    let little = is_little(opening.representation);
    let (names, rest) = names_at(rest)?;
    let (turn, rest) = turn_at(little, rest)?;
    let (extent, rest) = extent_at(little, rest)?;
    Ok((
        Head {
            opening,
            names,
            turn,
            extent,
        },
        rest,
    ))
}

/// Appends a number of two octets, in this byte order.
#[tactic(auto, unfolding(crate::specs::call_headers::Call::in_order))]
pub fn put_short<const N: usize>(out: &mut ArrayVec<u8, N>, little: bool, number: u16)
    requires room { array_vec_len out.old + 2 ≤ N }
    ensures items { out.new.items ≡ out.old.items ++ (in_order little 2).write number [] }
    ensures len { array_vec_len out.new ≡ array_vec_len out.old + 2 }
{
    match little {
        true => {
            let mut octets = [0; 2];
            LittleEndian::write_u16(&mut octets, number);
            append(out, &octets);
        }
        false => append_u16(out, number),
    }
}

/// Appends a number of four octets, in this byte order.
#[tactic(auto, unfolding(crate::specs::call_headers::Call::in_order))]
pub fn put_long<const N: usize>(out: &mut ArrayVec<u8, N>, little: bool, number: u32)
    requires room { array_vec_len out.old + 4 ≤ N }
    ensures items { out.new.items ≡ out.old.items ++ (in_order little 4).write number [] }
    ensures len { array_vec_len out.new ≡ array_vec_len out.old + 4 }
{
    match little {
        true => {
            let mut octets = [0; 4];
            LittleEndian::write_u32(&mut octets, number);
            append(out, &octets);
        }
        false => append_u32(out, number),
    }
}

/// Appends the fields before the identifiers.
#[tactic(auto, unfolding(crate::specs::call_headers::Call::opening))]
fn put_opening<const N: usize>(out: &mut ArrayVec<u8, N>, value: &Opening)
    requires { array_vec_len out.old + 8 ≤ N }
    ensures items { out.new.items ≡ out.old.items ++ opening.write value.now [] }
    ensures len { array_vec_len out.new ≡ array_vec_len out.old + 8 }
{
    append_u8(out, 4);
    append_u8(out, value.packet_type);
    append_u8(out, value.flags);
    append_u8(out, 0);
    append_u8(out, value.representation);
    append(out, &[0; 3]);
}

/// Appends the identifiers.
#[tactic(auto, unfolding(crate::specs::call_headers::Call::names))]
fn put_names<const N: usize>(out: &mut ArrayVec<u8, N>, value: &Names)
    requires { array_vec_len out.old + 48 ≤ N }
    ensures items { out.new.items ≡ out.old.items ++ names.write value.now [] }
    ensures len { array_vec_len out.new ≡ array_vec_len out.old + 48 }
{
    append(out, &value.object);
    append(out, &value.interface);
    append(out, &value.activity);
}

/// Appends the interface's version, the sequence number and the operation.
#[tactic(auto, unfolding(crate::specs::call_headers::Call::turn))]
fn put_turn<const N: usize>(out: &mut ArrayVec<u8, N>, little: bool, value: &Turn)
    requires { array_vec_len out.old + 14 ≤ N }
    ensures items { out.new.items ≡ out.old.items ++ (turn little).write value.now [] }
    ensures len { array_vec_len out.new ≡ array_vec_len out.old + 14 }
{
    append(out, &[0; 4]);
    append(out, &value.version);
    append(out, &value.sequence);
    put_short(out, little, value.operation);
}

/// Appends the hints, the body's length, the fragment's number and the authentication.
#[tactic(auto, unfolding(crate::specs::call_headers::Call::extent))]
fn put_extent<const N: usize>(out: &mut ArrayVec<u8, N>, little: bool, value: &Extent)
    requires { array_vec_len out.old + 10 ≤ N }
    ensures items { out.new.items ≡ out.old.items ++ (extent little).write value.now [] }
    ensures len { array_vec_len out.new ≡ array_vec_len out.old + 10 }
{
    append(out, &[255; 4]);
    put_short(out, little, value.length);
    put_short(out, little, value.fragment);
    append_u8(out, value.authentication);
    append_u8(out, 0);
}

/// Appends a header, in the byte order of its representation.
#[tactic(auto, unfolding(crate::specs::call_headers::Call::head))]
pub fn put_head<const N: usize>(out: &mut ArrayVec<u8, N>, value: &Head)
    requires room { array_vec_len out.old + 80 ≤ N }
    ensures items { out.new.items ≡ out.old.items ++ head.write value.now [] }
    ensures len { array_vec_len out.new ≡ array_vec_len out.old + 80 }
{
    let little = is_little(value.opening.representation);
    put_opening(out, &value.opening);
    put_names(out, &value.names);
    put_turn(out, little, &value.turn);
    put_extent(out, little, &value.extent);
}
