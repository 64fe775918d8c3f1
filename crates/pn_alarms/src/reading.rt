//! From octets to PDUs, and to the blocks that PDUs carry.
ghost use Rattle.std.specs.Prelude.{◌≡◌, ◌<◌, ◌++◌, List, ℕ, IfOk, Ok, Err, length, true};
ghost use Rattle.wire.specs.Codec.{Gives};
ghost use Rattle.block_codec.specs.Block.{in_alarm_ack};
ghost use Rattle.record_blocks.specs.declared.alarm_ack.AlarmAck.{AlarmAck as Ack};
ghost use Rattle.pn_alarms.specs.Format.{Said, said, is_long, kind, header, pdu, IsPdu, pdu_of};
ghost use Rattle.pn_alarms.specs.Carried.{IsAck, ack_of, wanted};

use crate::{AlarmFault, Header, Pdu, PduType};
use block_codec::{AlarmAck, Block, BlockFault, read_alarm_ack, read_block};
use wire::{split, u8_at, u16_at};

/// The number of octets before the body of a PDU.
const FRONT: usize = 12;

/// Reads PDUType. Returns it and the octets after it.
#[tactic(auto, unfolding(crate::specs::Format::kind))]
fn kind_at(bytes: &[u8]) -> Result<(PduType, &[u8]), AlarmFault>
    ensures { Gives (λ x. (x.0, x.1.now)) result (kind.read bytes.now) }
{
    let (octet, rest) = u8_at(bytes, AlarmFault::Short)?;
    match PduType::of(octet) {
        Some(kind) => Ok((kind, rest)),
        None => Err(AlarmFault::Type),
    }
}

/// Reads the fields from AlarmDstEndpoint to AckSeqNum. Returns them and the octets after them. AddFlags is ignored.
#[tactic(auto, unfolding(crate::specs::Format::header))]
#[inline(always)]
fn header_at(bytes: &[u8]) -> Result<(Header, &[u8]), AlarmFault>
    ensures { Gives (λ x. (x.0, x.1.now)) result (header.read bytes.now) }
{
    let (destination, rest) = u16_at(bytes, AlarmFault::Short)?;
    let (source, rest) = u16_at(rest, AlarmFault::Short)?;
    let (kind, rest) = kind_at(rest)?;
    // AddFlags is ignored: only one window size exists, and data is always acknowledged.
    let (_flags, rest) = u8_at(rest, AlarmFault::Short)?;
    let (send_number, rest) = u16_at(rest, AlarmFault::Short)?;
    let (ack_number, rest) = u16_at(rest, AlarmFault::Short)?;
    Ok((
        Header {
            destination,
            source,
            kind,
            send_number,
            ack_number,
        },
        rest,
    ))
}

/// The fault of octets that are too few for a PDU: the fault of its header, or that VarPartLen is incomplete.
#[inline(never)]
fn short_fault(bytes: &[u8]) -> AlarmFault
    requires { length bytes.now < 12 }
    ensures { pdu_of bytes.now ≡ Err result }
{
    match header_at(bytes) {
        Ok(_) => AlarmFault::Short,
        Err(fault) => fault,
    }
}

#[tactic(auto, unfolding(crate::specs::Format::pdu_of, crate::specs::Format::pdu))]
fn pdu_in(bytes: &[u8]) -> Result<Pdu<'_>, AlarmFault>
    ensures exact { Gives said result (pdu_of bytes.now) }
    ensures long { IfOk result (λ pdu. is_long pdu.header.kind (length pdu.body.now) ≡ true) }
{
    // The length is checked once: after this no field before the body can be missing.
    if bytes.len() < FRONT {
        return Err(short_fault(bytes));
    }
    let (header, rest) = header_at(bytes)?;
    let (size, rest) = u16_at(rest, AlarmFault::Short)?;
    let (body, _behind) = split(rest, size as usize, AlarmFault::Short)?;
    if !header.kind.is_long(body.len()) {
        return Err(AlarmFault::Cause);
    }
    Ok(Pdu { header, body })
}

/// Reads a PDU from the octets that follow the FrameID of a frame. The octets after those that VarPartLen counts are
/// padding and are ignored. If there are several faults, the leftmost is returned.
pub fn read_pdu(bytes: &[u8]) -> Result<Pdu<'_>, AlarmFault>
    // If a value is read, the octets encode that value.
    ensures found { IfOk result (λ found. IsPdu bytes.now (said found)) }
    // Octets that encode a value are read as that value, and as no other.
    ensures only { (meaning : Said) → IsPdu bytes.now meaning → Gives said result (Ok meaning) }
    // Octets that encode a value, followed by any others, are read as that value.
    ensures behind { (first more : List ℕ) (meaning : Said) → IsPdu first meaning → bytes.now ≡ first ++ more →
        Gives said result (Ok meaning) }
    // The result is the PDU or the fault that the format defines for these octets.
    ensures exact { Gives said result (pdu_of bytes.now) }
    // The body is long enough for the type.
    ensures long { IfOk result (λ pdu. is_long pdu.header.kind (length pdu.body.now) ≡ true) }
{
    pdu_in(bytes)
}

/// The AlarmAck, if the block that was read is one.
fn ack_in(read: Result<(Block<'_>, &[u8]), BlockFault>) -> Result<AlarmAck, AlarmFault>
    ensures { result ≡ wanted in_alarm_ack read.entry }
{
    let Ok((block, _behind)) = read else {
        return Err(AlarmFault::Block);
    };
    match block {
        Block::AlarmAck(ack) => Ok(ack),
        _ => Err(AlarmFault::Block),
    }
}

/// Reads the AlarmAck from octets that do not begin with the BlockType of one.
#[inline(never)]
fn other_ack(body: &[u8]) -> Result<AlarmAck, AlarmFault>
    ensures found { IfOk result (λ found. IsAck body.now found) }
    ensures only { (meaning : Ack) → IsAck body.now meaning → result ≡ Ok meaning }
    ensures exact { result ≡ ack_of body.now }
{
    ack_in(read_block(body))
}

/// Reads the AlarmAck that data carries to a device. Octets after the block are ignored. It has its own reader because
/// each alarm brings one.
pub fn read_ack(body: &[u8]) -> Result<AlarmAck, AlarmFault>
    // If a value is read, the octets encode that value.
    ensures found { IfOk result (λ found. IsAck body.now found) }
    // Octets that encode a value are read as that value, and as no other.
    ensures only { (meaning : Ack) → IsAck body.now meaning → result ≡ Ok meaning }
    // The result is the block or the fault that the format defines for these octets.
    ensures exact { result ≡ ack_of body.now }
{
    let Ok((0x8001, _)) = u16_at(body, BlockFault::Truncated) else {
        return other_ack(body);
    };
    match read_alarm_ack(body) {
        Ok((ack, _)) => Ok(ack),
        Err(_) => Err(AlarmFault::Block),
    }
}
