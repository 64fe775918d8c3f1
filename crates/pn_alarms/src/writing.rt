//! From PDUs to octets.
ghost use Rattle.std.specs.Prelude.{◌≡◌, ◌+◌, ◌≤◌, ◌<◌, ◌++◌, [], List, ℕ, length, true, Ok};
ghost use Rattle.wire.specs.Formats.{big_bytes};
ghost use Rattle.block_codec.specs.declared.block.Block.TheVariants.{AlarmNotification as notification};
ghost use Rattle.block_codec.specs.Block.{block_bytes};
ghost use Rattle.pn_alarms.specs.declared.pdu.PduType.TheVariants.{Data};
ghost use Rattle.pn_alarms.specs.Carried.{notification_of, alarm_pdu, block_pdu};
ghost use Rattle.pn_alarms.specs.Format.{said, is_long, header, IsPdu, pdu_of, pdu_bytes};

use crate::{Header, Pdu};
use block_codec::{AlarmNotification, notification_front};
use wire::join;

/// The octets from AlarmDstEndpoint to VarPartLen, which is `size`. They are built in one array: to join two arrays
/// would copy them.
#[tactic(auto, unfolding(crate::specs::Format::header, crate::specs::Format::kind))]
#[inline(always)]
fn header_octets(value: &Header, size: u16) -> [u8; 12]
    ensures items { result ≡ header.write value.now [] ++ big_bytes 2 size }
    ensures fits { header.Fits value.now }
{
    let destination = value.destination.to_be_bytes();
    let source = value.source.to_be_bytes();
    let kind = value.kind.octet();
    let flags = value.kind.flags();
    let send_number = value.send_number.to_be_bytes();
    let ack_number = value.ack_number.to_be_bytes();
    let size = size.to_be_bytes();
    [
        destination[0],
        destination[1],
        source[0],
        source[1],
        kind,
        flags,
        send_number[0],
        send_number[1],
        ack_number[0],
        ack_number[1],
        size[0],
        size[1],
    ]
}

/// Encodes a PDU, which follows the FrameID of a frame, up to its body. The caller appends the body.
#[inline(always)]
pub fn pdu_front(pdu: &Pdu) -> [u8; 12]
    // VarPartLen can count the octets of the body.
    requires few { length pdu.now.body.now < 65536 }
    // An ERR carries its PNIOStatus.
    requires long { is_long pdu.now.header.kind (length pdu.now.body.now) ≡ true }
    // These octets followed by the body are the encoding of the PDU.
    ensures exact { result ++ pdu.now.body.now ≡ pdu_bytes (said pdu.now) }
    ensures len { length result ≡ 12 }
    // The octets encode the PDU that was given.
    ensures spelled { IsPdu (pdu_bytes (said pdu.now)) (said pdu.now) }
    // Followed by any octets, they are read as this PDU.
    ensures behind { (more : List ℕ) → pdu_of (pdu_bytes (said pdu.now) ++ more) ≡ Ok (said pdu.now) }
{
    header_octets(&pdu.header, pdu.body.len() as u16)
}

/// Encodes data whose block has 28 octets and after them an alarm's own data, up to these. The caller appends them.
#[inline(always)]
pub fn data_front(header: &Header, front: &[u8; 28], octets: &[u8]) -> [u8; 40]
    requires kind { header.now.kind ≡ Data }
    requires few { length octets.now ≤ 32 }
    // These octets followed by the alarm's data are the encoding of the PDU.
    ensures exact { result ++ octets.now ≡ pdu_bytes (block_pdu header.now front.now octets.now) }
    ensures len { length result ≡ 40 }
    // Followed by any octets, they are read as this PDU.
    ensures behind { (more : List ℕ) → pdu_of (pdu_bytes (block_pdu header.now front.now octets.now) ++ more)
        ≡ Ok (block_pdu header.now front.now octets.now) }
{
    let size = 28 + octets.len() as u16;
    join(&header_octets(header, size), front)
}

/// Encodes data that carries an alarm, which follows the FrameID of a frame, up to the alarm's own data. The caller
/// appends the alarm's data.
#[inline(always)]
pub fn alarm_front(header: &Header, alarm: &AlarmNotification) -> [u8; 40]
    requires kind { header.now.kind ≡ Data }
    requires few { length alarm.now.alarm_data ≤ 32 }
    // These octets followed by the alarm's data are the encoding of the PDU.
    ensures exact { result ++ alarm.now.alarm_data ≡ pdu_bytes (alarm_pdu header.now alarm.now) }
    ensures len { length result ≡ 40 }
    // Followed by any octets, they are read as this PDU, and the block that it carries is read as the alarm.
    ensures behind { (more : List ℕ) → pdu_of (pdu_bytes (alarm_pdu header.now alarm.now) ++ more) ≡ Ok (alarm_pdu header.now alarm.now) }
    ensures carried { notification_of (alarm_pdu header.now alarm.now).body ≡ Ok alarm.now }
{
    let front = notification_front(alarm);
    data_front(header, &front, alarm.alarm_data.octets())
}
