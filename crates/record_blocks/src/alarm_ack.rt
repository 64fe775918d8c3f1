//! The acknowledgment of an alarm.
ghost use Rattle.std.specs.Prelude.{◌≡◌, ◌+◌, ◌≤◌, ◌++◌, List, ℕ};
ghost use Rattle.arrayvec.specs.ArrayVec.{array_vec_len};
ghost use Rattle.wire.specs.Codec.{Gives};
ghost use Rattle.wire.specs.blocks.Fields.{body};
ghost use Rattle.record_blocks.specs.AlarmAck.{alarm_ack};

use arrayvec::ArrayVec;
use wire::{BlockFault, len_fields, put_fields, read_body};

/// 0x8001: AlarmAck (IEC 61158-6-10, 5.2.6): acknowledges an alarm.
#[derive(Clone, Copy)]
pub struct AlarmAck {
    /// AlarmType.
    pub alarm_type: u16,
    /// API.
    pub api: u32,
    /// SlotNumber.
    pub slot_number: u16,
    /// SubslotNumber.
    pub subslot_number: u16,
    /// AlarmSpecifier.
    pub alarm_specifier: u16,
    /// PNIOStatus: ErrorCode, ErrorDecode, ErrorCode1 and ErrorCode2; 0 for no error.
    pub pnio_status: u32,
}

macro_rules! alarm_ack_fields {
    ($with:ident $args:tt) => {
        $with! { $args AlarmAck {
            alarm_type: u16,
            api: u32,
            slot_number: u16,
            subslot_number: u16,
            alarm_specifier: u16,
            pnio_status: u32,
        } }
    };
}

/// Reads the part of an AlarmAck that BlockLength counts: the version and the fields, to the last octet.
#[tactic(auto, unfolding(wire::specs::blocks::Fields::body, crate::specs::AlarmAck::alarm_ack))]
pub fn alarm_ack_at(bytes: &[u8]) -> Result<AlarmAck, BlockFault>
    ensures { Gives (λ x. x) result ((body alarm_ack).read bytes.now) }
{
    alarm_ack_fields!(read_body[bytes])
}

/// Appends the fields of an AlarmAck. There must be room.
#[tactic(auto, unfolding(crate::specs::AlarmAck::alarm_ack))]
pub fn put_alarm_ack<const N: usize>(out: &mut ArrayVec<u8, N>, value: &AlarmAck)
    requires { array_vec_len out.old + alarm_ack.size value.now ≤ N }
    ensures items { (tail : List ℕ) → out.new.items ++ tail ≡ out.old.items ++ alarm_ack.write value.now tail }
    ensures len { array_vec_len out.new ≡ array_vec_len out.old + alarm_ack.size value.now }
    ensures fits { alarm_ack.Fits value.now }
{
    alarm_ack_fields!(put_fields [out, value]);
}

/// The number of octets that the fields of an AlarmAck take.
#[tactic(auto, unfolding(crate::specs::AlarmAck::alarm_ack))]
pub fn alarm_ack_len(value: &AlarmAck) -> usize
    ensures size { result ≡ alarm_ack.size value.now }
    ensures few { result ≡ 16 }
{
    alarm_ack_fields!(len_fields[value])
}
