//! The AlarmCRBlockRes of a device of any maker. `block_codec` reads that of a device with this product's profile alone,
//! whose LocalAlarmReference is 1 and whose MaxAlarmDataLength is 200.
ghost use Rattle.std.specs.Prelude.{◌≡◌, ◌+◌, ◌≤◌, ◌++◌, List, ℕ};
ghost use Rattle.arrayvec.specs.ArrayVec.{array_vec_len};
ghost use Rattle.wire.specs.Codec.{Gives};
ghost use Rattle.connects.specs.answers.AlarmRelation.{IsAlarmRelation, alarm_relation};

use arrayvec::ArrayVec;
use wire::{BlockFault, put_fields, read_fields};

/// 0x8103: AlarmCRBlockRes (IEC 61158-6-10, 5.2.4.8). AlarmCRType is written as 1 and ignored when read.
#[derive(Clone, Copy, Debug, PartialEq, Eq)]
pub struct AlarmRelation {
    /// LocalAlarmReference: the alarm endpoint of the device.
    pub local_alarm_reference: u16,
    /// MaxAlarmDataLength, 200 to 1,432 octets.
    pub max_alarm_data_length: u16,
}

macro_rules! alarm_relation_fields {
    ($with:ident $args:tt) => {
        $with! { $args AlarmRelation {
            _: fixed 0x8103 0,
            _: fixed 8 1,
            _: fixed_one 1 2,
            _: fixed_one 0 3,
            _: unchecked 1,
            local_alarm_reference: u16,
            max_alarm_data_length: ranged 200 1432 6,
        } }
    };
}

/// Reads the AlarmCRBlockRes at the start of the octets. Returns it and the rest.
#[tactic(auto, unfolding(crate::specs::answers::AlarmRelation::alarm_relation))]
pub(crate) fn alarm_relation_at(bytes: &[u8]) -> Result<(AlarmRelation, &[u8]), BlockFault>
    ensures { Gives (λ x. (x.0, x.1.now)) result (alarm_relation.read bytes.now) }
{
    alarm_relation_fields!(read_fields[bytes])
}

/// Appends an AlarmCRBlockRes. There must be room for its 12 octets.
#[tactic(auto, unfolding(crate::specs::answers::AlarmRelation::alarm_relation))]
pub fn put_alarm_relation<const N: usize>(out: &mut ArrayVec<u8, N>, value: &AlarmRelation)
    requires { array_vec_len out.old + 12 ≤ N }
    // The octets of the block are appended.
    ensures items { (tail : List ℕ) → out.new.items ++ tail ≡ out.old.items ++ alarm_relation.write value.now tail }
    // They are 12.
    ensures len { array_vec_len out.new ≡ array_vec_len out.old + 12 }
    // A block whose MaxAlarmDataLength is accepted can be read back.
    ensures fits { IsAlarmRelation value.now → alarm_relation.Fits value.now }
{
    alarm_relation_fields!(put_fields [out, value]);
}
