//! An alarm.
ghost use Rattle.std.specs.Prelude.{◌≡◌, ◌+◌, ◌≤◌, ◌++◌, [], List, ℕ, length, IfOk};
ghost use Rattle.arrayvec.specs.ArrayVec.{array_vec_len};
ghost use Rattle.wire.specs.Codec.{Gives};
ghost use Rattle.wire.specs.blocks.Fields.{open_body};
ghost use Rattle.record_blocks.specs.AlarmNotification.{alarm_notification, alarm_place, alarm_subject};

use crate::AlarmData;
use crate::alarm_data::{alarm_data_len, put_alarm_data};
use arrayvec::ArrayVec;
use wire::{BlockFault, append, join, len_fields, read_fields, version_at};

/// 0x0001: AlarmNotification (IEC 61158-6-10, 5.2.5): reports an event of a submodule. UserStructureIdentifier is 1.
#[derive(Drop)]
pub struct AlarmNotification<'a> {
    /// AlarmType.
    pub alarm_type: u16,
    /// API.
    pub api: u32,
    /// SlotNumber.
    pub slot_number: u16,
    /// SubslotNumber.
    pub subslot_number: u16,
    /// ModuleIdentNumber.
    pub module_ident_number: u32,
    /// SubmoduleIdentNumber.
    pub submodule_ident_number: u32,
    /// AlarmSpecifier.
    pub alarm_specifier: u16,
    /// The octets after UserStructureIdentifier, to the end of the block.
    pub alarm_data: AlarmData<'a>,
}

/// The type of the alarm, and its submodule.
#[derive(Clone, Copy)]
struct AlarmPlace {
    alarm_type: u16,
    api: u32,
    slot_number: u16,
    subslot_number: u16,
}

macro_rules! alarm_place_fields {
    ($with:ident $args:tt) => {
        $with! { $args AlarmPlace {
            alarm_type: u16,
            api: u32,
            slot_number: u16,
            subslot_number: u16,
        } }
    };
}

/// The module and submodule that are plugged there, and the AlarmSpecifier.
#[derive(Clone, Copy)]
struct AlarmSubject {
    module_ident_number: u32,
    submodule_ident_number: u32,
    alarm_specifier: u16,
}

macro_rules! alarm_subject_fields {
    ($with:ident $args:tt) => {
        $with! { $args AlarmSubject {
            module_ident_number: u32,
            submodule_ident_number: u32,
            alarm_specifier: u16,
            _: fixed 1 11,
        } }
    };
}

/// Reads the fields from AlarmType to SubslotNumber. Returns them and the rest.
#[tactic(auto, using(wire::proofs::BlocksLeft::number_left), unfolding(crate::specs::AlarmNotification::alarm_place))]
fn alarm_place_at(bytes: &[u8]) -> Result<(AlarmPlace, &[u8]), BlockFault>
    ensures read { Gives (λ x. (x.0, x.1.now)) result (alarm_place.read bytes.now) }
    ensures left { IfOk result (λ x. length bytes.now ≡ 10 + length x.1.now) }
{
    alarm_place_fields!(read_fields[bytes])
}

/// Reads the fields from ModuleIdentNumber to UserStructureIdentifier. Returns them and the rest.
#[tactic(auto, using(wire::proofs::BlocksLeft::number_left, wire::proofs::BlocksLeft::fixed_left), unfolding(crate::specs::AlarmNotification::alarm_subject))]
fn alarm_subject_at(bytes: &[u8]) -> Result<(AlarmSubject, &[u8]), BlockFault>
    ensures read { Gives (λ x. (x.0, x.1.now)) result (alarm_subject.read bytes.now) }
    ensures left { IfOk result (λ x. length bytes.now ≡ 12 + length x.1.now) }
{
    alarm_subject_fields!(read_fields[bytes])
}

/// Reads the part of an AlarmNotification that BlockLength counts, to the last octet. There are at most 65,535 octets.
#[tactic(auto, using(wire::proofs::BlocksLeft::version_left), unfolding(wire::specs::blocks::Fields::open_body, crate::specs::AlarmNotification::alarm_notification))]
pub fn alarm_notification_at(bytes: &[u8]) -> Result<AlarmNotification<'_>, BlockFault>
    requires { length bytes.now ≤ 65535 }
    ensures { Gives (λ x. x) result ((open_body alarm_notification).read bytes.now) }
{
    let rest = version_at(bytes)?;
    let (place, rest) = alarm_place_at(rest)?;
    let (subject, rest) = alarm_subject_at(rest)?;
    Ok(AlarmNotification {
        alarm_type: place.alarm_type,
        api: place.api,
        slot_number: place.slot_number,
        subslot_number: place.subslot_number,
        module_ident_number: subject.module_ident_number,
        submodule_ident_number: subject.submodule_ident_number,
        alarm_specifier: subject.alarm_specifier,
        alarm_data: AlarmData::new(rest),
    })
}

/// The octets from AlarmType to SubslotNumber.
#[tactic(auto, unfolding(wire::specs::blocks::Fields::number_bytes, crate::specs::AlarmNotification::alarm_place))]
#[inline(always)]
fn place_octets(place: &AlarmPlace) -> [u8; 10]
    ensures items { result ≡ alarm_place.write place.now [] }
    ensures fits { alarm_place.Fits place.now }
{
    let kind = place.alarm_type.to_be_bytes();
    let api = place.api.to_be_bytes();
    let slot = place.slot_number.to_be_bytes();
    let subslot = place.subslot_number.to_be_bytes();
    [
        kind[0], kind[1], api[0], api[1], api[2], api[3], slot[0], slot[1], subslot[0], subslot[1],
    ]
}

/// The octets from ModuleIdentNumber to UserStructureIdentifier.
#[tactic(auto, unfolding(wire::specs::blocks::Fields::number_bytes, crate::specs::AlarmNotification::alarm_subject))]
#[inline(always)]
fn subject_octets(subject: &AlarmSubject) -> [u8; 12]
    ensures items { result ≡ alarm_subject.write subject.now [] }
    ensures fits { alarm_subject.Fits subject.now }
{
    let module = subject.module_ident_number.to_be_bytes();
    let submodule = subject.submodule_ident_number.to_be_bytes();
    let specifier = subject.alarm_specifier.to_be_bytes();
    [
        module[0],
        module[1],
        module[2],
        module[3],
        submodule[0],
        submodule[1],
        submodule[2],
        submodule[3],
        specifier[0],
        specifier[1],
        0,
        1,
    ]
}

/// The octets of the fields of an AlarmNotification before its data.
#[inline(always)]
pub fn alarm_front(value: &AlarmNotification) -> [u8; 22]
    // The octets followed by the data are all fields of the block.
    ensures items { result ++ value.now.alarm_data ≡ alarm_notification.write value.now }
    ensures fits { alarm_notification.Fits value.now }
{
    let place = AlarmPlace {
        alarm_type: value.alarm_type,
        api: value.api,
        slot_number: value.slot_number,
        subslot_number: value.subslot_number,
    };
    let subject = AlarmSubject {
        module_ident_number: value.module_ident_number,
        submodule_ident_number: value.submodule_ident_number,
        alarm_specifier: value.alarm_specifier,
    };
    join(&place_octets(&place), &subject_octets(&subject))
}

/// Appends the fields of an AlarmNotification. There must be room.
#[tactic(auto, unfolding(crate::specs::AlarmNotification::alarm_notification, crate::specs::AlarmNotification::alarm_place, crate::specs::AlarmNotification::alarm_subject))]
pub fn put_alarm_notification<const N: usize>(out: &mut ArrayVec<u8, N>, value: &AlarmNotification)
    requires { array_vec_len out.old + alarm_notification.size value.now ≤ N }
    ensures items { out.new.items ≡ out.old.items ++ alarm_notification.write value.now }
    ensures len { array_vec_len out.new ≡ array_vec_len out.old + alarm_notification.size value.now }
    ensures fits { alarm_notification.Fits value.now }
{
    append(out, &alarm_front(value));
    put_alarm_data(out, &value.alarm_data);
}

/// The number of octets that the fields of an AlarmNotification take.
#[tactic(auto, unfolding(crate::specs::AlarmNotification::alarm_notification, crate::specs::AlarmNotification::alarm_place, crate::specs::AlarmNotification::alarm_subject))]
pub fn alarm_notification_len(value: &AlarmNotification) -> usize
    ensures size { result ≡ alarm_notification.size value.now }
    ensures few { result ≤ 65533 }
{
    let place = alarm_place_fields!(len_fields[value]);
    let subject = alarm_subject_fields!(len_fields[value]);
    place + subject + alarm_data_len(&value.alarm_data)
}
