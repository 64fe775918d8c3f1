//! The alarms of low priority that a device of this product sends.
ghost use Rattle.std.specs.Prelude.{◌≡◌, ◌≤◌, ◌++◌, [], List, ℕ, length, Ok};
ghost use Rattle.pn_alarms.specs.declared.pdu.PduType.TheVariants.{Data};
ghost use Rattle.pn_alarms.specs.Format.{pdu_of, pdu_bytes};
ghost use Rattle.arrayvec.specs.ArrayVec.{array_vec_len};
ghost use Rattle.diagnosis.specs.reports.Report.{bare, bare_pdu, diagnosed, diagnosis_pdu, low_pdu, low_report, report, report_of};

use arrayvec::ArrayVec;
use block_codec::AlarmNotification;
use pn_alarms::{Header, Pdu, data_front, pdu_front};

/// The octets of an alarm of low priority with the UserStructureIdentifier 0x8000, up to its data.
#[tactic(auto, unfolding(wire::specs::blocks::Fields::number_bytes, wire::specs::blocks::Fields::open_body, wire::specs::blocks::Fields::version, crate::specs::reports::Report::block_priority, crate::specs::reports::Report::front, crate::specs::reports::Report::payload, crate::specs::reports::Report::report, crate::specs::reports::Report::report_fields))]
fn low_front(alarm: &AlarmNotification) -> [u8; 28]
    requires { length alarm.now.alarm_data ≤ 32 }
    ensures items { result ++ alarm.now.alarm_data ≡ report.write (diagnosed alarm.now) [] }
    ensures len { length result ≡ 28 }
    ensures fits { report.Fits (diagnosed alarm.now) }
{
    let size = (24 + alarm.alarm_data.octets().len() as u16).to_be_bytes();
    let kind = alarm.alarm_type.to_be_bytes();
    let api = alarm.api.to_be_bytes();
    let slot = alarm.slot_number.to_be_bytes();
    let subslot = alarm.subslot_number.to_be_bytes();
    let module = alarm.module_ident_number.to_be_bytes();
    let submodule = alarm.submodule_ident_number.to_be_bytes();
    let specifier = alarm.alarm_specifier.to_be_bytes();
    [
        0x00,
        0x02,
        size[0],
        size[1],
        1,
        0,
        kind[0],
        kind[1],
        api[0],
        api[1],
        api[2],
        api[3],
        slot[0],
        slot[1],
        subslot[0],
        subslot[1],
        module[0],
        module[1],
        module[2],
        module[3],
        submodule[0],
        submodule[1],
        submodule[2],
        submodule[3],
        specifier[0],
        specifier[1],
        0x80,
        0x00,
    ]
}

/// Encodes data that carries an alarm of low priority with the UserStructureIdentifier 0x8000, which follows the FrameID of
/// a frame, up to the alarm's own data. The caller appends the alarm's data.
#[inline(always)]
fn diagnosis_front(header: &Header, alarm: &AlarmNotification) -> [u8; 40]
    requires kind { header.now.kind ≡ Data }
    requires few { length alarm.now.alarm_data ≤ 32 }
    // These octets followed by the alarm's data are the encoding of the PDU.
    ensures exact { result ++ alarm.now.alarm_data ≡ pdu_bytes (diagnosis_pdu header.now alarm.now) }
    ensures len { length result ≡ 40 }
    // Followed by any octets, they are read as this PDU, and the block that it carries is read as the alarm.
    ensures behind { (more : List ℕ) → pdu_of (pdu_bytes (diagnosis_pdu header.now alarm.now) ++ more) ≡ Ok (diagnosis_pdu header.now alarm.now) }
    ensures carried { report_of (diagnosis_pdu header.now alarm.now).body ≡ Ok (diagnosed alarm.now) }
{
    let front = low_front(alarm);
    data_front(header, &front, alarm.alarm_data.octets())
}

/// The octets of an alarm of low priority without a UserStructureIdentifier, which ends with its AlarmSpecifier.
#[tactic(auto, unfolding(wire::specs::blocks::Fields::number_bytes, wire::specs::blocks::Fields::open_body, wire::specs::blocks::Fields::version, crate::specs::reports::Report::block_priority, crate::specs::reports::Report::front, crate::specs::reports::Report::payload, crate::specs::reports::Report::report, crate::specs::reports::Report::report_fields))]
fn bare_front(alarm: &AlarmNotification) -> [u8; 26]
    requires { alarm.now.alarm_data ≡ [] }
    ensures items { result ≡ report.write (bare alarm.now) [] }
    ensures len { length result ≡ 26 }
    ensures fits { report.Fits (bare alarm.now) }
{
    let kind = alarm.alarm_type.to_be_bytes();
    let api = alarm.api.to_be_bytes();
    let slot = alarm.slot_number.to_be_bytes();
    let subslot = alarm.subslot_number.to_be_bytes();
    let module = alarm.module_ident_number.to_be_bytes();
    let submodule = alarm.submodule_ident_number.to_be_bytes();
    let specifier = alarm.alarm_specifier.to_be_bytes();
    [
        0x00,
        0x02,
        0x00,
        22,
        1,
        0,
        kind[0],
        kind[1],
        api[0],
        api[1],
        api[2],
        api[3],
        slot[0],
        slot[1],
        subslot[0],
        subslot[1],
        module[0],
        module[1],
        module[2],
        module[3],
        submodule[0],
        submodule[1],
        submodule[2],
        submodule[3],
        specifier[0],
        specifier[1],
    ]
}

/// Data that carries an alarm of low priority without a UserStructureIdentifier.
fn bare_octets(header: &Header, alarm: &AlarmNotification) -> ArrayVec<u8, 40>
    requires kind { header.now.kind ≡ Data }
    requires bare { alarm.now.alarm_data ≡ [] }
    ensures exact { result.items ≡ pdu_bytes (bare_pdu header.now alarm.now) }
    ensures behind { (more : List ℕ) → pdu_of (pdu_bytes (bare_pdu header.now alarm.now) ++ more) ≡ Ok (bare_pdu header.now alarm.now) }
    ensures carried { report_of (bare_pdu header.now alarm.now).body ≡ Ok (bare alarm.now) }
{
    let block = bare_front(alarm);
    let front = pdu_front(&Pdu {
        header: *header,
        body: &block,
    });
    let mut octets = ArrayVec::new();
    let _ = octets.try_extend_from_slice(&front);
    let _ = octets.try_extend_from_slice(&block);
    octets
}

/// Encodes data that carries an alarm of low priority, which follows the FrameID of a frame, up to the alarm's own data: with
/// the UserStructureIdentifier 0x8000, or, if it has no data, without one. The caller appends the alarm's data.
#[inline(always)]
pub fn low_alarm_front(header: &Header, alarm: &AlarmNotification) -> ArrayVec<u8, 40>
    requires kind { header.now.kind ≡ Data }
    requires few { length alarm.now.alarm_data ≤ 32 }
    // These octets followed by the alarm's data are the encoding of the PDU.
    ensures exact { result.items ++ alarm.now.alarm_data ≡ pdu_bytes (low_pdu header.now alarm.now) }
    // They are at most 40.
    ensures len { array_vec_len result ≤ 40 }
    // Followed by any octets, they are read as this PDU, and the block that it carries is read as the alarm.
    ensures behind { (more : List ℕ) → pdu_of (pdu_bytes (low_pdu header.now alarm.now) ++ more) ≡ Ok (low_pdu header.now alarm.now) }
    ensures carried { report_of (low_pdu header.now alarm.now).body ≡ Ok (low_report alarm.now) }
{
    if alarm.alarm_data.octets().is_empty() {
        return bare_octets(header, alarm);
    }
    let mut octets = ArrayVec::new();
    let _ = octets.try_extend_from_slice(&diagnosis_front(header, alarm));
    octets
}
