//! Alarms as a controller takes them: of both priorities, of each type, and with any UserStructureIdentifier or none.
//! `block_codec` reads alarms of this product's profile alone, which are of high priority and have the
//! UserStructureIdentifier 1.
ghost use Rattle.std.specs.Prelude.{◌≡◌, ◌+◌, ◌-◌, ◌≤◌, [], length, IfOk, Ok};
ghost use Rattle.wire.specs.Codec.{Gives};
ghost use Rattle.record_blocks.specs.declared.alarm_ack.AlarmAck.{AlarmAck as Ack};
ghost use Rattle.wire.specs.blocks.Fields.{open_body};
ghost use Rattle.diagnosis.specs.declared.reports.report.Report.{Report as Meaning};
ghost use Rattle.diagnosis.specs.reports.Report.{IsLowAck, IsReport, block_priority, front, low_ack, low_ack_of, payload, report, report_fields, report_of};

use crate::reports::priority::Priority;
use block_codec::{AlarmAck, AlarmData, AlarmNotification, BlockFault};
use pn_alarms::AlarmFault;
use record_blocks::alarm_ack_at;
use wire::{read_fields, split, version_at};

/// An alarm that a controller takes (IEC 61158-6-10, 5.2.5).
#[derive(Drop)]
pub struct Report<'a> {
    /// Its priority.
    pub priority: Priority,
    /// Its fields. The data are the octets after UserStructureIdentifier.
    pub notification: AlarmNotification<'a>,
    /// UserStructureIdentifier, if the alarm has one. Without it there are no data.
    pub user_structure: Option<u16>,
}

/// The fields of an alarm before its UserStructureIdentifier.
#[derive(Clone, Copy)]
struct Front {
    alarm_type: u16,
    api: u32,
    slot_number: u16,
    subslot_number: u16,
    module_ident_number: u32,
    submodule_ident_number: u32,
    alarm_specifier: u16,
}

macro_rules! front_fields {
    ($with:ident $args:tt) => {
        $with! { $args Front {
            alarm_type: u16,
            api: u32,
            slot_number: u16,
            subslot_number: u16,
            module_ident_number: u32,
            submodule_ident_number: u32,
            alarm_specifier: u16,
        } }
    };
}

/// Reads the fields from AlarmType to AlarmSpecifier. Returns them and the rest.
#[tactic(auto, using(wire::proofs::BlocksLeft::number_left), unfolding(crate::specs::reports::Report::front))]
fn front_at(bytes: &[u8]) -> Result<(Front, &[u8]), BlockFault>
    ensures read { Gives (λ x. (x.0, x.1.now)) result (front.read bytes.now) }
    ensures left { IfOk result (λ x. length bytes.now ≡ 20 + length x.1.now) }
{
    front_fields!(read_fields[bytes])
}

/// Reads UserStructureIdentifier and the data, to the last octet; both may be absent.
#[tactic(auto, using(wire::proofs::BlocksLeft::number_left), unfolding(crate::specs::reports::Report::payload))]
fn payload_at(bytes: &[u8]) -> Result<(Option<u16>, &[u8]), BlockFault>
    ensures read { Gives (λ x. (x.0, x.1.now)) result (payload.read bytes.now) }
    ensures few { IfOk result (λ x. length x.1.now ≤ length bytes.now - 2) }
{
    if bytes.is_empty() {
        return Ok((None, bytes));
    }
    let (user_structure, data) = wire::blocks::u16_at(bytes)?;
    Ok((Some(user_structure), data))
}

/// Reads what BlockLength counts of an alarm, to the last octet. There are at most 65,535 octets.
#[tactic(auto, using(wire::proofs::BlocksLeft::version_left), unfolding(wire::specs::blocks::Fields::open_body, crate::specs::reports::Report::report_fields))]
fn fields_at(bytes: &[u8]) -> Result<(AlarmNotification<'_>, Option<u16>), BlockFault>
    requires { length bytes.now ≤ 65535 }
    ensures { Gives (λ x. x) result ((open_body report_fields).read bytes.now) }
{
    let rest = version_at(bytes)?;
    let (front, rest) = front_at(rest)?;
    let (user_structure, data) = payload_at(rest)?;
    let notification = AlarmNotification {
        alarm_type: front.alarm_type,
        api: front.api,
        slot_number: front.slot_number,
        subslot_number: front.subslot_number,
        module_ident_number: front.module_ident_number,
        submodule_ident_number: front.submodule_ident_number,
        alarm_specifier: front.alarm_specifier,
        alarm_data: AlarmData::new(data),
    };
    Ok((notification, user_structure))
}

/// Reads BlockType. Returns the priority that it tells and the rest.
#[tactic(auto, unfolding(crate::specs::reports::Report::block_priority))]
fn block_priority_at(bytes: &[u8]) -> Result<(Priority, &[u8]), BlockFault>
    ensures { Gives (λ x. (x.0, x.1.now)) result (block_priority.read bytes.now) }
{
    let (kind, rest) = wire::u16_at(bytes, BlockFault::Truncated)?;
    match Priority::of_block(kind) {
        Some(priority) => Ok((priority, rest)),
        None => Err(BlockFault::Kind),
    }
}

/// Reads the alarm at the start of the octets. Returns it and the rest.
#[tactic(auto, unfolding(crate::specs::reports::Report::report))]
fn report_at(bytes: &[u8]) -> Result<(Report<'_>, &[u8]), BlockFault>
    ensures { Gives (λ x. (x.0, x.1.now)) result (report.read bytes.now) }
{
    let (priority, rest) = block_priority_at(bytes)?;
    let (size, rest) = wire::u16_at(rest, BlockFault::Truncated)?;
    let (body, rest) = split(rest, size as usize, BlockFault::Truncated)?;
    let (notification, user_structure) = fields_at(body)?;
    let alarm = Report {
        priority,
        notification,
        user_structure,
    };
    Ok((alarm, rest))
}

/// The alarm at the start of the octets. Octets after the block are ignored.
#[tactic(auto, unfolding(crate::specs::reports::Report::report_of))]
fn report_in(body: &[u8]) -> Result<Report<'_>, AlarmFault>
    ensures { result ≡ report_of body.now }
{
    match report_at(body) {
        Ok((alarm, _behind)) => Ok(alarm),
        Err(_) => Err(AlarmFault::Block),
    }
}

/// Reads the alarm that data carries to a controller. Octets after the block are ignored.
pub fn read_report(body: &[u8]) -> Result<Report<'_>, AlarmFault>
    // If a value is read, the octets encode that value.
    ensures found { IfOk result (λ found. IsReport body.now found) }
    // Octets that encode a value are read as that value, and as no other.
    ensures only { (meaning : Meaning) → IsReport body.now meaning → result ≡ Ok meaning }
    // The result is the block or the fault that the format defines for these octets.
    ensures exact { result ≡ report_of body.now }
{
    report_in(body)
}

/// Reads the AlarmAck of low priority at the start of the octets. Returns it and the rest.
#[tactic(auto, unfolding(crate::specs::reports::Report::low_ack))]
fn low_ack_at(bytes: &[u8]) -> Result<(AlarmAck, &[u8]), BlockFault>
    ensures { Gives (λ x. (x.0, x.1.now)) result (low_ack.read bytes.now) }
{
    // Octets without a whole BlockType are not a block of this type either.
    let (kind, rest) = wire::u16_at(bytes, BlockFault::Kind)?;
    if kind != 0x8002 {
        return Err(BlockFault::Kind);
    }
    let (size, rest) = wire::u16_at(rest, BlockFault::Truncated)?;
    let (body, rest) = split(rest, size as usize, BlockFault::Truncated)?;
    let ack = alarm_ack_at(body)?;
    Ok((ack, rest))
}

/// The AlarmAck of low priority at the start of the octets. Octets after the block are ignored.
#[tactic(auto, unfolding(crate::specs::reports::Report::low_ack_of))]
fn low_ack_in(body: &[u8]) -> Result<AlarmAck, AlarmFault>
    ensures { result ≡ low_ack_of body.now }
{
    match low_ack_at(body) {
        Ok((ack, _behind)) => Ok(ack),
        Err(_) => Err(AlarmFault::Block),
    }
}

/// Reads the AlarmAck of low priority that data carries to a device. Octets after the block are ignored.
pub fn read_low_ack(body: &[u8]) -> Result<AlarmAck, AlarmFault>
    // If a value is read, the octets encode that value.
    ensures found { IfOk result (λ found. IsLowAck body.now found) }
    // Octets that encode a value are read as that value, and as no other.
    ensures only { (meaning : Ack) → IsLowAck body.now meaning → result ≡ Ok meaning }
    // The result is the block or the fault that the format defines for these octets.
    ensures exact { result ≡ low_ack_of body.now }
{
    low_ack_in(body)
}

/// The octets of an AlarmAck of low priority.
#[tactic(auto, unfolding(wire::specs::blocks::Fields::number_bytes, wire::specs::blocks::Fields::body, wire::specs::blocks::Fields::version, record_blocks::specs::AlarmAck::alarm_ack, crate::specs::reports::Report::low_ack))]
pub fn low_ack_octets(ack: &AlarmAck) -> [u8; 22]
    ensures items { result ≡ low_ack.write ack.now [] }
    ensures fits { low_ack.Fits ack.now }
{
    let kind = ack.alarm_type.to_be_bytes();
    let api = ack.api.to_be_bytes();
    let slot = ack.slot_number.to_be_bytes();
    let subslot = ack.subslot_number.to_be_bytes();
    let specifier = ack.alarm_specifier.to_be_bytes();
    let status = ack.pnio_status.to_be_bytes();
    [
        0x80,
        0x02,
        0,
        18,
        1,
        0,
        kind[0],
        kind[1],
        api[0],
        api[1],
        api[2],
        api[3],
        slot[0],
        slot[1],
        subslot[0],
        subslot[1],
        specifier[0],
        specifier[1],
        status[0],
        status[1],
        status[2],
        status[3],
    ]
}
