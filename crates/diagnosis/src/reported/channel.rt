//! What an alarm reports of a channel.
ghost use Rattle.std.specs.Prelude.{◌≡◌};
ghost use Rattle.wire.specs.Codec.{Gives};
ghost use Rattle.diagnosis.specs.reported.Channel.{channel, channel_by, channel_report, is_channel_diagnosis, is_channel_structure, report_by, report_of, specifier_in};

use crate::diagnosis::Diagnosis;
use crate::reports::Report;
use block_codec::{AlarmNotification, BlockFault};
use wire::read_fields;

/// AlarmType: Diagnosis.
const APPEARS: u16 = 1;

/// AlarmType: Diagnosis disappears.
const DISAPPEARS: u16 = 0x000C;

/// UserStructureIdentifier: ChannelDiagnosis.
const CHANNEL_DIAGNOSIS: u16 = 0x8000;

/// What an alarm says of a diagnosis: Specifier of its ChannelProperties.
#[derive(Clone, Copy, Debug, PartialEq, Eq)]
pub enum Specifier {
    /// 0: no diagnosis of the channel exists any more.
    AllDisappear,
    /// 1: the diagnosis appears.
    Appears,
    /// 2: the diagnosis disappears.
    Disappears,
    /// 3: the diagnosis disappears, and others of the channel remain.
    OthersRemain,
}

/// What an alarm reports of a channel.
#[derive(Clone, Copy, Debug, PartialEq, Eq)]
pub struct ChannelReport {
    /// The diagnosis.
    pub diagnosis: Diagnosis,
    /// What happened to it.
    pub specifier: Specifier,
}

/// ChannelDiagnosis as it is in an alarm.
#[derive(Clone, Copy)]
struct Channel {
    number: u16,
    properties: u16,
    error: u16,
}

macro_rules! channel_fields {
    ($with:ident $args:tt) => {
        $with! { $args Channel {
            number: u16,
            properties: u16,
            error: u16,
        } }
    };
}

/// Reads ChannelNumber, ChannelProperties and ChannelErrorType. Returns them and the rest.
#[tactic(auto, unfolding(crate::specs::reported::Channel::channel))]
fn channel_at(bytes: &[u8]) -> Result<(Channel, &[u8]), BlockFault>
    ensures { Gives (λ x. (x.0, x.1.now)) result (channel.read bytes.now) }
{
    channel_fields!(read_fields[bytes])
}

/// Reads octets that are one ChannelDiagnosis, and nothing else.
fn channel_in(bytes: &[u8]) -> Option<Channel>
    ensures { result ≡ channel_by (channel.read bytes.now) }
{
    match channel_at(bytes) {
        Ok((channel, rest)) => { if rest.is_empty() { Some(channel) } else { None } }
        Err(_) => None,
    }
}

/// The Specifier in ChannelProperties: bits 11 and 12.
fn specifier_in(properties: u16) -> Specifier
    ensures { result ≡ specifier_in properties }
{
    let specifier = (properties / 0x800) % 4;
    if specifier == 0 {
        Specifier::AllDisappear
    } else if specifier == 1 {
        Specifier::Appears
    } else if specifier == 2 {
        Specifier::Disappears
    } else {
        Specifier::OthersRemain
    }
}

/// What is reported of a channel of this alarm's submodule.
fn report_of(alarm: &AlarmNotification<'_>, channel: &Channel) -> ChannelReport
    ensures { result ≡ report_of alarm.now channel.now }
{
    ChannelReport {
        diagnosis: Diagnosis {
            slot: alarm.slot_number,
            subslot: alarm.subslot_number,
            channel: channel.number,
            error: channel.error,
        },
        specifier: specifier_in(channel.properties),
    }
}

/// Whether the data of an alarm are ChannelDiagnosis.
fn is_channel_structure(user_structure: Option<u16>) -> bool
    ensures { result ≡ is_channel_structure user_structure }
{
    match user_structure {
        Some(structure) => structure == CHANNEL_DIAGNOSIS,
        None => false,
    }
}

/// Whether an alarm is one of diagnosis, and its data are ChannelDiagnosis.
fn is_channel_diagnosis(report: &Report<'_>) -> bool
    ensures { result ≡ is_channel_diagnosis report.now }
{
    (report.notification.alarm_type == APPEARS || report.notification.alarm_type == DISAPPEARS)
        && is_channel_structure(report.user_structure)
}

/// What an alarm reports of a channel: `None` if it is not an alarm of diagnosis, if its UserStructureIdentifier is not
/// 0x8000, or if its data are not exactly one ChannelDiagnosis. Its API is not looked at, since a submodule belongs to one
/// API.
pub fn channel_report(report: &Report<'_>) -> Option<ChannelReport>
    ensures { result ≡ channel_report report.now }
{
    if !is_channel_diagnosis(report) {
        return None;
    }
    match channel_in(report.notification.alarm_data.octets()) {
        Some(channel) => Some(report_of(&report.notification, &channel)),
        None => None,
    }
}
