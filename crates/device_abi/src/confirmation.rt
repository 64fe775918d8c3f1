//! What became of an open process alarm in an event.
ghost use Rattle.std.specs.Prelude.{◌≡◌, ℕ, take};
ghost use Rattle.pn_values.specs.declared.mac.Mac.{Mac};
ghost use Rattle.device_frames.specs.Heard.{heard_alarm, heard_content, heard_of};
ghost use Rattle.frame_codec.specs.Meaning.{RealTime};
ghost use Rattle.device_frames.specs.declared.event.Event.TheVariants.{Frame};
ghost use Rattle.pn_alarms.specs.Message.{message_of};
ghost use Rattle.device_abi.specs.Confirmed.{is_open, over_by, status_by, status_in};

use device_frames::{RealTimeKind, kind_of, real_time_in};
use device_station::Port;
use frame_codec::RealTimeFrame;
use pn_alarms::{Message, read_message};
use pn_values::Identity;
use wire::at_most;

/// What became of the open process alarm of a device in an event.
#[derive(Clone, Copy, Debug, PartialEq, Eq)]
pub enum Confirmation {
    /// Nothing: no alarm was open, or it is open still.
    Nothing,
    /// The controller acknowledged it, with this PNIOStatus.
    Acknowledged(u32),
    /// It was given up: its relation ended first.
    GivenUp,
}

// Whether a process alarm of the device is open.
#[inline(always)]
pub(crate) fn is_open(port: &Port) -> bool
    ensures { result ≡ is_open port.now }
{
    port.device().has_open_alarm()
}

// What became of an alarm that is no longer open, from the PNIOStatus of the AlarmAck that the event brought, if it did.
pub(crate) fn over_by(status: Option<u32>) -> Confirmation
    ensures { result ≡ over_by status }
{
    match status {
        Some(status) => Confirmation::Acknowledged(status),
        None => Confirmation::GivenUp,
    }
}

// The PNIOStatus of the AlarmAck of high priority that a received frame is to the device, if it is one.
pub(crate) fn acknowledged_in(port: &Port, given: &[u8]) -> Option<u32>
    ensures { result ≡ status_by (heard_of port.now.port.device.station.identity (Frame (record { items = take 1519 given.now }))) }
{
    acknowledged_by(port.device().identity(), at_most(given, 1519))
}

// The same of a frame to the station with this identity.
fn acknowledged_by(identity: &Identity, octets: &[u8]) -> Option<u32>
    ensures { result ≡ status_by (heard_of identity.now (Frame (record { items = octets.now }))) }
{
    match real_time_in(octets) {
        Some(frame) => acknowledged_at(identity, &frame),
        None => None,
    }
}

// The same of a frame of EtherType 0x8892.
fn acknowledged_at(identity: &Identity, frame: &RealTimeFrame) -> Option<u32>
    ensures { result ≡ status_by (heard_content identity.now frame.now.destination frame.now.source (RealTime frame.now.frame_id frame.now.body.now)) }
{
    match kind_of(identity, frame.destination, frame.frame_id) {
        RealTimeKind::Alarm => status_of(frame.body),
        RealTimeKind::Request | RealTimeKind::Cyclic | RealTimeKind::Elsewhere => None,
    }
}

// The same of the octets that follow the FrameID of an alarm frame.
fn status_of(body: &[u8]) -> Option<u32>
    ensures { (source : Mac) (frame_id : ℕ) → result ≡ status_by (heard_alarm source frame_id body.now (message_of body.now)) }
{
    match read_message(body) {
        Ok((_, said)) => status_said(&said),
        Err(_) => None,
    }
}

// The PNIOStatus of an AlarmAck of high priority, if it is one.
fn status_said(said: &Message) -> Option<u32>
    ensures { result ≡ status_in said.now }
{
    match said {
        Message::Data(_, ack) => Some(ack.pnio_status),
        Message::Nack | Message::Ack(_) | Message::Abort(_) => None,
    }
}
