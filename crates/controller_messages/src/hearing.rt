//! What a frame says to a controller.
ghost use Rattle.std.specs.Prelude.{◌≡◌, ◌==◌, ◌&&◌, IfNone, IfSome, nat_eq};
ghost use Rattle.std.specs.Cmp.Lexicographic.{pointwise};
ghost use Rattle.controller_messages.specs.Heard.{IsNoRealTimeTo, heard_alarm, heard_answer, heard_body, heard_by, heard_of, heard_real_time};
ghost use Rattle.controller_messages.specs.Heard.{is_to as is_to_by};
ghost use Rattle.controller_messages.specs.Reported.{reported};
ghost use Rattle.dcp_core.specs.Answer.{answer_of};
ghost use Rattle.frame_codec.specs.Frame.{datagram, frame_of};
ghost use Rattle.diagnosis.specs.reports.Message.{alarm_of};

use crate::refusal::{Refusal, read_refusal};
use diagnosis::{Priority, Report, read_alarm};
use frame_codec::{
    Bytes, Caller, ContentKind, DCP_GET_SET, DCP_IDENTIFY_RESPONSE, Endpoint, RPC_PORT,
    RealTimeFrame, datagram_at, frame_id_at, is_alarm, is_cyclic, open, read_real_time,
};
use plans::Controller;
use pn_alarms::{Header, Notice};
use pn_values::Mac;
use rpc_core::{Call, Interface, Response, read_call, read_response};

/// What a frame says to a controller; its data is borrowed from the frame.
#[derive(Drop)]
pub enum Hearing<'a> {
    /// It can't be read, is for another station or address, or is of a kind that a controller does not accept.
    Nothing,
    /// This station answers a DCP request.
    Answers(Mac, dcp_core::Response<'a>),
    /// The response to a call.
    Responds(Response<'a>),
    /// A call is refused.
    Refuses(Refusal),
    /// This caller calls the controller.
    Calls(Caller, Call<'a>),
    /// A cyclic frame of this station: its FrameID, and the octets that follow it.
    Cyclic(Mac, u16, &'a [u8]),
    /// An alarm frame of this station: the priority of its FrameID, its header, and what it says.
    Alarms(Mac, Priority, Header, Notice<Report<'a>>),
}

/// The DCP answer under this FrameID.
fn heard_answer<'a>(source: Mac, frame_id: u16, body: &'a [u8]) -> Hearing<'a>
    ensures { reported result ≡ heard_answer source (answer_of frame_id body.now) }
{
    match dcp_core::read_answer(frame_id, body) {
        Ok(answer) => Hearing::Answers(source, answer),
        Err(_) => Hearing::Nothing,
    }
}

/// The alarm frame of this station, under this FrameID.
fn heard_alarm<'a>(source: Mac, frame_id: u16, body: &'a [u8]) -> Hearing<'a>
    ensures { reported result ≡ heard_alarm source frame_id (alarm_of body.now) }
{
    match read_alarm(body) {
        Ok((header, notice)) => { Hearing::Alarms(source, Priority::of(frame_id), header, notice) }
        Err(_) => Hearing::Nothing,
    }
}

/// What the body of a datagram says: a call to the controller, or else a response or a refusal.
#[tactic(auto, unfolding(crate::specs::Heard::heard_body))]
fn heard_body<'a>(caller: Caller, body: &'a [u8]) -> Hearing<'a>
    ensures { reported result ≡ heard_body caller body.now }
{
    if let Ok(call) = read_call(Interface::Controller, body) {
        return match call.blocks {
            Some(_) => Hearing::Calls(caller, call),
            // A call with wrong lengths of its blocks is dropped: a controller has no status with which it could refuse
            // a device.
            None => Hearing::Nothing,
        };
    }
    if let Ok(response) = read_response(body) {
        return Hearing::Responds(response);
    }
    match read_refusal(body) {
        Ok(refusal) => Hearing::Refuses(refusal),
        Err(_) => Hearing::Nothing,
    }
}

/// What a frame of EtherType 0x8892 to this controller says.
#[inline(always)]
#[tactic(auto, unfolding(crate::specs::Heard::heard_real_time))]
pub fn heard_real_time<'a>(source: Mac, frame_id: u16, body: &'a [u8]) -> Hearing<'a>
    ensures { reported result ≡ heard_real_time source frame_id body.now }
{
    if is_cyclic(frame_id) {
        return Hearing::Cyclic(source, frame_id, body);
    }
    if is_alarm(frame_id) {
        return heard_alarm(source, frame_id, body);
    }
    match frame_id {
        DCP_GET_SET | DCP_IDENTIFY_RESPONSE => heard_answer(source, frame_id, body),
        _ => Hearing::Nothing,
    }
}

/// Whether a datagram goes to this address, and to the port of calls.
fn is_to(address: [u8; 4], to: &Endpoint) -> bool
    ensures { result ≡ is_to_by address to.now }
{
    to.address == address && to.port == RPC_PORT
}

/// What an IPv4 packet from this station says to a controller.
#[inline(never)]
fn heard_datagram<'a>(controller: &Controller, source: Mac, content: &'a [u8]) -> Hearing<'a>
    ensures { reported result ≡ heard_by controller.now.address source (datagram.read content.now) }
{
    let Ok(udp) = datagram_at(content) else {
        return Hearing::Nothing;
    };
    if !is_to(controller.address, &udp.destination) {
        return Hearing::Nothing;
    }
    let caller = Caller {
        mac: source,
        endpoint: udp.source,
    };
    heard_body(caller, udp.body)
}

/// The frame of EtherType 0x8892 to this controller, if it is one. A cyclic frame arrives each interval and is handled
/// from here: a `Hearing` has room for each kind of frame, and would be copied through memory.
#[inline(always)]
#[tactic(auto, using(crate::proofs::Elsewhere::other_is_none, crate::proofs::Elsewhere::elsewhere_is_none), unfolding(crate::specs::Heard::heard_of))]
pub fn real_time_in<'a>(controller: &Controller, bytes: &'a Bytes) -> Option<RealTimeFrame<'a>>
    ensures found { IfSome result (λ frame.
        heard_of controller.now bytes.now.items ≡ heard_real_time frame.source frame.frame_id frame.body.now) }
    // `None` is returned only for octets that are not a frame of real-time data to this controller.
    ensures none { IfNone result (IsNoRealTimeTo controller.now (frame_of bytes.now.items)) }
{
    let frame = read_real_time(bytes.as_slice())?;
    if frame.destination.is(&controller.mac) {
        return Some(frame);
    }
    None
}

/// What a frame says to a controller. It depends on the octets, and on the controller's MAC address and IP address.
#[inline(always)]
#[tactic(auto, unfolding(crate::specs::Heard::heard_of, frame_codec::specs::Frame::arp))]
pub fn heard<'a>(controller: &Controller, bytes: &'a Bytes) -> Hearing<'a>
    ensures { reported result ≡ heard_of controller.now bytes.now.items }
{
    let Ok(frame) = open(bytes.as_slice()) else {
        return Hearing::Nothing;
    };
    if !frame.destination.is(&controller.mac) {
        return Hearing::Nothing;
    }
    match frame.kind {
        ContentKind::RealTime => match frame_id_at(frame.content) {
            Ok((frame_id, body)) => heard_real_time(frame.source, frame_id, body),
            Err(_) => Hearing::Nothing,
        },
        ContentKind::Internet => heard_datagram(controller, frame.source, frame.content),
        ContentKind::Arp => Hearing::Nothing,
    }
}
