//! The answers of the device that a controller expects.
ghost use Rattle.std.specs.Prelude.{◌≡◌, option_map};
ghost use Rattle.dcp_core.specs.Answered.{answered as answered_as};
ghost use Rattle.dcp_core.specs.Identify.{suite_bytes};
ghost use Rattle.rpc_core.specs.Call.{asked};
ghost use Rattle.controller_core.specs.start_up.Answers.{ident_bytes, is_addressed, is_answer, is_busy, is_found, is_held, is_ready, is_refused, is_right, is_set_answer, is_reported, is_state_conflict, is_tried, ready_in};

use arrayvec::ArrayVec;
use block_codec::{Block, ControlBlock, read_block};
use controller_messages::{Refusal, Request, Setup};
use dcp_core::{Kind, Service};
use plans::{Plan, SESSION_KEY, Station};
use rpc_core::{Call, Response, Status};

/// Operation of Control.
const CONTROL: u16 = 4;

/// Whether there is a value, and it equals the expected one.
fn is_reported(wanted: &[u8], value: Option<&[u8]>) -> bool
    ensures { result ≡ is_reported wanted.now (option_map (λ value. value.now) value.entry) }
{
    match value {
        Some(value) => value == wanted,
        None => false,
    }
}

/// Whether an answer is to the Identify, and from the station that has the plan's name.
pub fn is_found(plan: &Plan, answer: &dcp_core::Response<'_>) -> bool
    ensures { result ≡ is_found plan.now (answered_as answer.now) }
{
    // Every station that receives an Identify may answer, and answers to earlier requests of others may arrive: name
    // and transaction decide. A station that does not support Identify has not checked the name.
    matches!(answer.service, Service::Identify)
        && answer.is_supported
        && answer.xid == 1
        && is_reported(
            plan.station().name.as_bytes(),
            answer.value(Kind::NameOfStation),
        )
}

/// VendorID and DeviceID.
fn ident_octets(station: &Station) -> [u8; 4]
    ensures { result ≡ ident_bytes station.now }
{
    let vendor = station.vendor_id.to_be_bytes();
    let device = station.device_id.to_be_bytes();
    [vendor[0], vendor[1], device[0], device[1]]
}

/// Whether an answer is from the device of the plan.
pub fn is_right(plan: &Plan, answer: &dcp_core::Response<'_>) -> bool
    ensures { result ≡ is_right plan.now (answered_as answer.now) }
{
    let ident = ident_octets(plan.station());
    is_reported(&ident, answer.value(Kind::DeviceId))
}

/// Address, mask and gateway.
fn suite_octets(plan: &Plan) -> ArrayVec<u8, 12>
    ensures { result.items ≡ suite_bytes plan.now.station.suite }
{
    let suite = &plan.station().suite;
    let mut octets = ArrayVec::new();
    let _ = octets.try_extend_from_slice(&suite.address());
    let _ = octets.try_extend_from_slice(&suite.mask());
    let _ = octets.try_extend_from_slice(&suite.gateway());
    octets
}

/// Whether an answer says that the station has the plan's IP suite.
pub fn is_addressed(plan: &Plan, answer: &dcp_core::Response<'_>) -> bool
    ensures { result ≡ is_addressed plan.now (answered_as answer.now) }
{
    let suite = suite_octets(plan);
    is_reported(suite.as_slice(), answer.value(Kind::IpSuite))
}

/// Whether an answer is to the Set of the IP suite.
pub fn is_set_answer(answer: &dcp_core::Response<'_>) -> bool
    ensures { result ≡ is_set_answer (answered_as answer.now) }
{
    matches!(answer.service, Service::Set) && answer.xid == 2
}

/// The block of an ApplicationReady, if a call is one.
pub fn ready_in(call: &Call<'_>) -> Option<ControlBlock>
    ensures { result ≡ ready_in (asked call.now) }
{
    if call.header.operation != CONTROL {
        return None;
    }
    match read_block(call.blocks.unwrap_or(&[])) {
        Ok((Block::ApplicationReady(block), _behind)) => Some(block),
        _ => None,
    }
}

/// Whether a response is the one to the call for this request.
pub fn is_answer(setup: &Setup, request: Request, response: &Response<'_>) -> bool
    ensures { result ≡ is_answer setup.now request response.now.header }
{
    match request {
        Request::Identify | Request::Address => false,
        Request::Connect
        | Request::Write(_)
        | Request::PrmEnd
        | Request::Release(_)
        | Request::WriteAfter(_, _)
        | Request::PrmEndAfter(_) => {
            // The activity alone is not enough: a late response to the previous request has it too.
            response.header.activity == setup.activity
                && response.header.sequence == request.sequence(&setup.plan)
        }
    }
}

/// Whether a refusal is the one of the call for this request.
pub fn is_refused(setup: &Setup, request: Request, refusal: &Refusal) -> bool
    ensures { result ≡ is_refused setup.now request refusal.now }
{
    match request {
        Request::Identify | Request::Address => false,
        Request::Connect
        | Request::Write(_)
        | Request::PrmEnd
        | Request::Release(_)
        | Request::WriteAfter(_, _)
        | Request::PrmEndAfter(_) => {
            refusal.activity == setup.activity && refusal.sequence == request.sequence(&setup.plan)
        }
    }
}

/// Whether a Connect with this status is followed by a Release: the plan says so, and the device holds the relation already, since its positive
/// answer to an earlier Connect was lost.
pub fn is_held(plan: &Plan, status: Status) -> bool
    ensures { result ≡ is_held plan.now status }
{
    plan.persistent_start() && is_state_conflict(status)
}

/// Whether a status is State conflict of a Connect (IEC 61158-6-10, 5.2.6): ErrorCode Connect, ErrorDecode PNIO, ErrorCode1 CMRPC, ErrorCode2
/// State conflict.
fn is_state_conflict(status: Status) -> bool
    ensures { result ≡ is_state_conflict status }
{
    status.code == 0xDB && status.decode == 0x81 && status.code1 == 0x40 && status.code2 == 6
}

/// Whether a Write, or PrmEnd, with this status is tried again by a new call, after this many calls were refused as busy: the plan says so,
/// and the device may do the same later.
pub fn is_tried(plan: &Plan, status: Status, tries: u16) -> bool
    ensures { result ≡ is_tried plan.now status tries }
{
    plan.persistent_start() && is_busy(status) && tries < u16::MAX
}

/// Whether a status is resource busy (IEC 61158-6-10, 5.2.6): ErrorDecode PNIORW, ErrorCode1 resource busy, any ErrorCode.
fn is_busy(status: Status) -> bool
    ensures { result ≡ is_busy status }
{
    status.decode == 0x80 && status.code1 == 0xC2
}

/// Whether an ApplicationReady belongs to the relation.
pub fn is_ready(setup: &Setup, block: &ControlBlock) -> bool
    ensures { result ≡ is_ready setup.now block.now }
{
    // An ApplicationReady of an earlier relation may still arrive.
    block.ar_uuid == setup.ar && block.session_key == SESSION_KEY
}
