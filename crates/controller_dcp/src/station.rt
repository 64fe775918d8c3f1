//! Whom a frame is for, and the frame that answers it.
ghost use Rattle.std.specs.Prelude.{◌≡◌, ◌<◌, ◌≤◌, ◌++◌, [], ◌∷◌, length};
ghost use Rattle.std.specs.List.{cons_option};
ghost use Rattle.arrayvec.specs.ArrayVec.{array_vec_len};
ghost use Rattle.frame_codec.specs.Frame.{frame_of};
ghost use Rattle.frame_codec.specs.Meaning.{RealTime, meaning_as};
ghost use Rattle.frame_codec.specs.Outbox.{boxed};
ghost use Rattle.dcp_core.specs.declared.request.Service.TheVariants.{Identify};
ghost use Rattle.dcp_core.specs.Request.{asked};
ghost use Rattle.controller_dcp.specs.Station.{answer_to, framed, is_aimed, is_another, is_own, to_frame, to_real_time, to_request};

use crate::answers::{get_answer, identify_answer, is_matched, refused_answer};
use dcp_core::{Answer, Request, Service, read_request};
use frame_codec::{
    DCP_GET_SET, DCP_IDENTIFY_REQUEST, DCP_IDENTIFY_RESPONSE, Outbox, Pieces, RealTimeFrame,
    read_real_time,
};
use plans::{ControllerIdentity, Plan};
use pn_values::Mac;

/// The multicast address of Identify requests (IEC 61158-6-10, 4.3.1.3.1).
const IDENTIFY_MULTICAST: Mac = Mac {
    octets: [0x01, 0x0E, 0xCF, 0x00, 0x00, 0x00],
};

/// Appends the answer of the controller of a plan to octets from the network: to an Identify that matches, to a Get, and to a Set, which is
/// refused. Everything else is answered by nothing, and so is everything if the plan has no identity.
#[tactic(auto, unfolding(crate::specs::Station::answer_to))]
pub fn answer(plan: &Plan, octets: &[u8], outbox: &mut Outbox)
    requires { array_vec_len outbox.old < 4 }
    // The earlier frames stay. The answer, if there is one, is exactly this frame.
    ensures { boxed outbox.new ≡ boxed outbox.old ++ cons_option (answer_to plan.now octets.now) [] }
{
    if let Some(own) = plan.identity() {
        answer_as(plan, own, octets, outbox);
    }
}

/// The answer of a controller with this identity.
#[inline(never)]
#[tactic(auto, using(crate::proofs::Untold::other_untold))]
fn answer_as(plan: &Plan, own: &ControllerIdentity, octets: &[u8], outbox: &mut Outbox)
    requires { array_vec_len outbox.old < 4 }
    ensures { boxed outbox.new ≡ boxed outbox.old ++ cons_option (to_frame plan.now own.now (frame_of octets.now)) [] }
{
    if let Some(frame) = read_real_time(octets) {
        answer_frame(plan, own, &frame, outbox);
    }
}

/// The answer to a frame of real-time data.
fn answer_frame(
    plan: &Plan,
    own: &ControllerIdentity,
    frame: &RealTimeFrame<'_>,
    outbox: &mut Outbox,
)
    requires { array_vec_len outbox.old < 4 }
    ensures { boxed outbox.new ≡ boxed outbox.old
        ++ cons_option (to_real_time plan.now own.now (meaning_as frame.now) frame.now.frame_id frame.now.body.now) [] }
{
    if !is_aimed(plan, frame.destination, frame.frame_id) || !is_another(plan, frame.source) {
        return;
    }
    if let Ok(request) = read_request(frame.frame_id, frame.body) {
        answer_request(plan, own, frame.source, &request, outbox);
    }
}

/// Whether a frame with this destination and FrameID asks the controller. Only an Identify may go to all stations.
fn is_aimed(plan: &Plan, destination: Mac, frame_id: u16) -> bool
    ensures { result ≡ is_aimed plan.now destination frame_id }
{
    match frame_id {
        DCP_IDENTIFY_REQUEST => { is_own(plan, destination) || destination.is(&IDENTIFY_MULTICAST) }
        DCP_GET_SET => is_own(plan, destination),
        _ => false,
    }
}

/// Whether a frame with this source comes from another station: not from the controller, nor from the address of a group.
fn is_another(plan: &Plan, source: Mac) -> bool
    ensures { result ≡ is_another plan.now source }
{
    source.octets[0].is_multiple_of(2) && !is_own(plan, source)
}

/// Whether this is the MAC address of the controller.
fn is_own(plan: &Plan, mac: Mac) -> bool
    ensures { result ≡ is_own plan.now mac }
{
    mac.is(&plan.controller().mac)
}

/// The answer to a request of this station.
fn answer_request(
    plan: &Plan,
    own: &ControllerIdentity,
    asker: Mac,
    request: &Request<'_>,
    outbox: &mut Outbox,
)
    requires { array_vec_len outbox.old < 4 }
    ensures { boxed outbox.new ≡ boxed outbox.old ++ cons_option (to_request plan.now own.now asker (asked request.now)) [] }
{
    match request.service {
        Service::Identify => answer_identify(plan, own, asker, request, outbox),
        Service::Get => {
            let answer = get_answer(plan, own, request);
            send(plan, asker, DCP_GET_SET, &answer, outbox);
        }
        Service::Set => {
            let answer = refused_answer(request);
            send(plan, asker, DCP_GET_SET, &answer, outbox);
        }
    }
}

/// The answer to an Identify request: only if it matches, or every station would answer at once.
fn answer_identify(
    plan: &Plan,
    own: &ControllerIdentity,
    asker: Mac,
    request: &Request<'_>,
    outbox: &mut Outbox,
)
    requires room { array_vec_len outbox.old < 4 }
    requires service { request.now.service ≡ Identify }
    ensures { boxed outbox.new ≡ boxed outbox.old ++ cons_option (to_request plan.now own.now asker (asked request.now)) [] }
{
    if is_matched(plan, own, request) {
        let answer = identify_answer(plan, own, request.xid);
        send(plan, asker, DCP_IDENTIFY_RESPONSE, &answer, outbox);
    }
}

/// Appends an answer, addressed to the station that asked.
fn send(plan: &Plan, asker: Mac, frame_id: u16, answer: &Answer, outbox: &mut Outbox)
    requires { array_vec_len outbox.old < 4 }
    ensures { boxed outbox.new ≡ boxed outbox.old ++ framed plan.now asker (RealTime frame_id answer.now.items) ∷ [] }
{
    outbox.put_pieces(&Pieces {
        destination: asker,
        source: plan.controller().mac,
        tag: None,
        frame_id,
        front: &[],
        behind: answer.as_slice(),
    });
}
