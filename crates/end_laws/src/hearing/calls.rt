//! Calls and responses.
ghost use Rattle.std.specs.Prelude.{◌≡◌, ◌<◌, ℕ, length, List, None, Option};
ghost use Rattle.pn_values.specs.declared.identity.Identity.{Identity};
ghost use Rattle.pn_values.specs.declared.mac.Mac.{Mac};
ghost use Rattle.frame_codec.specs.declared.udp.Caller.{Caller};
ghost use Rattle.frame_codec.specs.Frame.{frame_bytes};
ghost use Rattle.frame_codec.specs.Meaning.{RealTime};
ghost use Rattle.rpc_core.specs.Call.{Asked as Call};
ghost use Rattle.rpc_core.specs.declared.interface.Interface.TheVariants.{Controller as controllers, Device as devices};
ghost use Rattle.rpc_core.specs.Interface.{interface_uuid};
ghost use Rattle.rpc_core.specs.Response.{Answered};
ghost use Rattle.connect_blocks.specs.declared.control.ControlBlock.{ControlBlock};
ghost use Rattle.connect_blocks.specs.declared.plug_control.PlugControlBlock.{PlugControlBlock};
ghost use Rattle.plans.specs.declared.parts.Controller.{Controller};
ghost use Rattle.relations.specs.declared.plugging.PlugReady.{PlugReady};
ghost use Rattle.relations.specs.declared.ready.Ready.{Ready};
ghost use Rattle.device_frames.specs.Heard.{Calls, Garbled, Responds, Unreadable, heard_of as device_hears};
ghost use Rattle.device_frames.specs.Sent.{plug_ready_frame, ready_frame, response_frame};
ghost use Rattle.controller_core.specs.start_up.Answers.{ready_in};
ghost use Rattle.controller_messages.specs.declared.plug_request.PlugRequest.{PlugRequest};
ghost use Rattle.controller_messages.specs.declared.record_request.RecordRequest.{RecordRequest};
ghost use Rattle.controller_messages.specs.declared.request.Request.{Request};
ghost use Rattle.controller_messages.specs.declared.setup.Setup.{Setup};
ghost use Rattle.controller_messages.specs.Heard.{Calls as Called, Nothing, Responds as Responded, heard_of as controller_hears};
ghost use Rattle.controller_messages.specs.PlugRequests.{plug_answer, plug_call};
ghost use Rattle.controller_messages.specs.RecordRequests.{record_call};
ghost use Rattle.controller_messages.specs.Requests.{call_for};
ghost use Rattle.controller_messages.specs.Sent.{answer_frame, call_frame, calls_at, ready_answer};
ghost use Rattle.frame_codec.specs.Sendable.{IsMac, IsTag, carrying};
ghost use Rattle.rpc_core.specs.Sendable.{CanBeAnswered, CanBeCalled, IsHeader, IsUuid};
ghost use Rattle.end_laws.specs.hearing.Hearing.{IsUncalled, IsUnreported, comes, mine_reported, own_reported};
ghost use Rattle.end_laws.specs.hearing.Stations.{IsAddress, IsCalled, IsCaller, IsDevice, IsNumbered, IsPlugCall, IsRecordCall, IsSetup, plug_ready_call, ready_call};

use block_codec::blocks_are_read;
use controller_messages::calls_are_no_refusals;
use frame_codec::frames_are_read;
use rpc_core::{
    calls_and_responses_differ, calls_are_read, calls_name_their_interface, responses_are_read,
};

/// Calls and the response to ApplicationReady can be sent. These are laws of the definitions.
pub fn calls_can_be_sent()
    // Each call of a controller for its plan can be sent: its header and its blocks fit.
    ensures call { (setup : Setup) (request : Request) → IsSetup setup → IsCalled request → IsNumbered request →
        CanBeCalled devices (call_for setup request) }
    // Each call for a request of the application can be sent.
    ensures record_call { (setup : Setup) (request : RecordRequest) (octets : List ℕ) → IsSetup setup → IsRecordCall request octets →
        CanBeCalled devices (record_call setup request octets) }
    // Each call after a plug can be sent: a Write of a record of the plan, or PrmEnd.
    ensures plug_call { (setup : Setup) (request : PlugRequest) → IsSetup setup → IsPlugCall request →
        CanBeCalled devices (plug_call setup request) }
    // ApplicationReady can be sent: it has one block, which fits.
    ensures ready { (ready : Ready) → IsHeader ready.header → ready.header.interface ≡ interface_uuid controllers →
        IsUuid ready.block.ar_uuid
        → CanBeCalled controllers (ready_call ready) }
    // The response to ApplicationReady can be sent: it has one block, which fits.
    ensures answer { (call : Call) (block : ControlBlock) → IsHeader call.header → call.args_maximum < 4294967296 → IsUuid block.ar_uuid
        → CanBeAnswered (ready_answer call block) }
    // So can the response to the ApplicationReady of a plug.
    ensures plug_answer { (call : Call) (block : PlugControlBlock) → IsHeader call.header → call.args_maximum < 4294967296 →
        IsUuid block.ar_uuid
        → CanBeAnswered (plug_answer call block) }
{
    blocks_are_read();
}

/// What is heard of a call of the controller. These are laws of the definitions.
pub fn calls_are_heard()
    // If a call can be sent, the device that it goes to hears it: from the controller, to the IP address of the plan.
    ensures device { (identity : Identity) (setup : Setup) (to : Mac) (call : Call) → IsSetup setup → IsMac to → CanBeCalled devices call
        → device_hears identity (comes (call_frame setup to call))
        ≡ own_reported identity setup.plan.controller.mac to (calls_at setup.plan.controller.address)
        (calls_at setup.plan.station.suite.address) (Calls call) }
    // A controller hears nothing of a call to a device that can be sent.
    ensures controller { (mine : Controller) (setup : Setup) (to : Mac) (call : Call) → IsSetup setup → IsMac to → CanBeCalled devices call
        → controller_hears mine (call_frame setup to call) ≡ Nothing }
{
    frames_are_read();
    calls_are_read();
    calls_are_no_refusals();
    calls_and_responses_differ();
    calls_name_their_interface();
}

/// What is heard of a response of the device. These are laws of the definitions.
pub fn responses_are_heard()
    // If a response can be sent, the controller that it goes to hears it.
    ensures controller { (mine : Controller) (identity : Identity) (caller : Caller) (address : List ℕ) (answer : Answered)
        → IsDevice identity → IsCaller caller → IsAddress address → CanBeAnswered answer
        → controller_hears mine (response_frame identity caller address answer)
        ≡ mine_reported mine caller.mac caller.endpoint (Responded answer) }
    // If a response can be sent, a device that it goes to hears a response and not a call.
    ensures device { (other identity : Identity) (caller : Caller) (address : List ℕ) (answer : Answered)
        → IsDevice identity → IsCaller caller → IsAddress address → CanBeAnswered answer
        → device_hears other (comes (response_frame identity caller address answer))
        ≡ own_reported other identity.mac caller.mac (calls_at address) caller.endpoint (Responds answer) }
    // If its blocks have more than 1,372 octets, a response does not fit a frame, and a controller hears nothing of it.
    ensures long { (mine : Controller) (identity : Identity) (caller : Caller) (address : List ℕ) (answer : Answered)
        → IsDevice identity → IsCaller caller → IsAddress address → IsHeader answer.header → 1372 < length answer.blocks
        → controller_hears mine (response_frame identity caller address answer) ≡ Nothing }
    // If its blocks have more than 1,372 octets, a response does not fit a frame, and a device finds it unreadable.
    ensures unread { (other identity : Identity) (caller : Caller) (address : List ℕ) (answer : Answered)
        → IsDevice identity → IsCaller caller → IsAddress address → IsHeader answer.header → 1372 < length answer.blocks
        → device_hears other (comes (response_frame identity caller address answer)) ≡ Unreadable }
{
    frames_are_read();
    responses_are_read();
    calls_and_responses_differ();
}

/// What is heard of ApplicationReady. These are laws of the definitions.
pub fn ready_calls_are_heard()
    // If the call can be sent, the controller that it goes to hears it, from the device.
    ensures controller { (mine : Controller) (identity : Identity) (address : List ℕ) (ready : Ready)
        → IsDevice identity → IsMac ready.partner.mac → IsAddress ready.partner.address → IsAddress address →
        CanBeCalled controllers (ready_call ready)
        → controller_hears mine (ready_frame identity address ready)
        ≡ mine_reported mine ready.partner.mac (calls_at ready.partner.address)
        (Called (record { mac = identity.mac; endpoint = calls_at address }) (ready_call ready)) }
    // A device hears neither a call nor a response in it.
    ensures device { (other identity : Identity) (address : List ℕ) (ready : Ready)
        → IsDevice identity → IsMac ready.partner.mac → IsAddress ready.partner.address → IsAddress address →
        CanBeCalled controllers (ready_call ready)
        → device_hears other (comes (ready_frame identity address ready))
        ≡ own_reported other identity.mac ready.partner.mac (calls_at address) (calls_at ready.partner.address) Garbled }
{
    frames_are_read();
    calls_are_read();
    calls_and_responses_differ();
    calls_name_their_interface();
}

/// What is heard of the ApplicationReady of a plug. These are laws of the definitions.
pub fn plug_calls_are_heard()
    // The call can be sent: it has one block, which fits.
    ensures sent { (ready : PlugReady) → IsHeader ready.header → ready.header.interface ≡ interface_uuid controllers →
        IsUuid ready.block.ar_uuid
        → CanBeCalled controllers (plug_ready_call ready) }
    // If it can be sent, the controller that it goes to hears it, from the device.
    ensures controller { (mine : Controller) (identity : Identity) (address : List ℕ) (ready : PlugReady)
        → IsDevice identity → IsMac ready.partner.mac → IsAddress ready.partner.address → IsAddress address →
        CanBeCalled controllers (plug_ready_call ready)
        → controller_hears mine (plug_ready_frame identity address ready)
        ≡ mine_reported mine ready.partner.mac (calls_at ready.partner.address)
        (Called (record { mac = identity.mac; endpoint = calls_at address }) (plug_ready_call ready)) }
    // It is not the ApplicationReady of a relation: a controller finds no block of one in it.
    ensures other { (ready : PlugReady) → ready_in (plug_ready_call ready) ≡ None }
    // A device hears neither a call nor a response in it.
    ensures device { (other identity : Identity) (address : List ℕ) (ready : PlugReady)
        → IsDevice identity → IsMac ready.partner.mac → IsAddress ready.partner.address → IsAddress address →
        CanBeCalled controllers (plug_ready_call ready)
        → device_hears other (comes (plug_ready_frame identity address ready))
        ≡ own_reported other identity.mac ready.partner.mac (calls_at address) (calls_at ready.partner.address) Garbled }
{
    frames_are_read();
    calls_are_read();
    calls_and_responses_differ();
    calls_name_their_interface();
}

/// What is heard of the response to ApplicationReady. These are laws of the definitions.
pub fn ready_answers_are_heard()
    // If the response can be sent, the device that it goes to hears a response and not a call.
    ensures device { (identity : Identity) (setup : Setup) (caller : Caller) (answer : Answered) → IsSetup setup → IsCaller caller →
        CanBeAnswered answer
        → device_hears identity (comes (answer_frame setup caller answer))
        ≡ own_reported identity setup.plan.controller.mac caller.mac (calls_at setup.plan.controller.address) caller.endpoint
        (Responds answer) }
    // If the response can be sent, a controller that it goes to hears it.
    ensures controller { (mine : Controller) (setup : Setup) (caller : Caller) (answer : Answered) → IsSetup setup → IsCaller caller →
        CanBeAnswered answer
        → controller_hears mine (answer_frame setup caller answer) ≡ mine_reported mine caller.mac caller.endpoint (Responded answer) }
{
    frames_are_read();
    responses_are_read();
    calls_and_responses_differ();
}

/// Only datagrams are calls and responses. These are laws of the definitions.
pub fn datagrams_alone_are_calls()
    // In real-time data of any length and FrameID a device hears neither a call nor a response.
    ensures device { (identity : Identity) (destination source : Mac) (tag : Option ℕ) (frame_id : ℕ) (body : List ℕ) → IsMac destination →
        IsMac source → IsTag tag
        → IsUnreported (device_hears identity (comes (frame_bytes (carrying destination source tag (RealTime frame_id body))))) }
    // In real-time data of any length and FrameID a controller hears neither a call nor a response.
    ensures controller { (mine : Controller) (destination source : Mac) (tag : Option ℕ) (frame_id : ℕ) (body : List ℕ) →
        IsMac destination → IsMac source → IsTag tag
        → IsUncalled (controller_hears mine (frame_bytes (carrying destination source tag (RealTime frame_id body)))) }
{
    frames_are_read();
}
