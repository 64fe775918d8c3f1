//! A controller and what is beside it.
ghost use Rattle.std.specs.Prelude.{◌≡◌, ◌+◌, ◌<◌, ◌≤◌, [], ◌∷◌, ℕ, List, None, Some, true, false, length, option_map};
ghost use Rattle.frame_codec.specs.declared.arp.Arp.{Arp};
ghost use Rattle.frame_codec.specs.Frame.{frame_bytes, frame_of};
ghost use Rattle.frame_codec.specs.Meaning.{ArpPacket, Meaning};
ghost use Rattle.frame_codec.specs.Outbox.{boxed};
ghost use Rattle.lldp.specs.State.{Known};
ghost use Rattle.lldp.specs.Views.{peer_as};
ghost use Rattle.services.specs.Answer.{answer_to, arp_reply_of};
ghost use Rattle.controller_messages.specs.Heard.{Nothing, heard_of};
ghost use Rattle.controller_messages.specs.Options.{default_options};
ghost use Rattle.controller_core.specs.Leaps.{NoneEnds, OnlyTheLastEnds};
ghost use Rattle.controller_core.specs.Machine.{before_start, opening_of, step_of};
ghost use Rattle.controller_core.specs.stored.Opening.{IsClosed};
ghost use Rattle.controller_core.specs.declared.stored.event.Event.TheVariants.{Frame as Framed, Give as Given};
ghost use Rattle.controller_station.specs.Beside.{beside_at, due_in, ticks_of};
ghost use Rattle.controller_dcp.specs.Station.{answer_to as told_to};
ghost use Rattle.controller_station.specs.Served.{after_frame, answered, begun, beside, beside_frame, by_services, is_sought, no_frames, only, services_after, told_at, told_frame};
ghost use Rattle.controller_station.specs.Runs.{IsSilent, all_at, sent_at};
ghost use Rattle.controller_station.specs.Leaps.{NoneSends, OnlyTheLastSends, sent_beside, sent_by, served_due_in, ticked_by};

use crate::{ControllerServices, ServedOutbox};
use controller_core::{Controller, ControllerOptions, Event};
use frame_codec::{Frame, Outbox};
use lldp::Neighbour;
use plans::Plan;
use rpc_core::Uuid;
use std::marker::Model;

/// A controller and what is beside it: the services of its IP address, and its neighbour by LLDP. In clauses it is both.
#[derive(Drop)]
pub struct ServedController {
    controller: Controller,
    services: ControllerServices,
    /// At most what is due of what is beside; 0 if that is not counted.
    calm: u32,
}

impl Model for ServedController {
    ghost use Rattle.std.specs.Prelude.{◌≡◌, ◌≤◌};
    ghost use Rattle.services.specs.declared.announcement.Role.TheVariants.{Controller};
    ghost use Rattle.controller_station.specs.Beside.{due_in};
    ghost use Rattle.controller_station.specs.Served.{Served};

    ghost Value = { Served };

    ghost view = { λ served. record { controller = served.controller; services = served.services } };

    ghost invariant = { λ served.
        (served.services.ip.role ≡ Controller)
        × (served.services.ip.mac ≡ served.controller.setup.plan.controller.mac)
        × (served.services.ip.address ≡ served.controller.setup.plan.controller.address)
        × (served.calm ≤ due_in served.services) };
}

impl ServedController {
    /// The controller of a plan, with the ARUUID of its relation, which is not zero, and the activity of its calls, and
    /// what is beside the controller of the plan. Its opening frame counts as sent.
    pub fn new(plan: Plan, ar: Uuid, activity: Uuid) -> ServedController
        ensures { result ≡ begun (record { plan = plan; ar = ar; activity = activity; options = default_options }) }
    {
        ServedController {
            services: services_of(&plan),
            controller: Controller::new(plan, ar, activity),
            calm: 0,
        }
    }

    /// The same with options of the controller.
    pub fn new_with(
        plan: Plan,
        ar: Uuid,
        activity: Uuid,
        options: ControllerOptions,
    ) -> ServedController
        ensures { result ≡ begun (record { plan = plan; ar = ar; activity = activity; options = options }) }
    {
        ServedController {
            services: services_of(&plan),
            controller: Controller::new_with(plan, ar, activity, options),
            calm: 0,
        }
    }

    /// The controller of a plan before it starts, and what is beside it. It is small to make, so it can be written where it
    /// stays: `start` then completes it in place.
    #[inline(always)]
    pub fn unstarted(
        plan: Plan,
        ar: Uuid,
        activity: Uuid,
        options: ControllerOptions,
    ) -> ServedController
        ensures setup { result.controller.setup ≡ record { plan = plan; ar = ar; activity = activity; options = options } }
        // No request was made, no timer of the controller runs, no relation is established, and nothing was received.
        ensures live { result.controller.live ≡ before_start result.controller.live.cyclic }
        // No data is exchanged, and no submodule has a place.
        ensures closed { IsClosed result.controller.live.cyclic }
        // What is beside it is as at its start.
        ensures services { result.services ≡ beside_at plan.controller }
    {
        ServedController {
            services: services_of(&plan),
            controller: Controller::unstarted(plan, ar, activity, options),
            calm: 0,
        }
    }

    /// Starts in place, in any state: both are then as `new_with` makes them from the same plan and options. Its opening frame
    /// counts as sent.
    pub fn start(&mut self)
        ensures { self.new ≡ begun self.old.controller.setup }
    {
        self.controller.start();
        restart(&mut self.services, self.controller.plan());
        self.calm = 0;
    }

    /// Replaces the content of the outbox by the Identify frame with which it begins.
    pub fn send_opening(&self, outbox: &mut ServedOutbox)
        ensures { outbox.new ≡ record { controller = opening_of self.now.controller ∷ []; services = [] } }
    {
        outbox.controller.clear();
        outbox.services.clear();
        self.controller.send_opening(&mut outbox.controller);
    }

    /// The Identify frame with which it begins.
    pub fn opening(&self) -> Frame
        ensures { result.items ≡ opening_of self.now.controller }
    {
        self.controller.opening()
    }

    /// The controller.
    pub fn controller(&self) -> &Controller
        ensures { result.now ≡ self.now.controller }
    {
        &self.controller
    }

    /// How many frames of ARP came from another station that uses the controller's address.
    pub fn conflicts(&self) -> u64
        ensures { result ≡ self.now.services.ip.conflicts }
    {
        self.services.conflicts()
    }

    /// The neighbour by LLDP that is known: the station at the other end of the controller's cable.
    pub fn neighbour(&self) -> Option<&Neighbour>
        ensures { option_map (λ n. peer_as n.now) result ≡ option_map (λ (k : Known). k.peer) self.now.services.near.known }
    {
        self.services.neighbour()
    }

    /// Handles one event, and replaces the content of the outbox by the frames to be sent.
    pub fn step(&mut self, event: &Event, outbox: &mut ServedOutbox)
        // The controller is the controller alone after this event.
        ensures controller { self.new.controller ≡ (step_of self.old.controller event.now).controller }
        // What is beside receives a frame that the controller does not answer, and each tick.
        ensures services { self.new.services
            ≡ services_after self.old.services event.now (step_of self.old.controller event.now).frames }
        // The controller sends what the controller alone sends, in the same order.
        ensures frames { outbox.new.controller ≡ (step_of self.old.controller event.now).frames }
        // For a frame the services of the IP address send their answer, and nothing if the controller sends anything. In a
        // tick they send theirs, and LLDP follows if it is due. If neither sends anything for a frame, the DCP station does, if
        // the frame is a request that it answers.
        ensures beside { outbox.new ≡ all_at self.old event.now }
        // At most two frames are sent beside.
        ensures few { length outbox.new.services ≤ 2 }
        // Whatever the controller does: a request of ARP for its address, to it or to all, is answered by this reply, and
        // by nothing else.
        ensures arp { (octets : List ℕ) (meaning : Meaning) (packet : Arp) → event.now ≡ Framed (record { items = octets }) →
            frame_of octets ≡ Ok meaning → meaning.content ≡ ArpPacket packet → is_sought self.old meaning.destination packet ≡ true →
            outbox.new ≡ by_services (frame_bytes (arp_reply_of self.old.controller.setup.plan.controller.mac
            self.old.controller.setup.plan.controller.address meaning.source packet.sender)) }
        // No other packet of ARP is answered: none for another address, none to another station, and no reply.
        ensures arp_dropped { (octets : List ℕ) (meaning : Meaning) (packet : Arp) → event.now ≡ Framed (record { items = octets }) →
            frame_of octets ≡ Ok meaning → meaning.content ≡ ArpPacket packet → is_sought self.old meaning.destination packet ≡ false →
            outbox.new ≡ no_frames }
        // What the controller drops goes to the services, and their answer is all that is sent, but for answers of the DCP station.
        ensures dropped { (octets : List ℕ) → event.now ≡ Framed (record { items = octets }) →
            heard_of self.old.controller.setup.plan.controller octets ≡ Nothing →
            outbox.new ≡ answered self.old.controller.setup.plan event.now (only (answer_to self.old.services.ip octets)) }
        // In every state: a request that the DCP station of the plan answers is answered by this frame, and by nothing else.
        ensures told { (octets frame : List ℕ) → event.now ≡ Framed (record { items = octets }) →
            told_to self.old.controller.setup.plan octets ≡ Some frame → outbox.new ≡ by_services frame }
        // For any other frame the DCP station sends nothing.
        ensures untold { (octets : List ℕ) → event.now ≡ Framed (record { items = octets }) →
            told_to self.old.controller.setup.plan octets ≡ None → outbox.new ≡ sent_at self.old event.now }
    {
        advance(
            &mut self.controller,
            &mut self.services,
            event,
            &mut outbox.controller,
            &mut outbox.services,
        );
        self.calm = 0;
    }

    /// Takes a cyclic frame to the controller, which is only read and not kept: it does what `step` does with the event of these octets, and
    /// sends nothing. Returns whether the octets are such a frame; if not, nothing changes.
    #[inline(always)]
    pub fn take_cyclic(&mut self, octets: &[u8]) -> bool
        ensures taken { result ≡ true → IsSilent self.old (Framed (record { items = octets.now })) self.new }
        ensures left { result ≡ false → self.new ≡ self.old }
        // It only puts off what is due.
        ensures due { served_due_in self.old ≤ served_due_in self.new }
    {
        self.controller.take_cyclic(octets)
    }

    /// Sets the output of a submodule, as `step` does with that event, and sends nothing.
    #[inline(always)]
    pub fn take_output(&mut self, slot: u16, subslot: u16, value: &[u8])
        ensures given { IsSilent self.old (Given slot subslot (record { items = value.now })) self.new }
        // It changes nothing that is due.
        ensures due { served_due_in self.new ≡ served_due_in self.old }
    {
        self.controller.take_output(slot, subslot, value);
    }

    /// The number of units up to and including the next one with which either of both sends something, the neighbour is forgotten,
    /// or the controller ends.
    pub fn due(&self) -> u32
        ensures value { result ≡ served_due_in self.now }
        ensures some { 0 < result }
    {
        self.controller.due().min(self.services.due_in())
    }

    /// At most what is due, as `due` counts it. What is due of what is beside stays known until it concerns a frame or sends something, and
    /// is not counted again before.
    pub fn count(&mut self) -> u32
        ensures same { self.new ≡ self.old }
        ensures few { result ≤ served_due_in self.old }
        ensures some { 0 < result }
    {
        if self.calm == 0 {
            self.calm = self.services.due_in();
        }
        self.controller.due().min(self.calm)
    }

    /// Lets units of 31.25 microseconds pass at once, fewer than `due` returns: with none of them is anything sent, and the
    /// controller does not end. It has the same effect as that many Tick events, one by one.
    #[inline(always)]
    pub fn skip(&mut self, units: u32)
        requires { units < served_due_in self.old }
        ensures state { self.new ≡ ticked_by units self.old }
        ensures none { NoneSends units self.old }
        ensures ends { NoneEnds units self.old.controller }
        // What is due comes nearer by at most these units.
        ensures due { served_due_in self.old ≤ units + served_due_in self.new }
    {
        self.controller.leap(units);
        self.services.pass(units);
        self.calm = self.calm.saturating_sub(units);
    }

    /// Lets `units` units of 31.25 microseconds pass at once, at most as many as `due` returns, and replaces the content of
    /// the outbox by the frames to be sent. It has the same effect as that many Tick events, one by one.
    pub fn elapse(&mut self, units: u32, outbox: &mut ServedOutbox)
        requires { units ≤ served_due_in self.old }
        // Both, and what they send, are those after that many Tick events. Only the last of them may send.
        ensures state { self.new ≡ ticked_by units self.old }
        ensures frames { outbox.new ≡ sent_by units self.old }
        ensures last { OnlyTheLastSends units self.old }
        // Only the last of them may end the controller.
        ensures ends { OnlyTheLastEnds units self.old.controller }
    {
        self.controller.elapse(units, &mut outbox.controller);
        self.calm = pass_beside(&mut self.services, units, self.calm, &mut outbox.services);
    }
}

/// What is beside the controller of a plan at its start.
fn services_of(plan: &Plan) -> ControllerServices
    ensures { result ≡ beside_at plan.now.controller }
{
    ControllerServices::new(plan.controller())
}

/// What is beside the controller of a plan starts again. It is a function of its own, so that the stack below which the controller starts does not hold it.
#[inline(never)]
fn restart(services: &mut ControllerServices, plan: &Plan)
    ensures { services.new ≡ beside_at plan.now.controller }
{
    *services = services_of(plan);
}

/// One event at the controller, and then beside it.
#[tactic(auto, using(crate::proofs::Besides::plan_kept))]
fn advance(
    controller: &mut Controller,
    services: &mut ControllerServices,
    event: &Event,
    sent: &mut Outbox,
    outbox: &mut Outbox,
)
    ensures controller { controller.new ≡ (step_of controller.old event.now).controller }
    ensures services { services.new ≡ services_after services.old event.now (step_of controller.old event.now).frames }
    ensures frames { boxed sent.new ≡ (step_of controller.old event.now).frames }
    ensures beside { boxed outbox.new ≡ told_at controller.old.setup.plan event.now (step_of controller.old event.now).frames
        (beside services.old event.now (step_of controller.old event.now).frames) }
{
    controller.step(event, sent);
    outbox.clear();
    match event {
        Event::Frame(bytes) => {
            hear_beside(services, controller.plan(), bytes.as_slice(), sent, outbox)
        }
        Event::Tick => services.tick(outbox),
        Event::Give(_, _, _)
        | Event::Status(_, _, _)
        | Event::Read(_, _, _)
        | Event::Write(_, _, _, _)
        | Event::Stop => {}
    }
}

/// Units of time beside the controller, at most as many as are due there: only the last may send. `calm` is at most what is due there, and so
/// is the result, after them.
fn pass_beside(services: &mut ControllerServices, units: u32, calm: u32, outbox: &mut Outbox) -> u32
    requires few { units ≤ due_in services.old }
    requires calm { calm ≤ due_in services.old }
    ensures state { services.new ≡ ticks_of units services.old }
    ensures frames { boxed outbox.new ≡ sent_beside units services.old }
    ensures last { (before : ℕ) → before < units → sent_beside before services.old ≡ [] }
    ensures calm { result ≤ due_in services.new }
{
    outbox.clear();
    // With most units nothing is due there.
    if units < calm {
        services.pass(units);
        return calm - units;
    }
    tick_beside(services, units, outbox);
    0
}

/// The same, if something may be due there with the last of them.
#[inline(never)]
fn tick_beside(services: &mut ControllerServices, units: u32, outbox: &mut Outbox)
    requires few { units ≤ due_in services.old }
    requires empty { outbox.old.items ≡ [] }
    ensures state { services.new ≡ ticks_of units services.old }
    ensures frames { boxed outbox.new ≡ sent_beside units services.old }
    ensures last { (before : ℕ) → before < units → sent_beside before services.old ≡ [] }
{
    if units == 0 {
        return;
    }
    services.pass(units - 1);
    services.tick(outbox);
}

/// A frame for which the controller sent these frames: only if it sent none, what is beside receives it.
#[inline(always)]
#[tactic(auto, using(crate::proofs::Besides::answered_already, crate::proofs::Telling::told_by_controller))]
fn hear_beside(
    services: &mut ControllerServices,
    plan: &Plan,
    bytes: &[u8],
    sent: &Outbox,
    outbox: &mut Outbox,
)
    requires empty { outbox.old.items ≡ [] }
    ensures services { services.new ≡ after_frame services.old bytes.now (boxed sent.now) }
    ensures frames { boxed outbox.new
        ≡ told_frame plan.now bytes.now (boxed sent.now) (beside_frame services.old bytes.now (boxed sent.now)) }
{
    if sent.is_empty() {
        services.hear(bytes, outbox);
        tell(plan, bytes, outbox);
    }
}

/// A frame to which the controller sent nothing, and its services these frames: only if they sent none, the DCP station answers.
#[tactic(auto, using(crate::proofs::Telling::told_by_services, crate::proofs::Telling::told_after_none))]
fn tell(plan: &Plan, bytes: &[u8], outbox: &mut Outbox)
    ensures { boxed outbox.new ≡ told_frame plan.now bytes.now [] (boxed outbox.old) }
{
    if outbox.is_empty() {
        controller_dcp::answer(plan, bytes, outbox);
    }
}
