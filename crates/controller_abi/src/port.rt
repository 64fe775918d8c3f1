//! A controller and what is beside it, and the frames of their last step that the host has not fetched yet.
ghost use Rattle.std.specs.Prelude.{◌≡◌, ◌<◌, ◌≤◌, Bool, false, option_map, true};
ghost use Rattle.lldp.specs.State.{Known};
ghost use Rattle.lldp.specs.Views.{peer_as};
ghost use Rattle.controller_core.specs.declared.stored.event.Event.TheVariants.{Frame as Framed, Give as Given};
ghost use Rattle.controller_station.specs.Served.{begun};
ghost use Rattle.controller_abi.specs.Outputs.{output_at as output_in, output_of as output_in_module};
ghost use Rattle.controller_abi.specs.State.{IsNext, IsUnstarted, advanced, after, has_frames, is_over as over, is_stopped as stops, opened, port_due_in};
ghost use Rattle.controller_abi.specs.Steps.{Passes, Ticks};

use controller_core::{Controller, ControllerOptions, Event, State};
use controller_station::{ServedController, ServedOutbox};
use frame_codec::Frame;
use lldp::Neighbour;
use plans::Plan;
use pn_values::{RealModule, RealSubmodule};
use std::marker::Model;
use uuid::Uuid;

/// A controller and what is beside it, and the frames of their last step that the host has not fetched yet.
///
/// Events go in, one at a time, and after each the host fetches all frames.
#[derive(Drop)]
pub struct Port {
    served: ServedController,
    outbox: ServedOutbox,
    /// The number of frames in the outbox that the host has fetched.
    frames_past: usize,
    /// At most what is due of a port whose frames are fetched; 0 if that is not counted.
    due: u32,
    /// Whether the host started it.
    is_started: bool,
}

impl Model for Port {
    ghost use Rattle.std.specs.Prelude.{drop};
    ghost use Rattle.controller_station.specs.Served.{in_order};
    ghost use Rattle.controller_abi.specs.State.{IsKnown, State};

    ghost Value = { State };

    ghost view = { λ port. record { controller = port.served.controller; services = port.served.services; frames = drop port.frames_past (in_order port.outbox); is_started = port.is_started } };

    ghost invariant = { λ port. IsKnown port.due (record { controller = port.served.controller; services = port.served.services; frames = drop port.frames_past (in_order port.outbox); is_started = port.is_started }) };
}

impl Port {
    /// The controller of a plan, with the ARUUID of its relation, the activity of its calls and its options, before it starts.
    #[inline(always)]
    pub fn unstarted(plan: Plan, ar: Uuid, activity: Uuid, options: ControllerOptions) -> Port
        ensures { IsUnstarted (record { plan = plan; ar = ar; activity = activity; options = options }) result }
    {
        Port {
            served: ServedController::unstarted(plan, ar, activity, options),
            outbox: ServedOutbox::new(),
            frames_past: 0,
            due: 0,
            is_started: false,
        }
    }

    /// Starts the controller in place. Its opening frame waits to be fetched, and nothing else remains.
    pub fn start(&mut self)
        ensures { self.new ≡ opened (begun self.old.controller.setup) }
    {
        self.served.start();
        self.served.send_opening(&mut self.outbox);
        self.frames_past = 0;
        self.due = 0;
        self.is_started = true;
    }

    /// Whether it was started.
    #[inline(always)]
    pub fn is_started(&self) -> bool
        ensures { result ≡ self.now.is_started }
    {
        self.is_started
    }

    /// The controller.
    pub fn controller(&self) -> &Controller
        ensures { result.now ≡ self.now.controller }
    {
        self.served.controller()
    }

    /// How many frames of ARP came from another station that uses the controller's address.
    pub fn conflicts(&self) -> u64
        ensures { result ≡ self.now.services.ip.conflicts }
    {
        self.served.conflicts()
    }

    /// The neighbour by LLDP that is known.
    pub fn neighbour(&self) -> Option<&Neighbour>
        ensures { option_map (λ n. peer_as n.now) result ≡ option_map (λ (k : Known). k.peer) self.now.services.near.known }
    {
        self.served.neighbour()
    }

    /// The number of units up to and including the next one with which anything is due.
    pub fn due(&self) -> u32
        ensures value { result ≡ port_due_in self.now }
        ensures some { 0 < result }
    {
        self.served.due()
    }

    /// Whether frames of the last step remain.
    pub fn has_work(&self) -> bool
        ensures { result ≡ has_frames self.now.frames }
    {
        self.frames_past < self.outbox.len()
    }

    // ---- frames

    /// The next frame, if one remains.
    pub fn next(&self) -> Option<&Frame>
        ensures { IsNext self.now.frames (option_map (λ frame. frame.now) result) }
    {
        self.outbox.get(self.frames_past)
    }

    /// Marks that frame as fetched.
    pub fn advance(&mut self)
        ensures { self.new ≡ advanced self.old }
    {
        if self.frames_past < self.outbox.len() {
            self.frames_past += 1;
        }
    }

    /// The number of octets of the output of a submodule, if the plan has the submodule.
    pub fn output_at(&self, slot: u16, subslot: u16) -> Option<u16>
        ensures { result ≡ output_in slot subslot self.now.controller.setup.plan.real.modules.items }
    {
        output_at(
            self.controller().plan().real().modules.as_slice(),
            slot,
            subslot,
        )
    }

    // ---- events

    /// Handles an event. All frames of the step before are fetched.
    #[inline(never)]
    pub fn take(&mut self, event: &Event)
        ensures { self.new ≡ after self.old event.now }
    {
        self.served.step(event, &mut self.outbox);
        self.frames_past = 0;
        self.due = 0;
    }

    /// Takes a cyclic frame to the controller, which is only read and not kept. All frames of the step before are fetched, and none is
    /// sent. What is due stays remembered. Returns whether the octets are such a frame; if not, nothing changes.
    #[inline(always)]
    pub fn take_cyclic(&mut self, octets: &[u8]) -> bool
        requires { has_frames self.old.frames ≡ false }
        ensures taken { result ≡ true → self.new ≡ after self.old (Framed (record { items = octets.now })) }
        ensures left { result ≡ false → self.new ≡ self.old }
    {
        self.served.take_cyclic(octets)
    }

    /// Sets the output of a submodule. All frames of the step before are fetched, and none is sent. What is due stays remembered.
    #[inline(always)]
    pub fn take_output(&mut self, slot: u16, subslot: u16, value: &[u8])
        requires { has_frames self.old.frames ≡ false }
        ensures { self.new ≡ after self.old (Given slot subslot (record { items = value.now })) }
    {
        self.served.take_output(slot, subslot, value);
    }

    /// Lets units of time pass, up to the first that sends something or ends the controller. Returns how many remain.
    #[inline(always)]
    pub fn pass(&mut self, units: u32) -> u32
        requires { has_frames self.old.frames ≡ false }
        ensures { Passes self.old units result self.new }
    {
        let due = self.due;
        if units < due {
            self.rest(units, due);
            return 0;
        }
        self.pass_by_leaps(units)
    }

    // The same, if it is not known that nothing is due before.
    #[inline(never)]
    fn pass_by_leaps(&mut self, units: u32) -> u32
        requires { has_frames self.old.frames ≡ false }
        ensures { Passes self.old units result self.new }
    {
        let was_over = is_over(self.controller().state());
        let mut left = units;
        while left > 0 {
            left -= self.leap_on(left);
            // Most units pass in one leap.
            if left == 0 {
                return 0;
            }
            if self.is_stopped(was_over) {
                return left;
            }
        }
        0
    }

    // Lets units of time pass at once, at most these, up to the next one with which something is due. Returns how many passed.
    #[inline(always)]
    fn leap_on(&mut self, most: u32) -> u32
        requires idle { has_frames self.old.frames ≡ false }
        requires some { 0 < most }
        ensures some { 0 < result }
        ensures few { result ≤ most }
        ensures ticks { (was_over : Bool) → stops was_over self.old ≡ false → Ticks was_over result self.old self.new }
    {
        let due = self.known_due();
        if most < due {
            self.rest(most, due);
            return most;
        }
        self.leap(due);
        due
    }

    // At most what is due: it is counted only if it is not remembered.
    #[inline(always)]
    fn known_due(&mut self) -> u32
        ensures same { self.new ≡ self.old }
        ensures few { result ≤ port_due_in self.old }
        ensures some { 0 < result }
    {
        let due = self.due;
        if due == 0 { self.served.count() } else { due }
    }

    // Lets several units of time pass at once, at most as many as are due. All frames of the step before are fetched.
    fn leap(&mut self, units: u32)
        requires idle { has_frames self.old.frames ≡ false }
        requires few { units ≤ port_due_in self.old }
        ensures { (was_over : Bool) → stops was_over self.old ≡ false → Ticks was_over units self.old self.new }
    {
        self.served.elapse(units, &mut self.outbox);
        self.frames_past = 0;
        self.due = 0;
    }

    // The same of fewer than are due: nothing is sent. What is due then is remembered.
    #[inline(always)]
    fn rest(&mut self, units: u32, due: u32)
        requires idle { has_frames self.old.frames ≡ false }
        requires few { units < due }
        requires due { due ≤ port_due_in self.old }
        ensures { (was_over : Bool) → stops was_over self.old ≡ false → Ticks was_over units self.old self.new }
    {
        self.served.skip(units);
        self.due = due - units;
    }

    // Whether frames remain, or the controller has ended since.
    fn is_stopped(&self, was_over: bool) -> bool
        ensures { result ≡ stops was_over self.now }
    {
        self.has_work() || (!was_over && is_over(self.controller().state()))
    }
}

// The number of octets of the output of a submodule of these modules.
fn output_at(modules: &[RealModule], slot: u16, subslot: u16) -> Option<u16>
    ensures { result ≡ output_in slot subslot modules.now }
{
    for plugged in modules {
        if plugged.slot == slot {
            return output_of(plugged.submodules.as_slice(), subslot);
        }
    }
    None
}

// The same of a submodule of one module.
fn output_of(submodules: &[RealSubmodule], subslot: u16) -> Option<u16>
    ensures { result ≡ output_in_module subslot submodules.now }
{
    for part in submodules {
        if part.subslot == subslot {
            return Some(part.output);
        }
    }
    None
}

// Whether a controller has ended.
fn is_over(state: State) -> bool
    ensures { result ≡ over state }
{
    matches!(state, State::Ended(_))
}
