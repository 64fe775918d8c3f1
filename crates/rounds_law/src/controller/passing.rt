//! Units of time, cyclic frames, and alarms of low priority.
ghost use Rattle.std.specs.Prelude.{◌≡◌, ◌≤◌, ◌<◌, ◌+◌, ℕ, suc, Bool, true, false, List, [], Option, None, Some};
ghost use Rattle.std.specs.List.{AllByRecursion};
ghost use Rattle.controller_core.specs.declared.stored.state.State.{State as Phases};
ghost use Rattle.controller_core.specs.declared.stored.event.Event.TheVariants.{Tick};
ghost use Rattle.controller_core.specs.stored.State.{Controlling, is_limited};
ghost use Rattle.controller_core.specs.Machine.{step_of};
ghost use Rattle.controller_messages.specs.declared.request.Request.{Request};
ghost use Rattle.rounds_law.specs.Path.{Asks, BeginsNoTurn, Controls, IsInputs, IsOutputs, IsReport, controller_step, hold_of};

use controller_messages::Setup;
use end_laws::{alarms_are_heard, inputs_are_heard, stations_are_real};
use frame_codec::formats_are_sound;
use pn_values::Identity;

/// What units of time, cyclic frames and alarms of low priority do at a controller. These are laws of the machine by which each step
/// of a controller is specified.
pub fn controller_goes_on_in_time(setup: &Setup, identity: &Identity)
    // While it waits for a response and its time is not over, it still waits after a unit, and only outputs are sent.
    ensures unit { (controller : Controlling) (phase : Phases) (request : Request) (stands : Option ℕ) (spare : ℕ) → is_limited phase ≡ true
        → Asks setup.now identity.now.mac phase request stands (suc spare) controller
        → AllByRecursion (IsOutputs setup.now stands identity.now.mac) (step_of controller Tick).frames
        × Asks setup.now identity.now.mac phase request stands spare (step_of controller Tick).controller }
    // While its relation is not established, nothing is sent.
    ensures unsent { (controller : Controlling) (phase : Phases) (request : Request) (spare : ℕ) → is_limited phase ≡ true
        → Asks setup.now identity.now.mac phase request None (suc spare) controller → (step_of controller Tick).frames ≡ [] }
    // A frame of inputs does not change this, and nothing is sent.
    ensures inputs { (controller : Controlling) (phase : Phases) (request : Request) (stands : Option ℕ) (spare : ℕ) (octets : List ℕ)
        → IsInputs setup.now identity.now octets → Asks setup.now identity.now.mac phase request stands spare controller
        → ((controller_step controller octets).frames ≡ [])
        × Asks setup.now identity.now.mac phase request stands spare (controller_step controller octets).controller }
    // While data is exchanged, it still exchanges data after a unit. If no AlarmAck waits for its ACK, and no request after a plug for its
    // answer, and no turn of a place begins with the unit, only outputs are sent.
    ensures later_unit { (serial : ℕ) (controller : Controlling) (age : ℕ) → age + 2 ≤ hold_of setup.now.plan
        → age < 3000 → Controls setup.now serial identity.now.mac age controller
        → Controls setup.now serial identity.now.mac (suc age) (step_of controller Tick).controller
        × (controller.live.low_alarms.sending.waiting ≡ None → BeginsNoTurn controller.live
        → AllByRecursion (IsOutputs setup.now (Some serial) identity.now.mac) (step_of controller Tick).frames
        × ((step_of controller Tick).controller.live.low_alarms.sending.waiting ≡ None)) }
    ensures later_inputs { (serial : ℕ) (controller : Controlling) (age : ℕ) (octets : List ℕ) → IsInputs setup.now identity.now octets
        → Controls setup.now serial identity.now.mac age controller
        → ((controller_step controller octets).frames ≡ []) × Controls setup.now serial identity.now.mac age (controller_step controller octets).controller }
    // After an alarm of low priority it still exchanges data.
    ensures reported { (serial : ℕ) (controller : Controlling) (age : ℕ) (octets : List ℕ) → IsReport setup.now identity.now octets
        → Controls setup.now serial identity.now.mac age controller
        → Controls setup.now serial identity.now.mac age (controller_step controller octets).controller }
{
    stations_are_real(setup, identity);
    formats_are_sound();
    inputs_are_heard();
    alarms_are_heard();
}
