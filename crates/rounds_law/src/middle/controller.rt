//! A controller that waits for ApplicationReady.
ghost use Rattle.std.specs.Prelude.{◌≡◌, ℕ, suc, List, [], ◌∷◌, None};
ghost use Rattle.std.specs.List.{AllByRecursion};
ghost use Rattle.controller_core.specs.declared.stored.event.Event.TheVariants.{Tick};
ghost use Rattle.controller_core.specs.stored.State.{Controlling};
ghost use Rattle.controller_core.specs.Machine.{step_of};
ghost use Rattle.rounds_law.specs.Middle.{WaitsForReady};
ghost use Rattle.rounds_law.specs.Path.{BeginsNoTurn, Controls, IsInputs, IsOutputs, confirmed_frame, controller_step, readied_frame};

use block_codec::blocks_are_read;
use controller_messages::Setup;
use end_laws::{
    calls_can_be_sent, inputs_are_heard, ready_calls_are_heard, responses_are_heard,
    stations_are_real,
};
use frame_codec::formats_are_sound;
use pn_values::Identity;

/// What a controller does that waits for ApplicationReady. These are laws of the machine by which each step of a controller is specified.
pub fn controller_waits_for_ready(setup: &Setup, identity: &Identity)
    // While its time is not over, it still waits after a unit, and only outputs are sent.
    ensures unit { (serial : ℕ) (controller : Controlling) (spare : ℕ) → WaitsForReady setup.now serial identity.now.mac (suc spare) controller
        → AllByRecursion (IsOutputs setup.now (Some serial) identity.now.mac) (step_of controller Tick).frames
        × WaitsForReady setup.now serial identity.now.mac spare (step_of controller Tick).controller }
    // A frame of inputs does not change this, and nothing is sent.
    ensures inputs { (serial : ℕ) (controller : Controlling) (spare : ℕ) (octets : List ℕ) → IsInputs setup.now identity.now octets
        → WaitsForReady setup.now serial identity.now.mac spare controller
        → ((controller_step controller octets).frames ≡ [])
        × WaitsForReady setup.now serial identity.now.mac spare (controller_step controller octets).controller }
    // It answers ApplicationReady and exchanges data. It sends nothing else.
    ensures readied { (serial : ℕ) (controller : Controlling) (spare : ℕ) → WaitsForReady setup.now serial identity.now.mac spare controller
        → ((controller_step controller (readied_frame setup.now identity.now)).frames ≡ confirmed_frame setup.now identity.now ∷ [])
        × Controls setup.now serial identity.now.mac 0 (controller_step controller (readied_frame setup.now identity.now)).controller
        × ((controller_step controller (readied_frame setup.now identity.now)).controller.live.low_alarms.sending.waiting ≡ None)
        × BeginsNoTurn (controller_step controller (readied_frame setup.now identity.now)).controller.live }
    // While data is exchanged, a frame of inputs makes no AlarmAck wait for its ACK, and no place wait for its turn.
    ensures quiet { (serial : ℕ) (controller : Controlling) (age : ℕ) (octets : List ℕ) → IsInputs setup.now identity.now octets
        → Controls setup.now serial identity.now.mac age controller → controller.live.low_alarms.sending.waiting ≡ None
        → ((controller_step controller octets).frames ≡ []) × Controls setup.now serial identity.now.mac age (controller_step controller octets).controller
        × ((controller_step controller octets).controller.live.low_alarms.sending.waiting ≡ None)
        × (BeginsNoTurn controller.live → BeginsNoTurn (controller_step controller octets).controller.live) }
{
    stations_are_real(setup, identity);
    formats_are_sound();
    inputs_are_heard();
    calls_can_be_sent();
    responses_are_heard();
    ready_calls_are_heard();
    blocks_are_read();
}
