//! A controller that is refused, or whose device is silent.
ghost use Rattle.std.specs.Prelude.{◌≡◌, ◌⊎◌, ℕ, true, false, List, []};
ghost use Rattle.controller_core.specs.declared.stored.state.State.TheVariants.{Addressing, Connecting};
ghost use Rattle.controller_core.specs.declared.stored.state.Cause.{Cause};
ghost use Rattle.controller_core.specs.declared.stored.state.Cause.TheVariants.{Refused};
ghost use Rattle.controller_core.specs.declared.stored.event.Event.TheVariants.{Tick};
ghost use Rattle.controller_core.specs.start_up.Answers.{is_held, is_state_conflict};
ghost use Rattle.controller_core.specs.stored.State.{Controlling};
ghost use Rattle.controller_core.specs.Machine.{step_of};
ghost use Rattle.controller_messages.specs.declared.request.Request.TheVariants.{Address, Connect};
ghost use Rattle.rounds_law.specs.Path.{Asks, controller_step};
ghost use Rattle.rounds_law.specs.Again.{HasEnded, HasLeft, HasWaited, IsAlone, IsRefusal, unset_frame};
ghost use Rattle.rounds_law.specs.Abandoned.{EndsFor, Releases};

use controller_messages::Setup;
use end_laws::{answers_are_heard, responses_are_heard, stations_are_real};
use pn_values::Identity;

/// What a controller does if its device refuses it or is silent. These are laws of the machine by which each step of a controller is specified.
pub fn controller_ends_refused(setup: &Setup, identity: &Identity)
    // After a negative response to its Connect, the controller has ended. It sends nothing, or a Release.
    ensures denied { (controller : Controlling) (spare : ℕ) (octets : List ℕ) → Asks setup.now identity.now.mac Connecting Connect None spare controller
        → IsRefusal setup.now identity.now octets → EndsFor setup.now identity.now Refused 0 (controller_step controller octets) }
    // It sends a Release if the response says that the device holds its relation already, and the plan has PersistentStart.
    ensures informed { (controller : Controlling) (spare : ℕ) (octets : List ℕ) → Asks setup.now identity.now.mac Connecting Connect None spare controller
        → (refusal : IsRefusal setup.now identity.now octets) → setup.now.plan.persistent_start ≡ true → is_state_conflict refusal.status ≡ true
        → Releases setup.now identity.now Refused 0 (controller_step controller octets) }
    // It sends nothing if the plan lacks the key, or if the response says anything else.
    ensures refused { (controller : Controlling) (spare : ℕ) (octets : List ℕ) → Asks setup.now identity.now.mac Connecting Connect None spare controller
        → (refusal : IsRefusal setup.now identity.now octets) → is_held setup.now.plan refusal.status ≡ false
        → ((controller_step controller octets).frames ≡ []) × HasEnded setup.now Refused (controller_step controller octets).controller }
    // After a negative answer to the Set of the IP suite, the controller has ended.
    ensures unset { (controller : Controlling) (spare : ℕ) → Asks setup.now identity.now.mac Addressing Address None spare controller
        → ((controller_step controller (unset_frame setup.now identity.now)).frames ≡ [])
        × HasEnded setup.now Refused (controller_step controller (unset_frame setup.now identity.now)).controller }
    // A controller that has ended sends nothing, and remains ended.
    ensures unit { (cause : Cause) (controller : Controlling) → HasEnded setup.now cause controller
        → ((step_of controller Tick).frames ≡ []) × HasEnded setup.now cause (step_of controller Tick).controller }
    // While data is exchanged and no frame comes, each unit brings the end of its data hold time one unit nearer. With that it ends.
    ensures alone { (serial : ℕ) (controller : Controlling) (left : ℕ) → IsAlone setup.now serial identity.now.mac left controller
        → HasLeft setup.now serial identity.now.mac (step_of controller Tick)
        ⊎ HasWaited setup.now serial identity.now.mac left (step_of controller Tick) }
{
    stations_are_real(setup, identity);
    responses_are_heard();
    answers_are_heard();
}
