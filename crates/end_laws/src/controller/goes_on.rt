//! A controller refines its small machine.
ghost use Rattle.std.specs.Prelude.{◌≡◌, List, ℕ};
ghost use Rattle.plans.specs.declared.parts.Parts.{Parts};
ghost use Rattle.controller_messages.specs.declared.setup.Setup.{Setup};
ghost use Rattle.controller_messages.specs.Heard.{heard_of};
ghost use Rattle.controller_core.specs.declared.stored.event.Event.{Event};
ghost use Rattle.controller_core.specs.stored.State.{Live};
ghost use Rattle.controller_core.specs.Machine.{first, turn_of};
ghost use Rattle.end_laws.specs.both.Small.{Seeking};
ghost use Rattle.end_laws.specs.controller.Small.{GoesOn, IsSteady, said_in, small_of};

use crate::turns::turns_are_of_a_kind;

/// A controller refines its small machine, as far as a start-up is concerned. This is a law of the machine by which
/// each step of a controller is specified.
pub fn controller_goes_on()
    // A controller that was just made looks for the device.
    ensures begins { (plan : Parts) → IsSteady plan (first plan) × (small_of plan (first plan) ≡ Seeking) }
    // After any event, the state moves as that of the small machine does, and each message says to the device what it
    // may say then.
    ensures goes_on { (setup : Setup) (live : Live) (event : Event) → IsSteady setup.plan live
        → GoesOn setup.plan (said_in setup (heard_of setup.plan.controller) event) live (turn_of setup live event) }
{
    turns_are_of_a_kind();
}
