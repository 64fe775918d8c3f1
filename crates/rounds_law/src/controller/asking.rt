//! A request that gets lost before the relation is established.
ghost use Rattle.std.specs.Prelude.{◌≡◌, true};
ghost use Rattle.pn_values.specs.declared.mac.Mac.{Mac};
ghost use Rattle.controller_messages.specs.declared.request.Request.{Request};
ghost use Rattle.controller_core.specs.declared.stored.state.State.{State as Phases};
ghost use Rattle.controller_core.specs.declared.stored.event.Event.TheVariants.{Tick};
ghost use Rattle.controller_core.specs.stored.State.{Controlling, is_limited};
ghost use Rattle.controller_core.specs.Machine.{step_of};
ghost use Rattle.rounds_law.specs.Asking.{AsksAgain};
ghost use Rattle.rounds_law.specs.Path.{HasAsked};

use controller_messages::Setup;

/// What a unit of time does at a controller whose relation is not established. This is a law of the machine by which each step of a
/// controller is specified.
pub fn controller_asks_again(setup: &Setup)
    // Unless its patience ends with the unit, it still waits, and sends its request again if a second is over.
    ensures { (device : Mac) (phase : Phases) (request : Request) (controller : Controlling) → HasAsked setup.now device phase request controller
        → (is_limited phase ≡ true → controller.live.left ≡ 1 → ⊥)
        → AsksAgain setup.now device phase request controller (step_of controller Tick) }
{}
