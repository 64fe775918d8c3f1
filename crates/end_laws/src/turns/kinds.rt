//! The turns of a controller.
ghost use Rattle.controller_messages.specs.declared.setup.Setup.{Setup};
ghost use Rattle.controller_core.specs.declared.stored.event.Event.{Event};
ghost use Rattle.controller_core.specs.Machine.{turn_of};
ghost use Rattle.controller_core.specs.stored.State.{Live};
ghost use Rattle.end_laws.specs.turns.Turns.{Came, IsTurn, came_by, turn_for};

/// Each turn of a controller's machine is of one of the kinds of `IsTurn`. Each kind says what the next state is, what is
/// sent, and when the turn occurs. What holds for the turns of each kind holds for all turns. This is a law of the
/// definition that specifies `Controller::step`; the function has no code.
pub fn turns_are_of_a_kind()
    // The turn for anything that comes is of one of the kinds.
    ensures came { (setup : Setup) (live : Live) (came : Came) → IsTurn setup live came (turn_for setup live came) }
    // The turn for any event is of one of the kinds.
    ensures event { (setup : Setup) (live : Live) (event : Event) → IsTurn setup live (came_by setup event) (turn_of setup live event) }
{}
