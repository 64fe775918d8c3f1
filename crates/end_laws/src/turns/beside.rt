//! What begins beside the exchange of a controller.
ghost use Rattle.std.specs.Prelude.{Bool};
ghost use Rattle.controller_messages.specs.declared.setup.Setup.{Setup};
ghost use Rattle.controller_core.specs.Machine.{Turn, after_turn, flow_later, turn_due};
ghost use Rattle.controller_core.specs.stored.State.{Live};
ghost use Rattle.end_laws.specs.turns.Beside.{MayBegin, MayFollow, flow_begun};

/// The turn of a place, in which its parameters are written again after a plug, begins beside the exchange. It changes the timer of
/// the request, the places and the requests beside the exchange alone, and one call is sent, with the next sequence number. This is a
/// law of the definition that specifies `Controller::step`; the function has no code.
pub fn turns_begin_beside()
    // After an event nothing more happens, or such a turn begins, and its call is sent after the messages of the event.
    ensures follows { (setup : Setup) (could : Bool) (turn : Turn) → MayFollow setup turn (after_turn setup could turn) }
    // With a unit nothing begins, or such a turn does.
    ensures begins { (setup : Setup) (is_due : Bool) (live : Live) → MayBegin setup live (turn_due setup is_due live) }
    // The same of a unit of the relation.
    ensures flows { (setup : Setup) (live : Live) → MayBegin setup (flow_later live) (flow_begun setup live) }
{}
