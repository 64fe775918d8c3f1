//! Laws of a controller in a station. No code is involved.
ghost use Rattle.std.specs.Prelude.{◌≡◌, ℕ, List, None, Some, map};
ghost use Rattle.controller_core.specs.declared.stored.event.Event.{Event};
ghost use Rattle.controller_core.specs.declared.stored.event.Event.TheVariants.{Frame as Framed};
ghost use Rattle.controller_core.specs.Machine.{step_of};
ghost use Rattle.controller_core.specs.Quiet.{silently};
ghost use Rattle.controller_dcp.specs.Station.{answer_to};
ghost use Rattle.controller_station.specs.Runs.{SendsOrTells, after, all_at, alone, sent, sent_alone, sent_at};
ghost use Rattle.controller_station.specs.Served.{Frames, Served};

/// What is beside a controller changes nothing of it.
pub fn a_station_has_its_controller_alone()
    // After any events the controller beside the services is the controller alone after the same events.
    ensures controller { (served : Served) (events : List Event) → (after served events).controller ≡ alone served.controller events }
    // It sends what the controller alone sends: the same frames in the same order at the same events.
    ensures frames { (served : Served) (events : List Event) →
        map (λ (frames : Frames). frames.controller) (sent served events) ≡ sent_alone served.controller events }
{}

/// What a controller answers as a DCP station is all that tools add to it.
pub fn tools_add_their_answers_alone()
    // At each event the station sends what the controller and its services send, or these send nothing, and it sends one answer, which
    // depends on the plan and the frame alone.
    ensures tools { (served : Served) (event : Event) → SendsOrTells served event }
    // A request that is answered changes nothing of the controller, and it sends nothing.
    ensures untouched { (served : Served) (octets frame : List ℕ) → answer_to served.controller.setup.plan octets ≡ Some frame →
        step_of served.controller (Framed (record { items = octets })) ≡ silently served.controller }
    // Without an identity nothing is answered.
    ensures without { (served : Served) (event : Event) → served.controller.setup.plan.identity ≡ None → all_at served event ≡ sent_at served event }
{}
