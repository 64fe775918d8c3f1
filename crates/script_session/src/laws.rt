//! Facts about catalogues and their plans.
ghost use Rattle.script_session.specs.Ends.{KnowsThePlan, KnowsTheRefusal};

/// The plan of a catalogue is known from its plan, or from the reason why it is refused. Laws about the configurator's
/// definitions; they have no code. By these laws the tables of plans in the contract of `Session::take` are those that
/// the configurator makes.
pub fn plans_are_known()
    // A table of plans that has the plan of a catalogue is right for that catalogue.
    ensures planned { KnowsThePlan }
    // A table of plans that has no plan for a catalogue is right for it, if the catalogue is refused for another cause
    // than missing memory.
    ensures refused { KnowsTheRefusal }
{}
