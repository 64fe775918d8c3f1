//! Start-ups with plans that are read from texts.
ghost use Rattle.std.specs.Prelude.{List, ℕ};
ghost use Rattle.std.specs.List.{AllByRecursion};
ghost use Rattle.plans.specs.declared.parts.Parts.{Parts};
ghost use Rattle.configurator.specs.Planned.{IsPlanOf};
ghost use Rattle.both_ends.specs.startup.Played.{IsParameter};

/// Each plan that is read from a text meets the premise of a start-up about its records. This is a law of the
/// definition by which `plan_from_json` is specified.
pub fn plans_have_parameters()
    // The records of a plan that is read from a text are parameter records.
    ensures { (text : List ℕ) (plan : Parts) → IsPlanOf text plan → AllByRecursion IsParameter plan.records.items }
{}
