//! The law of outputs.
ghost use Rattle.std.specs.Prelude.{List};
ghost use Rattle.end_laws.specs.both.Small.{Move};
ghost use Rattle.end_laws.specs.both.Outputs.{Outputs, Shown, ShowsNone, IsShownRun, shown_last, AreAsGiven};

/// The law of outputs over any list of moves, for any type of what is shown and of what is set.
pub fn outputs_are_given<O, V>()
    // A device shows zeros as long as it has accepted no frame in its relation. After that, all outputs come from one
    // frame, which the controller sent with one of its moves, which brings the values set last at that point, and which
    // was delivered to the device later.
    ensures { (rules : Outputs O V) (first : Shown O V) (run : List (Move × Shown O V)) → ShowsNone rules first → IsShownRun rules first run
        → AreAsGiven rules first run (shown_last first run).accepted (shown_last first run).outputs }
{}
