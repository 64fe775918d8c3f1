//! Laws of what is asked. They have no code.
ghost use Rattle.std.specs.Prelude.{◌≡◌, ◌+◌, ◌<◌, ◌≤◌, ℕ, List, Ok, Some};
ghost use Rattle.std.specs.List.{AllByRecursion};
ghost use Rattle.asked_records.specs.declared.names.RecordName.{RecordName};
ghost use Rattle.asked_records.specs.Names.{IsName, named_at, named_of};
ghost use Rattle.asked_records.specs.Asked.{AskedState};
ghost use Rattle.asked_records.specs.Runs.{Ascends, Event, answered_in, numbers_after, open_number, questions_in};

/// Each question is answered at most once, over any events: the numbers under which answers are accepted ascend.
pub fn answers_are_accepted_once()
    // As long as the numbers do not run over 32 bits.
    ensures { (events : List Event) (state : AskedState) → state.last + questions_in events ≤ 4294967295 →
        Ascends (open_number state) (answered_in events state) }
{}

/// No two of 4,294,967,295 questions in a row have the same number.
pub fn numbers_come_once()
    ensures { (last more : ℕ) → 0 < last → last ≤ 4294967295 → 0 < more → more < 4294967295 →
        numbers_after more last ≡ last → ⊥ }
{}

/// In a list of records that is accepted, each record is valid, and is found by its place and index.
pub fn records_are_found()
    ensures { (names : List RecordName) → named_of names ≡ Ok names →
        AllByRecursion (λ name. IsName name × (named_at name.slot name.subslot name.index names ≡ Some name)) names }
{}
