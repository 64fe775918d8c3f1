//! The law of a search. No code is involved.
ghost use Rattle.std.specs.Prelude.{◌≡◌, ◌≢◌, ◌++◌, ◌∷◌, [], ℕ, List, Option, Some, None, map};
ghost use Rattle.plans.specs.declared.parts.Controller.{Controller};
ghost use Rattle.commissioning.specs.Place.{AnsweredIn, AreFrom, Asks, Doing, Hears, IsAnswerOf, Nobody, One, Place, Searching, after_all, after_doings, after_frame, last_told};

/// Whatever the answers are, and in whatever order they come.
pub fn a_nameless_station_is_alone()
    // Only one station is found nameless: one that answered, and no other station did. What it reported last of its name
    // is that it has none.
    ensures { (answers : List (List ℕ × Option (List ℕ))) (mac : List ℕ) → after_all Nobody answers ≡ One mac (Some []) →
        (answers ≢ []) × AreFrom mac answers × (last_told None answers ≡ Some []) }
{}

/// Whatever a tool asked and heard before.
pub fn an_answer_belongs_to_its_search()
    // Whoever is found answered the last Identify: a frame that was heard after it brings an answer of that station with its number.
    ensures found { (tool : Controller) (search : Searching) (before : List Doing) (xid : ℕ) (frames : List (List ℕ)) (mac : List ℕ) (name : Option (List ℕ)) →
        (after_doings tool search (before ++ Asks xid ∷ map Hears frames)).1 ≡ One mac name → AnsweredIn tool xid mac frames }
    // An answer to an Identify with another number changes no search, however late it comes.
    ensures late { (tool : Controller) (other xid : ℕ) (place : Place) (mac frame : List ℕ) →
        IsAnswerOf tool other mac frame → other ≢ xid → after_frame tool xid place frame ≡ place }
{}
