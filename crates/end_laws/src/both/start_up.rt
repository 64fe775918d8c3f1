//! The law of a start-up.
ghost use Rattle.std.specs.Prelude.{◌≡◌, ◌⊎◌, List, Some};
ghost use Rattle.end_laws.specs.both.Small.{Rules, World, Move, RelationState, Exchanges, Exchanging};
ghost use Rattle.end_laws.specs.both.Steps.{IsPart, records_of};
ghost use Rattle.end_laws.specs.both.StartUp.{Begins, IsRun, last_of, WasExchanging, WasHanded};

/// The law of a start-up over any list of moves, for any type of records and of Connect requests.
pub fn start_up_is_kept<T, Q>()
    // If the controller exchanges data, it received an ApplicationReady that the device had sent before, with one of
    // its own moves. When the device sent it, it had accepted the request of the Connect; and had accepted the records
    // in order, each once, if the controller does not go on after a record that was refused. In any case the records that it
    // had accepted are a part of these, in order, each once.
    ensures controller { (rules : Rules T Q) (first : World T Q) (run : List (Move × World T Q)) → Begins rules first →
        IsRun rules first run
        → (last_of first run).controller ≡ Exchanges → WasHanded rules first run }
    // If the device exchanges data, its controller did so before: after one of its own moves, and since then a frame
    // was delivered to the device.
    ensures device { (rules : Rules T Q) (first : World T Q) (run : List (Move × World T Q)) → Begins rules first → IsRun rules first run
        → (link : RelationState T Q) → (last_of first run).device.link ≡ Some link → link.phase ≡ Exchanging → WasExchanging run }
    // The records that a relation of the device accepted are a part of the records, in order, each once, unless the controller
    // received an ApplicationReady before: from then on its application may write any.
    ensures part { (rules : Rules T Q) (first : World T Q) (run : List (Move × World T Q)) → Begins rules first → IsRun rules first run
        → (link : RelationState T Q) → (last_of first run).device.link ≡ Some link
        → IsPart link.taken (records_of rules) ⊎ WasHanded rules first run }
    // A relation of the device is the one that the Connect asks for.
    ensures relation { (rules : Rules T Q) (first : World T Q) (run : List (Move × World T Q)) → Begins rules first → IsRun rules first run
        → (link : RelationState T Q) → (last_of first run).device.link ≡ Some link → link.request ≡ rules.request }
{}
