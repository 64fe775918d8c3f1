//! When a place is touched, and when it is released.
ghost use Rattle.std.specs.Prelude.{◌≡◌, ℕ, is_some, true};
ghost use Rattle.module_diff.specs.Changes.{covers};
ghost use Rattle.module_diff.specs.declared.changes.Affected.{Affected};
ghost use Rattle.expected_places.specs.Events.{Confirms, IsReleased, PlugEvent, after_event};
ghost use Rattle.expected_places.specs.Machine.{PlugState, is_touched_at, touched};
ghost use Rattle.expected_places.specs.Places.{is_touched, place_at};
ghost use Rattle.expected_places.specs.declared.place.Step.{Step};

/// A pull or a plug touches each place that it affects, and only a confirmation releases a place. A law about the definitions; it
/// has no code.
pub fn only_a_confirmation_releases()
    // A place that is affected is touched then.
    ensures touches { (affected : Affected) (step : Step) (state : PlugState) (slot subslot : ℕ) →
        is_touched step ≡ true → covers affected slot subslot ≡ true → is_some (place_at slot subslot state.places) ≡ true →
        is_touched_at slot subslot (touched affected step state) ≡ true }
    // If an event releases a place, it is the positive answer to the active ApplicationReady, and that is for the place.
    ensures releases { (event : PlugEvent) (state : PlugState) (slot subslot : ℕ) →
        IsReleased slot subslot state (after_event event state) → Confirms slot subslot event state }
{}
