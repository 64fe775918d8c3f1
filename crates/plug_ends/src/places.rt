//! The places of a relation after a plug, at the device.
ghost use Rattle.std.specs.Prelude.{◌≡◌, ◌⊎◌, Some, [], ℕ};
ghost use Rattle.expected_places.specs.declared.place.Step.{Step};
ghost use Rattle.expected_places.specs.declared.place.Step.TheVariants.{Ended, Settled, Told};
ghost use Rattle.relations.specs.RelationState.{RelationState};
ghost use Rattle.device_frames.specs.Heard.{Heard};
ghost use Rattle.plug_ends.specs.Places.{GoesOn, IsEndedBy, IsReleasedBy, step_in, taken_at};

/// How far a place of a relation goes with each step of a device, whatever it hears and whatever its flash does. This is a law of the
/// definitions that specify `Device::step`.
pub fn places_follow_their_plugs()
    // As the alarm of its plug is sent, no record was accepted at the place yet.
    ensures told { (heard : Heard) (link next : RelationState) → GoesOn heard link next →
        (slot subslot number : ℕ) (old : Step) → step_in slot subslot link ≡ Some old → step_in slot subslot next ≡ Some (Told number) →
        (old ≡ Told number) ⊎ (taken_at slot subslot next.taken ≡ []) }
    // Its parameters end only with a PrmEnd that has the number of that alarm.
    ensures ended { (heard : Heard) (link next : RelationState) → GoesOn heard link next →
        (slot subslot number : ℕ) (old : Step) → step_in slot subslot link ≡ Some old → step_in slot subslot next ≡ Some (Ended number) →
        (old ≡ Ended number) ⊎ IsEndedBy slot subslot number heard link next }
    // It is good again only as the controller confirms its ApplicationReady.
    ensures released { (heard : Heard) (link next : RelationState) → GoesOn heard link next →
        (slot subslot : ℕ) (old : Step) → step_in slot subslot link ≡ Some old → step_in slot subslot next ≡ Some Settled →
        (old ≡ Settled) ⊎ IsReleasedBy slot subslot heard link next }
{}
