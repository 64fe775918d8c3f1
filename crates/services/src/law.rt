//! Laws of the services. No code is involved.
ghost use Rattle.std.specs.Prelude.{◌≡◌, ◌+◌, ◌<◌, ◌==◌, ◌||◌, ℕ, List, true, false, nat_eq};
ghost use Rattle.std.specs.Cmp.Lexicographic.{pointwise};
ghost use Rattle.pn_values.specs.IpSuite.{is_zero};
ghost use Rattle.wire.specs.Codec.{IsSoundWhole};
ghost use Rattle.services.specs.Message.{echo};
ghost use Rattle.services.specs.State.{State, is_defended, is_due, observed, ticked};
ghost use Rattle.services.specs.Answer.{disputes, heard};
ghost use Rattle.services.specs.Run.{Event, KeepsAddress, after, ticks_in};

/// When an address is announced, whatever frames are heard.
pub fn addresses_are_announced_twice()
    // A new address is announced in the first tick after the change and 64,000 ticks after that one, and in no other tick
    // until the next change. So another change drops the second announcement of the old address.
    ensures announced { (state : State) (address : List ℕ) (events : List Event) → pointwise nat_eq address state.address ≡ false →
        is_zero address ≡ false → KeepsAddress address events →
        is_due (after (observed state address) events).announcement ≡ (ticks_in events == 0 || ticks_in events == 64000) }
    // If the station loses its address, nothing is announced until the next change.
    ensures silent { (state : State) (address : List ℕ) (events : List Event) → pointwise nat_eq address state.address ≡ false →
        is_zero address ≡ true → KeepsAddress address events → is_due (after (observed state address) events).announcement ≡ false }
{}

/// How often a conflict is defended, whatever happens.
pub fn defences_are_rare()
    // After a tick that defended a conflict, no tick among the next 319,999 does.
    ensures { (state : State) (events : List Event) → is_defended state ≡ true → ticks_in events + 1 < 320000 →
        is_defended (after (ticked state) events) ≡ false }
{}

/// Reading, writing and spelling of echo messages agree.
pub fn echo_formats_are_sound()
    // The format of an echo message of any type in its packet is sound.
    ensures { (kind : ℕ) → IsSoundWhole (echo kind) }
{}

/// Which frames change the services.
pub fn only_conflicts_are_counted()
    // A frame that is not a conflict changes nothing.
    ensures { (state : State) (bytes : List ℕ) → disputes state bytes ≡ false → heard state bytes ≡ state }
{}
