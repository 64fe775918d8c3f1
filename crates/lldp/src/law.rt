//! Laws of neighbours. No code is involved.
ghost use Rattle.std.specs.Prelude.{◌≡◌, ◌+◌, ◌-◌, ◌*◌, ◌<◌, ◌==◌, ℕ, List, Some, None, true, nat_lt, if◌then◌else◌};
ghost use Rattle.wire.specs.Codec.{IsSoundWhole};
ghost use Rattle.pn_values.specs.declared.mac.Mac.{Mac};
ghost use Rattle.lldp.specs.Message.{message};
ghost use Rattle.lldp.specs.Peer.{Told};
ghost use Rattle.lldp.specs.Frame.{told_in};
ghost use Rattle.lldp.specs.State.{State, heard, is_sending, started, ticked};
ghost use Rattle.lldp.specs.Run.{Event, TellsNothing, after, ticks_in};

/// Reading, writing and spelling of messages agree.
pub fn formats_are_sound()
    // The format of a message is sound.
    ensures { IsSoundWhole message }
{}

/// When a station announces itself, whatever it hears.
pub fn announcements_come_each_five_seconds()
    // The first tick sends an announcement.
    ensures first { (mac : Mac) → is_sending (started mac) ≡ true }
    // After a tick that sent one, the 160,000th tick sends the next one, and no tick before.
    ensures next { (state : State) (events : List Event) → is_sending state ≡ true → ticks_in events < 160000 →
        is_sending (after (ticked state) events) ≡ (ticks_in events + 1 == 160000) }
{}

/// How long a neighbour is known, if nothing more is heard of one.
pub fn neighbours_live_as_long_as_told()
    // A neighbour is known for as many seconds as its message says, which are 32,000 ticks each, and is forgotten in the tick
    // in which they are over.
    ensures { (state : State) (bytes : List ℕ) (told : Told) (seconds : ℕ) (events : List Event) → told_in state.mac bytes ≡ Some told →
        told.lifetime ≡ seconds + 1 → TellsNothing state.mac events → (after (heard state bytes) events).known
        ≡ (if nat_lt (ticks_in events) (told.lifetime * 32000)
        then Some (record { peer = told.peer; left = told.lifetime * 32000 - ticks_in events }) else None) }
{}
