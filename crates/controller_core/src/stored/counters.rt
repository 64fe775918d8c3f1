//! The counters of a controller.
ghost use Rattle.std.specs.Prelude.{◌≡◌, ◌<◌, ◌+◌, ◌%◌};

/// One second, in units of 31.25 microseconds: an unanswered request is sent again after this time.
pub const SECOND: u32 = 32_000;

/// CycleCounter some units later: it counts modulo 65,536.
pub fn counter_later(counter: u16, units: u32) -> u16
    ensures value { result ≡ (counter + units) % 65536 }
    ensures fits { counter < 65536 }
{
    counter.wrapping_add((units % 65_536) as u16)
}

/// The units since the request was sent, some units later. They are counted also while no request is active.
pub fn waited_later(waited: u32, units: u32) -> u32
    requires { waited < 32000 }
    ensures value { result ≡ (waited + units) % 32000 }
    ensures few { result < 32000 }
{
    // Few units, as in most leaps, need no division.
    if units < SECOND - waited {
        return waited + units;
    }
    (waited + units % SECOND) % SECOND
}
