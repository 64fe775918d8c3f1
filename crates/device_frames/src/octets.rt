//! Octets that an event brings.
ghost use Rattle.std.specs.Prelude.{◌≡◌, ◌≤◌, length, take};

use std::marker::Model;
use wire::at_most;

/// At most `N` octets, which are only read. Clauses see them as an `ArrayVec` of these.
#[derive(Drop)]
pub struct Octets<'a, const N: usize> {
    octets: &'a [u8],
}

impl<'a, const N: usize> Model for Octets<'a, N> {
    ghost use Rattle.std.specs.Prelude.{◌≤◌, ℕ, length};
    ghost use Rattle.arrayvec.specs.ArrayVec.{ArrayVec as Items};

    ghost Value = { Items ℕ };

    ghost view = { λ all. record { items = all.octets.now } };

    ghost invariant = { λ all. length all.octets.now ≤ N };
}

impl<'a, const N: usize> Octets<'a, N> {
    /// The first `N` of these octets, or all of them if there are fewer.
    #[inline(always)]
    pub fn of(octets: &'a [u8]) -> Octets<'a, N>
        ensures value { result ≡ record { items = take N octets.now } }
        ensures whole { length octets.now ≤ N → result ≡ record { items = octets.now } }
    {
        Octets {
            octets: at_most(octets, N),
        }
    }

    /// The octets.
    #[inline(always)]
    pub fn as_slice(&self) -> &'a [u8]
        ensures value { result.now ≡ self.now.items }
        ensures few { length result.now ≤ N }
    {
        self.octets
    }
}
