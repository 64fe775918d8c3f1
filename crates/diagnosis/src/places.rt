//! A choice of submodules.
ghost use Rattle.std.specs.Prelude.{◌≡◌};

/// A choice of submodules: those of a relation, or those that a record is about.
pub trait Places {
    ghost use Rattle.std.specs.Prelude.{ℕ, Bool};

    ghost has_of: { Self → ℕ → ℕ → Bool };

    /// Whether this submodule is one of them.
    fn has(&self, slot: u16, subslot: u16) -> bool
        ensures { result ≡ has_of self.now slot subslot };
}
