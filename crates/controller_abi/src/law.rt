//! The law of a tool's numbers. No code is involved.
ghost use Rattle.std.specs.Prelude.{◌≢◌, ◌<◌, ℕ, suc};
ghost use Rattle.controller_abi.specs.Tool.{number_after};

/// The numbers of a tool's requests.
pub fn requests_have_numbers_of_their_own()
    // Of fewer than 4,294,967,296 requests no two have one number.
    ensures { (number more : ℕ) → number < 4294967296 → suc more < 4294967296 → number_after (suc more) number ≢ number }
{}
