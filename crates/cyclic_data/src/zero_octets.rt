//! Octets that are all zero.
ghost use Rattle.std.specs.Prelude.{◌≡◌, ◌≤◌, length, replicate};

/// As many zeros as the longest data of a cyclic frame has octets.
static ZEROS: [u8; 1440] = [0; 1440];

/// `size` zeros, at most 1,440.
pub fn zeros(size: usize) -> &'static [u8]
    requires { size ≤ 1440 }
    // Each octet is zero.
    ensures value { result.now ≡ replicate size 0 }
    ensures short { length result.now ≤ 1440 }
{
    &ZEROS[..size]
}
