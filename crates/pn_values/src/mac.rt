//! A MAC address.
ghost use Rattle.std.specs.Prelude.{◌≡◌, nat_eq};
ghost use Rattle.std.specs.Cmp.Lexicographic.{pointwise};

/// A MAC address (IEEE 802): six octets, as they are sent.
#[derive(Clone, Copy, Debug, PartialEq, Eq)]
pub struct Mac {
    pub octets: [u8; 6],
}

impl Mac {
    /// Whether two addresses are equal. It compares two numbers and not each octet, since this is done for each frame.
    #[inline(always)]
    pub fn is(&self, other: &Mac) -> bool
        ensures { result ≡ pointwise nat_eq self.now.octets other.now.octets }
    {
        let [a, b, c, d, e, f] = self.octets;
        let [u, v, w, x, y, z] = other.octets;
        u32::from_le_bytes([a, b, c, d]) == u32::from_le_bytes([u, v, w, x])
            && u16::from_le_bytes([e, f]) == u16::from_le_bytes([y, z])
    }
}
