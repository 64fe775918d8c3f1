// The I&M texts that a user writes.
ghost use Rattle.std.specs.Prelude.{◌≡◌, length, replicate};

use std::marker::Model;

/// An I&M text of `N` bytes, padded with spaces by its writer. Clauses see its bytes.
#[derive(Clone, Copy)]
pub struct Padded<const N: usize> {
    bytes: [u8; N],
}

impl<const N: usize> Model for Padded<N> {
    ghost use Rattle.std.specs.Prelude.{List, ℕ};

    ghost Value = { List ℕ };

    ghost view = { λ text. text.bytes };

    ghost inverse = { λ bytes. record { bytes = bytes } };
}

impl<const N: usize> Padded<N> {
    /// The text of these bytes.
    pub fn new(bytes: [u8; N]) -> Padded<N>
        ensures { result ≡ bytes.entry }
    {
        Padded { bytes }
    }

    /// A text of spaces: the initial value of a device.
    pub fn blank() -> Padded<N>
        ensures { result ≡ replicate N 32 }
    {
        Padded { bytes: [b' '; N] }
    }

    /// A text of zeros: the initial I&M4.
    pub fn zero() -> Padded<N>
        ensures { result ≡ replicate N 0 }
    {
        Padded { bytes: [0; N] }
    }

    /// The `N` bytes.
    pub fn as_bytes(&self) -> &[u8]
        // The result is the text.
        ensures value { result.now ≡ self.now }
        // The text has `N` bytes.
        ensures length { length self.now ≡ N }
    {
        &self.bytes
    }
}

/// An I&M record that can be written, with its new value (IEC 61158-6-10, 5.2.3.22).
#[derive(Clone, Copy)]
pub enum ImValue {
    /// I&M1: function and location, 32 and 22 bytes.
    Im1(Padded<54>),
    /// I&M2: the date of installation.
    Im2(Padded<16>),
    /// I&M3: the descriptor.
    Im3(Padded<54>),
    /// I&M4: the signature.
    Im4(Padded<54>),
}
