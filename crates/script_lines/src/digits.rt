// Reads and writes hex digits. Most of a script is hex, so the loops have no branch: the compiler then handles many bytes
// in one step.
ghost use Rattle.std.specs.Prelude.{◌≡◌, ◌∷◌, [], ◌<◌, ◌+◌, ◌*◌, ◌/◌, ◌%◌, ℕ, IsErr, Ok, Some, true, false, length, slice_index};
ghost use Rattle.std.specs.List.{AllPass};
ghost use Rattle.hex.specs.Hex.{decode_of, encode_lower, hex_digit_value, is_hex_digit, lower_digits};

/// Whether each byte is a hex digit, of either case.
fn are_digits(digits: &[u8]) -> bool
    ensures yes { result ≡ true → AllPass is_hex_digit digits.now }
    ensures no { AllPass is_hex_digit digits.now → result ≡ true }
{
    let mut are = true;
    for place in 0..digits.len() {
        are &= digits[place].is_ascii_hexdigit();
    }
    are
}

/// The values of a pair of hex digits, of either case, each in an octet of its own like the digits: the low four bits of
/// a letter count from 1, and a letter has bit 6 set.
fn values(pair: u16) -> u16
    ensures { (first second : ℕ) → hex_digit_value (pair % 256) ≡ Some first → hex_digit_value (pair / 256) ≡ Some second →
        result ≡ first + 256 * second }
{
    let nibbles = pair % 16 + pair / 256 % 16 * 256;
    let letters = pair / 64 % 4 + pair / 16384 * 256;
    nibbles + 9 * letters
}

/// Makes a byte of each pair of hex digits.
fn join(digits: &[u8], bytes: &mut [u8])
    requires even { length digits.now ≡ 2 * length bytes.old }
    requires digits { AllPass is_hex_digit digits.now }
    ensures { decode_of digits.now ≡ Ok bytes.new }
{
    let (pairs, _) = digits.as_chunks::<2>();
    for place in 0..bytes.len() {
        // Both digits are loaded at once: two loads of every other byte would not be vectorised. The upper octet of the
        // product is sixteen times the first value plus the second.
        let both = values(u16::from_le_bytes(pairs[place]));
        bytes[place] = (both.wrapping_mul(4097) / 256) as u8;
    }
}

/// Reads hex digits, two for each of the bytes. Returns whether all are hex digits, two for each byte.
#[tactic(auto, using(crate::proofs::Hex::refused))]
pub(crate) fn read(digits: &[u8], bytes: &mut [u8]) -> bool
    requires { length bytes.old ≡ length digits.now / 2 }
    ensures decoded { result ≡ true → decode_of digits.now ≡ Ok bytes.new }
    ensures refused { result ≡ false → IsErr (decode_of digits.now) }
{
    if !digits.len().is_multiple_of(2) {
        return false;
    }
    if !are_digits(digits) {
        return false;
    }
    join(digits, bytes);
    true
}

/// The hex digit of a value, in lower case.
fn digit(value: u8) -> u8
    requires { value < 16 }
    ensures { result ≡ slice_index lower_digits value }
{
    if value < 10 {
        value + b'0'
    } else {
        value - 10 + b'a'
    }
}

/// The two digits of a byte.
#[tactic(auto, unfolding(hex::specs::Hex::encode_with))]
pub(crate) fn pair(byte: u8) -> [u8; 2]
    ensures { result ≡ encode_lower (byte ∷ []) }
{
    [digit(byte / 16), digit(byte % 16)]
}

/// Writes two digits for each of the bytes.
pub(crate) fn write(bytes: &[u8], digits: &mut [u8])
    requires { length digits.old ≡ 2 * length bytes.now }
    ensures { digits.new ≡ encode_lower bytes.now }
{
    for place in 0..bytes.len() {
        let byte = bytes[place];
        digits[2 * place] = digit(byte / 16);
        digits[2 * place + 1] = digit(byte % 16);
    }
}
