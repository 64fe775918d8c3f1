// Numbers as a script writes them.
ghost use Rattle.std.specs.Prelude.{◌≡◌, ◌<◌, ◌≤◌, IfSome, ◌%◌, ◌^◌, length, slice_index};
ghost use Rattle.script_lines.specs.Numbers.{number_of, repeated};

/// The number that decimal digits spell. `None` if there is no digit, a byte is not a digit, or the number is greater
/// than `most`.
#[tactic(auto, unfolding(crate::specs::Numbers::number_of))]
pub(crate) fn decimal(digits: &[u8], most: u32) -> Option<u32>
    ensures value { result ≡ number_of most digits.now }
    ensures few { IfSome result (λ number. number ≤ most) }
{
    if digits.is_empty() {
        return None;
    }
    let mut number = 0;
    for digit in digits {
        if !digit.is_ascii_digit() {
            return None;
        }
        number = number * 10 + u64::from(*digit - b'0');
        if number > u64::from(most) {
            return None;
        }
    }
    Some(number as u32)
}

/// A mask of 1, 2, 4 or 8 bytes, repeated to 8.
#[tactic(auto, unfolding(crate::specs::Numbers::repeated))]
pub(crate) fn mask_of(bytes: &[u8]) -> Option<[u8; 8]>
    ensures { result ≡ repeated bytes.now }
{
    match bytes.len() {
        1 | 2 | 4 | 8 => Some([
            turned(bytes, 0),
            turned(bytes, 1),
            turned(bytes, 2),
            turned(bytes, 3),
            turned(bytes, 4),
            turned(bytes, 5),
            turned(bytes, 6),
            turned(bytes, 7),
        ]),
        _ => None,
    }
}

/// The byte with this index in the endless repetition of some bytes.
fn turned(bytes: &[u8], place: usize) -> u8
    requires { 0 < length bytes.now }
    ensures { result ≡ slice_index bytes.now (place % length bytes.now) }
{
    bytes[place % bytes.len()]
}
