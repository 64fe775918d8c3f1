//! The ones' complement sum of the Internet checksums (RFC 1071).
ghost use Rattle.std.specs.Prelude.{◌≡◌, ◌≤◌, ◌+◌, ◌*◌, ◌%◌, All, length};
ghost use Rattle.frame_codec.specs.Sum.{words_total, carried, ones_sum_of};

use byteorder::{BigEndian, ByteOrder};

/// The word that two octets make, the high one first.
fn word(high: u8, low: u8) -> u16
    ensures { result ≡ 256 * high + low }
{
    256 * high as u16 + low as u16
}

/// The sum with one more word, the carry added at the low end.
fn plus(sum: u16, word: u16) -> u16
    ensures { result ≡ carried (sum + word) }
{
    let total = sum as u32 + word as u32;
    if total > 0xFFFF {
        (total - 0xFFFF) as u16
    } else {
        total as u16
    }
}

/// The sum with the words of these octets added, word by word.
fn sum_words(sum: u16, bytes: &[u8]) -> u16
    ensures { result ≡ carried (sum + words_total bytes.now) }
{
    let mut total = sum;
    for index in 0..bytes.len() / 2 {
        total = plus(total, word(bytes[2 * index], bytes[2 * index + 1]));
    }
    match bytes.len() % 2 {
        0 => total,
        _ => plus(total, word(bytes[bytes.len() - 1], 0)),
    }
}

/// The total with one more number of eight octets, the carry added at the low end.
fn plus_eight(total: u64, number: u64) -> u64
    ensures { carried result ≡ carried (total + number) }
{
    let (next, carry) = total.overflowing_add(number);
    if carry { next + 1 } else { next }
}

/// The total in 16 bits: what is above the low half is added to it, first that of 32 bits, then that of 16.
fn folded(total: u64) -> u16
    ensures { result ≡ carried total }
{
    let once = total / 0x1_0000_0000 + total % 0x1_0000_0000;
    let twice = once / 0x1_0000 + once % 0x1_0000;
    plus((twice % 0x1_0000) as u16, (twice / 0x1_0000) as u16)
}

/// The total in 16 bits, with the words of the last octets added.
#[inline(always)]
fn sum_end(total: u64, rest: &[u8]) -> u16
    ensures { result ≡ carried (total + words_total rest.now) }
{
    sum_words(folded(total), rest)
}

/// The same, the first four octets as one number: it equals the sum of its two words modulo 65,535.
#[inline(always)]
fn sum_four(total: u64, rest: &[u8]) -> u16
    requires { 4 ≤ length rest.now }
    ensures { result ≡ carried (total + words_total rest.now) }
{
    let next = plus_eight(total, BigEndian::read_u32(rest) as u64);
    sum_end(next, &rest[4..])
}

/// The sum with the words of these octets added.
pub(crate) fn sum_on(sum: u16, bytes: &[u8]) -> u16
    ensures { result ≡ carried (sum + words_total bytes.now) }
{
    // A number of eight octets equals the sum of its four words modulo 65,535.
    let mut total = sum as u64;
    let mut rest = bytes;
    while rest.len() >= 8 {
        total = plus_eight(total, BigEndian::read_u64(rest));
        rest = &rest[8..];
    }
    if rest.len() >= 4 {
        sum_four(total, rest)
    } else {
        sum_end(total, rest)
    }
}

/// The ones' complement sum of the 16-bit words, the high octet first. An odd last octet is followed by 0.
pub fn ones_sum(bytes: &[u8]) -> u16
    // If all octets are 0, the sum is 0.
    ensures zero { All (λ octet. octet ≡ 0) bytes.now → result ≡ 0 }
    // If the sum is 0, all octets are 0.
    ensures only_zero { result ≡ 0 → All (λ octet. octet ≡ 0) bytes.now }
    // The sum is equal to the total of the words modulo 65,535.
    ensures equal { result % 65535 ≡ words_total bytes.now % 65535 }
    // The result is the ones' complement sum of the definition.
    ensures exact { result ≡ ones_sum_of bytes.now }
{
    sum_on(0, bytes)
}
