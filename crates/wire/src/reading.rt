//! Readers of the fields that formats are made of.
ghost use Rattle.std.specs.Prelude.{◌≡◌, ◌≤◌, drop, length, take};
ghost use Rattle.wire.specs.Codec.{Gives};
ghost use Rattle.wire.specs.Formats.{number, raw};
ghost use Rattle.wire.specs.Kept.{front_of};

use byteorder::{BigEndian, ByteOrder};

/// The first `size` octets and those after them, or `short` if there are fewer.
pub fn split<F: Drop>(bytes: &[u8], size: usize, short: F) -> Result<(&[u8], &[u8]), F>
    ensures { Gives (λ x. (x.0.now, x.1.now)) result ((raw short size).read bytes.now) }
{
    bytes.split_at_checked(size).ok_or(short)
}

/// The octets after up to `most` octets of padding, some of which may be missing at the end.
pub fn skip(bytes: &[u8], most: usize) -> &[u8]
    ensures { result.now ≡ drop most bytes.now }
{
    &bytes[most.min(bytes.len())..]
}

/// The octets of `bytes` before `rest`, if `rest` is the end of `bytes`.
pub fn at_most(bytes: &[u8], most: usize) -> &[u8]
    ensures value { result.now ≡ take most bytes.now }
    ensures few { length result.now ≤ most }
{
    if bytes.len() > most {
        &bytes[..most]
    } else {
        bytes
    }
}

pub fn front<'a>(bytes: &'a [u8], rest: &[u8]) -> &'a [u8]
    ensures { result.now ≡ front_of bytes.now rest.now }
{
    &bytes[..bytes.len().saturating_sub(rest.len())]
}

/// A number of one octet and the octets after it, or `short` if none is left.
pub fn u8_at<F: Drop>(bytes: &[u8], short: F) -> Result<(u8, &[u8]), F>
    ensures { Gives (λ x. (x.0, x.1.now)) result ((number short 1).read bytes.now) }
{
    match bytes {
        [number, rest @ ..] => Ok((*number, rest)),
        [] => Err(short),
    }
}

/// A number of two octets and the octets after it, or `short` if there are fewer.
pub fn u16_at<F: Drop>(bytes: &[u8], short: F) -> Result<(u16, &[u8]), F>
    ensures { Gives (λ x. (x.0, x.1.now)) result ((number short 2).read bytes.now) }
{
    let (number, rest) = split(bytes, 2, short)?;
    Ok((BigEndian::read_u16(number), rest))
}

/// A number of four octets and the octets after it, or `short` if there are fewer.
pub fn u32_at<F: Drop>(bytes: &[u8], short: F) -> Result<(u32, &[u8]), F>
    ensures { Gives (λ x. (x.0, x.1.now)) result ((number short 4).read bytes.now) }
{
    let (number, rest) = split(bytes, 4, short)?;
    Ok((BigEndian::read_u32(number), rest))
}

/// `N` octets and those after them, or `short` if there are fewer.
pub fn octets_at<const N: usize, F: Drop>(bytes: &[u8], short: F) -> Result<([u8; N], &[u8]), F>
    ensures { Gives (λ x. (x.0, x.1.now)) result ((raw short N).read bytes.now) }
{
    match bytes.split_first_chunk::<N>() {
        Some((octets, rest)) => Ok((*octets, rest)),
        None => Err(short),
    }
}
