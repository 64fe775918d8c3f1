//! Readers of fields.
ghost use Rattle.std.specs.Prelude.{◌≡◌, length, IfOk};
ghost use Rattle.wire.specs.Codec.{Gives};
ghost use Rattle.wire.specs.blocks.Fields.{one, two, four, ranged, fixed, fixed_one, fixed_four, unchecked_two, octets, blank, mac};
ghost use Rattle.wire.specs.blocks.Fields.{version, nothing};

use crate::blocks::fault::BlockFault;
use pn_values::Mac;

/// Reads a number of one octet. Returns it and the rest.
#[tactic(auto, unfolding(crate::specs::blocks::Fields::number_at))]
pub fn u8_at(bytes: &[u8]) -> Result<(u8, &[u8]), BlockFault>
    ensures { Gives (λ x. (x.0, x.1.now)) result (one.read bytes.now) }
{
    crate::reading::u8_at(bytes, BlockFault::Length)
}

/// Reads a number of two octets. Returns it and the rest.
#[tactic(auto, unfolding(crate::specs::blocks::Fields::number_at))]
pub fn u16_at(bytes: &[u8]) -> Result<(u16, &[u8]), BlockFault>
    ensures { Gives (λ x. (x.0, x.1.now)) result (two.read bytes.now) }
{
    crate::reading::u16_at(bytes, BlockFault::Length)
}

/// Reads a number of four octets. Returns it and the rest.
#[tactic(auto, unfolding(crate::specs::blocks::Fields::number_at))]
pub fn u32_at(bytes: &[u8]) -> Result<(u32, &[u8]), BlockFault>
    ensures { Gives (λ x. (x.0, x.1.now)) result (four.read bytes.now) }
{
    crate::reading::u32_at(bytes, BlockFault::Length)
}

/// Reads a number of two octets from `least` to `greatest`. Returns it and the rest. `field` is the number of the field,
/// for the fault.
pub fn ranged_at(
    bytes: &[u8],
    least: u16,
    greatest: u16,
    field: u8,
) -> Result<(u16, &[u8]), BlockFault>
    ensures { Gives (λ x. (x.0, x.1.now)) result ((ranged field least greatest).read bytes.now) }
{
    let (number, rest) = u16_at(bytes)?;
    if least <= number && number <= greatest {
        Ok((number, rest))
    } else {
        Err(BlockFault::Field(field))
    }
}

/// Reads a number of two octets that has one accepted value. Returns the rest. `field` is the number of the field, for
/// the fault.
pub fn fixed_at(bytes: &[u8], value: u16, field: u8) -> Result<&[u8], BlockFault>
    ensures { Gives (λ x. (tt, x.now)) result ((fixed field value).read bytes.now) }
{
    let (found, rest) = u16_at(bytes)?;
    if found == value {
        Ok(rest)
    } else {
        Err(BlockFault::Field(field))
    }
}

/// Reads a number of one octet that has one accepted value. Returns the rest. `field` is the number of the field, for the
/// fault.
pub fn fixed_one_at(bytes: &[u8], value: u8, field: u8) -> Result<&[u8], BlockFault>
    ensures { Gives (λ x. (tt, x.now)) result ((fixed_one field value).read bytes.now) }
{
    let (number, rest) = u8_at(bytes)?;
    if number == value {
        Ok(rest)
    } else {
        Err(BlockFault::Field(field))
    }
}

/// Reads a number of four octets that has one accepted value. Returns the rest. `field` is the number of the field, for
/// the fault.
pub fn fixed_four_at(bytes: &[u8], value: u32, field: u8) -> Result<&[u8], BlockFault>
    ensures { Gives (λ x. (tt, x.now)) result ((fixed_four field value).read bytes.now) }
{
    let (number, rest) = u32_at(bytes)?;
    if number == value {
        Ok(rest)
    } else {
        Err(BlockFault::Field(field))
    }
}

/// Reads `N` octets. Returns them and the rest.
#[tactic(auto, unfolding(crate::specs::blocks::Fields::octets_read))]
pub fn octets_at<const N: usize>(bytes: &[u8]) -> Result<([u8; N], &[u8]), BlockFault>
    ensures { Gives (λ x. (x.0, x.1.now)) result ((octets N).read bytes.now) }
{
    crate::reading::octets_at::<N, BlockFault>(bytes, BlockFault::Length)
}

/// Reads `size` octets. Returns them and the rest.
#[tactic(auto, unfolding(crate::specs::blocks::Fields::octets_read))]
pub fn slice_at(bytes: &[u8], size: usize) -> Result<(&[u8], &[u8]), BlockFault>
    ensures read { Gives (λ x. (x.0.now, x.1.now)) result ((octets size).read bytes.now) }
    ensures len { IfOk result (λ x. length x.0.now ≡ size) }
{
    crate::reading::split(bytes, size, BlockFault::Length)
}

/// Passes over `size` octets of any value. Returns the rest.
pub fn blank_at(bytes: &[u8], size: usize) -> Result<&[u8], BlockFault>
    ensures { Gives (λ x. (tt, x.now)) result ((blank size).read bytes.now) }
{
    let (_any, rest) = slice_at(bytes, size)?;
    Ok(rest)
}

/// Passes over a number of two octets of any value. Returns the rest.
pub fn unchecked_at(bytes: &[u8]) -> Result<&[u8], BlockFault>
    ensures { Gives (λ x. (tt, x.now)) result ((unchecked_two 0).read bytes.now) }
{
    let (_any, rest) = u16_at(bytes)?;
    Ok(rest)
}

/// Reads an Ethernet address. Returns it and the rest.
pub fn mac_at(bytes: &[u8]) -> Result<(Mac, &[u8]), BlockFault>
    ensures { Gives (λ x. (x.0, x.1.now)) result (mac.read bytes.now) }
{
    let (octets, rest) = octets_at::<6>(bytes)?;
    Ok((Mac { octets }, rest))
}

/// Reads BlockVersionHigh 1 and BlockVersionLow 0. Returns the rest.
#[tactic(auto, unfolding(crate::specs::blocks::Fields::version))]
pub fn version_at(bytes: &[u8]) -> Result<&[u8], BlockFault>
    ensures { Gives (λ x. (tt, x.now)) result (version.read bytes.now) }
{
    let (high, rest) = u8_at(bytes)?;
    if high != 1 {
        return Err(BlockFault::Version(2));
    }
    let (low, rest) = u8_at(rest)?;
    if low != 0 {
        return Err(BlockFault::Version(3));
    }
    Ok(rest)
}

/// Checks that no octet follows the last field.
pub fn ended(rest: &[u8]) -> Result<(), BlockFault>
    ensures { Gives (λ x. x) result (nothing rest.now) }
{
    if rest.is_empty() {
        Ok(())
    } else {
        Err(BlockFault::Length)
    }
}
