//! The data of a submodule in cyclic frames.
ghost use Rattle.std.specs.Prelude.{◌≡◌, ◌==◌, ◌||◌, ◌+◌, ◌≤◌, ◌++◌, List, ℕ};
ghost use Rattle.arrayvec.specs.ArrayVec.{array_vec_len};
ghost use Rattle.wire.specs.Codec.{Gives};
ghost use Rattle.connect_blocks.specs.Expected.{description, description_kind, data_of, data_size, no_data, submodule_data, IsShort};

use arrayvec::ArrayVec;
use wire::blocks::{append_u8, append_u16, u16_at};
use wire::{BlockFault, fixed_one_at, ranged_at};

/// The data of a submodule in cyclic frames, from its SubmoduleProperties and DataDescriptions.
#[derive(Clone, Copy, Default)]
pub struct SubmoduleData {
    /// SubmoduleDataLength of its input, at most 1,440 octets, if it has one.
    pub input: Option<u16>,
    /// SubmoduleDataLength of its output, at most 1,440 octets, if it has one.
    pub output: Option<u16>,
}

/// Reads a DataDescription (field 13) of this kind. Returns the rest.
#[tactic(auto, unfolding(crate::specs::Expected::description_kind))]
fn description_kind_at(bytes: &[u8], kind: u16) -> Result<&[u8], BlockFault>
    ensures { Gives (λ x. (tt, x.now)) result ((description_kind kind).read bytes.now) }
{
    let (number, rest) = u16_at(bytes)?;
    if number % 4 == kind {
        Ok(rest)
    } else {
        Err(BlockFault::Field(13))
    }
}

/// Reads a description of this kind. Returns its length, which is at most `most`, and the rest.
#[tactic(auto, unfolding(crate::specs::Expected::description))]
fn description_at(bytes: &[u8], kind: u16, most: u16) -> Result<(u16, &[u8]), BlockFault>
    ensures { Gives (λ x. (x.0, x.1.now)) result ((description kind most).read bytes.now) }
{
    let rest = description_kind_at(bytes, kind)?;
    let (length, rest) = ranged_at(rest, 0, most, 14)?;
    let rest = fixed_one_at(rest, 1, 15)?;
    let rest = fixed_one_at(rest, 1, 16)?;
    Ok((length, rest))
}

/// Reads the description of no data if `there` is set. Returns the rest.
#[tactic(auto, unfolding(crate::specs::Expected::no_data))]
fn no_data_at(bytes: &[u8], there: bool) -> Result<&[u8], BlockFault>
    ensures { Gives (λ x. (tt, x.now)) result ((no_data there).read bytes.now) }
{
    match there {
        true => {
            let (_zero, rest) = description_at(bytes, 1, 0)?;
            Ok(rest)
        }
        false => Ok(bytes),
    }
}

/// Reads the description of an input (kind 1) or an output (kind 2) if `there` is set. Returns its length and the rest.
#[tactic(auto, unfolding(crate::specs::Expected::data_of))]
fn data_at(bytes: &[u8], there: bool, kind: u16) -> Result<(Option<u16>, &[u8]), BlockFault>
    ensures { Gives (λ x. (x.0, x.1.now)) result ((data_of there kind).read bytes.now) }
{
    match there {
        true => {
            let (length, rest) = description_at(bytes, kind, 1440)?;
            Ok((Some(length), rest))
        }
        false => Ok((None, bytes)),
    }
}

/// Whether `kind` is one of the two.
fn is_either(kind: u16, one: u16, other: u16) -> bool
    ensures { result ≡ (kind == one || kind == other) }
{
    kind == one || kind == other
}

/// Reads SubmoduleProperties and the descriptions. Returns the data and the rest.
#[tactic(auto, unfolding(crate::specs::Expected::submodule_data))]
pub(crate) fn submodule_data_at(bytes: &[u8]) -> Result<(SubmoduleData, &[u8]), BlockFault>
    ensures { Gives (λ x. (x.0, x.1.now)) result (submodule_data.read bytes.now) }
{
    let (properties, rest) = u16_at(bytes)?;
    let kind = properties % 4;
    let rest = no_data_at(rest, kind == 0)?;
    let (input, rest) = data_at(rest, is_either(kind, 1, 3), 1)?;
    let (output, rest) = data_at(rest, is_either(kind, 2, 3), 2)?;
    Ok((SubmoduleData { input, output }, rest))
}

/// Appends a description. There must be room.
#[tactic(auto, unfolding(crate::specs::Expected::description, crate::specs::Expected::description_kind))]
fn put_description<const N: usize>(out: &mut ArrayVec<u8, N>, kind: u16, length: u16)
    requires { array_vec_len out.old + 6 ≤ N }
    ensures items { (most : ℕ) (tail : List ℕ) → out.new.items ++ tail ≡ out.old.items ++ (description kind most).write length tail }
    ensures len { array_vec_len out.new ≡ array_vec_len out.old + 6 }
{
    append_u16(out, kind);
    append_u16(out, length);
    append_u8(out, 1);
    append_u8(out, 1);
}

/// Appends SubmoduleProperties and the descriptions. There must be room.
#[tactic(auto, using(crate::proofs::ModuleBlocksAccepted::data_fits), unfolding(crate::specs::Expected::submodule_data, crate::specs::Expected::no_data, crate::specs::Expected::data_of))]
pub(crate) fn put_submodule_data<const N: usize>(out: &mut ArrayVec<u8, N>, value: &SubmoduleData)
    requires { array_vec_len out.old + data_size value.now.input value.now.output ≤ N }
    ensures items { (tail : List ℕ) → out.new.items ++ tail ≡ out.old.items ++ submodule_data.write value.now tail }
    ensures len { array_vec_len out.new ≡ array_vec_len out.old + data_size value.now.input value.now.output }
    ensures fits { IsShort value.now → submodule_data.Fits value.now }
{
    match (value.input, value.output) {
        (None, None) => {
            append_u16(out, 0);
            put_description(out, 1, 0);
        }
        (Some(input), None) => {
            append_u16(out, 1);
            put_description(out, 1, input);
        }
        (None, Some(output)) => {
            append_u16(out, 2);
            put_description(out, 2, output);
        }
        (Some(input), Some(output)) => {
            append_u16(out, 3);
            put_description(out, 1, input);
            put_description(out, 2, output);
        }
    }
}

/// The number of octets that SubmoduleProperties and the descriptions take.
pub(crate) fn submodule_data_len(value: &SubmoduleData) -> usize
    ensures size { result ≡ data_size value.now.input value.now.output }
    ensures few { result ≤ 14 }
{
    match (value.input, value.output) {
        (Some(_), Some(_)) => 14,
        (Some(_), None) | (None, Some(_)) | (None, None) => 8,
    }
}
