//! The parameter records of a device.
ghost use Rattle.std.specs.Prelude.{◌≡◌};
ghost use Rattle.records.specs.reads.Parameters.{length_in, parameter_length, submodule_length};

use pn_values::{ParameterRecord, Real, RealSubmodule};

/// The exact length, in octets, of the parameter record with this index of the submodule in this slot and subslot, or
/// `None` if there is no such record.
pub fn parameter_length(real: &Real, slot: u16, subslot: u16, index: u16) -> Option<u16>
    ensures { result ≡ parameter_length real.now.modules.items slot subslot index }
{
    for entry in real.modules.as_slice() {
        if entry.slot == slot {
            if let Some(length) = submodule_length(entry.submodules.as_slice(), subslot, index) {
                return Some(length);
            }
        }
    }
    None
}

/// The length of the record with this index of the submodule in this subslot, or `None` if there is no such record.
fn submodule_length(parts: &[RealSubmodule], subslot: u16, index: u16) -> Option<u16>
    ensures { result ≡ submodule_length subslot index parts.now }
{
    for part in parts {
        if part.subslot == subslot {
            if let Some(length) = length_in(part.parameters.as_slice(), index) {
                return Some(length);
            }
        }
    }
    None
}

/// The length of the record with this index, or `None` if it is not in the list.
fn length_in(parameters: &[ParameterRecord], index: u16) -> Option<u16>
    ensures { result ≡ length_in index parameters.now }
{
    for parameter in parameters {
        if parameter.index == index {
            return Some(parameter.length);
        }
    }
    None
}
