//! The outputs of submodules; zeros for those that have no place in cyclic frames.
ghost use Rattle.std.specs.Prelude.{◌≡◌, ◌≤◌, IfSome, length, option_map};
ghost use Rattle.relations.specs.Exchanged.{output_in};
ghost use Rattle.relations.specs.Outputs.{output_of, output_part, zero_output, zeros_of};

use crate::Relation;
use cyclic_data::zeros;
use pn_values::{Real, RealModule, RealSubmodule};

/// As many zeros as the output of this submodule has octets.
fn zeros_of(part: &RealSubmodule) -> &'static [u8]
    ensures value { result.now ≡ zeros_of part.now }
    ensures short { length result.now ≤ 1440 }
{
    zeros((part.output as usize).min(1440))
}

/// As many zeros as the output of the submodule in this subslot of the module has octets, if it has an output.
fn zero_part(entry: &RealModule, subslot: u16) -> Option<&'static [u8]>
    ensures value { option_map (λ value. value.now) result ≡ option_map zeros_of (output_part subslot entry.now.submodules.items) }
    ensures short { IfSome result (λ value. length value.now ≤ 1440) }
{
    for part in entry.submodules.as_slice() {
        if part.subslot == subslot && part.output != 0 {
            return Some(zeros_of(part));
        }
    }
    None
}

/// As many zeros as the output of the submodule that is plugged there has octets, if it has an output.
fn zero_output(real: &Real, slot: u16, subslot: u16) -> Option<&'static [u8]>
    ensures value { option_map (λ value. value.now) result ≡ zero_output real.now slot subslot }
    ensures short { IfSome result (λ value. length value.now ≤ 1440) }
{
    for entry in real.modules.as_slice() {
        if entry.slot == slot {
            return zero_part(entry, subslot);
        }
    }
    None
}

impl Relation {
    /// The output of a submodule, from the last accepted cyclic frame. All zeros if no frame was accepted yet, if the
    /// IOPS is not GOOD, or if there is no relation or no IODataObject of the submodule in it (then as many as the
    /// plugged submodule has). `None` if also no submodule with outputs is plugged there.
    pub fn output(&self, real: &Real, slot: u16, subslot: u16) -> Option<&[u8]>
        ensures value { option_map (λ value. value.now) result ≡ output_of real.now slot subslot (output_in slot subslot self.now) }
        ensures short { IfSome result (λ value. length value.now ≤ 1440) }
    {
        match self.placed_output(slot, subslot) {
            Some(value) => Some(value),
            None => zero_output(real, slot, subslot),
        }
    }
}
