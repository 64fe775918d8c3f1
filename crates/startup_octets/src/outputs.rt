//! The outputs of a plan, and what a device shows as them.
ghost use Rattle.std.specs.Prelude.{◌≡◌, ◌≤◌, ◌++◌, ◌∷◌, IfOk, List, OnOk, flat_map, length, option_map};
ghost use Rattle.network_world.specs.declared.moves.Move.{Move};
ghost use Rattle.network_world.specs.World.{AreMade, World as Worlds};
ghost use Rattle.both_ends.specs.startup.Played.{Begins, CanMeet};
ghost use Rattle.startup_octets.specs.Outputs.{AreKept, AreShown, outputs_in, part_outputs};
ghost use Rattle.startup_octets.specs.OutputWorlds.{octets_in, outputs_shown, shown_at};
ghost use Rattle.startup_octets.specs.Run.{entries_of, opening_entry};

use both_ends::{worlds_show_what_is_given, worlds_start_up};
use controller_messages::Setup;
use device_core::Device;
use end_laws::{device_turns, stations_are_real, turns_are_of_a_kind};
use flash_model::Flash;
use frame_codec::{Bytes, formats_are_sound};
use network_world::World;
use plans::{Plan, packed_places_are_asked};
use pn_values::{Identity, RealSubmodule};
use std::alloc::{AllocError, Global};

/// An output of a plan: its submodule, and its number of octets.
#[derive(Clone, Copy, Debug, PartialEq, Eq)]
pub struct Output {
    /// SlotNumber.
    pub slot: u16,
    /// SubslotNumber.
    pub subslot: u16,
    /// The number of its octets, without the IOPS.
    pub size: u16,
}

/// Appends the outputs of the submodules in a slot.
fn add_outputs(
    outputs: &mut Vec<Output>,
    slot: u16,
    parts: &[RealSubmodule],
) -> Result<(), AllocError>
    ensures { OnOk result (outputs.new.items ≡ outputs.old.items ++ flat_map (part_outputs slot) parts.now) }
{
    for part in parts {
        if part.output != 0 {
            outputs.push(Output {
                slot,
                subslot: part.subslot,
                size: part.output,
            })?;
        }
    }
    Ok(())
}

/// The outputs of a plan, in its order.
fn planned_outputs(alloc: Global, plan: &Plan) -> Result<Vec<Output>, AllocError>
    ensures { IfOk result (λ outputs. outputs.items ≡ outputs_in plan.now.real.modules.items) }
{
    let mut outputs = Vec::new(alloc);
    for entry in plan.real().modules.as_slice() {
        add_outputs(&mut outputs, entry.slot, entry.submodules.as_slice())?;
    }
    Ok(outputs)
}

/// A buffer with these octets.
fn bytes_of(octets: &[u8]) -> Bytes
    requires { length octets.now ≤ 1519 }
    ensures { result.items ≡ octets.now }
{
    let mut bytes = Bytes::new();
    let _ = bytes.try_extend_from_slice(octets);
    bytes
}

/// What a device shows as an output, if it shows anything.
fn output_at<F: Flash<S>, const S: usize>(device: &Device<F, S>, output: &Output) -> Option<Bytes>
    ensures { option_map (λ octets. octets.items) result ≡ shown_at device.now output.now }
{
    match device.output(output.slot, output.subslot) {
        Some(octets) => Some(bytes_of(octets)),
        None => None,
    }
}

/// What the device of a world shows as the outputs of the plan, in its order.
pub(crate) fn shown_outputs<F: Flash<S>, const S: usize>(
    alloc: Global,
    world: &World<F, S>,
) -> Result<Vec<Option<Bytes>>, AllocError>
    ensures { IfOk result (λ shown. octets_in shown.items ≡ outputs_shown world.now) }
{
    let outputs = planned_outputs(alloc, world.controller().plan())?;
    let mut shown = Vec::new(alloc);
    for output in outputs.as_slice() {
        shown.push(output_at(world.device(), output))?;
    }
    Ok(shown)
}

/// The outputs that the device of a run shows, read from the octets of its entries.
pub(crate) fn outputs_are_shown<F: Flash<S>, const S: usize>(setup: &Setup, identity: &Identity)
    ensures shown { CanMeet setup.now identity.now → (first : Worlds F) (run : List (Move × Worlds F)) → Begins setup.now identity.now first
        → AreMade F.Flash first run → AreShown first.device.station.options (outputs_in setup.now.plan.real.modules.items) (opening_entry first ∷ entries_of first run) }
    ensures kept { CanMeet setup.now identity.now → (first : Worlds F) (run : List (Move × Worlds F)) → Begins setup.now identity.now first
        → AreMade F.Flash first run → AreKept first.device.station.options (outputs_in setup.now.plan.real.modules.items) (opening_entry first ∷ entries_of first run) }
{
    packed_places_are_asked();
    stations_are_real(setup, identity);
    formats_are_sound();
    device_turns();
    turns_are_of_a_kind();
    worlds_start_up::<F, S>(setup, identity);
    worlds_show_what_is_given::<F, S>(setup, identity);
}
