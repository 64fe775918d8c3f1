//! The lines of the places of a plan, as a controller knows them.
ghost use Rattle.std.specs.Prelude.{◌≡◌, ◌++◌, OnOk};
ghost use Rattle.script_lines.specs.Places.{all_lines, line_at, lines_of, place_line, place_word, places_shown};

use crate::show::number;
use controller_core::{Controller, PlaceState};
use pn_values::RealModule;
use std::alloc::AllocError;

/// Appends a line for each place of the controller's plan, in the order of slots and subslots, or one that says that there are none.
pub fn places(controller: &Controller, text: &mut Vec<u8>) -> Result<(), AllocError>
    ensures { OnOk result (text.new.items ≡ text.old.items ++ places_shown controller.now) }
{
    let before = text.len();
    all(controller, text)?;
    if text.len() == before {
        return text.extend_from_slice(b"places -\n");
    }
    Ok(())
}

/// The lines of all places.
fn all(controller: &Controller, text: &mut Vec<u8>) -> Result<(), AllocError>
    ensures { OnOk result (text.new.items ≡ text.old.items ++ all_lines controller.now) }
{
    for entry in controller.plan().real().modules.as_slice() {
        places_of(controller, entry, text)?;
    }
    Ok(())
}

/// The lines of the places of a module.
fn places_of(
    controller: &Controller,
    entry: &RealModule,
    text: &mut Vec<u8>,
) -> Result<(), AllocError>
    ensures { OnOk result (text.new.items ≡ text.old.items ++ lines_of controller.now entry.now) }
{
    for part in entry.submodules.as_slice() {
        place_at(controller, entry.slot, part.subslot, text)?;
    }
    Ok(())
}

/// The line of a place, if the controller knows of it.
fn place_at(
    controller: &Controller,
    slot: u16,
    subslot: u16,
    text: &mut Vec<u8>,
) -> Result<(), AllocError>
    ensures { OnOk result (text.new.items ≡ text.old.items ++ line_at controller.now slot subslot) }
{
    match controller.place(slot, subslot) {
        Some(state) => place(slot, subslot, state, text),
        None => Ok(()),
    }
}

/// The line of a place.
#[tactic(auto, unfolding(crate::specs::Places::place_line))]
fn place(slot: u16, subslot: u16, state: PlaceState, text: &mut Vec<u8>) -> Result<(), AllocError>
    ensures { OnOk result (text.new.items ≡ text.old.items ++ place_line slot subslot state) }
{
    text.extend_from_slice(b"place ")?;
    number(u32::from(slot), text)?;
    text.extend_from_slice(b" ")?;
    number(u32::from(subslot), text)?;
    text.extend_from_slice(b" ")?;
    place_word(state, text)?;
    text.extend_from_slice(b"\n")
}

/// The word for what is known of a place. This is not a line of its own.
fn place_word(state: PlaceState, text: &mut Vec<u8>) -> Result<(), AllocError>
    ensures { OnOk result (text.new.items ≡ text.old.items ++ place_word state) }
{
    match state {
        PlaceState::There | PlaceState::Ready(_) => text.extend_from_slice(b"there"),
        PlaceState::Differs => text.extend_from_slice(b"differs"),
        PlaceState::Gone => text.extend_from_slice(b"gone"),
        PlaceState::Wrong => text.extend_from_slice(b"wrong"),
        PlaceState::Plugged(_) | PlaceState::Writing(_) => text.extend_from_slice(b"plugged"),
        PlaceState::Ending(_) => text.extend_from_slice(b"ending"),
        PlaceState::Refused => text.extend_from_slice(b"refused"),
    }
}
