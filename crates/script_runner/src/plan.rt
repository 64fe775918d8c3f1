// The plan of a catalogue, as text.
ghost use Rattle.std.specs.Prelude.{◌≡◌, ◌++◌, OnOk, IfOk, IfErr, IfSome, flat_map};
ghost use Rattle.cyclic_data.specs.Layout.{Table};
ghost use Rattle.script_runner.specs.Reported.{IsSilent, IsWhole};
ghost use Rattle.script_runner.specs.Planned.{HasText, HasNoText, IsPlanned, kind_word, layout_lines, place_line, plan_lines, size_shown};

use crate::RunFault;
use crate::input::read_all;
use crate::output::put;
use configurator::plan_from_json;
use cyclic_data::{Layout, Place, PlaceKind};
use plans::Plan;
use script_lines::show::number;
use std::alloc::{AllocError, Global};
use std::io::{Read, Write};

/// Reads a catalogue to its end, makes its plan, and writes the layouts of the plan's cyclic frames, one place per line.
/// Nothing is written before the whole plan is made.
pub fn plan_text<R: Read, W: Write>(
    alloc: Global,
    reader: &mut R,
    writer: &mut W,
) -> Result<(), RunFault>
    // If the bytes of the reader are known: a catalogue of more than 16,777,216 bytes gives EndlessInput unless a read
    // fails or memory is refused, and no other catalogue gives it. Nothing is written after EndlessInput or a failed
    // read.
    ensures whole { IfSome (R.remaining reader.old) (λ input. IsWhole (W.contents writer.old) (W.contents writer.new) input result) }
    // If the bytes of the reader are known: the lines of the plan are written, less than these if a write failed, and
    // nothing if there is no plan or memory was refused.
    ensures planned { IfSome (R.remaining reader.old) (λ input. IsPlanned (W.contents writer.old) (W.contents writer.new) input result) }
    // For any reader, also one that never ends: nothing is written after EndlessInput or a failed read.
    ensures silent { IsSilent (W.contents writer.old) (W.contents writer.new) result }
{
    let input = read_all(alloc, reader)?;
    let text = text_of(alloc, input.as_slice())?;
    put(writer, text.as_slice())
}

/// The lines of the plan of a catalogue.
fn text_of(alloc: Global, input: &[u8]) -> Result<Vec<u8>, RunFault>
    ensures text { IfOk result (λ text. HasText input.now text.items) }
    ensures fault { IfErr result (HasNoText input.now) }
{
    let plan = plan_from_json(alloc, input)?;
    let mut text = Vec::new(alloc);
    plan_lines(&plan, &mut text).map_err(|_| RunFault::OutOfMemory)?;
    Ok(text)
}

/// The layouts of a plan: of the frames from the device, and of the frames from the controller.
fn plan_lines(plan: &Plan, text: &mut Vec<u8>) -> Result<(), AllocError>
    ensures { OnOk result (text.new.items ≡ text.old.items ++ plan_lines plan.now) }
{
    let layouts = plan.layouts();
    layout(b"input ", &layouts.input, text)?;
    layout(b"output ", &layouts.output, text)
}

/// A layout: its DataLength and its places.
fn layout(label: &[u8], layout: &Layout, text: &mut Vec<u8>) -> Result<(), AllocError>
    ensures { OnOk result (text.new.items ≡ text.old.items ++ layout_lines label.now layout.now) }
{
    text.extend_from_slice(label)?;
    number(u32::from(layout.data_length()), text)?;
    text.extend_from_slice(b"\n")?;
    places(layout.places(), text)
}

/// The places, one per line.
fn places(places: &[Place], text: &mut Vec<u8>) -> Result<(), AllocError>
    ensures { OnOk result (text.new.items ≡ text.old.items ++ flat_map place_line places.now) }
{
    for entry in places {
        place(entry, text)?;
    }
    Ok(())
}

/// A place: its kind, its slot and subslot, its first octet, and for data the number of octets with its IOPS.
#[tactic(auto, unfolding(crate::specs::Planned::place_line))]
fn place(place: &Place, text: &mut Vec<u8>) -> Result<(), AllocError>
    ensures { OnOk result (text.new.items ≡ text.old.items ++ place_line place.now) }
{
    text.extend_from_slice(kind_word(place.kind))?;
    number(u32::from(place.slot), text)?;
    text.extend_from_slice(b" ")?;
    number(u32::from(place.subslot), text)?;
    text.extend_from_slice(b" ")?;
    number(u32::from(place.offset), text)?;
    size(place, text)?;
    text.extend_from_slice(b"\n")
}

/// The number of octets of data. It is omitted for an IOCS, which is always one octet.
fn size(place: &Place, text: &mut Vec<u8>) -> Result<(), AllocError>
    ensures { OnOk result (text.new.items ≡ text.old.items ++ size_shown place.now.kind place.now.size) }
{
    match place.kind {
        PlaceKind::Data => {
            text.extend_from_slice(b" ")?;
            number(u32::from(place.size), text)
        }
        PlaceKind::Iocs => Ok(()),
    }
}

fn kind_word(kind: PlaceKind) -> &'static [u8]
    ensures { result.now ≡ kind_word kind }
{
    match kind {
        PlaceKind::Data => b"data ",
        PlaceKind::Iocs => b"iocs ",
    }
}
