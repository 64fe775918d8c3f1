// The outputs of the demo device, as `show` prints them.
ghost use Rattle.std.specs.Prelude.{◌≡◌, ◌++◌, OnOk};
ghost use Rattle.script_lines.specs.Show.{module_shown, outputs_shown, part_shown};

use crate::power::DemoDevice;
use pn_values::{RealModule, RealSubmodule};
use script_lines::show;
use std::alloc::AllocError;

/// The outputs of the submodules that have one.
pub(crate) fn outputs(device: &DemoDevice<'_>, text: &mut Vec<u8>) -> Result<(), AllocError>
    ensures { OnOk result (text.new.items ≡ text.old.items ++ outputs_shown device.now.live.rest.real device.now.live.rest.link) }
{
    for entry in device.real().modules.as_slice() {
        module_outputs(device, entry, text)?;
    }
    Ok(())
}

/// The outputs of a module.
fn module_outputs(
    device: &DemoDevice<'_>,
    entry: &RealModule,
    text: &mut Vec<u8>,
) -> Result<(), AllocError>
    ensures { OnOk result (text.new.items ≡ text.old.items ++ module_shown device.now.live.rest.real device.now.live.rest.link entry.now) }
{
    for part in entry.submodules.as_slice() {
        part_output(device, entry.slot, part, text)?;
    }
    Ok(())
}

/// The output of a submodule, if it has one.
fn part_output(
    device: &DemoDevice<'_>,
    slot: u16,
    part: &RealSubmodule,
    text: &mut Vec<u8>,
) -> Result<(), AllocError>
    ensures { OnOk result (text.new.items ≡ text.old.items ++ part_shown device.now.live.rest.real device.now.live.rest.link slot part.now) }
{
    if part.output == 0 {
        return Ok(());
    }
    match device.output(slot, part.subslot) {
        Some(value) => show::output(slot, part.subslot, value, text),
        None => show::output(slot, part.subslot, &[], text),
    }
}
