// Runs a script, line by line.
ghost use Rattle.std.specs.Prelude.{◌≤◌, ℕ, List, Option, length, IfErr};
ghost use Rattle.plans.specs.declared.parts.Parts.{Parts};
ghost use Rattle.script_runner.specs.Script.{ArePlansOf};
ghost use Rattle.script_runner.specs.Reported.{IsPlayed, IsPlayFault};

use crate::RunFault;
use crate::output::put;
use flash_model::MemoryFlash;
use script_lines::first_line;
use script_session::Session;
use std::alloc::Global;
use std::io::Write;

/// Runs a script on the demo device over a blank flash, and writes what it prints, line by line. The contract covers the
/// output up to the first line that orders a failure of the flash.
pub(crate) fn play<W: Write>(alloc: Global, input: &[u8], writer: &mut W) -> Result<(), RunFault>
    requires { length input.now ≤ 16777216 }
    ensures faults { IfErr result IsPlayFault }
    ensures played { (plans : List ℕ → Option Parts) → ArePlansOf plans input.now →
        IsPlayed plans (W.contents writer.old) (W.contents writer.new) input.now result }
{
    let mut flash = MemoryFlash::blank();
    let mut session = Session::new(alloc, &mut flash);
    let mut buffer = Vec::new(alloc);
    let mut text = Vec::new(alloc);
    put(writer, b"boot ok\n")?;
    let mut rest = input;
    let mut number = 0;
    while !rest.is_empty() {
        let (line, later) = first_line(rest);
        number += 1;
        text.clear();
        if !session.take(line, &mut buffer, &mut text)? {
            return Err(RunFault::Line(number));
        }
        put(writer, text.as_slice())?;
        rest = later;
    }
    Ok(())
}
