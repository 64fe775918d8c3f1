// Writes text to a writer.
ghost use Rattle.std.specs.Prelude.{◌≡◌};
ghost use Rattle.script_runner.specs.Output.{Puts};

use crate::RunFault;
use std::io::Write;

/// Writes all of a text. Fails with the write fault if a write fails or writes nothing. An empty text, which many lines
/// print, makes no call.
#[inline(always)]
pub(crate) fn put<W: Write>(writer: &mut W, text: &[u8]) -> Result<(), RunFault>
    ensures { Puts (W.contents writer.old) (W.contents writer.new) text.now result }
{
    if text.is_empty() {
        return Ok(());
    }
    put_all(writer, text)
}

/// Writes all of a text that is usually not empty.
fn put_all<W: Write>(writer: &mut W, text: &[u8]) -> Result<(), RunFault>
    ensures { Puts (W.contents writer.old) (W.contents writer.new) text.now result }
{
    let mut rest = text;
    while !rest.is_empty() {
        let Ok(taken) = writer.write(rest) else {
            return Err(RunFault::Write);
        };
        if taken == 0 {
            return Err(RunFault::Write);
        }
        rest = &rest[taken..];
    }
    Ok(())
}
