// A script from a reader to a writer.
ghost use Rattle.std.specs.Prelude.{IfSome};
ghost use Rattle.script_runner.specs.Reported.{IsSilent, IsReportedByPlans, IsWhole};

use crate::RunFault;
use crate::input::read_all;
use crate::play::play;
use std::alloc::Global;
use std::io::{Read, Write};

/// Reads a script to its end, runs it on a demo device over a blank flash, and writes what it prints. Nothing is written
/// before the whole script is read.
pub fn run<R: Read, W: Write>(alloc: Global, reader: &mut R, writer: &mut W) -> Result<(), RunFault>
    // If the bytes of the reader are known: a script of more than 16,777,216 bytes gives EndlessInput unless a read fails
    // or memory is refused, and no other script gives it. Nothing is written after EndlessInput or a failed read.
    ensures whole { IfSome (R.remaining reader.old) (λ input. IsWhole (W.contents writer.old) (W.contents writer.new) input result) }
    // If the bytes of the reader are known: up to the first line that orders a failure of the flash, the output is a
    // function of these bytes and of the plans of the catalogues in them. Only a prefix of it is written if a write fails
    // or memory is refused, and nothing is written after EndlessInput or a failed read.
    ensures reported { IfSome (R.remaining reader.old) (λ input. IsReportedByPlans (W.contents writer.old) (W.contents writer.new) input result) }
    // For any reader, also one that never ends: nothing is written after EndlessInput or a failed read.
    ensures silent { IsSilent (W.contents writer.old) (W.contents writer.new) result }
{
    let input = read_all(alloc, reader)?;
    play(alloc, input.as_slice(), writer)
}
