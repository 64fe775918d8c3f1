//! The records that are written.
ghost use Rattle.std.specs.Prelude.{◌≡◌, ◌<◌, Ok, IfOk};
ghost use Rattle.pn_values.specs.declared.im_value.ImValue.{ImValue};
ghost use Rattle.pn_values.specs.declared.command.Command.TheVariants.{SetIm};
ghost use Rattle.im_records.specs.Writes.{IsWritten, command_of, text_of};

use crate::{Record, RecordFault};
use pn_values::{Command, ImValue, Padded};

/// The command that a write of these octets to the record with this index asks for. The first fault found is reported:
/// Index, Length, Block.
#[tactic(auto, using(crate::proofs::Texts::whole, crate::proofs::Texts::only_if))]
pub fn read_write(index: u16, bytes: &[u8]) -> Result<Command, RecordFault>
    // A whole record sets its value.
    ensures whole { (value : ImValue) → IsWritten index bytes.now value → result ≡ Ok (SetIm value) }
    // A command that is returned sets the value of a whole record, and nothing else.
    ensures only { IfOk result (λ command. (value : ImValue) × (command ≡ SetIm value) × IsWritten index bytes.now value) }
    // The result is exactly the command or the fault that the definition `command_of` gives.
    ensures exact { result ≡ command_of index bytes.now }
{
    command_at(index, bytes)
}

/// The command that a written record asks for.
#[tactic(auto, unfolding(crate::specs::Writes::command_of))]
fn command_at(index: u16, bytes: &[u8]) -> Result<Command, RecordFault>
    ensures { result ≡ command_of index bytes.now }
{
    let value = match Record::of(index) {
        Some(Record::Im1) => ImValue::Im1(text_at(bytes, [0, 0x21, 0, 56, 1, 0])?),
        Some(Record::Im2) => ImValue::Im2(text_at(bytes, [0, 0x22, 0, 18, 1, 0])?),
        Some(Record::Im3) => ImValue::Im3(text_at(bytes, [0, 0x23, 0, 56, 1, 0])?),
        Some(Record::Im4) => ImValue::Im4(text_at(bytes, [0, 0x24, 0, 56, 1, 0])?),
        _ => return Err(RecordFault::Index),
    };
    Ok(Command::SetIm(value))
}

/// The text after the header of its kind, to the last octet. Its length is checked first.
#[tactic(auto, unfolding(crate::specs::Writes::text_of))]
fn text_at<const N: usize>(bytes: &[u8], header: [u8; 6]) -> Result<Padded<N>, RecordFault>
    requires { N < 1000 }
    ensures { result ≡ text_of N header bytes.now }
{
    if bytes.len() != 6 + N {
        return Err(RecordFault::Length);
    }
    let (front, text) = bytes.split_at(6);
    if front != header.as_slice() {
        return Err(RecordFault::Block);
    }
    match text.split_first_chunk::<N>() {
        Some((text, _end)) => Ok(Padded::new(*text)),
        None => Err(RecordFault::Length),
    }
}
