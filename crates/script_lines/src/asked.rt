//! The line that shows what is asked of the device's application.
ghost use Rattle.std.specs.Prelude.{◌≡◌, ◌++◌, OnOk};
ghost use Rattle.std.specs.Option.{option_map};
ghost use Rattle.asked_records.specs.Asked.{seen, want_of};
ghost use Rattle.script_lines.specs.Asked.{asked_line, asked_words, want_words};

use crate::reports::{octets, spaced};
use crate::show::number;
use asked_records::{AskedRecord, Wanted};
use std::alloc::AllocError;

/// What is asked of the application: the number of the question, slot, subslot and index, and what is wanted of the record; or `-`.
#[tactic(auto, unfolding(crate::specs::Asked::asked_line))]
pub fn asked(asked: Option<AskedRecord<'_>>, text: &mut Vec<u8>) -> Result<(), AllocError>
    ensures { OnOk result (text.new.items ≡ text.old.items ++ asked_line (option_map seen asked.entry)) }
{
    text.extend_from_slice(b"asked ")?;
    question(asked, text)?;
    text.extend_from_slice(b"\n")
}

/// A question, or `-`. This is not a line of its own.
fn question(asked: Option<AskedRecord<'_>>, text: &mut Vec<u8>) -> Result<(), AllocError>
    ensures { OnOk result (text.new.items ≡ text.old.items ++ asked_words (option_map seen asked.entry)) }
{
    let Some(asked) = asked else {
        return text.extend_from_slice(b"-");
    };
    number(asked.number, text)?;
    spaced(asked.slot, text)?;
    spaced(asked.subslot, text)?;
    spaced(asked.index, text)?;
    text.extend_from_slice(b" ")?;
    wanted(asked.wanted, text)
}

/// `read` with the number of octets, or `write` with the octets in hex. This is not a line of its own.
fn wanted(wanted: Wanted<'_>, text: &mut Vec<u8>) -> Result<(), AllocError>
    ensures { OnOk result (text.new.items ≡ text.old.items ++ want_words (want_of wanted.entry)) }
{
    match wanted {
        Wanted::Read(length) => {
            text.extend_from_slice(b"read ")?;
            number(length, text)
        }
        Wanted::Write(written) => {
            text.extend_from_slice(b"write ")?;
            octets(written, text)
        }
    }
}
