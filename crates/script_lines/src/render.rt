//! The lines that are printed. Each function appends one of them to a text.
ghost use Rattle.std.specs.Prelude.{◌≡◌, ◌≤◌, ◌++◌, length, OnOk, decimal, map};
ghost use Rattle.hex.specs.Hex.{encode_lower};
ghost use Rattle.script_lines.specs.Text.{boot_line, out_line, moved_line, out_lines, note_line};

use crate::digits;
use device_frames::Note;
use frame_codec::Frame;
use itoa::Buffer;
use settings_journal::BootFault;
use std::alloc::AllocError;

/// The result of a start.
pub fn boot(refused: Option<BootFault>, text: &mut Vec<u8>) -> Result<(), AllocError>
    ensures { OnOk result (text.new.items ≡ text.old.items ++ boot_line refused) }
{
    match refused {
        None => text.extend_from_slice(b"boot ok\n"),
        Some(BootFault::FlashFault) => text.extend_from_slice(b"boot flash-fault\n"),
        Some(BootFault::Foreign) => text.extend_from_slice(b"boot foreign\n"),
    }
}

/// A frame that is sent.
#[tactic(auto, unfolding(crate::specs::Text::out_line))]
fn out(frame: &Frame, text: &mut Vec<u8>) -> Result<(), AllocError>
    ensures { OnOk result (text.new.items ≡ text.old.items ++ out_line frame.now.items) }
{
    text.extend_from_slice(b"out ")?;
    hex_digits(frame.as_slice(), text)?;
    text.extend_from_slice(b"\n")
}

/// Bytes, two digits for each. This is not a line of its own.
pub(crate) fn hex_digits(bytes: &[u8], text: &mut Vec<u8>) -> Result<(), AllocError>
    requires { length bytes.now ≤ 1518 }
    ensures { OnOk result (text.new.items ≡ text.old.items ++ encode_lower bytes.now) }
{
    let before = text.len();
    text.resize(before + 2 * bytes.len(), 0)?;
    digits::write(bytes, &mut text.as_mut_slice()[before..]);
    Ok(())
}

/// Frames that are sent, the first of them first.
pub fn outs(frames: &[Frame], text: &mut Vec<u8>) -> Result<(), AllocError>
    ensures { OnOk result (text.new.items ≡ text.old.items ++ out_lines (map (λ frame. frame.items) frames.now)) }
{
    for frame in frames {
        out(frame, text)?;
    }
    Ok(())
}

/// The result of an event.
pub fn note(note: Note, text: &mut Vec<u8>) -> Result<(), AllocError>
    ensures { OnOk result (text.new.items ≡ text.old.items ++ note_line note) }
{
    text.extend_from_slice(line_of(note))
}

/// The whole line of a note. It is a constant because nearly every line of a script prints one.
#[tactic(auto, unfolding(crate::specs::Text::note_line))]
fn line_of(note: Note) -> &'static [u8]
    ensures { result.now ≡ note_line note }
{
    match note {
        Note::Done => b"note done\n",
        Note::NotMine => b"note not-mine\n",
        Note::Fault => b"note fault\n",
        Note::Filter => b"note filter\n",
        Note::OldCall => b"note old-call\n",
        Note::NoRelation => b"note no-relation\n",
        Note::StaleCycle => b"note stale-cycle\n",
        Note::Refused => b"note refused\n",
    }
}

/// The number of frames that were handed to the device, and the number handed to the controller.
#[tactic(auto, unfolding(crate::specs::Text::moved_line))]
pub fn moved(to_device: usize, to_controller: usize, text: &mut Vec<u8>) -> Result<(), AllocError>
    ensures { OnOk result (text.new.items ≡ text.old.items ++ moved_line to_device to_controller) }
{
    text.extend_from_slice(b"moved ")?;
    count(to_device, text)?;
    text.extend_from_slice(b" ")?;
    count(to_controller, text)?;
    text.extend_from_slice(b"\n")
}

/// A number of frames. This is not a line of its own.
fn count(frames: usize, text: &mut Vec<u8>) -> Result<(), AllocError>
    ensures { OnOk result (text.new.items ≡ text.old.items ++ decimal frames) }
{
    let mut buffer = Buffer::new();
    text.extend_from_slice(buffer.format(frames).as_bytes())
}
