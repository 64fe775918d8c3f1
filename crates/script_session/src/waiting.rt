// Frames that wait to be handed over.
ghost use Rattle.std.specs.Prelude.{◌≡◌, ◌++◌, OnOk};
ghost use Rattle.script_session.specs.Ends.{octets_of};
ghost use Rattle.device_station.specs.State.{in_order};

use device_station::StationOutbox;
use frame_codec::Frame;
use std::alloc::AllocError;

/// Appends copies of frames.
pub(crate) fn append(frames: &[Frame], waiting: &mut Vec<Frame>) -> Result<(), AllocError>
    ensures { OnOk result (octets_of waiting.new.items ≡ octets_of waiting.old.items ++ octets_of frames.now) }
{
    for frame in frames {
        let mut copy = Frame::new();
        copy.copy(frame);
        waiting.push(copy)?;
    }
    Ok(())
}

/// Appends the frames of a step of the station to those that wait.
pub(crate) fn append_all(outbox: &StationOutbox, waiting: &mut Vec<Frame>) -> Result<(), AllocError>
    ensures { OnOk result (octets_of waiting.new.items ≡ octets_of waiting.old.items ++ in_order outbox.now) }
{
    append(outbox.device(), waiting)?;
    append(outbox.services(), waiting)
}
