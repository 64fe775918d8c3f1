// One step, and what it records for the host.
ghost use Rattle.std.specs.Prelude.{◌≡◌, ◌≤◌, false, true, []};
ghost use Rattle.device_core.specs.Machine.{step_of};
ghost use Rattle.device_frames.specs.declared.event.Event.TheVariants.{Application, Frame as Framed};
ghost use Rattle.device_frames.specs.declared.local.Local.TheVariants.{Input};
ghost use Rattle.device_core.specs.Steady.{IsSteadyAt};
ghost use Rattle.relations.specs.declared.steady.Steady.{Steady};
ghost use Rattle.device_core.specs.Steps.{IsExactStep};
ghost use Rattle.device_station.specs.recording.Leaps.{StepsAlone};
ghost use Rattle.device_station.specs.recording.Recorded.{Records};
ghost use Rattle.frame_codec.specs.Outbox.{boxed};

use crate::RecordedFlash;
use device_core::{Device, Event, Note};
use frame_codec::Outbox;

/// Handles an event, and puts the frames to send into the outbox. The calls that the step makes to the flash are
/// recorded. A host carries them out on its chip, call by call, and then sends the frames. A sector has 14 slots, so the 16 commands of a
/// Set write two bases at most, and none of their calls changes what another one wrote.
pub fn step(
    device: &mut Device<RecordedFlash<4096>, 4096>,
    event: &Event<'_>,
    outbox: &mut Outbox,
) -> Note
    requires { device.old.live.values.has_failed ≡ false }
    // The step is exactly that of the definition, with the frames in the outbox.
    ensures exact { IsExactStep device.old event.now (boxed outbox.new) result device.new }
    // No commit has failed after the step.
    ensures going { device.new.live.values.has_failed ≡ false }

    // The record is exactly the calls of the commands that the step accepts, in order. If a host is cut off anywhere
    // while it carries them out, its chip is a legal end.
    ensures records { Records device.old (step_of [] device.old.station device.old.live event.now).accepted device.new }
{
    // The stored settings are what a restart finds, before the step too.
    let _ = device.stored();
    device.step(event, outbox)
}

/// The same with a cyclic frame that the relation accepts. It sends nothing, and makes no call to the flash. Returns whether the octets
/// are such a frame; if not, nothing changes.
pub fn step_cyclic<const S: usize>(device: &mut Device<RecordedFlash<S>, S>, octets: &[u8]) -> bool
    requires { device.old.live.values.has_failed ≡ false }
    ensures taken { result ≡ true → StepsAlone device.old (Framed (record { items = octets.now })) [] Note.Done device.new }
    ensures left { result ≡ false → device.new ≡ device.old }
    ensures flash { device.new.flash ≡ device.old.flash }
    ensures going { device.new.live.values.has_failed ≡ false }
    // It does not bring nearer what is due.
    ensures steady { (steady : Steady) → IsSteadyAt steady device.old.live → IsSteadyAt steady device.new.live }
{
    // The stored settings are what a restart finds.
    let _ = device.stored();
    device.take_cyclic(octets)
}

/// The same with an input. It sends nothing, and makes no call to the flash.
pub fn step_input<const S: usize>(
    device: &mut Device<RecordedFlash<S>, S>,
    slot: u16,
    subslot: u16,
    value: &[u8],
) -> Note
    requires { device.old.live.values.has_failed ≡ false }
    ensures alone { StepsAlone device.old (Application (Input slot subslot (record { items = value.now }))) [] result device.new }
    ensures flash { device.new.flash ≡ device.old.flash }
    ensures going { device.new.live.values.has_failed ≡ false }
    // It does not bring nearer what is due.
    ensures steady { (steady : Steady) → IsSteadyAt steady device.old.live → IsSteadyAt steady device.new.live }
{
    // The stored settings are what a restart finds.
    let _ = device.stored();
    device.give_input(slot, subslot, value)
}
