// Several units of time at once.
ghost use Rattle.std.specs.Prelude.{◌≡◌, ◌<◌, ◌≤◌, [], false, length};
ghost use Rattle.device_core.specs.Leaps.{live_due_in};
ghost use Rattle.device_core.specs.Steady.{IsSteadyAt};
ghost use Rattle.device_station.specs.recording.Leaps.{PassesAll};
ghost use Rattle.frame_codec.specs.Outbox.{boxed};

use crate::RecordedFlash;
use device_core::Device;
use frame_codec::Outbox;
use relations::Steady;

/// Lets several units of time pass at once, at most as many as are due, and puts the frames to send into the outbox.
pub fn leap<const S: usize>(
    device: &mut Device<RecordedFlash<S>, S>,
    units: u32,
    outbox: &mut Outbox,
)
    requires going { device.old.live.values.has_failed ≡ false }
    requires few { units ≤ live_due_in device.old.live }
    // The units passed as single steps. Only the last one may send, and none calls the flash.
    ensures passes { PassesAll units device.old (boxed outbox.new) device.new }
    ensures flash { device.new.flash ≡ device.old.flash }
    ensures going { device.new.live.values.has_failed ≡ false }
{
    // The stored settings are what a restart finds.
    let _ = device.stored();
    device.elapse(units, outbox);
}

/// Lets units of time pass at once, fewer than are due: none of them sends anything or calls the flash.
pub fn skip<const S: usize>(device: &mut Device<RecordedFlash<S>, S>, units: u32)
    requires going { device.old.live.values.has_failed ≡ false }
    requires few { units < live_due_in device.old.live }
    ensures passes { PassesAll units device.old [] device.new }
    ensures flash { device.new.flash ≡ device.old.flash }
    ensures going { device.new.live.values.has_failed ≡ false }
{
    // The stored settings are what a restart finds.
    let _ = device.stored();
    device.pass(units);
}

/// The same while only the timers of an exchange run.
#[inline(always)]
pub fn skip_steady<const S: usize>(
    device: &mut Device<RecordedFlash<S>, S>,
    units: u32,
    steady: &mut Steady,
)
    requires going { device.old.live.values.has_failed ≡ false }
    requires steady { IsSteadyAt steady.old device.old.live }
    requires few { units < steady.old.inputs }
    ensures passes { PassesAll units device.old [] device.new }
    ensures flash { device.new.flash ≡ device.old.flash }
    ensures going { device.new.live.values.has_failed ≡ false }
    ensures steady { IsSteadyAt steady.new device.new.live }
    ensures due { live_due_in device.new.live ≡ steady.new.inputs }
    ensures before { live_due_in device.old.live ≡ steady.old.inputs }
{
    // The stored settings are what a restart finds.
    let _ = device.stored();
    device.pass_steady(units, steady);
}

/// Lets the units pass up to and including the next one that brings inputs, while only the timers of an exchange run, and puts
/// their frame into the outbox. None calls the flash.
#[inline(always)]
pub fn leap_steady<const S: usize>(
    device: &mut Device<RecordedFlash<S>, S>,
    steady: &mut Steady,
    outbox: &mut Outbox,
)
    requires going { device.old.live.values.has_failed ≡ false }
    requires steady { IsSteadyAt steady.old device.old.live }
    requires first { steady.old.inputs < steady.old.held }
    ensures passes { PassesAll steady.old.inputs device.old (boxed outbox.new) device.new }
    ensures flash { device.new.flash ≡ device.old.flash }
    ensures going { device.new.live.values.has_failed ≡ false }
    ensures one { length (boxed outbox.new) ≡ 1 }
    ensures steady { 0 < steady.new.inputs → IsSteadyAt steady.new device.new.live }
    ensures due { 0 < steady.new.inputs → live_due_in device.new.live ≡ steady.new.inputs }
{
    // The stored settings are what a restart finds.
    let _ = device.stored();
    device.send_steady(steady, outbox);
}
