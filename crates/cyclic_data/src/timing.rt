//! The times at which cyclic frames are due, the frames that are accepted, and the watchdog.
ghost use Rattle.std.specs.Prelude.{◌≡◌, ◌==◌, ◌+◌, ◌*◌, ◌%◌, ◌<◌, ◌≤◌, ℕ, None, is_some, nat_le};
ghost use Rattle.cyclic_data.specs.Timing.{Sending, Hearing, is_due, unit_later, HasRun, is_newer, is_taken, heard, held_on, HasWaited};
ghost use Rattle.cyclic_data.specs.Leaps.{frame_due_in, held_for, over_in, units_later};

use crate::status::DataStatus;
use bitflags::Flags;
use std::marker::Model;

/// The provider of cyclic frames: one frame in each interval, counted from the start.
#[derive(Drop)]
pub struct Provider {
    interval: u32,
    elapsed: u32,
}

// In clauses a provider is its interval, and the units since the last frame was due.
impl Model for Provider {
    ghost use Rattle.cyclic_data.specs.Timing.{Sending};

    ghost Value = { Sending };

    ghost use Rattle.std.specs.Prelude.{◌<◌, ◌≤◌};

    ghost view = { λ provider. record { interval = provider.interval; elapsed = provider.elapsed } };

    ghost invariant = { λ provider. (provider.elapsed < provider.interval) × (provider.interval ≤ 8388608) };
}

impl Provider {
    /// A provider that starts now. SendClockFactor, 1 to 128, is in units of 31.25 microseconds; a frame is due after
    /// each ReductionRatio, 1 to 65,535, of these.
    pub fn start(send_clock_factor: u16, reduction_ratio: u16) -> Provider
        requires clock { 0 < send_clock_factor }
        requires short { send_clock_factor ≤ 128 }
        requires ratio { 0 < reduction_ratio }
        ensures { result ≡ record { interval = send_clock_factor * reduction_ratio; elapsed = 0 } }
    {
        Provider {
            interval: u32::from(send_clock_factor) * u32::from(reduction_ratio),
            elapsed: 0,
        }
    }

    /// Lets a unit pass. Returns whether a frame is due.
    pub fn due(&mut self) -> bool
        ensures due { result ≡ is_due self.old }
        ensures state { self.new ≡ unit_later self.old }
        // If the provider has run for n units, a frame is due with this unit exactly if n + 1 is a multiple of the
        // interval.
        ensures exactly { (units : ℕ) → HasRun self.old units →
            HasRun self.new (units + 1) × (result ≡ ((units + 1) % self.old.interval == 0)) }
    {
        if self.elapsed + 1 == self.interval {
            self.elapsed = 0;
            true
        } else {
            self.elapsed += 1;
            false
        }
    }

    /// The number of units up to and including the next one with which a frame is due.
    pub fn due_in(&self) -> u32
        ensures value { result ≡ frame_due_in self.now }
        ensures some { 0 < result }
        ensures few { result ≤ 8388608 }
    {
        self.interval - self.elapsed
    }

    /// A frame was due: the next interval begins.
    #[inline(always)]
    pub fn restart(&mut self)
        ensures state { self.new ≡ record self.old { elapsed = 0 } }
        ensures some { 0 < frame_due_in self.old }
    {
        self.elapsed = 0;
    }

    /// Lets several units pass at once. No frame may be due with any of them.
    pub fn pass(&mut self, units: u32)
        requires { units < frame_due_in self.old }
        ensures { self.new ≡ units_later units self.old }
    {
        self.elapsed += units;
    }
}

/// The consumer of cyclic frames: the frames that it accepts, and how long it has been without one.
#[derive(Drop)]
pub struct Consumer {
    last: Option<u16>,
    held: u32,
    limit: u32,
}

// In clauses a consumer is the counter of the last accepted frame, the units since then, and the limit of these.
impl Model for Consumer {
    ghost use Rattle.cyclic_data.specs.Timing.{Hearing};

    ghost Value = { Hearing };

    ghost use Rattle.std.specs.Prelude.{◌≤◌};

    ghost view = { λ consumer. record { last = consumer.last; held = consumer.held; limit = consumer.limit } };

    ghost invariant = { λ consumer. (consumer.held ≤ consumer.limit) × (consumer.limit ≤ 503316480) };
}

/// Whether a counter is newer than the last one: 1 to 61,440 ahead of it, modulo 65,536. The first counter is newer,
/// because a controller may begin with any counter.
fn is_newer(last: Option<u16>, counter: u16) -> bool
    ensures { result ≡ is_newer last counter }
{
    match last {
        Some(last) => {
            // Modulo 65,536: the counter wraps about every two seconds. A frame more than 61,440 ahead was overtaken by a
            // later one.
            let gap = (u32::from(counter) + 65_536 - u32::from(last)) % 65_536;
            (1..=61_440).contains(&gap)
        }
        None => true,
    }
}

impl Consumer {
    /// A consumer that has accepted no frame yet. It waits for DataHoldFactor, at most 7,680, times the interval, which
    /// is at most 65,536 units of 31.25 microseconds.
    pub fn new(data_hold_factor: u16, interval: u32) -> Consumer
        requires factor { data_hold_factor ≤ 7680 }
        requires short { interval ≤ 65536 }
        ensures { result ≡ record { last = None; held = 0; limit = data_hold_factor * interval } }
    {
        Consumer {
            last: None,
            held: 0,
            limit: u32::from(data_hold_factor) * interval,
        }
    }

    /// Receives a frame with its CycleCounter, DataStatus and TransferStatus. Returns whether it is accepted.
    pub fn accept(&mut self, counter: u16, data_status: DataStatus, transfer_status: u8) -> bool
        ensures taken { result ≡ is_taken self.old.last counter data_status.0 transfer_status }
        ensures state { self.new ≡ heard self.old counter data_status.0 transfer_status }
    {
        // The IOPS reports for each submodule whether the provider runs or has a problem; only 'valid' concerns the whole
        // frame.
        let taken = data_status.contains(DataStatus::DATA_VALID)
            && transfer_status == 0
            && is_newer(self.last, counter);
        if taken {
            self.last = Some(counter);
            self.held = 0;
        }
        taken
    }

    /// Whether a frame was accepted.
    pub fn has_heard(&self) -> bool
        ensures { result ≡ is_some self.now.last }
    {
        self.last.is_some()
    }

    /// The counter of the last accepted frame, if one was accepted.
    pub fn last(&self) -> Option<u16>
        ensures { result ≡ self.now.last }
    {
        self.last
    }

    /// Waits from now on, as after an accepted frame.
    pub fn restart(&mut self)
        ensures { self.new ≡ record self.old { held = 0 } }
    {
        self.held = 0;
    }

    /// Lets a unit pass. Returns whether the time is over: it is, from the unit on that completes it.
    pub fn expired(&mut self) -> bool
        ensures expired { result ≡ (self.new.held == self.old.limit) }
        ensures state { self.new ≡ held_on self.old }
        // If the consumer has waited for n units, the time is over with this unit exactly if n + 1 is at least the limit.
        ensures exactly { (units : ℕ) → HasWaited self.old units →
            HasWaited self.new (units + 1) × (result ≡ nat_le self.old.limit (units + 1)) }
    {
        let held = self.held + 1;
        if held < self.limit {
            self.held = held;
            return false;
        }
        // The time stays over, and the sum cannot overflow, for any number of units.
        self.held = self.limit;
        true
    }

    /// The number of units up to and including the next one with which the time is over. It is 1 if the time is over
    /// already: then it is over with each further unit.
    pub fn over_in(&self) -> u32
        ensures value { result ≡ over_in self.now }
        ensures some { 0 < result }
    {
        (self.limit - self.held).max(1)
    }

    /// Lets several units pass at once. The time may not be over with any of them.
    pub fn pass(&mut self, units: u32)
        requires { units < over_in self.old }
        ensures { self.new ≡ held_for units self.old }
    {
        self.held += units;
    }
}
