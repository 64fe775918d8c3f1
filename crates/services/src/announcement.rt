//! What is still to be said of the address.
ghost use Rattle.std.specs.Prelude.{◌≡◌, ◌<◌};
ghost use Rattle.services.specs.Leaps.{announcement_due_in, announcement_later};
ghost use Rattle.services.specs.State.{announcement_after, is_due as is_due_by};

use crate::NEVER;

/// The end of the relation that the services belong to.
#[derive(Clone, Copy, Debug, PartialEq, Eq)]
pub enum Role {
    /// A device. It answers requests of ARP itself.
    Device,
    /// A controller. Its services answer requests of ARP.
    Controller,
}

/// Which announcement of the address is still to be sent (RFC 5227, 2.3). There are two for each new address.
#[derive(Clone, Copy, Debug, PartialEq, Eq)]
pub enum Announcement {
    /// No announcement: both were sent, or there is no address.
    Nothing,
    /// The first announcement, in the next tick.
    First,
    /// The second announcement, in the tick of this number from now.
    Second(u32),
}

/// The time from the first announcement to the second, in ticks: 2 seconds (ANNOUNCE_INTERVAL).
const ANNOUNCE_INTERVAL: u32 = 64_000;

impl Announcement {
    /// Whether an announcement is sent in this tick.
    pub(crate) fn is_due(self) -> bool
        ensures { result ≡ is_due_by self }
    {
        match self {
            Announcement::Nothing => false,
            Announcement::First => true,
            Announcement::Second(ticks) => ticks <= 1,
        }
    }

    /// What is still to be sent after a tick.
    pub(crate) fn after_tick(self) -> Announcement
        ensures { result ≡ announcement_after self }
    {
        match self {
            Announcement::Nothing => Announcement::Nothing,
            Announcement::First => Announcement::Second(ANNOUNCE_INTERVAL),
            Announcement::Second(ticks) => {
                if ticks <= 1 {
                    Announcement::Nothing
                } else {
                    Announcement::Second(ticks - 1)
                }
            }
        }
    }

    /// The number of ticks up to and including the next one in which an announcement is sent. `NEVER` if none is still to be sent.
    pub(crate) fn due_in(self) -> u32
        ensures value { result ≡ announcement_due_in self }
        ensures some { 0 < result }
    {
        match self {
            Announcement::Nothing => NEVER,
            Announcement::First => 1,
            Announcement::Second(ticks) => ticks.max(1),
        }
    }

    /// What is still to be sent after ticks in which no announcement is sent.
    pub(crate) fn later(self, ticks: u32) -> Announcement
        ensures { result ≡ announcement_later ticks self }
    {
        match self {
            Announcement::Nothing => Announcement::Nothing,
            Announcement::First => Announcement::First,
            Announcement::Second(left) => Announcement::Second(left.saturating_sub(ticks)),
        }
    }
}
