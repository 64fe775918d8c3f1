//! Several ticks at once.
ghost use Rattle.std.specs.Prelude.{◌≡◌, ◌<◌, ◌&&◌, nat_eq};
ghost use Rattle.services.specs.Leaps.{IsNextToSend, NoneSends, due_in, ticks_of};

use crate::Services;

/// The number of ticks if nothing is ever sent.
pub const NEVER: u32 = u32::MAX;

impl Services {
    /// The number of ticks up to and including the next one that sends a frame. `NEVER` if no tick does, unless something is heard
    /// or the address changes.
    pub fn due_in(&self) -> u32
        ensures value { result ≡ due_in self.now }
        ensures some { 0 < result }
        // The tick of this number sends a frame, unless none ever does.
        ensures next { IsNextToSend result self.now }
    {
        if self.is_defended() {
            1
        } else {
            self.announcement.due_in()
        }
    }

    /// Lets ticks pass that send nothing: fewer than `due_in` returns.
    pub fn pass(&mut self, ticks: u32)
        requires { ticks < due_in self.old }
        // It has the same effect as that many ticks, one by one, and none of them sends a frame.
        ensures state { self.new ≡ ticks_of ticks self.old }
        ensures none { NoneSends ticks self.old }
    {
        self.announcement = self.announcement.later(ticks);
        self.defends = still_defends(self.defends, ticks);
        self.guard = self.guard.saturating_sub(ticks);
    }
}

/// Whether a conflict still waits for its defence after ticks: it is defended in the next tick or not at all.
fn still_defends(defends: bool, ticks: u32) -> bool
    ensures { result ≡ (defends && nat_eq ticks 0) }
{
    defends && ticks == 0
}
