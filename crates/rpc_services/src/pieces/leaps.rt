//! Ticks, one by one and several at once. No tick sends anything.
ghost use Rattle.std.specs.Prelude.{◌≡◌, map};
ghost use Rattle.rpc_services.specs.pieces.Leaps.{due_in as due_by, later, ticks_of};
ghost use Rattle.rpc_services.specs.pieces.State.{older, ticked};

use crate::pieces::joiner::Joiner;
use crate::pieces::unfinished::Unfinished;
use services::NEVER;

impl Joiner {
    /// Lets a tick pass, which is 31.25 microseconds. A call of which fragments are missing for 64,000 ticks is dropped.
    #[inline]
    pub fn tick(&mut self)
        ensures { self.new ≡ ticked self.old }
    {
        // Nothing is unfinished in most ticks.
        if self.busy > 0 {
            self.pass(1);
        }
    }

    /// Lets any number of ticks pass.
    pub fn elapse(&mut self, ticks: u32)
        // It has the same effect as that many ticks, one by one.
        ensures state { self.new ≡ ticks_of ticks self.old }
    {
        self.pass(ticks);
    }

    /// Lets ticks pass.
    #[inline(never)]
    fn pass(&mut self, ticks: u32)
        ensures { self.new ≡ later ticks self.old }
    {
        self.busy = self.busy.saturating_sub(ticks);
        age(&mut self.calls, ticks);
    }

    /// The number of ticks up to and including the next one that drops a call; `NEVER` if nothing is unfinished.
    pub fn due_in(&self) -> u32
        ensures { result ≡ due_by self.now }
    {
        let mut soonest = NEVER;
        for call in &self.calls {
            if call.left() != 0 {
                soonest = soonest.min(call.left());
            }
        }
        soonest
    }
}

/// Each is older by some ticks.
fn age(calls: &mut [Unfinished], ticks: u32)
    ensures { calls.new ≡ map (older ticks) calls.old }
{
    for index in 0..calls.len() {
        calls[index].age(ticks);
    }
}
