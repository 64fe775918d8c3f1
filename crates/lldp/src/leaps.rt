//! Several ticks at once.
ghost use Rattle.std.specs.Prelude.{◌≡◌, ◌<◌, ◌-◌, true};
ghost use Rattle.lldp.specs.Leaps.{NoneActs, acts, due_in, later as later_by, sooner as sooner_by, ticks_of};

use crate::Neighbours;

impl Neighbours {
    /// The number of ticks up to and including the next one that sends an announcement or forgets the neighbour.
    pub fn due_in(&self) -> u32
        ensures value { result ≡ due_in self.now }
        ensures some { 0 < result }
        // The tick of this number sends or forgets.
        ensures next { acts (ticks_of (result - 1) self.now) ≡ true }
    {
        self.sooner(self.next.max(1))
    }

    /// This many ticks, or fewer if the neighbour is forgotten before.
    fn sooner(&self, ticks: u32) -> u32
        requires { 0 < ticks }
        ensures value { result ≡ sooner_by self.now.known ticks }
        ensures some { 0 < result }
    {
        match &self.known {
            Some(known) => known.left.max(1).min(ticks),
            None => ticks,
        }
    }

    /// Lets ticks pass that neither send nor forget: fewer than `due_in` returns.
    pub fn pass(&mut self, ticks: u32)
        requires { ticks < due_in self.old }
        // It has the same effect as that many ticks, one by one, and none of them sends or forgets.
        ensures state { self.new ≡ ticks_of ticks self.old }
        ensures none { NoneActs ticks self.old }
    {
        self.later(ticks);
    }

    /// Lets ticks pass that neither send nor forget.
    fn later(&mut self, ticks: u32)
        ensures { self.new ≡ later_by ticks self.old }
    {
        self.next = self.next.saturating_sub(ticks);
        if let Some(known) = &mut self.known {
            known.left = known.left.saturating_sub(ticks);
        }
    }
}
