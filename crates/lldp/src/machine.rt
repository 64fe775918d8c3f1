//! The machine of neighbours.
ghost use Rattle.std.specs.Prelude.{◌≡◌, ◌+◌, ◌*◌, ℕ, Some, None, true, false};
ghost use Rattle.std.specs.Option.{option_map};
ghost use Rattle.lldp.specs.Peer.{Told};
ghost use Rattle.lldp.specs.Frame.{told_in as told_of};
ghost use Rattle.lldp.specs.State.{Known as KnownPeer, after_told, changes as changes_by, effect_of, heard, is_alias as is_alias_by, is_known, is_over as is_over_by, is_sending as sends_by, older, started, ticked};
ghost use Rattle.lldp.specs.Views.{notice_as, peer_as};

use crate::frame::told_in;
use crate::neighbour::{Neighbour, Notice};
use pn_values::Mac;
use std::marker::Model;

/// The time between two announcements, in ticks: 5 seconds.
const INTERVAL: u32 = 160_000;

/// A second, in ticks.
const SECOND: u32 = 32_000;

/// What a frame did.
#[derive(Clone, Copy, Debug, PartialEq, Eq)]
pub enum Heard {
    /// Nothing: it carries no message of a neighbour.
    Nothing,
    /// It carries a message, and the known neighbour is as before.
    Same,
    /// Another neighbour is known than before, or none.
    Changed,
}

/// The neighbour that is known.
#[derive(Drop)]
pub(crate) struct Known {
    pub(crate) neighbour: Neighbour,
    /// In how many ticks it is forgotten; 0 or 1: in the next tick.
    pub(crate) left: u32,
}

/// The neighbour of a station, and when the station announces itself. The owner gives it each frame that the station drops,
/// and each tick. Clauses see it as the state of one machine.
#[derive(Drop)]
pub struct Neighbours {
    mac: Mac,
    pub(crate) next: u32,
    pub(crate) known: Option<Known>,
}

impl Model for Neighbours {
    ghost use Rattle.std.specs.Option.{option_map};
    ghost use Rattle.lldp.specs.State.{State};
    ghost use Rattle.lldp.specs.Views.{known_as};

    ghost Value = { State };

    ghost view = { λ n. record { mac = n.mac; next = n.next; known = option_map known_as n.known } };
}

impl Neighbours {
    /// The machine of a station at its start.
    pub fn new(mac: Mac) -> Neighbours
        ensures { result ≡ started mac }
    {
        Neighbours {
            mac,
            next: 1,
            known: None,
        }
    }

    /// The MAC address of this station.
    pub fn mac(&self) -> Mac
        ensures { result ≡ self.now.mac }
    {
        self.mac
    }

    /// The neighbour that is known.
    pub fn neighbour(&self) -> Option<&Neighbour>
        ensures { option_map (λ n. peer_as n.now) result ≡ option_map (λ (k : KnownPeer). k.peer) self.now.known }
    {
        match &self.known {
            Some(known) => Some(&known.neighbour),
            None => None,
        }
    }

    /// Handles a frame that the station dropped.
    pub fn hear(&mut self, bytes: &[u8]) -> Heard
        // The state follows from the machine.
        ensures state { self.new ≡ heard self.old bytes.now }
        // The result says whether the frame carries a message of a neighbour, and whether it changes what is known.
        ensures effect { result ≡ effect_of self.old.known (told_of self.old.mac bytes.now) }
        // A frame that carries no message of a neighbour changes nothing.
        ensures dropped { told_of self.old.mac bytes.now ≡ None → self.new ≡ self.old }
        // A message with a lifetime makes its sender the known neighbour, for as many seconds.
        ensures learnt { (told : Told) (seconds : ℕ) → told_of self.old.mac bytes.now ≡ Some told → told.lifetime ≡ seconds + 1 →
            self.new.known ≡ Some (record { peer = told.peer; left = told.lifetime * 32000 }) }
        // A lifetime of 0 forgets the neighbour, if it is the known one.
        ensures forgotten { (told : Told) → told_of self.old.mac bytes.now ≡ Some told → told.lifetime ≡ 0 →
            is_known self.old.known told.peer ≡ true → self.new.known ≡ None }
        // A lifetime of 0 of another neighbour changes nothing.
        ensures other { (told : Told) → told_of self.old.mac bytes.now ≡ Some told → told.lifetime ≡ 0 →
            is_known self.old.known told.peer ≡ false → self.new ≡ self.old }
    {
        self.handle(bytes)
    }

    /// Handles a frame.
    #[tactic(auto, unfolding(crate::specs::State::heard))]
    fn handle(&mut self, bytes: &[u8]) -> Heard
        ensures state { self.new ≡ heard self.old bytes.now }
        ensures effect { result ≡ effect_of self.old.known (told_of self.old.mac bytes.now) }
    {
        match told_in(self.mac, bytes) {
            Some(notice) => self.learn(notice),
            None => Heard::Nothing,
        }
    }

    /// Handles a message.
    fn learn(&mut self, notice: Notice) -> Heard
        ensures state { self.new ≡ after_told self.old (Some (notice_as notice)) }
        ensures effect { result ≡ effect_of self.old.known (Some (notice_as notice)) }
    {
        let changes = self.changes(&notice);
        if notice.lifetime != 0 {
            self.known = Some(Known {
                neighbour: notice.neighbour,
                left: u32::from(notice.lifetime) * SECOND,
            });
        } else if changes {
            self.known = None;
        }
        if changes { Heard::Changed } else { Heard::Same }
    }

    /// Whether a message changes the neighbour that is known.
    fn changes(&self, notice: &Notice) -> bool
        ensures { result ≡ changes_by self.now.known (notice_as notice.now) }
    {
        let Some(known) = &self.known else {
            return notice.lifetime != 0;
        };
        if notice.lifetime == 0 {
            known.neighbour.is_same(&notice.neighbour)
        } else {
            !known.neighbour.is_exactly(&notice.neighbour)
        }
    }

    /// Whether the next tick sends an announcement. The owner then sends the frame of `announcement`.
    pub fn is_sending(&self) -> bool
        ensures { result ≡ sends_by self.now }
    {
        self.next <= 1
    }

    /// Lets a tick pass, which is 31.25 microseconds. Returns whether it forgets the neighbour.
    pub fn tick(&mut self) -> bool
        // The state follows from the machine.
        ensures state { self.new ≡ ticked self.old }
        // A tick forgets the neighbour if its lifetime is over.
        ensures forgets { result ≡ is_over_by self.old.known }
    {
        self.next = if self.is_sending() {
            INTERVAL
        } else {
            self.next - 1
        };
        let over = self.is_over();
        self.age(over);
        over
    }

    /// Whether the lifetime of the neighbour ends with the next tick.
    fn is_over(&self) -> bool
        ensures { result ≡ is_over_by self.now.known }
    {
        match &self.known {
            Some(known) => known.left <= 1,
            None => false,
        }
    }

    /// The neighbour is a tick older, or forgotten.
    fn age(&mut self, over: bool)
        requires { over ≡ is_over_by self.old.known }
        ensures { self.new ≡ record self.old { known = older self.old.known } }
    {
        if over {
            self.known = None;
        } else if let Some(known) = &mut self.known {
            known.left -= 1;
        }
    }

    /// Whether this is the name of the station by its place. It has none while it knows no neighbour.
    pub fn is_alias(&self, alias: &[u8]) -> bool
        ensures { result ≡ is_alias_by self.now alias.now }
    {
        match &self.known {
            Some(known) => known.neighbour.alias().as_slice() == alias,
            None => false,
        }
    }
}
