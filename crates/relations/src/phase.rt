//! What a relation waits for, and who asked for it.
ghost use Rattle.std.specs.Prelude.{◌≡◌};
ghost use Rattle.relations.specs.RelationState.{is_from};

use pn_values::Mac;

/// What an established relation waits for.
#[derive(Clone, Copy, Debug, PartialEq, Eq)]
pub enum Phase {
    /// It waits for PrmEnd, the end of the parameters (CMDEV state W_PEIND).
    Started,
    /// PrmEnd was accepted, and the application has not said yet that it is ready (CMDEV state W_ARDY). Only a device whose
    /// application says so is ever in this phase.
    Preparing,
    /// It waits for the answer to ApplicationReady (CMDEV state W_ARDYCNF).
    Awaiting,
    /// It waits for cyclic frames (CMDEV states WDATA and DATA).
    Exchanging,
}

/// The station whose Connect established the relation.
#[derive(Clone, Copy, Debug, PartialEq, Eq)]
pub struct Partner {
    /// The source MAC address of that frame.
    pub mac: Mac,
    /// Its source address, in network byte order.
    pub address: [u8; 4],
}

impl Partner {
    /// Whether this is the same station: its MAC address and its IP address.
    pub(crate) fn is(&self, other: &Partner) -> bool
        ensures { result ≡ is_from self.now other.now }
    {
        self.mac.is(&other.mac) && self.address == other.address
    }
}
