//! A change of diagnosis that waits for its alarm.
ghost use Rattle.std.specs.Prelude.{◌≡◌};
ghost use Rattle.diagnosis.specs.Notices.{first_notice, notice_of};

use crate::{Change, Diagnoses, Diagnosis, Places};

/// A change of diagnosis, and what existed after it. Its alarm says so even if it is sent later.
#[derive(Clone, Copy, Debug, Default, PartialEq, Eq)]
pub struct Notice {
    /// The change.
    pub change: Change,
    /// Whether a diagnosis existed at the submodule.
    pub is_any_at_submodule: bool,
    /// Whether a diagnosis existed at a submodule of the relation.
    pub is_any_in_relation: bool,
}

impl Notice {
    /// That of a change, after which these diagnoses exist, in a relation with these submodules.
    pub fn of<P: Places>(change: Change, after: &Diagnoses, relation: &P) -> Notice
        ensures { result ≡ notice_of (P.has_of relation.now) change after.now }
    {
        Notice {
            change,
            is_any_at_submodule: after.is_any_at(change.diagnosis.slot, change.diagnosis.subslot),
            is_any_in_relation: after.is_any_in(relation),
        }
    }

    /// What is reported as data exchange begins: that this diagnosis, which exists in the relation, appears.
    pub(crate) fn first(diagnosis: &Diagnosis) -> Notice
        ensures { result ≡ first_notice diagnosis.now }
    {
        Notice {
            change: Change {
                diagnosis: *diagnosis,
                appears: true,
            },
            is_any_at_submodule: true,
            is_any_in_relation: true,
        }
    }
}
