//! ARUUID, which names a relation in a call.
ghost use Rattle.std.specs.Prelude.{◌≡◌};
ghost use Rattle.std.specs.Option.{option_map};
ghost use Rattle.records.specs.calls.Naming.{in_relation, is_relation};

use crate::CallFault;
use wire::Uuid;

/// Whether this is the ARUUID of the active relation; false without a relation. `standing` is the ARUUID of the active
/// relation.
pub fn is_relation(standing: Option<&Uuid>, ar_uuid: &Uuid) -> bool
    ensures { result ≡ is_relation (option_map (λ uuid. uuid.now) standing.entry) ar_uuid.now }
{
    match standing {
        Some(uuid) => *uuid.as_bytes() == *ar_uuid.as_bytes(),
        None => false,
    }
}

/// Checks that a call with this ARUUID names the active relation. Fails with UnknownRelation if it names another one or
/// if there is no relation.
#[tactic(auto, unfolding(crate::specs::calls::Naming::in_relation))]
pub fn check_relation(standing: Option<&Uuid>, ar_uuid: &Uuid) -> Result<(), CallFault>
    ensures { result ≡ in_relation (option_map (λ uuid. uuid.now) standing.entry) ar_uuid.now }
{
    if !is_relation(standing, ar_uuid) {
        return Err(CallFault::UnknownRelation);
    }
    Ok(())
}
