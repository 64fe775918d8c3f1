//! Whether a Read names a relation.
ghost use Rattle.std.specs.Prelude.{◌≡◌};
ghost use Rattle.std.specs.Option.{option_map};
ghost use Rattle.records.specs.reads.Within.{names_relation};

use crate::is_relation;
use crate::reads::judging::read_request;
use wire::Uuid;

/// Whether the ARUUID of a Read is that of the active relation. A Read Implicit does not need it, but it shows the device
/// that the controller is still there.
#[tactic(auto, unfolding(crate::specs::reads::Within::names_relation))]
pub fn names_relation(standing: Option<&Uuid>, blocks: &[u8]) -> bool
    ensures { result ≡ names_relation (option_map (λ uuid. uuid.now) standing.entry) blocks.now }
{
    match read_request(blocks) {
        Ok(request) => is_relation(standing, &request.header.ar_uuid),
        Err(_fault) => false,
    }
}
