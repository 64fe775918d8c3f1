//! The records of the place of a device in its network.
ghost use Rattle.std.specs.Prelude.{◌≡◌, [], None, Some, false, if◌then◌else◌, option_map};
ghost use Rattle.lldp.specs.Views.{peer_as};
ghost use Rattle.device_records.specs.Place.{place_with};
ghost use Rattle.device_records.specs.Sources.{known};

use crate::own::Own;
use crate::sources::Sources;
use crate::topology::{put_interface, put_network, put_port};
use lldp::Neighbour;
use pn_values::Real;
use records::Listing;

/// The subslot of the interface.
const INTERFACE: u16 = 0x8000;

/// The subslot of the port.
const PORT: u16 = 0x8001;

/// The neighbour, if one is known.
fn lent(neighbour: &Option<Neighbour>) -> Option<&Neighbour>
    ensures { option_map (λ n. peer_as n.now) result ≡ option_map peer_as neighbour.now }
{
    match neighbour {
        Some(neighbour) => Some(neighbour),
        None => None,
    }
}

/// Puts the record of this kind into an empty list, and returns whether there is one.
pub(crate) fn put_place(
    out: &mut Own,
    sources: &Sources<'_>,
    real: &Real,
    slot: u16,
    subslot: u16,
    kind: Listing,
) -> bool
    requires { out.old.items ≡ [] }
    ensures made { (if result then Some out.new.items else None) ≡ place_with (known sources.now) real.now slot subslot kind }
    ensures none { result ≡ false → out.new.items ≡ [] }
{
    match kind {
        Listing::Port => {
            if slot != 0 || subslot != PORT {
                return false;
            }
            put_port(out, lent(sources.neighbour));
        }
        Listing::Interface => {
            if slot != 0 || subslot != INTERFACE {
                return false;
            }
            put_interface(out, sources.identity, sources.settings);
        }
        Listing::Network => put_network(
            out,
            sources.identity,
            real,
            sources.settings,
            lent(sources.neighbour),
        ),
        Listing::Identification
        | Listing::Apis
        | Listing::Diagnosis
        | Listing::Maintenance
        | Listing::Expected
        | Listing::Found
        | Listing::Input
        | Listing::Output
        | Listing::Relations
        | Listing::Log => return false,
    }
    true
}
