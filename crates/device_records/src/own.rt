//! The records that are made here, by what they list.
ghost use Rattle.std.specs.Prelude.{◌≡◌, [], None, Some, false, if◌then◌else◌};
ghost use Rattle.device_records.specs.Own.{own_at, own_with, public_with};
ghost use Rattle.device_records.specs.Sources.{known};

use crate::ar_data::put_ar_data;
use crate::elements::{put_input, put_output};
use crate::expected::put_expected;
use crate::found::put_found;
use crate::log_data::put_log_data;
use crate::place::put_place;
use crate::sources::Sources;
use crate::standing::put_standing;
use arrayvec::ArrayVec;
use pn_values::Real;
use records::{Level, Listing};
use relations::RelationParts;

/// Room for the longest of these records.
pub(crate) type Own = ArrayVec<u8, 2912>;

/// Puts the record of this kind into an empty list, and returns whether there is one. `is_within` says whether it is read
/// within the relation.
pub(crate) fn put_own(
    out: &mut Own,
    is_within: bool,
    sources: &Sources<'_>,
    real: &Real,
    level: Level,
    slot: u16,
    subslot: u16,
    kind: Listing,
) -> bool
    requires { out.old.items ≡ [] }
    ensures { (if result then Some out.new.items else None)
        ≡ own_at is_within (known sources.now) real.now level slot subslot kind }
{
    if put_public(out, sources, kind)
        || put_place(out, sources, real, slot, subslot, kind)
        || put_standing(out, sources, real, level, slot, subslot, kind)
    {
        return true;
    }
    // A record of the relation is for its controller alone.
    if !is_within {
        return false;
    }
    match sources.relation.parts() {
        Some(parts) => put_own_with(out, parts, real, level, slot, subslot, kind),
        None => false,
    }
}

/// Puts the record of this kind that anybody may read into an empty list, and returns whether there is one.
fn put_public(out: &mut Own, sources: &Sources<'_>, kind: Listing) -> bool
    requires { out.old.items ≡ [] }
    ensures made { (if result then Some out.new.items else None) ≡ public_with (known sources.now) kind }
    ensures none { result ≡ false → out.new.items ≡ [] }
{
    match kind {
        Listing::Relations => put_ar_data(out, sources.units, sources.relation),
        Listing::Log => put_log_data(out, sources.units, sources.log),
        Listing::Identification
        | Listing::Apis
        | Listing::Diagnosis
        | Listing::Maintenance
        | Listing::Expected
        | Listing::Found
        | Listing::Input
        | Listing::Output
        | Listing::Port
        | Listing::Interface
        | Listing::Network => return false,
    }
    true
}

/// Puts the record of this kind of a relation with this content into an empty list, and returns whether there is one.
fn put_own_with(
    out: &mut Own,
    parts: RelationParts<'_>,
    real: &Real,
    level: Level,
    slot: u16,
    subslot: u16,
    kind: Listing,
) -> bool
    requires { out.old.items ≡ [] }
    ensures { (if result then Some out.new.items else None)
        ≡ own_with parts.entry.request.now parts.entry.cyclic.now real.now level slot subslot kind }
{
    let (request, cyclic) = (parts.request, parts.cyclic);
    match kind {
        Listing::Expected => put_expected(out, request.expected(), level, slot, subslot),
        Listing::Found => put_found(out, request.expected(), real),
        Listing::Input => return put_input(out, cyclic, slot, subslot),
        Listing::Output => return put_output(out, cyclic, slot, subslot),
        Listing::Identification
        | Listing::Apis
        | Listing::Diagnosis
        | Listing::Maintenance
        | Listing::Relations
        | Listing::Log
        | Listing::Port
        | Listing::Interface
        | Listing::Network => return false,
    }
    true
}
