//! Read within a relation, and Read Implicit.
ghost use Rattle.std.specs.Prelude.{◌≡◌, ◌≤◌, [], IfErr, IfOk, Err, Ok, Some, length, take, true};
ghost use Rattle.device_records.specs.Own.{own_asked};
ghost use Rattle.device_records.specs.Reading.{implicit_read, relation_read};
ghost use Rattle.device_records.specs.Sources.{known};
ghost use Rattle.records.specs.reads.Handled.{read_of};
ghost use Rattle.records.specs.reads.Listing.{listed_at};
ghost use Rattle.records.specs.reads.Within.{record_within};
ghost use Rattle.relations.specs.Phases.{differing_in};

use crate::own::put_own;
use crate::sources::Sources;
use arrayvec::ArrayVec;
use block_codec::IodReadReq;
use pn_values::{Identity, Real, Settings};
use records::{
    Blocks, CallFault, Level, Listing, listing_of, read_request, request_within, serve,
    serve_listing, serve_within,
};

/// Serves a Read of the controller. Puts the blocks of the response into `answer`, which must be empty, or returns why the
/// call is refused. The first fault in the order of the checks is reported. Besides the records of a Read Implicit it serves
/// those of the relation.
#[tactic(auto, unfolding(crate::specs::Reading::relation_read, records::specs::reads::Listing::served))]
pub fn read_within(
    sources: &Sources<'_>,
    identity: &Identity,
    real: &Real,
    settings: &Settings,
    blocks: &[u8],
    answer: &mut Blocks,
) -> Result<(), CallFault>
    requires empty { answer.old.items ≡ [] }
    // If the call succeeds, `answer` holds the response that the definition `relation_read` gives.
    ensures done { IfOk result (λ _. relation_read (known sources.now) identity.now real.now settings.now blocks.now ≡ Ok answer.new.items) }
    // If the call is refused, the fault is the one that `relation_read` gives, and `answer` is empty.
    ensures refused { IfErr result (λ fault. (relation_read (known sources.now) identity.now real.now settings.now blocks.now ≡ Err fault)
        × (answer.new.items ≡ [])) }
{
    let request = request_within(sources.relation.uuid(), blocks)?;
    match listing_of(real, &request) {
        Some(listing) => serve_own(true, sources, real, &request, listing, answer),
        None => serve_record(sources, identity, real, settings, &request, answer),
    }
}

/// Serves a Read of the controller for a record that does not list anything, or for its ModuleDiffBlock, which tells what
/// differs now. That block is built first, so this is a function of its own.
#[inline(never)]
fn serve_record(
    sources: &Sources<'_>,
    identity: &Identity,
    real: &Real,
    settings: &Settings,
    request: &IodReadReq,
    answer: &mut Blocks,
) -> Result<(), CallFault>
    requires empty { answer.old.items ≡ [] }
    ensures done { IfOk result (λ _. read_of real.now request.now
        (record_within (differing_in real.now.modules.items (known sources.now).link) request.now identity.now real.now settings.now)
        ≡ Ok answer.new.items) }
    ensures refused { IfErr result (λ fault. (read_of real.now request.now
        (record_within (differing_in real.now.modules.items (known sources.now).link) request.now identity.now real.now settings.now)
        ≡ Err fault) × (answer.new.items ≡ [])) }
{
    let mut differing = ArrayVec::new();
    sources.relation.put_differing(real, &mut differing);
    serve_within(
        differing.as_slice(),
        identity,
        real,
        settings,
        request,
        answer,
    )
}

/// Serves a Read Implicit, which reads a record of the device without a relation. Puts the blocks of the response into
/// `answer`, which must be empty, or returns why the call is refused. The first fault in the order of the checks is
/// reported.
#[tactic(auto, unfolding(crate::specs::Reading::implicit_read, records::specs::reads::Listing::served))]
pub fn read_implicit(
    sources: &Sources<'_>,
    identity: &Identity,
    real: &Real,
    settings: &Settings,
    blocks: &[u8],
    answer: &mut Blocks,
) -> Result<(), CallFault>
    requires empty { answer.old.items ≡ [] }
    // If the call succeeds, `answer` holds the response that the definition `implicit_read` gives.
    ensures done { IfOk result (λ _. implicit_read (known sources.now) identity.now real.now settings.now blocks.now ≡ Ok answer.new.items) }
    // If the call is refused, the fault is the one that `implicit_read` gives, and `answer` is empty.
    ensures refused { IfErr result (λ fault. (implicit_read (known sources.now) identity.now real.now settings.now blocks.now ≡ Err fault)
        × (answer.new.items ≡ [])) }
{
    let request = read_request(blocks)?;
    match listing_of(real, &request) {
        Some(listing) => serve_own(false, sources, real, &request, listing, answer),
        None => serve(identity, real, settings, &request, answer),
    }
}

/// As many octets of a record as a frame has room for.
fn cut(octets: &[u8]) -> &[u8]
    ensures cut { result.now ≡ take 1308 octets.now }
    ensures few { length result.now ≤ 1308 }
{
    if octets.len() <= 1308 {
        return octets;
    }
    &octets[..1308]
}

/// Puts the response to a request for a record that lists something into an empty list, or returns why it is refused. A
/// record that is made here is built first, in three thousand octets of stack, so this is a function of its own.
#[inline(never)]
fn serve_own(
    is_within: bool,
    sources: &Sources<'_>,
    real: &Real,
    request: &IodReadReq,
    listing: (Level, Listing),
    answer: &mut Blocks,
) -> Result<(), CallFault>
    requires empty { answer.old.items ≡ [] }
    ensures done { IfOk result (λ _. listed_at is_within real.now (own_asked is_within (known sources.now) real.now request.now
        (Some listing)) request.now listing.0 listing.1 ≡ Ok answer.new.items) }
    ensures refused { IfErr result (λ fault. (listed_at is_within real.now (own_asked is_within (known sources.now) real.now
        request.now (Some listing)) request.now listing.0 listing.1 ≡ Err fault) × (answer.new.items ≡ [])) }
{
    let (level, kind) = listing;
    let (slot, subslot) = (request.header.slot_number, request.header.subslot_number);
    let mut out = ArrayVec::new();
    let has_own = put_own(
        &mut out, is_within, sources, real, level, slot, subslot, kind,
    );
    let own = if has_own {
        Some(cut(out.as_slice()))
    } else {
        None
    };
    serve_listing(is_within, real, own, request, listing, answer)
}
