//! Read within a relation.
ghost use Rattle.std.specs.Prelude.{◌≡◌, ◌≤◌, [], length, IfErr, IfOk, Err, Ok};
ghost use Rattle.std.specs.Option.{option_map};
ghost use Rattle.records.specs.reads.Handled.{read_of};
ghost use Rattle.records.specs.reads.Within.{record_within, request_within};

use crate::reads::answering::put_read_answer;
use crate::reads::judging::{check_place, read_request};
use crate::reads::serving::{Blocks, serve};
use crate::{CallFault, check_relation};
use block_codec::IodReadReq;
use im_records::is_module_diff;
use pn_values::{Identity, Real, Settings};
use wire::Uuid;

/// Reads the IODReadReqHeader of a Read of the controller, and checks that it names the active relation. `standing` is the
/// ARUUID of that, if there is one.
#[tactic(auto, unfolding(crate::specs::reads::Within::request_within))]
pub fn request_within(standing: Option<&Uuid>, blocks: &[u8]) -> Result<IodReadReq, CallFault>
    ensures { result ≡ request_within (option_map (λ uuid. uuid.now) standing.entry) blocks.now }
{
    let request = read_request(blocks)?;
    // This comes before the check of the place: a caller without the relation does not learn what is plugged.
    check_relation(standing, &request.header.ar_uuid)?;
    Ok(request)
}

/// Puts the response to a request within the relation into an empty list, or returns why it is refused. The request is for
/// no record of a listing. Besides the records of a Read Implicit there is the ModuleDiffBlock of the relation, which is
/// `differing`: it is empty if nothing differs.
#[tactic(auto, unfolding(crate::specs::reads::Handled::read_of))]
pub fn serve_within(
    differing: &[u8],
    identity: &Identity,
    real: &Real,
    settings: &Settings,
    request: &IodReadReq,
    answer: &mut Blocks,
) -> Result<(), CallFault>
    requires empty { answer.old.items ≡ [] }
    requires room { length differing.now ≤ 1308 }
    ensures done { IfOk result (λ _. read_of real.now request.now
        (record_within differing.now request.now identity.now real.now settings.now) ≡ Ok answer.new.items) }
    ensures refused { IfErr result (λ fault. (read_of real.now request.now
        (record_within differing.now request.now identity.now real.now settings.now) ≡ Err fault) × (answer.new.items ≡ [])) }
{
    if !is_module_diff(request.header.index) {
        return serve(identity, real, settings, request, answer);
    }
    check_place(
        real,
        request.header.api,
        request.header.slot_number,
        request.header.subslot_number,
        request.header.index,
    )?;
    put_read_answer(answer, request, differing);
    Ok(())
}
