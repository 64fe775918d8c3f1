//! The response to each Read, once the record is known.
ghost use Rattle.std.specs.Prelude.{◌≡◌, [], IfErr, IfOk, Err, Ok};
ghost use Rattle.im_records.specs.Records.{record_of};
ghost use Rattle.records.specs.reads.Handled.{read_of};

use crate::CallFault;
use crate::reads::answering::put_read_answer;
use crate::reads::judging::check_place;
use crate::reads::parameters::parameter_length;
use arrayvec::ArrayVec;
use block_codec::IodReadReq;
use im_records::read_record;
use pn_values::{Identity, Real, Settings};

/// The blocks of a call or a response: at most 1,372 octets.
pub type Blocks = ArrayVec<u8, 1372>;

/// Puts the response to a request for a record of the device into an empty list, or returns why it is refused. The request is
/// for no record of a listing.
#[tactic(auto, unfolding(crate::specs::reads::Handled::read_of))]
pub fn serve(
    identity: &Identity,
    real: &Real,
    settings: &Settings,
    request: &IodReadReq,
    answer: &mut Blocks,
) -> Result<(), CallFault>
    requires empty { answer.old.items ≡ [] }
    ensures done { IfOk result (λ _. read_of real.now request.now
        (record_of request.now.header.index request.now.header.slot_number request.now.header.subslot_number identity.now real.now
        settings.now)
        ≡ Ok answer.new.items) }
    ensures refused { IfErr result (λ fault. (read_of real.now request.now
        (record_of request.now.header.index request.now.header.slot_number request.now.header.subslot_number identity.now real.now
        settings.now)
        ≡ Err fault)
        × (answer.new.items ≡ [])) }
{
    let (slot, subslot, index) = (
        request.header.slot_number,
        request.header.subslot_number,
        request.header.index,
    );
    check_place(real, request.header.api, slot, subslot, index)?;
    match read_record(index, slot, subslot, identity, real, settings) {
        Some(record) => {
            put_read_answer(answer, request, record.as_slice());
            Ok(())
        }
        // A parameter record is known but write-only: what is stored belongs to the controller.
        None if parameter_length(real, slot, subslot, index).is_some() => Err(CallFault::Access),
        None => Err(CallFault::Index),
    }
}
