//! Which calls are asked of the application, and why others are refused (IEC 61158-6-10, 5.2.3).
ghost use Rattle.std.specs.Prelude.{◌≡◌, ◌≤◌, IfOk, IfSome, length};
ghost use Rattle.records.specs.reads.Handled.{placed};
ghost use Rattle.asked_records.specs.Judging.{asked_name, asked_read, asked_write};
ghost use Rattle.asked_records.specs.Names.{IsName};

use crate::names::{NamedRecords, RecordName};
use block_codec::{IodReadReq, IodWriteReq, RecordHeader};
use pn_values::Real;
use records::{CallFault, check_place, parameter_length};

/// The record of the application that a header names, if it names one. A parameter record with the same index stays what it
/// is.
pub fn asked_name(named: &NamedRecords, real: &Real, header: &RecordHeader) -> Option<RecordName>
    ensures value { result ≡ asked_name real.now named.now header.now }
    ensures valid { IfSome result IsName }
{
    let (slot, subslot, index) = (header.slot_number, header.subslot_number, header.index);
    if parameter_length(real, slot, subslot, index).is_some() {
        return None;
    }
    named.named_at(slot, subslot, index)
}

/// The record that a Read asks of the application, or why it is refused; `None` if it is a record of the device. The first
/// fault in the order of the checks is reported. A Read within a relation names its relation already.
#[tactic(auto, unfolding(crate::specs::Judging::asked_read))]
pub fn judge_asked_read(
    named: &NamedRecords,
    real: &Real,
    request: &IodReadReq,
) -> Result<Option<RecordName>, CallFault>
    ensures value { result ≡ asked_read real.now named.now request.now }
    ensures valid { IfOk result (λ found. IfSome found IsName) }
{
    let header = &request.header;
    let Some(name) = asked_name(named, real, header) else {
        return Ok(None);
    };
    check_asked_place(real, header)?;
    if !name.is_readable {
        return Err(CallFault::Access);
    }
    Ok(Some(name))
}

/// The record that a Write asks of the application, or why it is refused; `None` if it is a record of the device. `octets` is
/// the octets after the header of the request. The first fault in the order of the checks is reported. The Write names its
/// relation already.
#[tactic(auto, unfolding(crate::specs::Judging::asked_write))]
pub fn judge_asked_write(
    named: &NamedRecords,
    real: &Real,
    request: &IodWriteReq,
    octets: &[u8],
) -> Result<Option<RecordName>, CallFault>
    ensures value { result ≡ asked_write real.now named.now request.now octets.now }
    ensures valid { IfOk result (λ found. IfSome found IsName) }
    // All octets that it counts are there, and the record has room for them.
    ensures whole { IfOk result (λ found. IfSome found (λ name. (request.now.header.record_data_length ≤ length octets.now)
        × (request.now.header.record_data_length ≤ name.greatest_length))) }
{
    let header = &request.header;
    let Some(name) = asked_name(named, real, header) else {
        return Ok(None);
    };
    check_asked_place(real, header)?;
    if !name.is_writable {
        return Err(CallFault::Access);
    }
    let size = header.record_data_length as usize;
    if size > octets.len() || size > usize::from(name.greatest_length) {
        return Err(CallFault::WriteLength);
    }
    Ok(Some(name))
}

/// Checks that a header names API 0 and a submodule that is plugged.
fn check_asked_place(real: &Real, header: &RecordHeader) -> Result<(), CallFault>
    ensures { result ≡ placed real.now header.now.api header.now.slot_number header.now.subslot_number header.now.index }
{
    check_place(
        real,
        header.api,
        header.slot_number,
        header.subslot_number,
        header.index,
    )
}
