//! What the response to a Write says of its records (IEC 61158-6-10, 5.2.3).
ghost use Rattle.std.specs.Prelude.{◌≡◌, ◌≤◌, ◌<◌, length, option_map};
ghost use Rattle.controller_core.specs.start_up.Outcomes.{outcome_at, outcomes_from, outcomes_of, status_in};

use block_codec::{Block, read_block};
use controller_messages::group_of;
use plans::Plan;
use rpc_core::Status;

/// What the response to a Write says of its records.
#[derive(Clone, Copy, Debug, PartialEq, Eq)]
pub enum Outcomes {
    /// All were written.
    AllWritten,
    /// One was refused: the place of the first one in the Write, from 0, and its PNIOStatus.
    Refused(u16, Status),
    /// The blocks cannot be read.
    Unreadable,
}

/// A PNIOStatus as a status.
fn status_in(number: u32) -> Status
    ensures { result ≡ status_in number }
{
    Status {
        code: (number / 0x100_0000 % 256) as u8,
        decode: (number / 0x1_0000 % 256) as u8,
        code1: (number / 0x100 % 256) as u8,
        code2: (number % 256) as u8,
    }
}

/// The PNIOStatus of the first block, and the octets after it, if it is an IODWriteResHeader.
#[tactic(auto, unfolding(crate::specs::start_up::Outcomes::outcome_at))]
fn outcome_at(octets: &[u8]) -> Option<(Status, &[u8])>
    ensures { option_map (λ x. (x.0, x.1.now)) result ≡ outcome_at octets.now }
{
    match read_block(octets) {
        Ok((Block::IodWriteRes(block), behind)) => Some((status_in(block.pnio_status), behind)),
        _ => None,
    }
}

/// The outcomes of this number of records, one block each. The first one that is refused decides.
fn outcomes_from(count: u16, octets: &[u8]) -> Outcomes
    ensures { result ≡ outcomes_from count 0 octets.now }
{
    let mut rest = octets;
    for place in 0..count {
        match outcome_at(rest) {
            Some((status, behind)) => {
                if !status.is_done() {
                    return Outcomes::Refused(place, status);
                }
                rest = behind;
            }
            None => return Outcomes::Unreadable,
        }
    }
    Outcomes::AllWritten
}

/// What the positive response to the Write with this number says of its records.
pub fn outcomes_of(plan: &Plan, number: u16, blocks: &[u8]) -> Outcomes
    ensures { result ≡ outcomes_of plan.now number blocks.now }
{
    // If there is one record, the status of the response says it all.
    if !plan.has_multiple_write() {
        return Outcomes::AllWritten;
    }
    let count = group_of(plan, number).len() as u16;
    // The first block repeats the header of the list.
    match outcome_at(blocks) {
        Some((_header, behind)) => outcomes_from(count, behind),
        None => Outcomes::Unreadable,
    }
}
