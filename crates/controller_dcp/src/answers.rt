//! The answers to Identify, Get and Set.
ghost use Rattle.std.specs.Prelude.{◌≡◌, ◌+◌, ◌≤◌, ◌++◌, length, map};
ghost use Rattle.std.specs.List.{list_any};
ghost use Rattle.arrayvec.specs.ArrayVec.{array_vec_len};
ghost use Rattle.dcp_core.specs.Kinds.{blame, is_same};
ghost use Rattle.dcp_core.specs.Request.{asked};
ghost use Rattle.controller_dcp.specs.Answers.{get_bytes, got, identify_bytes, matches, refusal, refused_bytes};
ghost use Rattle.controller_dcp.specs.Values.{most_of};

use crate::blocks::{Blocks, put_answer, put_outcome};
use crate::values::{matches_block, put_value};
use arrayvec::ArrayVec;
use dcp_core::{Answer, Block, Kind, Request, set_answer};
use plans::{ControllerIdentity, Plan};
use pn_values::BlockError;

// ---- Identify

/// Whether the controller answers an Identify request: it has at least one block, and each block matches.
pub(crate) fn is_matched(plan: &Plan, own: &ControllerIdentity, request: &Request<'_>) -> bool
    ensures { result ≡ matches plan.now own.now (asked request.now) }
{
    !request.blocks.is_empty()
        && request
            .blocks
            .as_slice()
            .iter()
            .all(|block| matches_block(plan, own, block))
}

/// The answer to an Identify request.
#[tactic(auto, unfolding(crate::specs::Answers::identify_bytes))]
pub(crate) fn identify_answer(plan: &Plan, own: &ControllerIdentity, xid: u32) -> Answer
    ensures items { result.items ≡ identify_bytes plan.now own.now xid }
    ensures length { length result.items ≤ 1223 }
{
    let mut blocks = Blocks::new();
    put_value(&mut blocks, plan, own, Kind::StationType);
    put_value(&mut blocks, plan, own, Kind::NameOfStation);
    put_value(&mut blocks, plan, own, Kind::DeviceId);
    put_value(&mut blocks, plan, own, Kind::DeviceRole);
    put_value(&mut blocks, plan, own, Kind::DeviceOptions);
    put_value(&mut blocks, plan, own, Kind::DeviceInstance);
    put_value(&mut blocks, plan, own, Kind::IpSuite);
    let mut answer = Answer::new();
    put_answer(&mut answer, 5, xid, &blocks);
    answer
}

// ---- Get

/// The answer to a Get: for each pair, in order, its value or why it has none. A repeated pair is answered at its first place only.
pub(crate) fn get_answer(plan: &Plan, own: &ControllerIdentity, request: &Request<'_>) -> Answer
    ensures items { result.items ≡ get_bytes plan.now own.now (asked request.now) }
    ensures length { length result.items ≤ 1223 }
{
    let asked_for = request.blocks.as_slice();
    let mut blocks = Blocks::new();
    for (index, block) in asked_for.iter().enumerate() {
        // So a response never has more than 16 values.
        if !is_among(&asked_for[..index], block.kind) {
            put_pair(&mut blocks, plan, own, block.kind);
        }
    }
    let mut answer = Answer::new();
    put_answer(&mut answer, 3, request.xid, &blocks);
    answer
}

/// Whether one of these blocks is about this kind.
fn is_among(earlier: &[Block<'_>], kind: Kind) -> bool
    ensures { result ≡ list_any (is_same kind) (map (λ block. block.kind) earlier.now) }
{
    earlier.iter().any(|block| is_same(kind, block.kind))
}

/// Whether two kinds have the same Option and Suboption.
fn is_same(one: Kind, other: Kind) -> bool
    ensures { result ≡ is_same one other }
{
    one.option() == other.option() && one.suboption() == other.suboption()
}

/// Appends the value of a kind, or the error that says why it has no value. There must be room.
fn put_pair(blocks: &mut Blocks, plan: &Plan, own: &ControllerIdentity, kind: Kind)
    requires { array_vec_len blocks.old + most_of kind ≤ 1213 }
    ensures items { blocks.new.items ≡ blocks.old.items ++ got plan.now own.now kind }
    ensures most { array_vec_len blocks.new ≤ array_vec_len blocks.old + most_of kind }
{
    if !put_value(blocks, plan, own, kind) {
        put_outcome(blocks, kind, blame(kind));
    }
}

/// The error of a kind that has no value or cannot be set: the suboption, if a station has the option (1 IP, 2 properties, 5 control), else
/// the option.
fn blame(kind: Kind) -> BlockError
    ensures { result ≡ blame kind }
{
    match kind.option() {
        1 | 2 | 5 => BlockError::Suboption,
        _ => BlockError::Option,
    }
}

// ---- Set

/// Why a block of a Set is refused: name and address are those of the plan.
fn refusal(kind: Kind) -> BlockError
    ensures { result ≡ refusal kind }
{
    match kind {
        Kind::IpSuite | Kind::NameOfStation => BlockError::Local,
        kind => blame(kind),
    }
}

/// The refusal of each block, in order.
fn refusals(blocks: &[Block<'_>]) -> ArrayVec<BlockError, 16>
    requires { length blocks.now ≤ 16 }
    ensures { result.items ≡ map (λ block. refusal block.kind) blocks.now }
{
    let mut errors = ArrayVec::new();
    for block in blocks {
        errors.push(refusal(block.kind));
    }
    errors
}

/// The answer to a Set: each block is refused.
pub(crate) fn refused_answer(request: &Request<'_>) -> Answer
    ensures items { result.items ≡ refused_bytes (asked request.now) }
    ensures length { length result.items ≤ 1223 }
{
    set_answer(request, &refusals(request.blocks.as_slice()))
}
