//! From octets to a block.
ghost use Rattle.std.specs.Prelude.{◌≡◌, ◌≤◌, ◌++◌, ℕ, List, [], length, IfOk};
ghost use Rattle.wire.specs.Codec.{Gives};
ghost use Rattle.wire.specs.Formats.{big_number};
ghost use Rattle.block_codec.specs.declared.block_type.BlockType.TheVariants.{AlarmAck as alarm_ack};
ghost use Rattle.block_codec.specs.declared.block_type.BlockType.TheVariants.{ExpectedSubmoduleBlockReq as expected_req};
ghost use Rattle.block_codec.specs.Kinds.{number_of, type_of};
ghost use Rattle.block_codec.specs.Block.{IsAccepted, IsBlock, block, block_of, body_of, fields_of, front};

use crate::apart::{expected_apart, filter_data_apart, module_diff_apart};
use crate::{
    AlarmAck, Block, BlockFault, BlockType, ExpectedModule, ExpectedSubmodule,
    ExpectedSubmoduleBlockReq,
};
use arrayvec::ArrayVec;
use connect_blocks::{
    alarm_cr_block_req_at, alarm_cr_block_res_at, ar_block_req_at, ar_block_res_at, control_at,
    expected_in, iocr_block_req_at, iocr_block_res_at,
};
use record_blocks::{
    alarm_ack_at, alarm_notification_at, im0_at, im1_at, im2_at, im3_at, im4_at, iod_read_req_at,
    iod_read_res_at, iod_write_req_at, iod_write_res_at,
};
use wire::{split, u16_at};

/// Reads the block at the start of the octets. Returns it and the rest. The block borrows its lists from `bytes`. The
/// first fault found is reported: Truncated, Kind, and then the fields of the kind in their order.
pub fn read_block(bytes: &[u8]) -> Result<(Block<'_>, &[u8]), BlockFault>
    // If a block is returned, the octets are the octets of that block, followed by the rest.
    ensures found { IfOk result (λ x. IsBlock bytes.now x.0 x.1.now) }
    // Each field of a block that is returned has an accepted value.
    ensures accepted { IfOk result (λ x. IsAccepted x.0) }
    // If the octets are those of a block followed by a rest, that block and that rest are returned.
    ensures only { (value : Block) (rest : List ℕ) → IsBlock bytes.now value rest → Gives (λ x. (x.0, x.1.now)) result (front value rest) }
    // No block is a prefix of another one: the octets of a block, followed by any octets, are read as that block.
    ensures behind { (first more : List ℕ) (value : Block) → IsBlock first value [] → bytes.now ≡ first ++ more →
        Gives (λ x. (x.0, x.1.now)) result (front value more) }
    // The result is exactly the block and the rest, or the fault, that the definition `block_of` gives.
    ensures exact { Gives (λ x. (x.0, x.1.now)) result (block_of bytes.now) }
{
    block_at(bytes)
}

/// Reads the ExpectedSubmoduleBlockReq at the start of the octets, as `read_block` does. Its modules and submodules are
/// checked in the lists `modules` and `submodules`: this room is large, and a caller that reads several blocks makes it
/// once.
#[tactic(auto, using(crate::proofs::Sound::front_number), unfolding(crate::specs::Block::block_of, crate::specs::Block::block))]
pub fn read_expected<'a>(
    bytes: &'a [u8],
    modules: &mut ArrayVec<ExpectedModule, 256>,
    submodules: &mut ArrayVec<ExpectedSubmodule, 256>,
) -> Result<(ExpectedSubmoduleBlockReq<'a>, &'a [u8]), BlockFault>
    // The octets begin with the BlockType of an ExpectedSubmoduleBlockReq.
    requires { big_number 2 bytes.now ≡ number_of expected_req }
    // The result is the block at the start of the octets and the rest, or the fault of the octets.
    ensures exact { Gives (λ x. (Block.ExpectedSubmoduleBlockReq x.0, x.1.now)) result (block_of bytes.now) }
    // Each field of a block that is returned has an accepted value.
    ensures accepted { IfOk result (λ x. IsAccepted (Block.ExpectedSubmoduleBlockReq x.0)) }
{
    let (number, rest) = u16_at(bytes, BlockFault::Truncated)?;
    let (size, rest) = u16_at(rest, BlockFault::Truncated)?;
    let (inside, others) = split(rest, size as usize, BlockFault::Truncated)?;
    let block = expected_body(number, inside, modules, submodules)?;
    Ok((block, others))
}

/// Reads the AlarmAck at the start of the octets, as `read_block` does. It is a function of its own because each alarm
/// brings one.
pub fn read_alarm_ack(bytes: &[u8]) -> Result<(AlarmAck, &[u8]), BlockFault>
    // The octets begin with the BlockType of an AlarmAck.
    requires { big_number 2 bytes.now ≡ number_of alarm_ack }
    // If an AlarmAck is returned, the octets are the octets of that block, followed by the rest.
    ensures found { IfOk result (λ x. IsBlock bytes.now (Block.AlarmAck x.0) x.1.now) }
    // If the octets are those of a block followed by a rest, that block and that rest are returned.
    ensures only { (value : Block) (rest : List ℕ) → IsBlock bytes.now value rest →
        Gives (λ x. (Block.AlarmAck x.0, x.1.now)) result (front value rest) }
    // The result is exactly the block and the rest, or the fault, that the definition `block_of` gives.
    ensures exact { Gives (λ x. (Block.AlarmAck x.0, x.1.now)) result (block_of bytes.now) }
{
    alarm_ack_in_front(bytes)
}

/// Reads the AlarmAck at the start of the octets. Returns it and the rest.
#[tactic(auto, using(crate::proofs::Sound::front_number), unfolding(crate::specs::Block::block_of, crate::specs::Block::block))]
fn alarm_ack_in_front(bytes: &[u8]) -> Result<(AlarmAck, &[u8]), BlockFault>
    requires { big_number 2 bytes.now ≡ number_of alarm_ack }
    ensures { Gives (λ x. (Block.AlarmAck x.0, x.1.now)) result (block_of bytes.now) }
{
    let (number, rest) = u16_at(bytes, BlockFault::Truncated)?;
    let (size, rest) = u16_at(rest, BlockFault::Truncated)?;
    let (inside, others) = split(rest, size as usize, BlockFault::Truncated)?;
    let block = alarm_ack_body(number, inside)?;
    Ok((block, others))
}

/// Reads the part of an AlarmAck that BlockLength counts.
#[tactic(auto, unfolding(crate::specs::Block::body_of, crate::specs::Block::fields_of, crate::specs::Kinds::type_of, crate::specs::Kinds::number_of))]
fn alarm_ack_body(number: u16, body: &[u8]) -> Result<AlarmAck, BlockFault>
    requires { number ≡ number_of alarm_ack }
    ensures { Gives (λ x. Block.AlarmAck x) result ((body_of (type_of number)).read body.now) }
{
    let _number = number;
    alarm_ack_at(body)
}

/// Reads the part of an ExpectedSubmoduleBlockReq that BlockLength counts. It is checked in the lists `modules` and
/// `submodules`.
#[tactic(auto, unfolding(crate::specs::Block::body_of, crate::specs::Block::fields_of, crate::specs::Kinds::type_of, crate::specs::Kinds::number_of))]
fn expected_body<'a>(
    number: u16,
    body: &'a [u8],
    modules: &mut ArrayVec<ExpectedModule, 256>,
    submodules: &mut ArrayVec<ExpectedSubmodule, 256>,
) -> Result<ExpectedSubmoduleBlockReq<'a>, BlockFault>
    requires { number ≡ number_of expected_req }
    ensures { Gives (λ x. Block.ExpectedSubmoduleBlockReq x) result ((body_of (type_of number)).read body.now) }
{
    let _number = number;
    expected_in(body, modules, submodules)
}

/// Reads a block. Returns it and the rest.
#[tactic(auto, unfolding(crate::specs::Block::block_of, crate::specs::Block::block))]
fn block_at(bytes: &[u8]) -> Result<(Block<'_>, &[u8]), BlockFault>
    ensures { Gives (λ x. (x.0, x.1.now)) result (block_of bytes.now) }
{
    let (number, rest) = u16_at(bytes, BlockFault::Truncated)?;
    let (length, rest) = u16_at(rest, BlockFault::Truncated)?;
    let (body, behind) = split(rest, length as usize, BlockFault::Truncated)?;
    let block = body_at(BlockType::of(number), body)?;
    Ok((block, behind))
}

/// Reads the part of a block that BlockLength counts. `kind` is its type, or `None` if the type is not known.
#[tactic(auto, unfolding(crate::specs::Block::body_of))]
fn body_at(kind: Option<BlockType>, body: &[u8]) -> Result<Block<'_>, BlockFault>
    requires { length body.now ≤ 65535 }
    ensures { Gives (λ x. x) result ((body_of kind).read body.now) }
{
    match kind {
        Some(kind) => fields_at(kind, body),
        None => Err(BlockFault::Kind),
    }
}

/// Reads the part of a block of a known type that BlockLength counts.
#[tactic(auto, unfolding(crate::specs::Block::fields_of))]
fn fields_at(kind: BlockType, body: &[u8]) -> Result<Block<'_>, BlockFault>
    requires { length body.now ≤ 65535 }
    ensures { Gives (λ x. x) result ((fields_of kind).read body.now) }
{
    Ok(match kind {
        BlockType::ArBlockReq => Block::ArBlockReq(ar_block_req_at(body)?),
        BlockType::ArBlockRes => Block::ArBlockRes(ar_block_res_at(body)?),
        BlockType::IocrBlockReq => Block::IocrBlockReq(iocr_block_req_at(body)?),
        BlockType::IocrBlockRes => Block::IocrBlockRes(iocr_block_res_at(body)?),
        BlockType::AlarmCrBlockReq => Block::AlarmCrBlockReq(alarm_cr_block_req_at(body)?),
        BlockType::AlarmCrBlockRes => Block::AlarmCrBlockRes(alarm_cr_block_res_at(body)?),
        BlockType::ExpectedSubmoduleBlockReq => {
            Block::ExpectedSubmoduleBlockReq(expected_apart(body)?)
        }
        BlockType::ModuleDiffBlock => Block::ModuleDiffBlock(module_diff_apart(body)?),
        BlockType::PrmEnd => Block::PrmEnd(control_at(body, None)?),
        BlockType::PrmEndRes => Block::PrmEndRes(control_at(body, Some(8))?),
        BlockType::ApplicationReady => Block::ApplicationReady(control_at(body, Some(2))?),
        BlockType::ApplicationReadyRes => Block::ApplicationReadyRes(control_at(body, Some(8))?),
        BlockType::Release => Block::Release(control_at(body, None)?),
        BlockType::ReleaseRes => Block::ReleaseRes(control_at(body, Some(8))?),
        BlockType::IodReadReq => Block::IodReadReq(iod_read_req_at(body)?),
        BlockType::IodReadRes => Block::IodReadRes(iod_read_res_at(body)?),
        BlockType::IodWriteReq => Block::IodWriteReq(iod_write_req_at(body)?),
        BlockType::IodWriteRes => Block::IodWriteRes(iod_write_res_at(body)?),
        BlockType::Im0 => Block::Im0(im0_at(body)?),
        BlockType::Im1 => Block::Im1(im1_at(body)?),
        BlockType::Im2 => Block::Im2(im2_at(body)?),
        BlockType::Im3 => Block::Im3(im3_at(body)?),
        BlockType::Im4 => Block::Im4(im4_at(body)?),
        BlockType::ImFilterDataSubmodule => {
            Block::ImFilterDataSubmodule(filter_data_apart(body)?)
        }
        BlockType::ImFilterDataDevice => Block::ImFilterDataDevice(filter_data_apart(body)?),
        BlockType::AlarmNotification => Block::AlarmNotification(alarm_notification_at(body)?),
        BlockType::AlarmAck => Block::AlarmAck(alarm_ack_at(body)?),
    })
}
