//! From a block to octets.
ghost use Rattle.std.specs.Prelude.{◌≡◌, ◌+◌, ◌≤◌, ◌<◌, ◌++◌, ℕ, List, [], length};
ghost use Rattle.arrayvec.specs.ArrayVec.{array_vec_len};
ghost use Rattle.block_codec.specs.Block.{IsAccepted, IsBlock, block, block_of, block_bytes, block_size, fields_of, front, kind_of};

use crate::apart::{put_expected_apart, put_filter_data_apart, put_module_diff_apart};
use crate::{AlarmNotification, Block, BlockType};
use arrayvec::ArrayVec;
use connect_blocks::{
    alarm_cr_block_req_len, alarm_cr_block_res_len, ar_block_req_len, ar_block_res_len,
    control_len, expected_len, iocr_block_req_len, iocr_block_res_len, module_diff_len,
    put_alarm_cr_block_req, put_alarm_cr_block_res, put_ar_block_req, put_ar_block_res,
    put_control, put_iocr_block_req, put_iocr_block_res,
};
use record_blocks::{
    alarm_ack_len, alarm_front, alarm_notification_len, filter_data_len, im0_len, im1_len, im2_len,
    im3_len, im4_len, iod_read_req_len, iod_read_res_len, iod_write_req_len, iod_write_res_len,
    put_alarm_ack, put_alarm_notification, put_im0, put_im1, put_im2, put_im3, put_im4,
    put_iod_read_req, put_iod_read_res, put_iod_write_req, put_iod_write_res,
};
use wire::{append_u16, join, put_version};

/// The number of octets that BlockLength counts: the version and the fields.
#[tactic(auto, unfolding(crate::specs::Block::fields_of, wire::specs::blocks::Fields::body, wire::specs::blocks::Fields::open_body, wire::specs::blocks::Fields::version))]
fn body_len(block: &Block) -> usize
    ensures size { result ≡ (fields_of (kind_of block.now)).size block.now }
    ensures few { result < 65536 }
{
    2 + match block {
        Block::ArBlockReq(value) => ar_block_req_len(value),
        Block::ArBlockRes(value) => ar_block_res_len(value),
        Block::IocrBlockReq(value) => iocr_block_req_len(value),
        Block::IocrBlockRes(value) => iocr_block_res_len(value),
        Block::AlarmCrBlockReq(value) => alarm_cr_block_req_len(value),
        Block::AlarmCrBlockRes(value) => alarm_cr_block_res_len(value),
        Block::ExpectedSubmoduleBlockReq(value) => expected_len(value),
        Block::ModuleDiffBlock(value) => module_diff_len(value),
        Block::PrmEnd(value) => control_len(value),
        Block::PrmEndRes(value) => control_len(value),
        Block::ApplicationReady(value) => control_len(value),
        Block::ApplicationReadyRes(value) => control_len(value),
        Block::Release(value) => control_len(value),
        Block::ReleaseRes(value) => control_len(value),
        Block::IodReadReq(value) => iod_read_req_len(value),
        Block::IodReadRes(value) => iod_read_res_len(value),
        Block::IodWriteReq(value) => iod_write_req_len(value),
        Block::IodWriteRes(value) => iod_write_res_len(value),
        Block::Im0(value) => im0_len(value),
        Block::Im1(value) => im1_len(value),
        Block::Im2(value) => im2_len(value),
        Block::Im3(value) => im3_len(value),
        Block::Im4(value) => im4_len(value),
        Block::ImFilterDataSubmodule(value) => filter_data_len(value),
        Block::ImFilterDataDevice(value) => filter_data_len(value),
        Block::AlarmNotification(value) => alarm_notification_len(value),
        Block::AlarmAck(value) => alarm_ack_len(value),
    }
}

/// The number of octets that a block takes, including its header of four octets.
#[tactic(auto, unfolding(crate::specs::Block::block_size))]
pub fn block_len(block: &Block) -> usize
    ensures { result ≡ block_size block.now }
{
    4 + body_len(block)
}

/// Appends the version and the fields. There must be room.
#[tactic(auto, using(connect_blocks::proofs::Sound::control_sized), unfolding(crate::specs::Block::fields_of, wire::specs::blocks::Fields::body, wire::specs::blocks::Fields::open_body, wire::specs::blocks::Fields::version))]
fn put_body<const N: usize>(out: &mut ArrayVec<u8, N>, block: &Block)
    requires { array_vec_len out.old + (fields_of (kind_of block.now)).size block.now ≤ N }
    ensures items { out.new.items ++ [] ≡ out.old.items ++ (fields_of (kind_of block.now)).write block.now }
    ensures len { array_vec_len out.new ≡ array_vec_len out.old + (fields_of (kind_of block.now)).size block.now }
    ensures fits { IsAccepted block.now → (fields_of (kind_of block.now)).Fits block.now }
{
    put_version(out);
    match block {
        Block::ArBlockReq(value) => put_ar_block_req(out, value),
        Block::ArBlockRes(value) => put_ar_block_res(out, value),
        Block::IocrBlockReq(value) => put_iocr_block_req(out, value),
        Block::IocrBlockRes(value) => put_iocr_block_res(out, value),
        Block::AlarmCrBlockReq(value) => put_alarm_cr_block_req(out, value),
        Block::AlarmCrBlockRes(value) => put_alarm_cr_block_res(out, value),
        Block::ExpectedSubmoduleBlockReq(value) => put_expected_apart(out, value),
        Block::ModuleDiffBlock(value) => put_module_diff_apart(out, value),
        Block::PrmEnd(value) => put_control(out, value),
        Block::PrmEndRes(value) => put_control(out, value),
        Block::ApplicationReady(value) => put_control(out, value),
        Block::ApplicationReadyRes(value) => put_control(out, value),
        Block::Release(value) => put_control(out, value),
        Block::ReleaseRes(value) => put_control(out, value),
        Block::IodReadReq(value) => put_iod_read_req(out, value),
        Block::IodReadRes(value) => put_iod_read_res(out, value),
        Block::IodWriteReq(value) => put_iod_write_req(out, value),
        Block::IodWriteRes(value) => put_iod_write_res(out, value),
        Block::Im0(value) => put_im0(out, value),
        Block::Im1(value) => put_im1(out, value),
        Block::Im2(value) => put_im2(out, value),
        Block::Im3(value) => put_im3(out, value),
        Block::Im4(value) => put_im4(out, value),
        Block::ImFilterDataSubmodule(value) => put_filter_data_apart(out, value),
        Block::ImFilterDataDevice(value) => put_filter_data_apart(out, value),
        Block::AlarmNotification(value) => put_alarm_notification(out, value),
        Block::AlarmAck(value) => put_alarm_ack(out, value),
    }
}

/// Appends a block. There must be room.
#[tactic(auto, unfolding(crate::specs::Block::block_size))]
pub fn write_block<const N: usize>(out: &mut ArrayVec<u8, N>, block: &Block)
    requires { array_vec_len out.old + block_size block.now ≤ N }
    // The octets of the block, and no others, are appended.
    ensures exact { out.new.items ≡ out.old.items ++ block_bytes block.now }
    // The buffer grows by the size of the block.
    ensures len { array_vec_len out.new ≡ array_vec_len out.old + block_size block.now }
    // If each field of the block is accepted, the octets, followed by any octets, are the octets of that block.
    ensures spelled { IsAccepted block.now → (rest : List ℕ) → IsBlock (block_bytes block.now ++ rest) block.now rest }
    // If each field of the block is accepted, the octets, followed by any octets, are read as that block.
    ensures behind { IsAccepted block.now → (rest : List ℕ) → block_of (block_bytes block.now ++ rest) ≡ front block.now rest }
{
    append_u16(out, block.block_type().number());
    append_u16(out, body_len(block) as u16);
    put_body(out, block);
}

/// The octets of an AlarmNotification block before its data.
#[inline(always)]
pub fn notification_front(alarm: &AlarmNotification) -> [u8; 28]
    // The octets followed by the alarm's data are the octets of the block.
    ensures exact { result ++ alarm.now.alarm_data ≡ block_bytes (Block.AlarmNotification alarm.now) }
    ensures len { length result ≡ 28 }
    // The octets of the block, followed by any octets, are read as that block.
    ensures behind { (rest : List ℕ) → block_of (block_bytes (Block.AlarmNotification alarm.now) ++ rest)
        ≡ front (Block.AlarmNotification alarm.now) rest }
{
    let kind = BlockType::AlarmNotification.number().to_be_bytes();
    let size = ((2 + alarm_notification_len(alarm)) as u16).to_be_bytes();
    join(
        &[kind[0], kind[1], size[0], size[1], 1, 0],
        &alarm_front(alarm),
    )
}
