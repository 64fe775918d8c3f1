//! A block of any kind.
ghost use Rattle.std.specs.Prelude.{◌≡◌};
ghost use Rattle.block_codec.specs.Block.{kind_of};

use crate::BlockType;
use connect_blocks::{
    AlarmCrBlockReq, AlarmCrBlockRes, ArBlockReq, ArBlockRes, ControlBlock,
    ExpectedSubmoduleBlockReq, IocrBlockReq, IocrBlockRes, ModuleDiffBlock,
};
use record_blocks::{
    AlarmAck, AlarmNotification, Im0, Im1, Im2, Im3, Im4, ImFilterData, IodReadReq, IodReadRes,
    IodWriteReq, IodWriteRes,
};

/// A block with the fields of its kind. Its lists are borrowed, so that no block is large.
#[derive(Drop)]
pub enum Block<'a> {
    /// 0x0101
    ArBlockReq(ArBlockReq),
    /// 0x8101
    ArBlockRes(ArBlockRes),
    /// 0x0102
    IocrBlockReq(IocrBlockReq<'a>),
    /// 0x8102
    IocrBlockRes(IocrBlockRes),
    /// 0x0103
    AlarmCrBlockReq(AlarmCrBlockReq),
    /// 0x8103
    AlarmCrBlockRes(AlarmCrBlockRes),
    /// 0x0104
    ExpectedSubmoduleBlockReq(ExpectedSubmoduleBlockReq<'a>),
    /// 0x8104
    ModuleDiffBlock(ModuleDiffBlock<'a>),
    /// 0x0110
    PrmEnd(ControlBlock),
    /// 0x8110
    PrmEndRes(ControlBlock),
    /// 0x0112
    ApplicationReady(ControlBlock),
    /// 0x8112
    ApplicationReadyRes(ControlBlock),
    /// 0x0114
    Release(ControlBlock),
    /// 0x8114
    ReleaseRes(ControlBlock),
    /// 0x0009
    IodReadReq(IodReadReq),
    /// 0x8009
    IodReadRes(IodReadRes),
    /// 0x0008
    IodWriteReq(IodWriteReq),
    /// 0x8008
    IodWriteRes(IodWriteRes),
    /// 0x0020
    Im0(Im0),
    /// 0x0021
    Im1(Im1),
    /// 0x0022
    Im2(Im2),
    /// 0x0023
    Im3(Im3),
    /// 0x0024
    Im4(Im4),
    /// 0x0030
    ImFilterDataSubmodule(ImFilterData<'a>),
    /// 0x0032
    ImFilterDataDevice(ImFilterData<'a>),
    /// 0x0001
    AlarmNotification(AlarmNotification<'a>),
    /// 0x8001
    AlarmAck(AlarmAck),
}

impl Block<'_> {
    /// The BlockType of the block.
    pub fn block_type(&self) -> BlockType
        ensures { result ≡ kind_of self.now }
    {
        match self {
            Block::ArBlockReq(_) => BlockType::ArBlockReq,
            Block::ArBlockRes(_) => BlockType::ArBlockRes,
            Block::IocrBlockReq(_) => BlockType::IocrBlockReq,
            Block::IocrBlockRes(_) => BlockType::IocrBlockRes,
            Block::AlarmCrBlockReq(_) => BlockType::AlarmCrBlockReq,
            Block::AlarmCrBlockRes(_) => BlockType::AlarmCrBlockRes,
            Block::ExpectedSubmoduleBlockReq(_) => BlockType::ExpectedSubmoduleBlockReq,
            Block::ModuleDiffBlock(_) => BlockType::ModuleDiffBlock,
            Block::PrmEnd(_) => BlockType::PrmEnd,
            Block::PrmEndRes(_) => BlockType::PrmEndRes,
            Block::ApplicationReady(_) => BlockType::ApplicationReady,
            Block::ApplicationReadyRes(_) => BlockType::ApplicationReadyRes,
            Block::Release(_) => BlockType::Release,
            Block::ReleaseRes(_) => BlockType::ReleaseRes,
            Block::IodReadReq(_) => BlockType::IodReadReq,
            Block::IodReadRes(_) => BlockType::IodReadRes,
            Block::IodWriteReq(_) => BlockType::IodWriteReq,
            Block::IodWriteRes(_) => BlockType::IodWriteRes,
            Block::Im0(_) => BlockType::Im0,
            Block::Im1(_) => BlockType::Im1,
            Block::Im2(_) => BlockType::Im2,
            Block::Im3(_) => BlockType::Im3,
            Block::Im4(_) => BlockType::Im4,
            Block::ImFilterDataSubmodule(_) => BlockType::ImFilterDataSubmodule,
            Block::ImFilterDataDevice(_) => BlockType::ImFilterDataDevice,
            Block::AlarmNotification(_) => BlockType::AlarmNotification,
            Block::AlarmAck(_) => BlockType::AlarmAck,
        }
    }
}
