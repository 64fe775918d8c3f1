//! BlockType.
ghost use Rattle.std.specs.Prelude.{◌≡◌};
ghost use Rattle.block_codec.specs.Kinds.{number_of, type_of};

/// BlockType (IEC 61158-6-10, 5.2.1.2): the kind of a block.
#[derive(Clone, Copy, Debug, PartialEq, Eq)]
pub enum BlockType {
    ArBlockReq,
    ArBlockRes,
    IocrBlockReq,
    IocrBlockRes,
    AlarmCrBlockReq,
    AlarmCrBlockRes,
    ExpectedSubmoduleBlockReq,
    ModuleDiffBlock,
    PrmEnd,
    PrmEndRes,
    ApplicationReady,
    ApplicationReadyRes,
    Release,
    ReleaseRes,
    IodReadReq,
    IodReadRes,
    IodWriteReq,
    IodWriteRes,
    Im0,
    Im1,
    Im2,
    Im3,
    Im4,
    ImFilterDataSubmodule,
    ImFilterDataDevice,
    AlarmNotification,
    AlarmAck,
}

impl BlockType {
    /// The type with this number, or `None` if there is no such type.
    #[tactic(auto, unfolding(crate::specs::Kinds::type_of))]
    pub fn of(number: u16) -> Option<BlockType>
        ensures { result ≡ type_of number }
    {
        match number {
            0x0101 => Some(BlockType::ArBlockReq),
            0x8101 => Some(BlockType::ArBlockRes),
            0x0102 => Some(BlockType::IocrBlockReq),
            0x8102 => Some(BlockType::IocrBlockRes),
            0x0103 => Some(BlockType::AlarmCrBlockReq),
            0x8103 => Some(BlockType::AlarmCrBlockRes),
            0x0104 => Some(BlockType::ExpectedSubmoduleBlockReq),
            0x8104 => Some(BlockType::ModuleDiffBlock),
            0x0110 => Some(BlockType::PrmEnd),
            0x8110 => Some(BlockType::PrmEndRes),
            0x0112 => Some(BlockType::ApplicationReady),
            0x8112 => Some(BlockType::ApplicationReadyRes),
            0x0114 => Some(BlockType::Release),
            0x8114 => Some(BlockType::ReleaseRes),
            0x0009 => Some(BlockType::IodReadReq),
            0x8009 => Some(BlockType::IodReadRes),
            0x0008 => Some(BlockType::IodWriteReq),
            0x8008 => Some(BlockType::IodWriteRes),
            0x0020 => Some(BlockType::Im0),
            0x0021 => Some(BlockType::Im1),
            0x0022 => Some(BlockType::Im2),
            0x0023 => Some(BlockType::Im3),
            0x0024 => Some(BlockType::Im4),
            0x0030 => Some(BlockType::ImFilterDataSubmodule),
            0x0032 => Some(BlockType::ImFilterDataDevice),
            0x0001 => Some(BlockType::AlarmNotification),
            0x8001 => Some(BlockType::AlarmAck),
            _ => None,
        }
    }

    /// The number of the type.
    #[tactic(auto, unfolding(crate::specs::Kinds::number_of))]
    pub fn number(self) -> u16
        ensures { result ≡ number_of self }
    {
        match self {
            BlockType::ArBlockReq => 0x0101,
            BlockType::ArBlockRes => 0x8101,
            BlockType::IocrBlockReq => 0x0102,
            BlockType::IocrBlockRes => 0x8102,
            BlockType::AlarmCrBlockReq => 0x0103,
            BlockType::AlarmCrBlockRes => 0x8103,
            BlockType::ExpectedSubmoduleBlockReq => 0x0104,
            BlockType::ModuleDiffBlock => 0x8104,
            BlockType::PrmEnd => 0x0110,
            BlockType::PrmEndRes => 0x8110,
            BlockType::ApplicationReady => 0x0112,
            BlockType::ApplicationReadyRes => 0x8112,
            BlockType::Release => 0x0114,
            BlockType::ReleaseRes => 0x8114,
            BlockType::IodReadReq => 0x0009,
            BlockType::IodReadRes => 0x8009,
            BlockType::IodWriteReq => 0x0008,
            BlockType::IodWriteRes => 0x8008,
            BlockType::Im0 => 0x0020,
            BlockType::Im1 => 0x0021,
            BlockType::Im2 => 0x0022,
            BlockType::Im3 => 0x0023,
            BlockType::Im4 => 0x0024,
            BlockType::ImFilterDataSubmodule => 0x0030,
            BlockType::ImFilterDataDevice => 0x0032,
            BlockType::AlarmNotification => 0x0001,
            BlockType::AlarmAck => 0x8001,
        }
    }
}
