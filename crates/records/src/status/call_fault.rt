ghost use Rattle.std.specs.Prelude.{◌≡◌};
ghost use Rattle.records.specs.status.Status.{done, status_of};

use crate::status::Operation;
use rpc_core::Status;

/// ErrorDecode for a fault in reading or writing a record.
const RECORD: u8 = 0x80;
/// ErrorDecode for every other fault.
const PROTOCOL: u8 = 0x81;
/// ErrorCode1 for a fault of the call itself, not of a field.
const CM_RPC: u8 = 0x40;

/// Why a call is refused. Fields are counted from 0 (BlockType): BlockLength is field 1, and the two octets of
/// BlockVersion are fields 2 and 3.
#[derive(Clone, Copy, Debug, PartialEq, Eq)]
pub enum CallFault {
    /// Offset is not 0, or ArgsLength differs from ActualCount or exceeds the octets of the call.
    Arguments,
    /// One to three octets remain where a block should begin.
    BlockHeader,
    /// A block does not belong in the call or at its position: it has another type, the first block of a Connect is not
    /// an ARBlockReq, or there is a second ARBlockReq.
    BlockType,
    /// A block is missing, other than an IOCRBlockReq or an AlarmCRBlockReq.
    BlockMissing,
    /// BlockLength or BlockVersion is wrong in a block whose fields have no numbers of their own in a status.
    BlockForm,
    /// The input or the output IOCRBlockReq is missing.
    IocrMissing,
    /// The AlarmCRBlockReq is missing.
    AlarmCrMissing,
    /// There is more than one AlarmCRBlockReq.
    AlarmCrRepeated,
    /// This field of the ARBlockReq is not accepted.
    ArField(u8),
    /// This field of an IOCRBlockReq is not accepted.
    IocrField(u8),
    /// This field of an ExpectedSubmoduleBlockReq is not accepted.
    ExpectedField(u8),
    /// This field of the AlarmCRBlockReq is not accepted.
    AlarmCrField(u8),
    /// A place of an IOCRBlockReq is not inside its DataLength.
    LayoutOutside,
    /// Two places of an IOCRBlockReq overlap.
    LayoutOverlap,
    /// A place of an IOCRBlockReq belongs to no submodule, or is listed twice.
    LayoutUnknown,
    /// A submodule has no place in an IOCRBlockReq.
    LayoutMissing,
    /// The requested relation exists already.
    RelationExists,
    /// Another relation exists.
    OtherRelationExists,
    /// More than 64 modules are expected.
    TooManyModules,
    /// More than 64 submodules are expected.
    TooManySubmodules,
    /// ARUUID is not the ARUUID of the relation.
    UnknownRelation,
    /// SessionKey is not the SessionKey of the relation.
    UnknownSession,
    /// ControlCommand does not match the block.
    ControlCommand,
    /// The relation is in a phase in which the call is not expected.
    Phase,
    /// API is not 0.
    Api,
    /// No submodule is plugged in this slot and subslot.
    Place,
    /// There is no record with this index there.
    Index,
    /// The record there is not readable, or not writable.
    Access,
    /// The record is written with a wrong length, or its block is incomplete.
    WriteLength,
    /// No more settings can be stored.
    JournalExhausted,
    /// The flash failed.
    FlashFault,
    /// 64 parameter records are stored already.
    TooManyRecords,
}

impl CallFault {
    /// The PNIOStatus of a call of this operation that is refused for this reason.
    #[tactic(auto, unfolding(crate::specs::status::Status::status_of))]
    pub fn number(self, operation: Operation) -> Status
        ensures { result ≡ status_of operation self }
    {
        let (decode, code1, code2) = match self {
            CallFault::Arguments | CallFault::BlockHeader | CallFault::BlockForm => {
                (PROTOCOL, CM_RPC, 0)
            }
            CallFault::BlockType | CallFault::BlockMissing => (PROTOCOL, CM_RPC, 1),
            CallFault::IocrMissing => (PROTOCOL, CM_RPC, 2),
            CallFault::AlarmCrMissing | CallFault::AlarmCrRepeated => (PROTOCOL, CM_RPC, 3),
            CallFault::OtherRelationExists
            | CallFault::TooManyModules
            | CallFault::TooManySubmodules => (PROTOCOL, CM_RPC, 4),
            CallFault::UnknownRelation | CallFault::UnknownSession => (PROTOCOL, CM_RPC, 5),
            CallFault::RelationExists | CallFault::ControlCommand | CallFault::Phase => {
                (PROTOCOL, CM_RPC, 6)
            }
            CallFault::ArField(field) => (PROTOCOL, 1, field),
            CallFault::IocrField(field) => (PROTOCOL, 2, field),
            CallFault::ExpectedField(field) => (PROTOCOL, 3, field),
            CallFault::AlarmCrField(field) => (PROTOCOL, 4, field),
            CallFault::LayoutOutside | CallFault::LayoutOverlap => (PROTOCOL, 2, 24),
            CallFault::LayoutUnknown => (PROTOCOL, 2, 23),
            CallFault::LayoutMissing => (PROTOCOL, 2, 21),
            CallFault::Index => (RECORD, 0xB0, 0),
            CallFault::WriteLength => (RECORD, 0xB1, 0),
            CallFault::Place => (RECORD, 0xB2, 0),
            CallFault::Api => (RECORD, 0xB4, 0),
            CallFault::JournalExhausted => (RECORD, 0xB5, 4),
            CallFault::FlashFault => (RECORD, 0xB5, 5),
            CallFault::TooManyRecords => (RECORD, 0xB5, 6),
            CallFault::Access => (RECORD, 0xB6, 0),
        };
        Status {
            code: operation.error_code(),
            decode,
            code1,
            code2,
        }
    }
}

/// The PNIOStatus of a call that succeeded: four zeros.
pub fn done() -> Status
    ensures { result ≡ done }
{
    Status {
        code: 0,
        decode: 0,
        code1: 0,
        code2: 0,
    }
}
