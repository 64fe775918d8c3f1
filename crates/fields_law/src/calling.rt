//! The blocks of Control, Release, Read and Write, read back.
ghost use Rattle.std.specs.Prelude.{◌≡◌, ◌≤◌, ◌<◌, ◌^◌, [], ℕ, List, Some, length};
ghost use Rattle.rpc_core.specs.declared.interface.Interface.{Interface};
ghost use Rattle.rpc_core.specs.Call.{Asked, call_bytes};
ghost use Rattle.rpc_core.specs.Response.{Answered, response_bytes};
ghost use Rattle.rpc_core.specs.Sendable.{IsHeader, IsStatus};
ghost use Rattle.relations.specs.RelationState.{RelationState};
ghost use Rattle.relations.specs.Ready.{ready_of};
ghost use Rattle.controller_messages.specs.declared.request.Request.{Request};
ghost use Rattle.controller_messages.specs.declared.setup.Setup.{Setup};
ghost use Rattle.controller_messages.specs.Requests.{header_of};
ghost use Rattle.connect_blocks.specs.declared.control.ControlBlock.{ControlBlock};
ghost use Rattle.connect_blocks.specs.declared.plug_control.PlugControlBlock.{PlugControlBlock};
ghost use Rattle.connect_blocks.specs.PlugControl.{plug_control};
ghost use Rattle.record_blocks.specs.declared.read_record.IodReadReq.{IodReadReq};
ghost use Rattle.record_blocks.specs.declared.read_record.IodReadRes.{IodReadRes};
ghost use Rattle.record_blocks.specs.declared.write_record.IodWriteReq.{IodWriteReq};
ghost use Rattle.record_blocks.specs.declared.write_record.IodWriteRes.{IodWriteRes};
ghost use Rattle.block_codec.specs.declared.block.Block.TheVariants as is;
ghost use Rattle.block_codec.specs.Block.{block_bytes};
ghost use Rattle.block_codec.specs.Writable.{IsControl, IsRecord, IsWritten};
ghost use Rattle.fields_law.specs.Calls.{IsControlOf, IsPlugControl, IsReadAnswer, IsReadRequest, IsSizedPlugControl, IsWriteAnswer, IsWriteRequest};
ghost use Rattle.fields_law.specs.Calls.{IsRequestPacket, IsResponsePacket, interface_of};

use block_codec::blocks_are_read;

/// The blocks of the calls after a Connect.
pub fn calls_are_read_back()
    // PrmEnd, ApplicationReady and Release, and their answers.
    ensures requests { (asked : ControlBlock) → IsControl asked → IsControlOf (block_bytes (is.PrmEnd asked)) 0x0110 asked
        × IsControlOf (block_bytes (is.ApplicationReady asked)) 0x0112 asked × IsControlOf (block_bytes (is.Release asked)) 0x0114 asked }
    ensures answers { (done : ControlBlock) → IsControl done → IsControlOf (block_bytes (is.PrmEndRes done)) 0x8110 done
        × IsControlOf (block_bytes (is.ApplicationReadyRes done)) 0x8112 done × IsControlOf (block_bytes (is.ReleaseRes done)) 0x8114 done }
    // Those after a plug, of any type: AlarmSequenceNumber is where the others have two reserved octets.
    ensures plug { (type : ℕ) (asked : PlugControlBlock) → type < 65536 → IsSizedPlugControl asked
        → IsPlugControl ((plug_control type).write asked []) type asked }
    // The headers of a record that is written or read, and of their answers.
    ensures write { (asked : IodWriteReq) → IsRecord asked.header → IsWriteRequest (block_bytes (is.IodWriteReq asked)) asked }
    ensures written { (done : IodWriteRes) → IsWritten done → IsWriteAnswer (block_bytes (is.IodWriteRes done)) done }
    ensures read { (asked : IodReadReq) → IsRecord asked.header → length asked.target_ar_uuid ≡ 16
        → IsReadRequest (block_bytes (is.IodReadReq asked)) asked }
    ensures given { (done : IodReadRes) → IsRecord done.header → done.additional_value_1 < 65536 → done.additional_value_2 < 65536
        → IsReadAnswer (block_bytes (is.IodReadRes done)) done }
{
    blocks_are_read();
}

/// The packets of RPC that both ends write, and whom a controller calls.
pub fn packets_are_read_back()
    // A request, and a response.
    ensures request { (interface : Interface) (call : Asked) (blocks : List ℕ) → IsHeader call.header → call.args_maximum < 256 ^ 4
        → length blocks ≤ 1372 → call.blocks ≡ Some blocks → IsRequestPacket (call_bytes interface call) call blocks }
    ensures response { (answer : Answered) → IsHeader answer.header → IsStatus answer.status → answer.maximum_count < 256 ^ 4
        → length answer.blocks ≤ 1372 → IsResponsePacket (response_bytes answer) answer }
    // A controller calls the interface of devices, and a device that of controllers.
    ensures controller { (setup : Setup) (request : Request) → (header_of setup request).interface ≡ interface_of 1 }
    ensures device { (link : RelationState) → (ready_of link).header.interface ≡ interface_of 2 }
{}
