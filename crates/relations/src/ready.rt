//! ApplicationReady, the call with which a device says that it has accepted its parameters (IEC 61158-6-10, 5.2.4.5).
ghost use Rattle.std.specs.Prelude.{◌≡◌, ◌+◌, ◌≤◌, ◌++◌, Some, false, option_map, true};
ghost use Rattle.arrayvec.specs.ArrayVec.{array_vec_len};
ghost use Rattle.block_codec.specs.Block.{block_bytes};
ghost use Rattle.block_codec.specs.declared.block.Block.TheVariants.{ApplicationReady};
ghost use Rattle.relations.specs.declared.phase.Phase.TheVariants.{Awaiting, Preparing};
ghost use Rattle.relations.specs.Phases.{Prepared, updated};
ghost use Rattle.relations.specs.Ready.{ready_of};
ghost use Rattle.relations.specs.RelationState.{is_preparing, phase_of};

use crate::{Partner, Phase, Relation};
use arrayvec::ArrayVec;
use block_codec::{Block, ControlBlock, write_block};
use connect_blocks::control_len;
use rpc_core::{CallHeader, Interface};

/// ControlCommand of ApplicationReady.
const APPLICATION_READY: u16 = 2;

/// Operation of Control.
pub(crate) const CONTROL: u16 = 4;

/// ApplicationReady: a call to the controller. It is repeated unchanged.
#[derive(Clone, Copy)]
pub struct Ready {
    /// The destination: the station that the Connect came from.
    pub partner: Partner,
    /// The header of the call.
    pub header: CallHeader,
    /// The one block of the call.
    pub block: ControlBlock,
}

impl Ready {
    /// Appends the block of the call, 32 octets. There must be room.
    #[tactic(auto, unfolding(block_codec::specs::Block::block_size, block_codec::specs::Block::fields_of, wire::specs::blocks::Fields::body, wire::specs::blocks::Fields::version))]
    pub fn put_blocks<const N: usize>(&self, blocks: &mut ArrayVec<u8, N>)
        requires { array_vec_len blocks.old + 32 ≤ N }
        ensures { blocks.new.items ≡ blocks.old.items ++ block_bytes (ApplicationReady self.now.block) }
    {
        let _size = control_len(&self.block);
        write_block(blocks, &Block::ApplicationReady(self.block));
    }
}

impl Relation {
    /// The application is ready. Returns whether the relation waited for that, and ApplicationReady must be sent; if not,
    /// nothing changes. The activity timer does not restart.
    pub fn get_ready(&mut self) -> bool
        ensures done { result ≡ is_preparing (phase_of self.old) }
        ensures state { self.new ≡ updated Prepared self.old }
        ensures refused { result ≡ false → self.new ≡ self.old }
        // It counts only after PrmEnd, and only once.
        ensures phase { result ≡ true → (phase_of self.old ≡ Some Preparing) × (phase_of self.new ≡ Some Awaiting) }
    {
        if !matches!(self.phase, Some(Phase::Preparing)) {
            return false;
        }
        self.phase = Some(Phase::Awaiting);
        self.waited = 0;
        true
    }

    /// The call ApplicationReady of the relation, if there is one: to the station that sent its Connect, with the
    /// ARUUID as activity.
    pub fn ready(&self) -> Option<Ready>
        ensures { result ≡ option_map ready_of self.now }
    {
        let _ = self.phase?;
        let ar = self.request.ar();
        Some(Ready {
            partner: self.partner,
            header: CallHeader {
                object: ar.object,
                interface: Interface::Controller.uuid(),
                activity: ar.uuid,
                sequence: 0,
                operation: CONTROL,
            },
            block: ControlBlock {
                ar_uuid: ar.uuid,
                session_key: ar.session_key,
                control_command: APPLICATION_READY,
                control_block_properties: 0,
            },
        })
    }
}
