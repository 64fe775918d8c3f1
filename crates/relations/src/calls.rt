//! PrmEnd and Release (IEC 61158-6-10, 5.2.4.5).
ghost use Rattle.std.specs.Prelude.{◌≡◌, ◌≤◌, [], IfErr, IfOk, OnOk, Err, Ok, Some};
ghost use Rattle.wire.specs.Codec.{Gives};
ghost use Rattle.relations.specs.declared.phase.Phase.TheVariants.{Started};
ghost use Rattle.relations.specs.Calls.{control_block, done_of, named_of, prm_end_of, release_of, prm_end_answer, release_answer};
ghost use Rattle.relations.specs.Phases.{Parameterized, Ended, answered, phase_behind, updated};
ghost use Rattle.relations.specs.RelationState.{phase_of};

use crate::{Phase, Relation};
use arrayvec::ArrayVec;
use block_codec::{Block, BlockType, ControlBlock, write_block};
use connect_blocks::control_len;
use records::{CallFault, single_block};

/// ControlCommand of PrmEnd.
const PRM_END: u16 = 1;
/// ControlCommand of Release.
const RELEASE: u16 = 4;
/// ControlCommand of their answers.
const DONE: u16 = 8;

/// The one block of a call, which must have this type: PrmEnd or Release.
fn control_block(blocks: &[u8], kind: BlockType) -> Result<ControlBlock, CallFault>
    ensures { Gives (λ x. x) result (control_block kind blocks.now) }
{
    let (block, _behind) = single_block(blocks, kind)?;
    match block {
        Block::PrmEnd(block) => Ok(block),
        Block::Release(block) => Ok(block),
        _ => Err(CallFault::BlockForm),
    }
}

/// The phase of a relation whose PrmEnd was accepted.
fn phase_behind(by_application: bool) -> Phase
    ensures { result ≡ phase_behind by_application }
{
    if by_application {
        Phase::Preparing
    } else {
        Phase::Awaiting
    }
}

/// The block of the answer to this block.
fn done(block: ControlBlock) -> ControlBlock
    ensures { result ≡ done_of block }
{
    ControlBlock {
        control_command: DONE,
        ..block
    }
}

impl Relation {
    /// Checks that a block belongs to the relation and has this ControlCommand.
    fn check_control(&self, block: &ControlBlock, command: u16) -> Result<(), CallFault>
        ensures { result ≡ named_of self.now block.now command }
    {
        if !self.is_named(&block.ar_uuid) {
            return Err(CallFault::UnknownRelation);
        }
        if block.session_key != self.request.ar().session_key {
            return Err(CallFault::UnknownSession);
        }
        if block.control_command != command {
            return Err(CallFault::ControlCommand);
        }
        Ok(())
    }

    /// Handles PrmEnd, the block of a Control (operation 4): all parameters of a relation in `Started` are written. Then
    /// ApplicationReady must be sent, unless the application says when it is ready (`by_application`). Writes the block of
    /// the answer into an empty list, or returns why the call is refused.
    #[tactic(auto, unfolding(crate::specs::Calls::prm_end_of, block_codec::specs::Block::block_size, block_codec::specs::Block::fields_of, wire::specs::blocks::Fields::body, wire::specs::blocks::Fields::version))]
    pub fn control<const N: usize>(
        &mut self,
        by_application: bool,
        blocks: &[u8],
        answer: &mut ArrayVec<u8, N>,
    ) -> Result<(), CallFault>
        requires empty { answer.old.items ≡ [] }
        requires room { 32 ≤ N }
        ensures done { IfOk result (λ _. prm_end_answer self.old blocks.now ≡ Ok answer.new.items) }
        ensures refused { IfErr result (λ fault. (prm_end_answer self.old blocks.now ≡ Err fault) × (answer.new.items ≡ [])) }
        ensures state { self.new ≡ updated (answered (Parameterized by_application) (prm_end_of self.old blocks.now)) self.old }
        // It succeeds only in Started. Afterwards the relation is in Awaiting, or, if the application says when it is ready,
        // in Preparing.
        ensures phase { OnOk result ((phase_of self.old ≡ Some Started) × (phase_of self.new ≡ Some (phase_behind by_application))) }
    {
        let block = control_block(blocks, BlockType::PrmEnd)?;
        self.check_control(&block, PRM_END)?;
        // A second PrmEnd would restart ApplicationReady. A repeat of the first is answered from the stored answer and
        // never gets here.
        if !matches!(self.phase, Some(Phase::Started)) {
            return Err(CallFault::Phase);
        }
        let done = done(block);
        let _size = control_len(&done);
        write_block(answer, &Block::PrmEndRes(done));
        self.phase = Some(phase_behind(by_application));
        self.waited = 0;
        Ok(())
    }

    /// Handles Release (operation 1): the controller ends the relation, in any phase. Writes the block of the answer
    /// into an empty list, or returns why the call is refused.
    #[tactic(auto, unfolding(crate::specs::Calls::release_of, block_codec::specs::Block::block_size, block_codec::specs::Block::fields_of, wire::specs::blocks::Fields::body, wire::specs::blocks::Fields::version))]
    pub fn release<const N: usize>(
        &mut self,
        blocks: &[u8],
        answer: &mut ArrayVec<u8, N>,
    ) -> Result<(), CallFault>
        requires empty { answer.old.items ≡ [] }
        requires room { 32 ≤ N }
        ensures done { IfOk result (λ _. release_answer self.old blocks.now ≡ Ok answer.new.items) }
        ensures refused { IfErr result (λ fault. (release_answer self.old blocks.now ≡ Err fault) × (answer.new.items ≡ [])) }
        ensures state { self.new ≡ updated (answered Ended (release_of self.old blocks.now)) self.old }
    {
        let block = control_block(blocks, BlockType::Release)?;
        self.check_control(&block, RELEASE)?;
        let done = done(block);
        let _size = control_len(&done);
        write_block(answer, &Block::ReleaseRes(done));
        // The other fields are stale from here on, and the next Connect overwrites them.
        self.phase = None;
        Ok(())
    }
}
