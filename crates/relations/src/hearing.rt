//! The answer to ApplicationReady.
ghost use Rattle.std.specs.Prelude.{◌≡◌, ◌⊎◌, Some};
ghost use Rattle.rpc_core.specs.Response.{answered};
ghost use Rattle.relations.specs.declared.phase.Phase.TheVariants.{Awaiting, Exchanging};
ghost use Rattle.relations.specs.RelationState.{phase_of};
ghost use Rattle.relations.specs.Phases.{updated};
ghost use Rattle.block_codec.specs.Block.{block_of};
ghost use Rattle.relations.specs.Ready.{answer_of, confirmed_block, confirmed_by, is_answer_to, handled_by};

use crate::ready::CONTROL;
use crate::{Farewell, Phase, Relation};
use block_codec::{Block, read_block};
use pn_alarms::{Abort, PduType};
use rpc_core::{CallHeader, Response};
use uuid::Uuid;

/// What an answer means to the device.
#[derive(Clone, Copy, Debug, PartialEq, Eq)]
pub enum ReadyAnswer {
    /// It is not the answer to an ApplicationReady that waits for one, or it belongs to another relation.
    NotWanted,
    /// It is positive, but does not contain a complete answer to ApplicationReady.
    Garbled,
    /// ApplicationReady is confirmed: data is exchanged from now on.
    Confirmed,
    /// ApplicationReady is refused: the relation has ended, and this ERR must be sent.
    Refused(Farewell),
}

impl Relation {
    /// Receives a response of the controller. The device waits for one while ApplicationReady is unanswered, with the
    /// ARUUID as activity, sequence 0 and operation Control. A status other than 0 ends the relation. A positive
    /// response must hold the block that confirms ApplicationReady of this relation.
    #[tactic(auto, unfolding(crate::specs::Ready::answer_of))]
    pub fn hear_ready(&mut self, response: &Response<'_>) -> ReadyAnswer
        ensures heard { result ≡ answer_of (answered response.now) self.old }
        ensures state { self.new ≡ updated (handled_by result) self.old }
        // Data is exchanged afterwards only if it was before, or if the relation waited for this answer and the answer
        // confirms it.
        ensures phase { phase_of self.new ≡ Some Exchanging →
            (phase_of self.old ≡ Some Exchanging) ⊎ ((phase_of self.old ≡ Some Awaiting) × (result ≡ ReadyAnswer.Confirmed)) }
    {
        let Some(Phase::Awaiting) = self.phase else {
            return ReadyAnswer::NotWanted;
        };
        let uuid = self.request.ar().uuid;
        // The sender is not checked: an activity is unique, and a controller may answer from another port.
        if !is_answer_to(&uuid, &response.header) {
            return ReadyAnswer::NotWanted;
        }
        // This is checked before the blocks: a refusal may have none.
        if !response.status.is_done() {
            self.phase = None;
            let header = self.exchange.header(PduType::Error);
            return ReadyAnswer::Refused(Farewell::of(&self.request, &header, Abort::Other));
        }
        let heard = confirmed_by(&uuid, response.blocks);
        if let ReadyAnswer::Confirmed = heard {
            self.phase = Some(Phase::Exchanging);
            self.exchange.begin();
        }
        heard
    }
}

/// Whether a response with this header is the answer to the ApplicationReady of the relation with this ARUUID.
fn is_answer_to(uuid: &Uuid, header: &CallHeader) -> bool
    ensures { result ≡ is_answer_to uuid.now header.now }
{
    header.activity == *uuid && header.sequence == 0 && header.operation == CONTROL
}

/// What the blocks of a positive answer mean to the relation with this ARUUID.
fn confirmed_by(uuid: &Uuid, blocks: &[u8]) -> ReadyAnswer
    ensures { result ≡ confirmed_by uuid.now (confirmed_block (block_of blocks.now)) }
{
    match read_block(blocks) {
        Ok((Block::ApplicationReadyRes(block), _behind)) if block.ar_uuid == *uuid => {
            ReadyAnswer::Confirmed
        }
        Ok((Block::ApplicationReadyRes(_), _behind)) => ReadyAnswer::NotWanted,
        _ => ReadyAnswer::Garbled,
    }
}
