//! What a controller sends of the exchange of its relation (IEC 61158-6-10, 4.7 and 4.8).
ghost use Rattle.std.specs.Prelude.{◌≡◌, ◌+◌, ◌<◌, ◌≤◌, ◌++◌, ◌∷◌, [], length, true};
ghost use Rattle.arrayvec.specs.ArrayVec.{array_vec_len};
ghost use Rattle.block_codec.specs.Block.{block_bytes};
ghost use Rattle.pn_alarms.specs.declared.pdu.PduType.TheVariants.{Error};
ghost use Rattle.pn_alarms.specs.Format.{is_long, said, pdu_bytes};
ghost use Rattle.diagnosis.specs.reports.Report.{ack_bytes};
ghost use Rattle.cyclic_data.specs.exchange.Frames.{tagged_frame};
ghost use Rattle.frame_codec.specs.Meaning.{RealTime};
ghost use Rattle.controller_messages.specs.Sent.{Confirms, Cycles, Ends, Replies, bytes_of, tag_of};
ghost use Rattle.frame_codec.specs.Outbox.{boxed};

use crate::setup::Setup;
use arrayvec::ArrayVec;
use block_codec::{AlarmAck, Block, write_block};
use cyclic_data::{CyclicExchange, Route, StationState, send_cyclic};
use diagnosis::{Priority, low_ack_octets};
use frame_codec::{Outbox, Pieces};
use pn_alarms::{Abort, Header, Pdu, PduType, pdu_front};
use pn_values::Mac;
use record_blocks::alarm_ack_len;
use wire::append;

/// AlarmCRTagHeaderLow of the plan's Connect: the tag of alarms of low priority, and of an ERR.
const LOW_TAG: u16 = 0xA000;

/// Appends the outputs at this CycleCounter to the outbox.
#[inline(always)]
pub fn send_outputs(setup: &Setup, counter: u16, exchange: &CyclicExchange, outbox: &mut Outbox)
    requires room { array_vec_len outbox.old < 4 }
    ensures frames { boxed outbox.new
        ≡ boxed outbox.old ++ bytes_of setup.now (Cycles exchange.now.route exchange.now.shown counter) ∷ [] }
    ensures len { array_vec_len outbox.new ≡ array_vec_len outbox.old + 1 }
{
    send_cyclic(
        setup.plan.controller().mac,
        counter,
        StationState::in_order(),
        exchange,
        outbox,
    );
}

/// The tag of alarms of a priority.
fn tag_of(route: &Route, priority: Priority) -> u16
    ensures { result ≡ tag_of route.now priority }
{
    match priority {
        Priority::High => route.alarm_tag,
        Priority::Low => LOW_TAG,
    }
}

/// Appends a PDU of alarms that carries at most 28 octets to the outbox, under this FrameID.
fn send_pdu(
    source: Mac,
    destination: Mac,
    tag: u16,
    frame_id: u16,
    pdu: &Pdu<'_>,
    outbox: &mut Outbox,
)
    requires room { array_vec_len outbox.old < 4 }
    requires few { length pdu.now.body.now ≤ 28 }
    requires long { is_long pdu.now.header.kind (length pdu.now.body.now) ≡ true }
    ensures frames { boxed outbox.new
        ≡ boxed outbox.old
        ++ tagged_frame source destination tag (RealTime frame_id (pdu_bytes (said pdu.now))) ∷ [] }
    ensures len { array_vec_len outbox.new ≡ array_vec_len outbox.old + 1 }
{
    outbox.put_pieces(&Pieces {
        destination,
        source,
        tag: Some(tag),
        frame_id,
        front: &pdu_front(pdu),
        behind: pdu.body,
    });
}

/// The octets of an AlarmAck of high priority.
#[tactic(auto, unfolding(block_codec::specs::Block::block_size, block_codec::specs::Block::fields_of, wire::specs::blocks::Fields::body, wire::specs::blocks::Fields::version))]
fn high_ack_octets(ack: &AlarmAck) -> ArrayVec<u8, 28>
    ensures { result.items ≡ block_bytes (Block.AlarmAck ack.now) }
{
    // The function that counts its octets guarantees that there is room for them.
    let _size = alarm_ack_len(ack);
    let mut octets = ArrayVec::new();
    write_block(&mut octets, &Block::AlarmAck(*ack));
    octets
}

/// The octets of an AlarmAck of a priority.
fn ack_octets(priority: Priority, ack: &AlarmAck) -> ArrayVec<u8, 28>
    ensures { result.items ≡ ack_bytes priority ack.now }
{
    match priority {
        Priority::High => high_ack_octets(ack),
        Priority::Low => {
            let mut octets = ArrayVec::new();
            append(&mut octets, &low_ack_octets(ack));
            octets
        }
    }
}

/// Appends an AlarmAck of a priority, as data with this header, to the outbox.
pub fn send_alarm_ack(
    setup: &Setup,
    route: &Route,
    priority: Priority,
    header: &Header,
    ack: &AlarmAck,
    outbox: &mut Outbox,
)
    requires room { array_vec_len outbox.old < 4 }
    requires kind { header.now.kind ≡ PduType.Data }
    ensures frames { boxed outbox.new
        ≡ boxed outbox.old ++ bytes_of setup.now (Confirms route.now priority header.now ack.now) ∷ [] }
    ensures len { array_vec_len outbox.new ≡ array_vec_len outbox.old + 1 }
{
    let octets = ack_octets(priority, ack);
    let pdu = Pdu {
        header: *header,
        body: octets.as_slice(),
    };
    send_pdu(
        setup.plan.controller().mac,
        route.partner,
        tag_of(route, priority),
        priority.frame_id(header.kind),
        &pdu,
        outbox,
    );
}

/// Appends the ACK or NACK with this header to the outbox, which is the response to an alarm of this priority.
pub fn send_alarm_reply(
    setup: &Setup,
    route: &Route,
    priority: Priority,
    header: &Header,
    outbox: &mut Outbox,
)
    requires room { array_vec_len outbox.old < 4 }
    requires kind { is_long header.now.kind 0 ≡ true }
    ensures frames { boxed outbox.new
        ≡ boxed outbox.old ++ bytes_of setup.now (Replies route.now priority header.now) ∷ [] }
    ensures len { array_vec_len outbox.new ≡ array_vec_len outbox.old + 1 }
{
    let pdu = Pdu {
        header: *header,
        body: &[],
    };
    send_pdu(
        setup.plan.controller().mac,
        route.partner,
        tag_of(route, priority),
        priority.frame_id(header.kind),
        &pdu,
        outbox,
    );
}

/// Appends the ERR for this reason, with the endpoints and the numbers of this header, to the outbox.
pub fn send_alarm_end(
    setup: &Setup,
    route: &Route,
    header: &Header,
    reason: Abort,
    outbox: &mut Outbox,
)
    requires room { array_vec_len outbox.old < 4 }
    ensures frames { boxed outbox.new
        ≡ boxed outbox.old ++ bytes_of setup.now (Ends route.now header.now reason) ∷ [] }
    ensures len { array_vec_len outbox.new ≡ array_vec_len outbox.old + 1 }
{
    let pdu = reason.pdu(
        header.destination,
        header.source,
        header.send_number,
        header.ack_number,
    );
    send_pdu(
        setup.plan.controller().mac,
        route.partner,
        LOW_TAG,
        PduType::Error.frame_id(),
        &pdu,
        outbox,
    );
}
