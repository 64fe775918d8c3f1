// What a device sends of the exchange of its relation (IEC 61158-6-10, 4.7 and 4.8), and what is due with a unit of
// time.
ghost use Rattle.std.specs.Prelude.{◌≡◌, ◌<◌, ◌≤◌, ◌+◌, ◌++◌, ◌∷◌, [], map, Some};
ghost use Rattle.arrayvec.specs.ArrayVec.{array_vec_len};
ghost use Rattle.device_frames.specs.Sendable.{AreSendable};
ghost use Rattle.device_frames.specs.Sent.{bytes_of};
ghost use Rattle.device_frames.specs.Relation.{alarms_of, inputs_of, low_alarms_of, low_replies_of, ready_calls, replies_of, where_due};
ghost use Rattle.relations.specs.RelationState.{flow_of};
ghost use Rattle.frame_codec.specs.Outbox.{boxed};

use crate::relation::send_ready;
use crate::sizes::{can_be_sent_in, cyclic_can_be_sent};
use cyclic_data::send_cyclic;
use diagnosis::Priority;
use frame_codec::{Outbox, Pieces};
use pn_alarms::{PduType, Taken};
use pn_values::Identity;
use relations::{DataExchange, Relation};

/// Appends the inputs of this exchange at this CycleCounter to the outbox.
#[inline(always)]
pub fn send_inputs_of(
    identity: &Identity,
    counter: u16,
    exchange: &DataExchange,
    outbox: &mut Outbox,
)
    requires room { array_vec_len outbox.old < 4 }
    ensures frames { boxed outbox.new ≡ boxed outbox.old ++ map (bytes_of identity.now) (inputs_of counter (Some exchange.now)) }
    ensures sendable { AreSendable identity.now (inputs_of counter (Some exchange.now)) }
    ensures few { array_vec_len outbox.new ≤ array_vec_len outbox.old + 1 }
{
    let cyclic = exchange.cyclic();
    cyclic_can_be_sent(&identity.mac, cyclic.route());
    send_cyclic(identity.mac, counter, exchange.state(), cyclic, outbox);
}

/// Appends the inputs of the relation at this CycleCounter to the outbox, if they are due and there is a relation.
pub fn send_inputs(
    identity: &Identity,
    counter: u16,
    is_due: bool,
    relation: &Relation,
    outbox: &mut Outbox,
)
    requires room { array_vec_len outbox.old < 4 }
    ensures frames { boxed outbox.new
        ≡ boxed outbox.old ++ map (bytes_of identity.now) (where_due is_due (inputs_of counter (flow_of relation.now))) }
    ensures sendable { AreSendable identity.now (where_due is_due (inputs_of counter (flow_of relation.now))) }
    ensures few { array_vec_len outbox.new ≤ array_vec_len outbox.old + 1 }
{
    if !is_due {
        return;
    }
    let Some(exchange) = relation.exchange() else {
        return;
    };
    send_inputs_of(identity, counter, exchange, outbox);
}

/// Appends the active alarm of the relation to the outbox, if there is one.
#[inline(always)]
pub fn send_alarm(identity: &Identity, relation: &Relation, outbox: &mut Outbox)
    requires room { array_vec_len outbox.old < 4 }
    ensures frames { boxed outbox.new
        ≡ boxed outbox.old ++ map (bytes_of identity.now) (alarms_of (flow_of relation.now)) }
    ensures sendable { AreSendable identity.now (alarms_of (flow_of relation.now)) }
    ensures few { array_vec_len outbox.new ≤ array_vec_len outbox.old + 1 }
{
    let Some(exchange) = relation.exchange() else {
        return;
    };
    let Some(alarm) = exchange.alarm() else {
        return;
    };
    let front = alarm.0;
    let route = exchange.route();
    let pieces = Pieces {
        destination: route.partner,
        source: identity.mac,
        tag: Some(route.alarm_tag),
        frame_id: PduType::Data.frame_id(),
        front: &front,
        behind: alarm.1,
    };
    can_be_sent_in(&pieces);
    outbox.put_pieces(&pieces);
}

/// Appends the active alarm of the relation to the outbox, if it is due and there is one.
#[inline(never)]
pub fn send_alarm_again(identity: &Identity, is_due: bool, relation: &Relation, outbox: &mut Outbox)
    requires room { array_vec_len outbox.old < 4 }
    ensures frames { boxed outbox.new
        ≡ boxed outbox.old ++ map (bytes_of identity.now) (where_due is_due (alarms_of (flow_of relation.now))) }
    ensures sendable { AreSendable identity.now (where_due is_due (alarms_of (flow_of relation.now))) }
    ensures few { array_vec_len outbox.new ≤ array_vec_len outbox.old + 1 }
{
    if is_due {
        send_alarm(identity, relation, outbox);
    }
}

/// Appends the active alarm of low priority of the relation to the outbox, if there is one.
#[inline(always)]
fn put_low_alarm(identity: &Identity, relation: &Relation, outbox: &mut Outbox)
    requires room { array_vec_len outbox.old < 4 }
    ensures frames { boxed outbox.new ≡ boxed outbox.old ++ map (bytes_of identity.now) (low_alarms_of (flow_of relation.now)) }
    ensures sendable { AreSendable identity.now (low_alarms_of (flow_of relation.now)) }
    ensures few { array_vec_len outbox.new ≤ array_vec_len outbox.old + 1 }
{
    let Some(exchange) = relation.exchange() else {
        return;
    };
    let Some(alarm) = exchange.low_alarm() else {
        return;
    };
    let (front, octets) = (&alarm.0, alarm.1);
    let pieces = Pieces {
        destination: exchange.route().partner,
        source: identity.mac,
        tag: Some(exchange.low_tag()),
        frame_id: Priority::Low.frame_id(PduType::Data),
        front: front.as_slice(),
        behind: octets,
    };
    can_be_sent_in(&pieces);
    outbox.put_pieces(&pieces);
}

/// Appends the active alarm of low priority of the relation to the outbox, if it is due and there is one.
#[inline(never)]
pub fn send_low_alarm(identity: &Identity, is_due: bool, relation: &Relation, outbox: &mut Outbox)
    requires room { array_vec_len outbox.old < 4 }
    ensures frames { boxed outbox.new
        ≡ boxed outbox.old ++ map (bytes_of identity.now) (where_due is_due (low_alarms_of (flow_of relation.now))) }
    ensures sendable { AreSendable identity.now (where_due is_due (low_alarms_of (flow_of relation.now))) }
    ensures few { array_vec_len outbox.new ≤ array_vec_len outbox.old + 1 }
{
    if is_due {
        put_low_alarm(identity, relation, outbox);
    }
}

/// Appends the ACK or NACK for data of low priority with this outcome to the outbox, if there is a relation.
#[inline(never)]
pub fn send_low_reply(identity: &Identity, taken: Taken, relation: &Relation, outbox: &mut Outbox)
    requires room { array_vec_len outbox.old < 4 }
    ensures frames { boxed outbox.new
        ≡ boxed outbox.old ++ map (bytes_of identity.now) (low_replies_of taken (flow_of relation.now)) }
    ensures sendable { AreSendable identity.now (low_replies_of taken (flow_of relation.now)) }
    ensures few { array_vec_len outbox.new ≤ array_vec_len outbox.old + 1 }
{
    let Some(exchange) = relation.exchange() else {
        return;
    };
    let front = exchange.low_reply(taken);
    let pieces = Pieces {
        destination: exchange.route().partner,
        source: identity.mac,
        tag: Some(exchange.low_tag()),
        frame_id: Priority::Low.frame_id(taken.answer()),
        front: &front,
        behind: &[],
    };
    can_be_sent_in(&pieces);
    outbox.put_pieces(&pieces);
}

/// Appends the ACK or NACK for data with this outcome to the outbox, if there is a relation.
pub fn send_alarm_reply(identity: &Identity, taken: Taken, relation: &Relation, outbox: &mut Outbox)
    requires room { array_vec_len outbox.old < 4 }
    ensures frames { boxed outbox.new
        ≡ boxed outbox.old ++ map (bytes_of identity.now) (replies_of taken (flow_of relation.now)) }
    ensures sendable { AreSendable identity.now (replies_of taken (flow_of relation.now)) }
{
    let Some(exchange) = relation.exchange() else {
        return;
    };
    let route = exchange.route();
    let front = exchange.reply(taken);
    let pieces = Pieces {
        destination: route.partner,
        source: identity.mac,
        tag: Some(route.alarm_tag),
        frame_id: taken.answer().frame_id(),
        front: &front,
        behind: &[],
    };
    can_be_sent_in(&pieces);
    outbox.put_pieces(&pieces);
}

/// Appends ApplicationReady to the outbox, if it is due and there is a relation.
pub fn send_ready_again(
    identity: &Identity,
    address: [u8; 4],
    is_due: bool,
    relation: &Relation,
    outbox: &mut Outbox,
)
    requires room { array_vec_len outbox.old < 4 }
    ensures frames { boxed outbox.new
        ≡ boxed outbox.old ++ map (bytes_of identity.now) (where_due is_due (ready_calls address relation.now)) }
    ensures sendable { AreSendable identity.now (where_due is_due (ready_calls address relation.now)) }
    ensures few { array_vec_len outbox.new ≤ array_vec_len outbox.old + 1 }
{
    if is_due {
        send_ready(identity, address, relation, outbox);
    }
}
