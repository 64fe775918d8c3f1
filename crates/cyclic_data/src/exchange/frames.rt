//! Cyclic frames that are sent.
ghost use Rattle.std.specs.Prelude.{◌≡◌, ◌<◌, ◌≤◌, ◌+◌, ◌++◌, ◌∷◌, [], length};
ghost use Rattle.arrayvec.specs.ArrayVec.{array_vec_len};
ghost use Rattle.cyclic_data.specs.exchange.Frames.{body_at, frame_at};
ghost use Rattle.frame_codec.specs.Outbox.{boxed};

use crate::exchange::exchange::CyclicExchange;
use crate::status::StationState;
use frame_codec::{Outbox, Pieces};
use pn_values::Mac;

/// Appends a cyclic frame at this CycleCounter, from this station, which is in this state, to the partner, to the
/// outbox.
#[inline(always)]
pub fn send_cyclic(
    source: Mac,
    counter: u16,
    state: StationState,
    exchange: &CyclicExchange,
    outbox: &mut Outbox,
)
    requires room { array_vec_len outbox.old < 4 }
    ensures frames { boxed outbox.new
        ≡ boxed outbox.old ++ frame_at source exchange.now.route state exchange.now.shown counter ∷ [] }
    ensures fits { length (body_at state exchange.now.shown counter) ≤ 1498 }
    ensures len { array_vec_len outbox.new ≡ array_vec_len outbox.old + 1 }
{
    let route = exchange.route();
    let (octets, tail) = exchange.data(counter, state);
    outbox.put_pieces(&Pieces {
        destination: route.partner,
        source,
        tag: Some(route.sent_tag),
        frame_id: route.sent_id,
        front: octets,
        behind: tail.as_slice(),
    });
}
