//! Calls.
ghost use Rattle.std.specs.Prelude.{◌≡◌, ◌++◌, List, ℕ, IfOk, Ok};
ghost use Rattle.wire.specs.Codec.{Gives};
ghost use Rattle.std.specs.Option.{option_map};
ghost use Rattle.rpc_core.specs.Fields.{ordered};
ghost use Rattle.rpc_core.specs.Body.{body};
ghost use Rattle.rpc_core.specs.Call.{Asked, asked, IsCall, call_of};
ghost use Rattle.rpc_core.specs.Response.{answered, answer_to};

use crate::fields::{Order, u32_at};
use crate::header::{CallHeader, order_under};
use crate::pdu::{blocks_of, counts_at, pdu_at};
use crate::{Interface, Response, RpcFault, Status};

/// The packet type of a call (C706, 12.5.2.2).
pub(crate) const REQUEST: u8 = 0;

/// A call.
#[derive(Clone, Copy)]
pub struct Call<'a> {
    pub header: CallHeader,
    /// The maximum length of the response. It is not enforced here; the response repeats it.
    pub args_maximum: u32,
    /// The blocks. `None` if Offset is not 0, or if ArgsLength differs from ActualCount or exceeds the octets present.
    /// That is `RpcFault::Args`, which is answered.
    pub blocks: Option<&'a [u8]>,
}

impl Call<'_> {
    /// The response to this call.
    pub fn response<'b>(&self, status: Status, blocks: &'b [u8]) -> Response<'b>
        ensures { answered result ≡ answer_to (asked self.now) status blocks.now }
    {
        Response {
            header: self.header,
            status,
            maximum_count: self.args_maximum,
            blocks,
        }
    }
}

/// ArgsMaximum and the blocks.
#[tactic(auto, unfolding(crate::specs::Body::body))]
fn call_body_at(order: Order, bytes: &[u8]) -> Result<(u32, u32, Option<&[u8]>), RpcFault>
    ensures { Gives (λ x. (x.0, record { maximum = x.1; blocks = option_map (λ blocks. blocks.now) x.2 })) result
        ((body (ordered order 4) order).read bytes.now) }
{
    let (args_maximum, rest) = u32_at(order, bytes)?;
    let (counts, rest) = counts_at(order, rest)?;
    Ok((args_maximum, counts.maximum, blocks_of(&counts, rest)))
}

#[tactic(auto, unfolding(crate::specs::Call::call_of, crate::specs::Call::call))]
fn call_in(interface: Interface, bytes: &[u8]) -> Result<Call<'_>, RpcFault>
    ensures { Gives asked result (call_of interface bytes.now) }
{
    let (head, body, _rest) = pdu_at(REQUEST, Some(interface), bytes)?;
    let order = order_under(head.opening.representation);
    let (args_maximum, _maximum, blocks) = call_body_at(order, body)?;
    Ok(Call {
        header: head.header(),
        args_maximum,
        blocks,
    })
}

/// Reads a call to this interface from a datagram. Octets after the body's length, and after the blocks, are ignored.
/// The first fault in their order is returned. Numbers are read in big endian if the representation is neither.
pub fn read_call(interface: Interface, bytes: &[u8]) -> Result<Call<'_>, RpcFault>
    // The octets spell the call that is returned.
    ensures found { IfOk result (λ found. IsCall interface bytes.now (asked found)) }
    // If the octets spell a call, that call is returned.
    ensures only { (meaning : Asked) → IsCall interface bytes.now meaning → Gives asked result (Ok meaning) }
    // The same holds with anything after the call.
    ensures behind { (first more : List ℕ) (meaning : Asked) → IsCall interface first meaning → bytes.now ≡ first ++ more →
        Gives asked result (Ok meaning) }
    // The result is exactly the call of the octets, or their first fault.
    ensures exact { Gives asked result (call_of interface bytes.now) }
{
    call_in(interface, bytes)
}
