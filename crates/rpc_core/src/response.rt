//! Responses.
ghost use Rattle.std.specs.Prelude.{◌≡◌, ◌++◌, List, ℕ, IfOk, Ok};
ghost use Rattle.wire.specs.Codec.{Gives};
ghost use Rattle.std.specs.Option.{option_map};
ghost use Rattle.rpc_core.specs.Body.{status, body};
ghost use Rattle.rpc_core.specs.Response.{Answered, answered, is_done, IsResponse, response_of};

use crate::RpcFault;
use crate::fields::{Order, u8_at};
use crate::header::{CallHeader, order_under};
use crate::pdu::{blocks_of, counts_at, pdu_at};

/// The packet type of a response (C706, 12.5.2.2).
pub(crate) const RESPONSE: u8 = 2;

/// PNIOStatus (IEC 61158-6-10, 5.2.6): the outcome of a call. All four octets are 0 if it succeeded.
#[derive(Clone, Copy, Debug, PartialEq, Eq)]
pub struct Status {
    /// ErrorCode: which kind of call failed.
    pub code: u8,
    /// ErrorDecode: how to read the other two.
    pub decode: u8,
    /// ErrorCode1: which part found the error.
    pub code1: u8,
    /// ErrorCode2: which error it is.
    pub code2: u8,
}

impl Status {
    /// Whether the call succeeded.
    pub fn is_done(self) -> bool
        ensures { result ≡ is_done self }
    {
        self.code == 0 && self.decode == 0 && self.code1 == 0 && self.code2 == 0
    }
}

/// A response.
#[derive(Clone, Copy)]
pub struct Response<'a> {
    /// The header of the call.
    pub header: CallHeader,
    pub status: Status,
    /// ArgsMaximum of the call.
    pub maximum_count: u32,
    pub blocks: &'a [u8],
}

/// PNIOStatus, and the octets after it.
#[tactic(auto, unfolding(crate::specs::Body::status))]
fn status_at(order: Order, bytes: &[u8]) -> Result<(Status, &[u8]), RpcFault>
    ensures { Gives (λ x. (x.0, x.1.now)) result ((status order).read bytes.now) }
{
    let (first, rest) = u8_at(bytes)?;
    let (second, rest) = u8_at(rest)?;
    let (third, rest) = u8_at(rest)?;
    let (fourth, rest) = u8_at(rest)?;
    let (code, decode, code1, code2) = match order {
        Order::Big => (first, second, third, fourth),
        Order::Little => (fourth, third, second, first),
    };
    Ok((
        Status {
            code,
            decode,
            code1,
            code2,
        },
        rest,
    ))
}

/// PNIOStatus, MaximumCount and the blocks.
#[tactic(auto, unfolding(crate::specs::Body::body))]
fn response_body_at(order: Order, bytes: &[u8]) -> Result<(Status, u32, Option<&[u8]>), RpcFault>
    ensures { Gives (λ x. (x.0, record { maximum = x.1; blocks = option_map (λ blocks. blocks.now) x.2 })) result
        ((body (status order) order).read bytes.now) }
{
    let (status, rest) = status_at(order, bytes)?;
    let (counts, rest) = counts_at(order, rest)?;
    Ok((status, counts.maximum, blocks_of(&counts, rest)))
}

#[tactic(auto, unfolding(crate::specs::Response::response_of, crate::specs::Response::response))]
fn response_in(bytes: &[u8]) -> Result<Response<'_>, RpcFault>
    ensures { Gives answered result (response_of bytes.now) }
{
    let (head, body, _rest) = pdu_at(RESPONSE, None, bytes)?;
    let order = order_under(head.opening.representation);
    let (status, maximum_count, blocks) = response_body_at(order, body)?;
    let Some(blocks) = blocks else {
        return Err(RpcFault::Args);
    };
    Ok(Response {
        header: head.header(),
        status,
        maximum_count,
        blocks,
    })
}

/// Reads a response from a datagram, for any interface. Octets after the body's length, and after the blocks, are
/// ignored. The first fault in their order is returned. Numbers are read in big endian if the representation is
/// neither.
pub fn read_response(bytes: &[u8]) -> Result<Response<'_>, RpcFault>
    // The octets spell the response that is returned.
    ensures found { IfOk result (λ found. IsResponse bytes.now (answered found)) }
    // If the octets spell a response, that response is returned.
    ensures only { (meaning : Answered) → IsResponse bytes.now meaning → Gives answered result (Ok meaning) }
    // The same holds with anything after the response.
    ensures behind { (first more : List ℕ) (meaning : Answered) → IsResponse first meaning → bytes.now ≡ first ++ more →
        Gives answered result (Ok meaning) }
    // The result is exactly the response of the octets, or their first fault.
    ensures exact { Gives answered result (response_of bytes.now) }
{
    response_in(bytes)
}
