// What is written has the sizes of its types, so what fits a frame can be sent.
ghost use Rattle.std.specs.Prelude.{◌≤◌, ◌<◌, List, Some, length, ℕ};
ghost use Rattle.frame_codec.specs.Frame.{FitsFrame, content_size};
ghost use Rattle.frame_codec.specs.Meaning.{RealTime, content_of, meaning_in, meaning_of};
ghost use Rattle.frame_codec.specs.Sendable.{CanBeSent, IsContent, IsEndpoint, IsHolder, IsMac, IsTag, carrying};
ghost use Rattle.rpc_core.specs.Response.{answered};
ghost use Rattle.rpc_core.specs.Sendable.{CanBeAnswered, IsHeader, IsStatus, IsUuid};

use cyclic_data::Route;
use frame_codec::{Endpoint, Holder, Layered, Payload, Pieces};
use pn_values::Mac;
use rpc_core::{CallHeader, Response, Status, Uuid};

// Layers whose content fits can be sent.
#[inline(always)]
pub(crate) fn can_be_sent(layered: &Layered<'_>)
    requires { FitsFrame (meaning_of layered.now) }
    ensures { CanBeSent (meaning_of layered.now) }
{
    has_six(&layered.destination);
    has_six(&layered.source);
    has_two(layered.tag);
    has_content(&layered.payload);
}

// A body in two pieces that fits can be sent.
#[inline(always)]
pub(crate) fn can_be_sent_in(pieces: &Pieces<'_>)
    requires { FitsFrame (meaning_in pieces.now) }
    ensures { CanBeSent (meaning_in pieces.now) }
{
    has_six(&pieces.destination);
    has_six(&pieces.source);
    has_two(pieces.tag);
    let _frame_id = pieces.frame_id;
}

// A cyclic frame can be sent with any body that fits.
#[inline(always)]
pub(crate) fn cyclic_can_be_sent(source: &Mac, route: &Route)
    ensures { (body : List ℕ) → length body ≤ 1498 →
        CanBeSent (carrying route.now.partner source.now (Some route.now.sent_tag) (RealTime route.now.sent_id body)) }
{
    has_six(&route.partner);
    has_six(source);
    let _tag = route.sent_tag;
    let _frame_id = route.sent_id;
}

// A response with at most 1,372 octets of blocks can be sent.
#[inline(always)]
pub(crate) fn can_be_answered(response: &Response<'_>)
    requires { length response.now.blocks.now ≤ 1372 }
    ensures { CanBeAnswered (answered response.now) }
{
    has_sizes(&response.header);
    has_four(response.status);
    let _maximum = response.maximum_count;
}

// The fields of the header of a call have their sizes.
#[inline(always)]
fn has_sizes(header: &CallHeader)
    ensures { IsHeader header.now }
{
    has_sixteen(&header.object);
    has_sixteen(&header.interface);
    has_sixteen(&header.activity);
    let _sequence = header.sequence;
    let _operation = header.operation;
}

// An identifier has 16 octets.
#[inline(always)]
fn has_sixteen(uuid: &Uuid)
    ensures { IsUuid uuid.now }
{
    let _octets: &[u8] = uuid.as_bytes();
}

// A status has four octets.
#[inline(always)]
fn has_four(status: Status)
    ensures { IsStatus status }
{
    let _code = status.code;
    let _decode = status.decode;
    let _code1 = status.code1;
    let _code2 = status.code2;
}

// The content of a frame has the sizes of its fields.
#[inline(always)]
fn has_content(payload: &Payload<'_>)
    requires { content_size (content_of payload.now) ≤ 1500 }
    ensures { IsContent (content_of payload.now) }
{
    match payload {
        Payload::RealTime { frame_id, body: _ } => {
            let _frame_id = *frame_id;
        }
        Payload::Arp(packet) => {
            is_held(&packet.sender);
            is_held(&packet.target);
        }
        Payload::Udp(datagram) => {
            is_an_end(&datagram.source);
            is_an_end(&datagram.destination);
        }
    }
}

// A MAC address has six octets.
#[inline(always)]
fn has_six(mac: &Mac)
    ensures { IsMac mac.now }
{
    let _octets: &[u8] = &mac.octets;
}

// A tag has two octets.
#[inline(always)]
fn has_two(tag: Option<u16>)
    ensures { IsTag tag }
{
    if let Some(_word) = tag {}
}

// The addresses of a holder have their sizes.
#[inline(always)]
fn is_held(holder: &Holder)
    ensures { IsHolder holder.now }
{
    has_six(&holder.mac);
    let _octets: &[u8] = &holder.address;
}

// The addresses of an endpoint of a datagram have their sizes.
#[inline(always)]
fn is_an_end(endpoint: &Endpoint)
    ensures { IsEndpoint endpoint.now }
{
    let _octets: &[u8] = &endpoint.address;
    is_port(endpoint.port);
}

// A port has two octets.
#[inline(always)]
fn is_port(port: u16)
    ensures { port < 65536 }
{}
