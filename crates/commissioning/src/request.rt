//! Requests of DCP.
ghost use Rattle.std.specs.Prelude.{◌≡◌, ◌≤◌, ◌∷◌, [], length, map};
ghost use Rattle.dcp_core.specs.Request.{asked_block};
ghost use Rattle.commissioning.specs.Asked.{IsCarried, IsHeardAs, alias_asked, identify_multicast, name_asked};

use arrayvec::ArrayVec;
use dcp_core::{Block, Kind, Request, Service, write_request};
use frame_codec::{DCP_GET_SET, DCP_IDENTIFY_REQUEST, Frame, Layered, Payload, write};
use pn_values::{Mac, StationName};
use wire::append;

/// The multicast address of Identify requests (IEC 61158-6-10, 4.3.1.3.1).
const IDENTIFY_MULTICAST: Mac = Mac {
    octets: [0x01, 0x0E, 0xCF, 0x00, 0x00, 0x00],
};

/// The octets of a request with one block, which has at most 512 octets.
type Octets = ArrayVec<u8, 528>;

/// The multicast address of Identify requests.
#[tactic(auto, unfolding(crate::specs::Asked::identify_multicast))]
fn all_stations() -> Mac
    ensures { result ≡ identify_multicast }
{
    IDENTIFY_MULTICAST
}

/// A list with this one block.
fn one<'a>(kind: Kind, contents: &'a [u8]) -> ArrayVec<Block<'a>, 16>
    ensures { map asked_block result.items ≡ record { kind = kind; contents = contents.now } ∷ [] }
{
    let mut blocks = ArrayVec::new();
    blocks.push(Block { kind, contents });
    blocks
}

/// The frame of a request with these octets after its FrameID.
fn carry(source: Mac, destination: Mac, frame_id: u16, body: &[u8]) -> Frame
    requires { length body.now ≤ 1498 }
    ensures { IsCarried source destination frame_id body.now result.items }
{
    write(&Layered {
        destination,
        source,
        tag: None,
        payload: Payload::RealTime { frame_id, body },
    })
}

/// The frame by which this station asks all stations which one has this name by its place: at most 511 octets. `xid` is the number of the
/// request, which its answers have too (Xid, IEC 61158-6-10, 4.3.1.3.4). Give each request a number of its own; a controller uses 1 and 2.
#[tactic(auto, unfolding(dcp_core::specs::Format::block_of, dcp_core::specs::Format::block, dcp_core::specs::Format::kind))]
pub fn identify_by_alias(source: Mac, xid: u32, alias: &[u8]) -> Frame
    requires { length alias.now ≤ 511 }
    // A station reads the frame as an Identify with this number, and this AliasName as its only filter.
    ensures { IsHeardAs result.items source identify_multicast (alias_asked xid alias.now) }
{
    let mut octets = Octets::new();
    let request = Request {
        service: Service::Identify,
        xid,
        blocks: one(Kind::AliasName, alias),
    };
    write_request(&request, &mut octets);
    carry(
        source,
        all_stations(),
        DCP_IDENTIFY_REQUEST,
        octets.as_slice(),
    )
}

/// A BlockQualifier that says 'permanent', and a name.
fn named_octets(name: &StationName) -> ArrayVec<u8, 242>
    ensures items { result.items ≡ 0 ∷ 1 ∷ name.now }
    ensures few { length result.items ≤ 242 }
{
    let mut octets = ArrayVec::new();
    append(&mut octets, &[0, 1]);
    append(&mut octets, name.as_bytes());
    octets
}

/// The frame by which a station gets this name.
#[tactic(auto, unfolding(dcp_core::specs::Format::block_of, dcp_core::specs::Format::block, dcp_core::specs::Format::kind))]
pub(crate) fn set_name(source: Mac, destination: Mac, xid: u32, name: &StationName) -> Frame
    // The station reads the frame as a Set with this number of this name, for good.
    ensures { IsHeardAs result.items source destination (name_asked xid name.now) }
{
    let mut octets = Octets::new();
    let contents = named_octets(name);
    let request = Request {
        service: Service::Set,
        xid,
        blocks: one(Kind::NameOfStation, contents.as_slice()),
    };
    write_request(&request, &mut octets);
    carry(source, destination, DCP_GET_SET, octets.as_slice())
}
