//! The requests to the device.
ghost use Rattle.std.specs.Prelude.{◌≡◌, ◌+◌, ◌<◌, ◌++◌, ◌∷◌, [], length, map};
ghost use Rattle.arrayvec.specs.ArrayVec.{array_vec_len};
ghost use Rattle.dcp_core.specs.Request.{asked_block};
ghost use Rattle.dcp_core.specs.Identify.{suite_bytes};
ghost use Rattle.dcp_core.specs.Writing.{request_bytes};
ghost use Rattle.cyclic_data.specs.exchange.Frames.{plain_frame};
ghost use Rattle.frame_codec.specs.Meaning.{RealTime};
ghost use Rattle.controller_messages.specs.Requests.{address_asked, identify_asked};
ghost use Rattle.controller_messages.specs.Sent.{Requests as requests, bytes_of, identify_multicast, request_frame};
ghost use Rattle.frame_codec.specs.Outbox.{boxed};

use crate::calls::send_call;
use crate::request::Request;
use crate::setup::Setup;
use arrayvec::ArrayVec;
use dcp_core::{Block, Kind, Service, write_request};
use frame_codec::{DCP_GET_SET, DCP_IDENTIFY_REQUEST, Layered, Outbox, Payload};
use pn_values::{IpSuite, Mac};

/// The multicast address of Identify requests (IEC 61158-6-10, 4.3.1.3.1).
const IDENTIFY_MULTICAST: Mac = Mac {
    octets: [0x01, 0x0E, 0xCF, 0x00, 0x00, 0x00],
};

/// The multicast address of Identify requests.
#[tactic(auto, unfolding(crate::specs::Sent::identify_multicast))]
fn all_stations() -> Mac
    ensures { result ≡ identify_multicast }
{
    IDENTIFY_MULTICAST
}

/// The octets of a DCP request with one block, which has at most 240 octets.
type Octets = ArrayVec<u8, 256>;

/// A list with this one block.
fn one<'a>(kind: Kind, contents: &'a [u8]) -> ArrayVec<Block<'a>, 16>
    ensures { map asked_block result.items ≡ record { kind = kind; contents = contents.now } ∷ [] }
{
    let mut blocks = ArrayVec::new();
    blocks.push(Block { kind, contents });
    blocks
}

/// A BlockQualifier of 0, and the IP suite.
fn suite_octets(suite: &IpSuite) -> ArrayVec<u8, 14>
    ensures { result.items ≡ 0 ∷ 0 ∷ suite_bytes suite.now }
{
    let mut octets = ArrayVec::new();
    wire::append_u16(&mut octets, 0);
    wire::append(&mut octets, &suite.address());
    wire::append(&mut octets, &suite.mask());
    wire::append(&mut octets, &suite.gateway());
    octets
}

/// Appends a DCP request to the outbox.
fn send_dcp(source: Mac, destination: Mac, frame_id: u16, request: &Octets, outbox: &mut Outbox)
    requires room { array_vec_len outbox.old < 4 }
    ensures frames { boxed outbox.new
        ≡ boxed outbox.old ++ plain_frame source destination (RealTime frame_id request.now.items) ∷ [] }
    ensures len { array_vec_len outbox.new ≡ array_vec_len outbox.old + 1 }
{
    outbox.put(&Layered {
        destination,
        source,
        tag: None,
        payload: Payload::RealTime {
            frame_id,
            body: request.as_slice(),
        },
    });
}

/// Appends the Identify for the name of the plan to the outbox.
#[inline(never)]
#[tactic(auto, unfolding(dcp_core::specs::Format::block_of, dcp_core::specs::Format::block, dcp_core::specs::Format::kind))]
fn send_identify(setup: &Setup, outbox: &mut Outbox)
    requires room { array_vec_len outbox.old < 4 }
    ensures frames { boxed outbox.new
        ≡ boxed outbox.old
        ++ plain_frame setup.now.plan.controller.mac identify_multicast (RealTime 0xFEFE (request_bytes (identify_asked setup.now.plan))) ∷
        [] }
    ensures len { array_vec_len outbox.new ≡ array_vec_len outbox.old + 1 }
{
    let mut octets = Octets::new();
    let request = dcp_core::Request {
        service: Service::Identify,
        xid: 1,
        blocks: one(Kind::NameOfStation, setup.plan.station().name.as_bytes()),
    };
    write_request(&request, &mut octets);
    send_dcp(
        setup.plan.controller().mac,
        all_stations(),
        DCP_IDENTIFY_REQUEST,
        &octets,
        outbox,
    );
}

/// Appends the Set of the plan's IP suite to the outbox.
#[inline(never)]
#[tactic(auto, unfolding(dcp_core::specs::Format::block_of, dcp_core::specs::Format::block, dcp_core::specs::Format::kind))]
fn send_address(setup: &Setup, device: Mac, outbox: &mut Outbox)
    requires room { array_vec_len outbox.old < 4 }
    ensures frames { boxed outbox.new
        ≡ boxed outbox.old ++ request_frame setup.now device Request.Address ∷ [] }
    ensures len { array_vec_len outbox.new ≡ array_vec_len outbox.old + 1 }
{
    let mut octets = Octets::new();
    let contents = suite_octets(&setup.plan.station().suite);
    let request = dcp_core::Request {
        service: Service::Set,
        xid: 2,
        blocks: one(Kind::IpSuite, contents.as_slice()),
    };
    write_request(&request, &mut octets);
    send_dcp(
        setup.plan.controller().mac,
        device,
        DCP_GET_SET,
        &octets,
        outbox,
    );
}

/// Appends this request, addressed to the device, to the outbox. An Identify goes to all stations.
pub fn send_request(setup: &Setup, device: Mac, request: Request, outbox: &mut Outbox)
    requires room { array_vec_len outbox.old < 4 }
    ensures frames { boxed outbox.new
        ≡ boxed outbox.old ++ bytes_of setup.now (requests device request) ∷ [] }
    ensures len { array_vec_len outbox.new ≡ array_vec_len outbox.old + 1 }
{
    match request {
        Request::Identify => send_identify(setup, outbox),
        Request::Address => send_address(setup, device, outbox),
        Request::Connect => send_call(setup, device, Request::Connect, outbox),
        Request::Write(number) => send_call(setup, device, Request::Write(number), outbox),
        Request::PrmEnd => send_call(setup, device, Request::PrmEnd, outbox),
        Request::Release(sequence) => send_call(setup, device, Request::Release(sequence), outbox),
        Request::WriteAfter(number, tries) => {
            send_call(setup, device, Request::WriteAfter(number, tries), outbox)
        }
        Request::PrmEndAfter(tries) => {
            send_call(setup, device, Request::PrmEndAfter(tries), outbox)
        }
    }
}
