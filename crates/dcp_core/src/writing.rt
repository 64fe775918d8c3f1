// Writing requests.
ghost use Rattle.std.specs.Prelude.{◌≡◌, ◌+◌, ◌%◌, ◌≤◌, ◌++◌, [], ℕ, List, Ok, length, map};
ghost use Rattle.arrayvec.specs.ArrayVec.{array_vec_len};
ghost use Rattle.dcp_core.specs.Request.{asked, asked_block};
ghost use Rattle.dcp_core.specs.Format.{kind, pair, block, block_of, delay_under, frame_id_of as frame_of, id_of};
ghost use Rattle.dcp_core.specs.Reading.{IsRequest, request_of};
ghost use Rattle.dcp_core.specs.Writing.{IsRequestable, blocks_size, request_bytes};
ghost use Rattle.wire.specs.Filled.{write_all};
ghost use Rattle.wire.specs.Whole.{everything};

use crate::{Block, Kind, Request, Service};
use arrayvec::ArrayVec;
use wire::{append, append_u8, append_u16, append_u32};

/// The blocks or pairs of a request. They fit a frame after a FrameID and the header of ten octets.
type Asking = ArrayVec<u8, 1488>;

impl Service {
    /// ServiceID.
    pub fn id(self) -> u8
        ensures { result ≡ id_of self }
    {
        match self {
            Service::Get => 3,
            Service::Set => 4,
            Service::Identify => 5,
        }
    }

    /// The FrameID of a request for this service.
    pub fn frame_id(self) -> u16
        ensures { result ≡ frame_of self }
    {
        match self {
            Service::Get | Service::Set => 0xFEFD,
            Service::Identify => 0xFEFE,
        }
    }

    /// ResponseDelay: 1, the minimum, in an Identify. In other requests it is reserved.
    fn delay(self) -> u16
        ensures { result ≡ delay_under (frame_of self) }
    {
        match self {
            Service::Get | Service::Set => 0,
            Service::Identify => 1,
        }
    }
}

/// Appends a kind.
#[tactic(auto, unfolding(crate::specs::Format::kind))]
fn put_kind(data: &mut Asking, value: Kind)
    requires { array_vec_len data.old + 2 ≤ 1488 }
    ensures items { data.new.items ≡ data.old.items ++ kind.write value [] }
    ensures len { array_vec_len data.new ≡ array_vec_len data.old + 2 }
{
    append_u8(data, value.option());
    append_u8(data, value.suboption());
}

/// Appends a block, and a zero after it if its length is odd.
fn put_contents(data: &mut Asking, value: &Block<'_>)
    requires { array_vec_len data.old + (4 + length value.now.contents.now + length value.now.contents.now % 2) ≤ 1488 }
    ensures items { data.new.items ≡ data.old.items ++ (block everything).write (asked_block value.now) [] }
    ensures len { array_vec_len data.new
        ≡ array_vec_len data.old + (4 + length value.now.contents.now + length value.now.contents.now % 2) }
{
    put_kind(data, value.kind);
    append_u16(data, value.contents.len() as u16);
    append(data, value.contents);
    if value.contents.len() % 2 == 1 {
        append(data, &[0]);
    }
}

/// Appends a block, or the pair of a Get.
fn put_asked(data: &mut Asking, service: Service, value: &Block<'_>)
    requires { array_vec_len data.old + (block_of service).size (asked_block value.now) ≤ 1488 }
    ensures items { data.new.items ≡ data.old.items ++ (block_of service).write (asked_block value.now) [] }
    ensures len { array_vec_len data.new ≡ array_vec_len data.old + (block_of service).size (asked_block value.now) }
{
    match service {
        Service::Get => put_kind(data, value.kind),
        Service::Set => put_contents(data, value),
        Service::Identify => put_contents(data, value),
    }
}

/// Appends all blocks or pairs.
fn put_all(data: &mut Asking, request: &Request<'_>)
    requires empty { data.old.items ≡ [] }
    requires few { blocks_size (asked request.now) ≤ 1488 }
    ensures items { data.new.items ≡ write_all (block_of request.now.service) (map asked_block request.now.blocks.items) }
    ensures len { array_vec_len data.new ≡ blocks_size (asked request.now) }
    ensures most { length request.now.blocks.items ≤ 16 }
{
    for block in request.blocks.as_slice() {
        put_asked(data, request.service, block);
    }
}

/// Appends what follows the FrameID of a request: a header of ten octets, and its blocks. There must be room.
#[tactic(auto, unfolding(crate::specs::Writing::request_bytes, crate::specs::Format::header_and_data, crate::specs::Format::data_of))]
pub fn write_request<const N: usize>(request: &Request<'_>, out: &mut ArrayVec<u8, N>)
    requires room { array_vec_len out.old + 10 + blocks_size (asked request.now) ≤ N }
    // A kind that has a name goes by it, each block of a Set has its BlockQualifier, and all blocks fit a frame.
    requires fits { IsRequestable (asked request.now) }
    // The octets are exactly those of the request.
    ensures exact { out.new.items ≡ out.old.items ++ request_bytes (asked request.now) }
    // The length grows by ten octets and those of the blocks.
    ensures len { array_vec_len out.new ≡ array_vec_len out.old + 10 + blocks_size (asked request.now) }
    // The octets spell the given request.
    ensures spelled { IsRequest (frame_of request.now.service) (request_bytes (asked request.now)) (asked request.now) }
    // With anything after them, the octets are read as the given request.
    ensures behind { (more : List ℕ) → request_of (frame_of request.now.service) (request_bytes (asked request.now) ++ more)
        ≡ Ok (asked request.now) }
{
    let mut data: Asking = ArrayVec::new();
    put_all(&mut data, request);
    append_u8(out, request.service.id());
    append_u8(out, 0);
    append_u32(out, request.xid);
    append_u16(out, request.service.delay());
    append_u16(out, data.len() as u16);
    append(out, data.as_slice());
}
