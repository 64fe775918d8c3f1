//! Who asks.
ghost use Rattle.std.specs.Prelude.{◌≡◌, take};
ghost use Rattle.controller_abi.specs.Tool.{next_number, tool_in};

use frame_codec::Bytes;
use plans::Controller;
use pn_values::{Mac, StationName};
use wire::at_most;

/// Who asks: the MAC address and the IP address of the tool, and the number of its last request by DCP.
#[repr(C)]
#[derive(Drop)]
pub struct WrittenTool {
    pub mac: [u8; 6],
    pub address: [u8; 4],
    /// Xid of the last request. The next request has the next number.
    pub xid: u32,
}

// The number of the next request.
pub(crate) fn next_of(xid: u32) -> u32
    ensures { result ≡ next_number xid }
{
    if xid == 0xFFFF_FFFF { 0 } else { xid + 1 }
}

// The tool as a controller without a name.
pub(crate) fn tool_of(written: &WrittenTool) -> Controller
    ensures { result ≡ tool_in written.now }
{
    let octets = written.mac;
    let address = written.address;
    Controller {
        name: StationName::none(),
        mac: Mac { octets },
        address,
    }
}

// The octets of a received frame, cut to the most that is read.
pub(crate) fn first_of(octets: &[u8]) -> Bytes
    ensures { result ≡ record { items = take 1519 octets.now } }
{
    let mut bytes = Bytes::new();
    let _ = bytes.try_extend_from_slice(at_most(octets, 1519));
    bytes
}
