//! A call that the services beside a device joined from its fragments.
ghost use Rattle.std.specs.Prelude.{◌≡◌, ◌≤◌, ◌+◌, ◌++◌, length};
ghost use Rattle.device_station.specs.Views.{call_octets};

use device_core::{Caller, Event, Octets};
use frame_codec::Endpoint;
use pn_values::Mac;
use rpc_services::WholeCall;
use std::marker::Model;
use wire::append;

/// The place of a call that the services beside a device joined from its fragments. Clauses see it as the event of that call. As long as
/// it has none, its owner may keep other octets there.
#[derive(Drop)]
pub struct JoinedCall {
    // Who sent its last fragment, and the IP address that it went to.
    pub(crate) caller: Caller,
    pub(crate) address: [u8; 4],
    // Its header and its body.
    pub(crate) octets: WholeCall,
}

impl Model for JoinedCall {
    ghost use Rattle.device_frames.specs.declared.event.Event.{Event};
    ghost use Rattle.device_frames.specs.declared.event.Event.TheVariants.{Call};

    ghost Value = { Event };

    ghost view = { λ call. Call call.caller call.address call.octets };
}

impl JoinedCall {
    /// The place of a call, without one.
    pub fn new() -> JoinedCall {
        JoinedCall {
            caller: Caller {
                mac: Mac { octets: [0; 6] },
                endpoint: Endpoint {
                    address: [0; 4],
                    port: 0,
                },
            },
            address: [0; 4],
            octets: WholeCall::new(),
        }
    }

    /// The event of it, which borrows its octets.
    pub fn event(&self) -> Event<'_>
        ensures { result ≡ self.now }
    {
        Event::Call(
            self.caller,
            self.address,
            Octets::of(self.octets.as_slice()),
        )
    }

    /// The octets that are there.
    pub fn octets(&self) -> &[u8]
        ensures { result.now ≡ call_octets self.now }
    {
        self.octets.as_slice()
    }

    /// Replaces the octets that are there by these, one after the other.
    pub fn put(&mut self, first: &[u8], second: &[u8])
        requires { length first.now + length second.now ≤ 4232 }
        ensures { call_octets self.new ≡ first.now ++ second.now }
    {
        self.octets.clear();
        append(&mut self.octets, first);
        append(&mut self.octets, second);
    }
}
