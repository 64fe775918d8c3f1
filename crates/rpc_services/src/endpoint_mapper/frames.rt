//! The answers of the endpoint mapper as frames.
ghost use Rattle.std.specs.Prelude.{◌≡◌, Some};
ghost use Rattle.services.specs.Answer.{frame_in};
ghost use Rattle.services.specs.Views.{call_as};
ghost use Rattle.rpc_services.specs.endpoint_mapper.Mapper.{mapped_call};

use crate::endpoint_mapper::mapper::mapped;
use frame_codec::Frame;
use pn_values::Identity;
use services::{Called, Services};

/// The answer to a call to the device beside these services, if it is a request for the endpoint mapper.
pub fn mapped_call(services: &Services, identity: &Identity, called: &Called<'_>) -> Option<Frame>
    ensures { frame_in result ≡ mapped_call services.now identity.now (Some (call_as called.now)) }
{
    match mapped(identity, services.address(), called.body) {
        Some(answer) => Some(services.reply(called, answer.as_slice())),
        None => None,
    }
}
