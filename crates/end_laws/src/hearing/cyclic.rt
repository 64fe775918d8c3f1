//! Cyclic frames.
ghost use Rattle.std.specs.Prelude.{◌≡◌, ◌≤◌, ℕ, length, Some};
ghost use Rattle.pn_values.specs.declared.identity.Identity.{Identity};
ghost use Rattle.cyclic_data.specs.Image.{Shown};
ghost use Rattle.cyclic_data.specs.declared.status.StationState.{StationState};
ghost use Rattle.cyclic_data.specs.declared.exchange.route.Route.{Route};
ghost use Rattle.cyclic_data.specs.exchange.Frames.{body_at};
ghost use Rattle.relations.specs.exchange.Frames.{Inputs};
ghost use Rattle.plans.specs.declared.parts.Controller.{Controller};
ghost use Rattle.device_frames.specs.Heard.{Cyclic, heard_of as device_hears};
ghost use Rattle.device_frames.specs.Sent.{Exchanges, bytes_of as device_bytes};
ghost use Rattle.controller_messages.specs.Heard.{Cyclic as Comes, heard_of as controller_hears};
ghost use Rattle.end_laws.specs.hearing.Hearing.{comes, mine_hears, own_hears, padded};
ghost use Rattle.end_laws.specs.hearing.Stations.{IsDevice, IsRoute};

use frame_codec::frames_are_read;

/// What is heard of a frame of inputs. These are laws of the definitions.
pub fn inputs_are_heard()
    // If its body has at most 1,498 octets, the controller that the frame goes to hears it: from the device, under its
    // FrameID, with its padding.
    ensures controller { (mine : Controller) (identity : Identity) (route : Route) (state : StationState) (inputs : Shown) (counter : ℕ)
        → IsDevice identity → IsRoute route → length (body_at state inputs counter) ≤ 1498
        → controller_hears mine (device_bytes identity (Exchanges route (Inputs state inputs counter)))
        ≡ mine_hears mine route.partner (Comes identity.mac route.sent_id
        (padded identity.mac route.partner (Some route.sent_tag) route.sent_id (body_at state inputs counter))) }
    // If its body has at most 1,498 octets, a device that the frame goes to hears the same.
    ensures device { (other identity : Identity) (route : Route) (state : StationState) (inputs : Shown) (counter : ℕ)
        → IsDevice identity → IsRoute route → length (body_at state inputs counter) ≤ 1498
        → device_hears other (comes (device_bytes identity (Exchanges route (Inputs state inputs counter))))
        ≡ own_hears other route.partner (Cyclic identity.mac route.sent_id
        (padded identity.mac route.partner (Some route.sent_tag) route.sent_id (body_at state inputs counter))) }
{
    frames_are_read();
}
