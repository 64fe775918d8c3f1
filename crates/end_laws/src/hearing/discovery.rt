//! DCP and ARP.
ghost use Rattle.std.specs.Prelude.{◌≡◌, ◌≤◌, ◌<◌, ℕ, length, List, Option};
ghost use Rattle.pn_values.specs.declared.identity.Identity.{Identity};
ghost use Rattle.pn_values.specs.declared.mac.Mac.{Mac};
ghost use Rattle.pn_values.specs.declared.set_item.BlockError.{BlockError};
ghost use Rattle.pn_values.specs.declared.settings.Settings.{Settings};
ghost use Rattle.frame_codec.specs.declared.arp.ArpOperation.TheVariants.{Reply};
ghost use Rattle.frame_codec.specs.declared.arp.Holder.{Holder};
ghost use Rattle.dcp_core.specs.Get.{get_bytes};
ghost use Rattle.dcp_core.specs.Identify.{identify_bytes};
ghost use Rattle.dcp_core.specs.Request.{Asked};
ghost use Rattle.dcp_core.specs.Set.{set_bytes};
ghost use Rattle.dcp_core.specs.Reported.{get_said, identify_said, set_said};
ghost use Rattle.plans.specs.declared.parts.Controller.{Controller};
ghost use Rattle.device_frames.specs.Heard.{Asks, Resolves, heard_of as device_hears};
ghost use Rattle.device_frames.specs.Sent.{ArpReply, GetAnswer, IdentifyAnswer, SetAnswer, bytes_of as device_bytes};
ghost use Rattle.controller_messages.specs.declared.request.Request.TheVariants as asks;
ghost use Rattle.controller_messages.specs.declared.setup.Setup.{Setup};
ghost use Rattle.controller_messages.specs.Heard.{Answers, Nothing, heard_of as controller_hears};
ghost use Rattle.controller_messages.specs.Requests.{address_asked, identify_asked};
ghost use Rattle.controller_messages.specs.Sent.{Requests, bytes_of as controller_bytes};
ghost use Rattle.frame_codec.specs.Sendable.{IsHolder, IsMac};
ghost use Rattle.end_laws.specs.hearing.Hearing.{all_hears, comes, mine_hears, own_hears};
ghost use Rattle.end_laws.specs.hearing.Stations.{IsAddress, IsDevice, IsSetup};

use dcp_core::{answers_are_read, requests_are_read};
use frame_codec::frames_are_read;

/// What a device hears of the controller's DCP requests. These are laws of the definitions.
pub fn requests_are_heard()
    // Each device hears the Identify for the plan's name, from the controller, and no other request in it.
    ensures identify { (identity : Identity) (setup : Setup) (to : Mac) → IsSetup setup
        → device_hears identity (comes (controller_bytes setup (Requests to asks.Identify)))
        ≡ Asks setup.plan.controller.mac (identify_asked setup.plan) }
    // The device that the request goes to hears the Set of the plan's IP suite.
    ensures address { (identity : Identity) (setup : Setup) (to : Mac) → IsSetup setup → IsMac to
        → device_hears identity (comes (controller_bytes setup (Requests to asks.Address)))
        ≡ own_hears identity to (Asks setup.plan.controller.mac (address_asked setup.plan)) }
{
    frames_are_read();
    requests_are_read();
}

/// What a controller hears of the device's DCP responses. These are laws of the definitions.
pub fn answers_are_heard()
    // If the response fits a frame, the controller hears what the device reports of itself, from the device, with the
    // Xid of the request.
    ensures identify { (mine : Controller) (identity : Identity) (asker : Mac) (running : Settings) (xid : ℕ)
        → IsDevice identity → IsMac asker → xid < 4294967296 → length (identify_bytes identity running xid) ≤ 1498
        → controller_hears mine (device_bytes identity (IdentifyAnswer asker running xid))
        ≡ mine_hears mine asker (Answers identity.mac (identify_said identity running xid)) }
    // If the response fits a frame, the controller hears what the device reports of each kind that was asked for.
    ensures get { (mine : Controller) (identity : Identity) (asker : Mac) (running : Settings) (alias : Option (List ℕ)) (request : Asked)
        → IsDevice identity → IsMac asker → request.xid < 4294967296 → length (get_bytes identity running alias request) ≤ 1498
        → controller_hears mine (device_bytes identity (GetAnswer asker running alias request))
        ≡ mine_hears mine asker (Answers identity.mac (get_said identity running alias request)) }
    // If the response fits a frame, the controller hears the outcome of each block of a Set.
    ensures set { (mine : Controller) (identity : Identity) (asker : Mac) (request : Asked) (outcomes : List BlockError)
        → IsDevice identity → IsMac asker → request.xid < 4294967296 → length (set_bytes request outcomes) ≤ 1498
        → controller_hears mine (device_bytes identity (SetAnswer asker request outcomes))
        ≡ mine_hears mine asker (Answers identity.mac (set_said request outcomes)) }
{
    frames_are_read();
    answers_are_read();
}

/// What is heard of the device's ARP packets. These are laws of the definitions.
pub fn packets_are_heard()
    // A controller hears nothing of them.
    ensures controller { (mine : Controller) (identity : Identity) (asker : Mac) (address : List ℕ) (target : Holder)
        → IsDevice identity → IsMac asker → IsAddress address → IsHolder target
        → controller_hears mine (device_bytes identity (ArpReply asker address target)) ≡ Nothing }
    // A device that the packet goes to hears it.
    ensures device { (other identity : Identity) (asker : Mac) (address : List ℕ) (target : Holder)
        → IsDevice identity → IsMac asker → IsAddress address → IsHolder target
        → device_hears other (comes (device_bytes identity (ArpReply asker address target)))
        ≡ all_hears other asker (Resolves identity.mac (record
        { operation = Reply; sender = record { mac = identity.mac; address = address }; target = target })) }
{
    frames_are_read();
}
