// Address resolution (RFC 826).
ghost use Rattle.std.specs.Prelude.{◌≡◌, ◌<◌, [], ◌∷◌};
ghost use Rattle.device_core.specs.Behind.{CanSend, frames_of};
ghost use Rattle.device_core.specs.Handled.{is_running as runs, is_request as requests, handled_arp};
ghost use Rattle.device_core.specs.Machine.{end_of};
ghost use Rattle.frame_codec.specs.Outbox.{boxed};

use crate::{Device, Note};
use device_frames::send_arp_reply;
use flash_model::Flash;
use frame_codec::{Arp, ArpOperation, Outbox};
use pn_values::{Mac, Settings};

impl<F: Flash<S>, const S: usize> Device<F, S> {
    // An ARP packet: a request for the running address is answered.
    #[inline(never)]
    pub(crate) fn resolve(&self, asker: Mac, packet: &Arp, outbox: &mut Outbox) -> Note
        requires empty { outbox.old.items ≡ [] }
        ensures frames { boxed outbox.new ≡ frames_of self.now (handled_arp self.now.live asker packet.now) }
        ensures sendable { CanSend self.now (handled_arp self.now.live asker packet.now) }
        ensures note { result ≡ (end_of self.now.station self.now.live (handled_arp self.now.live asker packet.now)).note }
    {
        let running = self.store.running();
        if !is_request(packet.operation) || !is_running(running, packet.target.address) {
            return Note::NotMine;
        }
        let address = running.suite.address();
        send_arp_reply(&self.identity, asker, address, packet.sender, outbox);
        Note::Done
    }
}

// Whether a packet asks who holds an address.
fn is_request(operation: ArpOperation) -> bool
    ensures { result ≡ requests operation }
{
    match operation {
        ArpOperation::Request => true,
        // Replies are of no use here: the device answers to the station that a call came from, and looks up no address.
        ArpOperation::Reply => false,
    }
}

/// Whether this is the running address, and not all zeros.
pub(crate) fn is_running(running: &Settings, address: [u8; 4]) -> bool
    ensures { result ≡ runs running.now address }
{
    // A device without an address has zeros, and no reply may say that it holds them.
    address == running.suite.address() && address != [0; 4]
}
