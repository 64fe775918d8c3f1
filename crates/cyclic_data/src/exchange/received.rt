//! Cyclic frames that are received.
ghost use Rattle.std.specs.Prelude.{◌≡◌, ◌≢◌};
ghost use Rattle.cyclic_data.specs.exchange.Received.{behind_frame, received_as};

use crate::exchange::exchange::CyclicExchange;
use crate::tail::read_cyclic;
use pn_values::Mac;

/// What happens to a cyclic frame.
#[derive(Clone, Copy, Debug, PartialEq, Eq)]
pub enum Received {
    /// It is from another station, or has another FrameID.
    Foreign,
    /// It has fewer octets than DataLength plus four.
    Short,
    /// Its data is not valid, its TransferStatus is not 0, or its CycleCounter is not newer.
    Stale,
    /// It is accepted: values are read from it, and the data hold time restarts.
    Taken,
}

impl CyclicExchange {
    /// Receives a cyclic frame: its source, its FrameID, and the octets that follow it.
    #[inline(always)]
    pub fn receive(&mut self, source: Mac, frame_id: u16, body: &[u8]) -> Received
        ensures received { result ≡ received_as self.old source frame_id body.now }
        ensures state { self.new ≡ behind_frame self.old source frame_id body.now }
        // A frame that is not accepted changes nothing.
        ensures refused { result ≢ Received.Taken → self.new ≡ self.old }
    {
        // The sender is checked before the length: a short frame of a stranger is the stranger's fault.
        if !self.route.is_of_partner(source, frame_id) {
            return Received::Foreign;
        }
        let Ok((octets, tail)) = read_cyclic(body, self.taken.data_length()) else {
            return Received::Short;
        };
        let is_taken = self
            .consumer
            .accept(tail.counter, tail.data_status, tail.transfer_status);
        if !is_taken {
            return Received::Stale;
        }
        self.taken.accept(octets);
        self.data_status = tail.data_status;
        Received::Taken
    }
}
