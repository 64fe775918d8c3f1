//! The partner, and the numbers of the frames from it and to it.
ghost use Rattle.std.specs.Prelude.{◌≡◌};
ghost use Rattle.cyclic_data.specs.exchange.Received.{is_of_partner};

use pn_values::Mac;

/// The partner, and the numbers of the frames from it and to it.
#[derive(Clone, Copy, Debug, PartialEq, Eq)]
pub struct Route {
    /// The partner's MAC address: the destination and source of cyclic frames and alarms.
    pub partner: Mac,
    /// FrameID of the cyclic frames that are sent.
    pub sent_id: u16,
    /// The tag of the cyclic frames that are sent, IOCRTagHeader.
    pub sent_tag: u16,
    /// FrameID of the cyclic frames that are accepted.
    pub taken_id: u16,
    /// The tag of alarms, AlarmCRTagHeaderHigh.
    pub alarm_tag: u16,
    /// The partner's endpoint of alarms, LocalAlarmReference.
    pub reference: u16,
}

impl Route {
    /// A route without a partner, to be overwritten.
    pub fn blank() -> Route {
        Route {
            partner: Mac { octets: [0; 6] },
            sent_id: 0,
            sent_tag: 0,
            taken_id: 0,
            alarm_tag: 0,
            reference: 0,
        }
    }

    /// Whether a frame with this source and this FrameID carries the data that this end receives.
    #[inline(always)]
    pub(crate) fn is_of_partner(&self, source: Mac, frame_id: u16) -> bool
        ensures { result ≡ is_of_partner self.now source frame_id }
    {
        source.is(&self.partner) && frame_id == self.taken_id
    }
}
