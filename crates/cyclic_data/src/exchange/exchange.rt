//! One end of cyclic data.
ghost use Rattle.std.specs.Prelude.{◌≡◌, ◌≤◌, ◌++◌, IfSome, Some, [], false, is_some, length, option_map, unwrap_or};
ghost use Rattle.arrayvec.specs.ArrayVec.{array_vec_len};
ghost use Rattle.cyclic_data.specs.exchange.Frames.{body_at};
ghost use Rattle.cyclic_data.specs.exchange.Opening.{begun_of, cleared, ended_of, opened, related, restated};
ghost use Rattle.cyclic_data.specs.exchange.Process.{given_at, provided_at, provider_at, stated_at, taken_tail, value_at};

use crate::exchange::opening::{Statuses, fill, state};
use crate::exchange::route::Route;
use crate::image::Image;
use crate::layout::Layout;
use crate::place::PlaceKind;
use crate::received::ReceivedImage;
use crate::status::{DataStatus, GOOD, StationState};
use crate::tail::CyclicTail;
use crate::timing::{Consumer, Provider};
use crate::zero_octets::zeros;
use arrayvec::ArrayVec;
use std::marker::Model;

/// One end of the cyclic data of a relation. It is large and stays in place: the next relation that opens it overwrites
/// its content.
#[derive(Drop)]
pub struct CyclicExchange {
    pub(crate) route: Route,
    /// Whether data is exchanged.
    pub(crate) begun: bool,
    pub(crate) provider: Provider,
    pub(crate) consumer: Consumer,
    pub(crate) sent: Image,
    pub(crate) taken: ReceivedImage,
    /// DataStatus of the last accepted frame.
    pub(crate) data_status: DataStatus,
}

/// The data of a submodule in the partner's last accepted frame, and what the partner says of it.
#[derive(Clone, Copy, Debug, PartialEq, Eq)]
pub struct ReceivedValue<'a> {
    /// The data. All zeros if the IOPS is not good.
    pub octets: &'a [u8],
    /// What the partner says of it.
    pub status: ProviderStatus,
}

/// What the partner says of the data of a submodule in its last accepted frame.
#[derive(Clone, Copy, Debug, PartialEq, Eq)]
pub struct ProviderStatus {
    /// IOPS of the submodule.
    pub iops: u8,
    /// DataStatus of the frame. If `PROVIDER_RUNS` is clear, the partner is stopped.
    pub data_status: DataStatus,
}

// Its model: one value for each place, and the states of the sender and of the receiver.
impl Model for CyclicExchange {
    ghost use Rattle.cyclic_data.specs.exchange.Cyclic.{Cyclic};

    ghost Value = { Cyclic };

    ghost view = { λ exchange. record {
      route = exchange.route;
      begun = exchange.begun;
      sending = exchange.provider;
      shown = exchange.sent;
      hearing = exchange.consumer;
      taken = exchange.taken;
      data_status = exchange.data_status.0;
    } };
}

impl CyclicExchange {
    /// An end that is not open: no data is exchanged, and no submodule has a place.
    pub fn new() -> CyclicExchange
        ensures begun { result.begun ≡ false }
        ensures shown { result.shown.cells ≡ [] }
        ensures taken { result.taken.cells ≡ [] }
    {
        CyclicExchange {
            route: Route::blank(),
            begun: false,
            provider: Provider::start(1, 1),
            sent: Image::new(),
            consumer: Consumer::new(1, 1),
            taken: ReceivedImage::new(),
            data_status: DataStatus(0),
        }
    }

    /// Opens the end for a new relation: no data was given and none accepted, the interval is counted from now, and
    /// IOPS and IOCS that are sent are `statuses`. Nothing of an earlier relation remains.
    pub fn open<S: Statuses>(
        &mut self,
        route: Route,
        provider: Provider,
        consumer: Consumer,
        sent: &Layout,
        taken: &Layout,
        statuses: &S,
    )
        ensures { self.new ≡ opened route provider consumer (S.status_of statuses.now) sent.now taken.now }
    {
        self.route = route;
        self.begun = false;
        self.provider = provider;
        fill(&mut self.sent, sent, statuses);
        self.consumer = consumer;
        self.taken.start(taken);
        self.data_status = DataStatus(0);
    }

    /// Sets the partner and the numbers of the frames, once they are known, and restarts the interval. The data that
    /// was given since the opening is kept, so that data may be given before the partner answers.
    pub fn relate(&mut self, route: Route, provider: Provider)
        ensures { self.new ≡ related self.old route provider }
    {
        self.route = route;
        self.provider = provider;
    }

    /// Begins the exchange: data is exchanged, and the data hold time runs from now on.
    pub fn begin(&mut self)
        ensures { self.new ≡ begun_of self.old }
    {
        self.begun = true;
        self.consumer.restart();
    }

    /// Ends the exchange: data is no longer exchanged, and the received data becomes zeros.
    pub fn end(&mut self)
        ensures { self.new ≡ ended_of self.old }
    {
        self.begun = false;
        let size = self.taken.data_length();
        // No received data is kept after the end: a later reader must not drive a machine with the values of a partner
        // that is gone.
        self.taken.accept(zeros(size as usize));
    }

    /// Whether data is exchanged.
    #[inline(always)]
    pub fn has_begun(&self) -> bool
        ensures { result ≡ self.now.begun }
    {
        self.begun
    }

    /// The partner, and the numbers of its frames.
    #[inline(always)]
    pub fn route(&self) -> &Route
        ensures { result.now ≡ self.now.route }
    {
        &self.route
    }

    /// Sets the data of a submodule, which frames carry from now on. Returns whether the submodule has data of this
    /// length; if not, nothing changes. Its IOPS is not changed.
    #[inline(always)]
    pub fn give(&mut self, slot: u16, subslot: u16, value: &[u8]) -> bool
        ensures done { result ≡ is_some (given_at self.old slot subslot value.now) }
        ensures state { self.new ≡ unwrap_or (given_at self.old slot subslot value.now) self.old }
    {
        self.sent.put(slot, subslot, value)
    }

    /// Sets the data of a submodule and sets its IOPS to good from now on. Returns whether the submodule has data of
    /// this length; if not, nothing changes.
    pub fn provide(&mut self, slot: u16, subslot: u16, value: &[u8]) -> bool
        ensures done { result ≡ is_some (provided_at self.old slot subslot value.now) }
        ensures state { self.new ≡ unwrap_or (provided_at self.old slot subslot value.now) self.old }
    {
        if !self.sent.put(slot, subslot, value) {
            return false;
        }
        self.sent.set_status(PlaceKind::Data, slot, subslot, GOOD);
        true
    }

    /// Sets the IOPS of the data of a submodule, if it has data, which frames carry from now on. The data is not changed.
    pub fn state(&mut self, slot: u16, subslot: u16, iops: u8)
        ensures { self.new ≡ stated_at self.old slot subslot iops }
    {
        self.sent.set_status(PlaceKind::Data, slot, subslot, iops);
    }

    /// Sets the data of a submodule to zeros, if it has data, which frames carry from now on. Its IOPS is not changed.
    pub fn clear(&mut self, slot: u16, subslot: u16)
        ensures { self.new ≡ cleared slot subslot self.old }
    {
        self.sent.clear(slot, subslot);
    }

    /// Sets the IOPS and IOCS at all places to `statuses`, which frames carry from now on. The data is not changed.
    pub fn restate<S: Statuses>(&mut self, statuses: &S)
        ensures { self.new ≡ restated (S.status_of statuses.now) self.old }
    {
        state(&mut self.sent, statuses);
    }

    /// The data of a submodule in the partner's last accepted frame, if the submodule has data there. All zeros if no
    /// frame was accepted yet, or if the IOPS is not good.
    #[inline(always)]
    pub fn value(&self, slot: u16, subslot: u16) -> Option<&[u8]>
        ensures value { option_map (λ value. value.now) result ≡ value_at self.now slot subslot }
        ensures short { IfSome result (λ value. length value.now ≤ 1440) }
    {
        self.taken.output(slot, subslot)
    }

    /// The content of the frames that are sent.
    pub fn sent(&self) -> &Image
        ensures { result.now ≡ self.now.shown }
    {
        &self.sent
    }

    /// The content of the last accepted frame: zeros before.
    pub fn received(&self) -> &ReceivedImage
        ensures { result.now ≡ self.now.taken }
    {
        &self.taken
    }

    /// The fields after the data of the last accepted frame, whose TransferStatus is 0. Zeros if no frame was accepted yet.
    pub fn taken_tail(&self) -> CyclicTail
        ensures { result ≡ taken_tail self.now }
    {
        CyclicTail {
            counter: self.consumer.last().unwrap_or(0),
            data_status: self.data_status,
            transfer_status: 0,
        }
    }

    /// What the partner says of the data of a submodule in its last accepted frame, if the submodule has data there.
    /// `None` if no frame was accepted yet.
    pub fn provider(&self, slot: u16, subslot: u16) -> Option<ProviderStatus>
        ensures { result ≡ provider_at self.now slot subslot }
    {
        if !self.consumer.has_heard() {
            return None;
        }
        let data_status = self.data_status;
        match self.taken.status(PlaceKind::Data, slot, subslot) {
            Some(iops) => Some(ProviderStatus { iops, data_status }),
            None => None,
        }
    }

    /// The data of a submodule in the partner's last accepted frame, and what the partner says of it, if the submodule has data
    /// there. `None` if no frame was accepted yet.
    pub fn received_value(&self, slot: u16, subslot: u16) -> Option<ReceivedValue<'_>>
        ensures status { option_map (λ value. value.status) result ≡ provider_at self.now slot subslot }
        ensures octets { IfSome result (λ value. value_at self.now slot subslot ≡ Some value.octets.now) }
        ensures short { IfSome result (λ value. length value.octets.now ≤ 1440) }
    {
        if !self.consumer.has_heard() {
            return None;
        }
        let data_status = self.data_status;
        match self.taken.rated_output(slot, subslot) {
            Some((octets, iops)) => Some(ReceivedValue {
                octets,
                status: ProviderStatus { iops, data_status },
            }),
            None => None,
        }
    }

    /// The octets that follow the FrameID of a frame that is sent at this CycleCounter by a station in this state:
    /// the data, at most 1,440 octets, and the four octets after it.
    #[inline(always)]
    pub fn data(&self, counter: u16, state: StationState) -> (&[u8], ArrayVec<u8, 4>)
        ensures exact { result.0.now ++ result.1.items ≡ body_at state self.now.shown counter }
        ensures few { length result.0.now ≤ 1440 }
        ensures tail { array_vec_len result.1 ≡ 4 }
    {
        (self.sent.bytes(), CyclicTail::of(counter, state).octets())
    }
}
