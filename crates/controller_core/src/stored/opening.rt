//! The exchange of a relation before it starts.
ghost use Rattle.std.specs.Prelude.{◌≡◌, ◌≤◌};
ghost use Rattle.controller_core.specs.stored.Opening.{first_cyclic, first_outputs, interval_of, route_of};

use crate::stored::outputs::{OutputMark, begin};
use arrayvec::ArrayVec;
use block_codec::IocrType;
use cyclic_data::{Consumer, CyclicExchange, PlaceKind, Provider, Route, Statuses};
use plans::{INPUT_FRAME_ID, Plan, TAG_HIGH, Times};
use pn_values::Mac;

/// The status of good data (IEC 61158-6-10, 4.7.2.1.1).
const GOOD: u8 = 0x80;

/// The alarm endpoint of the device before it has chosen one.
const REFERENCE: u16 = 1;

/// FrameID of outputs before the device has chosen one.
const NO_ID: u16 = 0xFFFF;

/// The statuses of a controller before any output is set: IOPS is bad, and IOCS is good.
#[derive(Clone, Copy)]
struct NothingGiven;

impl Statuses for NothingGiven {
    ghost use Rattle.controller_core.specs.stored.Opening.{first_status};

    ghost status_of = { λ given. first_status };

    fn status(&self, kind: PlaceKind, _slot: u16, _subslot: u16) -> u8 {
        match kind {
            // An output that was never set is not a value that anybody chose: it is marked bad until the application
            // sets it.
            PlaceKind::Data => 0,
            PlaceKind::Iocs => GOOD,
        }
    }
}

/// The partner, and the numbers of the frames.
pub fn route_of(device: Mac, frame_id: u16, reference: u16) -> Route
    ensures { result ≡ route_of device frame_id reference }
{
    Route {
        partner: device,
        sent_id: frame_id,
        sent_tag: TAG_HIGH,
        taken_id: INPUT_FRAME_ID,
        alarm_tag: TAG_HIGH,
        reference,
    }
}

/// The interval, in units of 31.25 microseconds.
fn interval_of(times: Times) -> u32
    requires clock { times.send_clock_factor ≤ 128 }
    requires ratio { times.reduction_ratio ≤ 512 }
    ensures value { result ≡ interval_of times }
    ensures most { result ≤ 65536 }
{
    u32::from(times.send_clock_factor) * u32::from(times.reduction_ratio)
}

/// Opens the exchange of a plan: no output was set, and the device is not known yet. It is a function of its own so
/// that both layouts are only in its stack frame.
#[inline(never)]
pub fn open(exchange: &mut CyclicExchange, outputs: &mut ArrayVec<OutputMark, 128>, plan: &Plan)
    ensures exchange { exchange.new ≡ first_cyclic plan.now }
    ensures outputs { outputs.new.items ≡ first_outputs plan.now }
{
    let times = plan.times();
    let output = plan.layout(IocrType::Output);
    let input = plan.layout(IocrType::Input);
    exchange.open(
        route_of(Mac { octets: [0; 6] }, NO_ID, REFERENCE),
        Provider::start(times.send_clock_factor, times.reduction_ratio),
        Consumer::new(times.data_hold_factor, interval_of(times)),
        &output,
        &input,
        &NothingGiven,
    );
    begin(outputs, output.places());
}
