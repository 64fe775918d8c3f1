//! The data exchange of a relation.
ghost use Rattle.std.specs.Prelude.{◌≡◌, ◌<◌, ◌≤◌, ◌||◌, IfSome, None, [], false, is_some, length, option_map, unwrap_or};
ghost use Rattle.relations.specs.exchange.Opening.{begun_of, opened};
ghost use Rattle.relations.specs.exchange.Process.{given_at, output_at, rated_at, remarked, turned};
ghost use Rattle.relations.specs.exchange.Marks.{awaits as awaits_in};
ghost use Rattle.relations.specs.exchange.Modules.{all_cleared, modules_restated, renewed, restated_flow};

use crate::exchange::marks::{Mark, Starting, awaits, begin, change, iops_in, renew, restate};
use crate::exchange::opening::{Differing, Stated, route_of};
use crate::numbers::endpoint_of;
use arrayvec::ArrayVec;
use connects::ConnectRequest;
use cyclic_data::{Consumer, CyclicExchange, Provider, Route, StationState};
use diagnosis::{Diagnoses, DiagnosisAlarms, Terms};
use expected_places::Plugs;
use module_diff::{Affected, DiffRows, Expected};
use pn_alarms::DeviceAlarms;
use std::marker::Model;

/// What a relation exchanges with its partner. It is large and stays in place: the next relation that opens it
/// overwrites its content, so that the end of a relation need not clear it.
#[derive(Drop)]
pub struct DataExchange {
    pub(crate) cyclic: CyclicExchange,
    pub(crate) alarms: DeviceAlarms,
    pub(crate) low: DiagnosisAlarms,
    /// Why the IOPS of inputs are not good, for each place.
    pub(crate) marks: ArrayVec<Mark, 128>,
    /// Whether a first input may be awaited.
    pub(crate) may_await: bool,
    /// Whether the application runs (`true`) or is stopped.
    pub(crate) is_running: bool,
    /// What the last frame of inputs said of the station.
    pub(crate) state_sent: StationState,
    /// The endpoint of the alarms of the device: the LocalAlarmReference that it returns in AlarmCRBlockRes.
    pub(crate) endpoint: u16,
}

// Its model: one value for each place, and the states of the sender and of the receiver. No first input is awaited unless one may be.
impl Model for DataExchange {
    ghost use Rattle.relations.specs.exchange.Flow.{Flow};

    ghost Value = { Flow };

    ghost use Rattle.relations.specs.exchange.Marks.{MayAwait};

    ghost view = { λ exchange. record { cyclic = exchange.cyclic; alarms = exchange.alarms; low = exchange.low; marks = exchange.marks.items; is_running = exchange.is_running; state_sent = exchange.state_sent; endpoint = exchange.endpoint } };

    ghost invariant = { λ exchange. MayAwait exchange.may_await exchange.marks.items };
}

impl DataExchange {
    /// An exchange that is not open: no data is exchanged, no submodule has an input or an output, and no alarm is
    /// active.
    pub fn new() -> DataExchange
        ensures begun { result.cyclic.begun ≡ false }
        ensures inputs { result.cyclic.shown.cells ≡ [] }
        ensures outputs { result.cyclic.taken.cells ≡ [] }
        ensures alarms { result.alarms.sender.standing ≡ None }
    {
        DataExchange {
            cyclic: CyclicExchange::new(),
            alarms: DeviceAlarms::new(1, 1),
            low: DiagnosisAlarms::new(),
            marks: ArrayVec::new(),
            may_await: false,
            is_running: true,
            state_sent: StationState::in_order(),
            endpoint: 1,
        }
    }

    /// Opens the exchange when a Connect is answered; `rows` lists the modules and submodules that differ. No data was
    /// given and none accepted, and the interval of the inputs is counted from now. Nothing of an earlier relation
    /// remains.
    pub fn open(&mut self, request: &ConnectRequest, rows: &DiffRows, starting: Starting<'_>)
        requires { starting.number < 14336 }
        ensures { self.new ≡ opened request.now rows.now
            (record { begin_bad = starting.entry.begin_bad; is_running = starting.entry.is_running; statuses = starting.entry.statuses.now; units = starting.entry.units; diagnoses = starting.entry.diagnoses.now; number = starting.entry.number }) }
    {
        let (input, output, alarm) = (request.input(), request.output(), request.alarm());
        begin(&mut self.marks, input.layout.places(), rows, starting);
        self.may_await = starting.begin_bad;
        self.cyclic.open(
            route_of(starting.number, request),
            Provider::start(input.send_clock_factor, input.reduction_ratio),
            Consumer::new(output.data_hold_factor, output.interval()),
            &input.layout,
            &output.layout,
            &Differing {
                rows,
                marks: self.marks.as_slice(),
            },
        );
        self.alarms = DeviceAlarms::new(alarm.timeout_factor, alarm.retries);
        let terms = Terms {
            timeout_factor: alarm.timeout_factor,
            retries: alarm.retries,
            tag: alarm.tag_low,
        };
        self.low
            .open(terms, request.expected(), rows, starting.diagnoses);
        self.is_running = starting.is_running;
        self.state_sent = StationState::in_order();
        self.endpoint = endpoint_of(starting.number);
    }

    /// Begins the exchange when ApplicationReady is answered: data is exchanged, and the data hold time runs from now
    /// on.
    pub fn begin(&mut self)
        ensures { self.new ≡ begun_of self.old }
    {
        self.cyclic.begin();
    }

    /// The partner, and the numbers of its frames.
    pub fn route(&self) -> &Route
        ensures { result.now ≡ self.now.cyclic.route }
    {
        self.cyclic.route()
    }

    /// The end of cyclic data, from which the frames of inputs are built.
    #[inline(always)]
    pub fn cyclic(&self) -> &CyclicExchange
        ensures { result.now ≡ self.now.cyclic }
    {
        &self.cyclic
    }

    /// The endpoint of the alarms of the device.
    pub fn endpoint(&self) -> u16
        ensures { result ≡ self.now.endpoint }
    {
        self.endpoint
    }

    /// Sets the input of a submodule, which frames carry from now on. Returns whether the submodule has an input of
    /// this length; if not, nothing changes. A submodule without data has an input of no octets. If the first input was
    /// awaited, the IOPS is good from now on, unless something else is against it.
    pub fn give(&mut self, slot: u16, subslot: u16, value: &[u8]) -> bool
        ensures done { result ≡ is_some (given_at self.old slot subslot value.now) }
        ensures state { self.new ≡ unwrap_or (given_at self.old slot subslot value.now) self.old }
    {
        if !self.cyclic.give(slot, subslot, value) {
            return false;
        }
        if self.awaits(slot, subslot) {
            self.remark(slot, subslot, None);
        }
        true
    }

    /// Whether the first input of a submodule is awaited. Nearly always none is.
    #[inline(always)]
    fn awaits(&self, slot: u16, subslot: u16) -> bool
        ensures { result ≡ awaits_in slot subslot self.now.marks }
    {
        if !self.may_await {
            return false;
        }
        awaits(self.marks.as_slice(), slot, subslot)
    }

    /// Says that the inputs of a submodule are good or bad from now on. The IOPS follows.
    pub fn rate(&mut self, slot: u16, subslot: u16, is_good: bool)
        ensures { self.new ≡ rated_at self.old slot subslot is_good }
    {
        self.remark(slot, subslot, Some(is_good));
    }

    /// Says that the application runs or is stopped from now on. The inputs and their IOPS are not changed.
    pub fn set_running(&mut self, is_running: bool)
        ensures { self.new ≡ turned self.old is_running }
    {
        self.is_running = is_running;
    }

    /// Changes the marks of the inputs of a submodule: an input was given, or this status. The IOPS follows.
    fn remark(&mut self, slot: u16, subslot: u16, status: Option<bool>)
        ensures { self.new ≡ remarked self.old slot subslot status }
    {
        change(&mut self.marks, slot, subslot, status);
        let iops = iops_in(self.marks.as_slice(), slot, subslot);
        self.cyclic.state(slot, subslot, iops);
    }

    /// The modules changed: `rows` lists the submodules that differ from those that are expected, and these diagnoses exist.
    pub fn restate_modules(&mut self, expected: &Expected, rows: &DiffRows, diagnoses: &Diagnoses)
        ensures { self.new ≡ modules_restated expected.now rows.now diagnoses.now self.old }
    {
        self.low.restate(expected, rows, diagnoses);
    }

    /// The inputs of affected submodules are zeros from now on, and none was given: with the option of the device their IOPS is
    /// bad until one is.
    pub fn renew(&mut self, affected: Affected, begin_bad: bool)
        ensures { self.new ≡ renewed affected begin_bad self.old }
    {
        self.may_await = either(self.may_await, begin_bad);
        renew(self.marks.as_mut_slice(), affected, begin_bad);
        clear_inputs(&mut self.cyclic, self.marks.as_slice(), affected);
    }

    /// What differs or is touched changed: IOPS and IOCS follow.
    pub fn restate(&mut self, plugs: &Plugs)
        ensures { self.new ≡ restated_flow plugs.now self.old }
    {
        restate(self.marks.as_mut_slice(), plugs);
        self.cyclic.restate(&Stated {
            plugs,
            marks: self.marks.as_slice(),
        });
    }

    /// The output of a submodule, if it has one: its data in the last accepted frame. All zeros if no frame was
    /// accepted yet, or if the IOPS is not good.
    pub fn output(&self, slot: u16, subslot: u16) -> Option<&[u8]>
        ensures value { option_map (λ value. value.now) result ≡ output_at self.now slot subslot }
        ensures short { IfSome result (λ value. length value.now ≤ 1440) }
    {
        self.cyclic.value(slot, subslot)
    }
}

/// Whether one of these is true.
fn either(one: bool, other: bool) -> bool
    ensures { result ≡ (one || other) }
{
    one || other
}

/// Sets the inputs of affected places to zeros.
fn clear_inputs(cyclic: &mut CyclicExchange, marks: &[Mark], affected: Affected)
    ensures { cyclic.new ≡ all_cleared affected marks.now cyclic.old }
{
    for mark in marks {
        if affected.covers(mark.place.slot, mark.place.subslot) {
            cyclic.clear(mark.place.slot, mark.place.subslot);
        }
    }
}
