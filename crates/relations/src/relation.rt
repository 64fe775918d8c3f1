//! The relation.
ghost use Rattle.std.specs.Prelude.{◌≡◌, ◌≤◌, [], Err, IfErr, IsOk, None, OnOk, if◌then◌else◌, length, option_map};
ghost use Rattle.relations.specs.Phases.{Ended, Named, Unmoved, answered, keeping, updated, taking};
ghost use Rattle.relations.specs.Farewells.{farewell_of};
ghost use Rattle.relations.specs.Phases.{differing_in};
ghost use Rattle.relations.specs.RelationState.{IsInStep, is_alarm_of, is_alive_by, is_named, is_parameterized, parts_of, passed_of, passes_on_in, phase_of, taken_of, uuid_of};

use crate::connect::put_differing;
use crate::exchange::DataExchange;
use crate::passed::PassedRecords;
use crate::{DeviceOptions, Farewell, Partner, Phase};
use arrayvec::ArrayVec;
use connects::ConnectRequest;
use cyclic_data::{CyclicExchange, StationState};
use expected_places::Plugs;
use module_diff::diff;
use pn_alarms::{Abort, PduType};
use pn_values::{Mac, Real};
use records::{CallFault, TakenRecord, TakenRecords, is_relation};
use std::marker::Model;
use uuid::Uuid;

/// The one application relation that a device may have. It is large and stays in place. When the relation ends only
/// `phase` changes; stale content is ignored and overwritten by the next Connect.
#[derive(Drop)]
pub struct Relation {
    pub(crate) phase: Option<Phase>,
    pub(crate) request: ConnectRequest,
    pub(crate) partner: Partner,
    /// The options of the device.
    pub(crate) options: DeviceOptions,
    /// The units from the start of the device to the answer to the Connect.
    pub(crate) began: u64,
    /// Units since the activity timer was started.
    pub(crate) inactive: u32,
    /// Units since ApplicationReady was sent.
    pub(crate) waited: u32,
    pub(crate) taken: TakenRecords,
    /// The parameter records that are passed on.
    pub(crate) passed: PassedRecords,
    /// What pulls and plugs did to its places.
    pub(crate) plugs: Plugs,
    /// The data exchange.
    pub(crate) exchange: DataExchange,
}

// Its model: the state of the relation, if there is one.
impl Model for Relation {
    ghost use Rattle.std.specs.Prelude.{Option};
    ghost use Rattle.relations.specs.RelationState.{RelationState};

    ghost Value = { Option RelationState };

    ghost use Rattle.std.specs.Prelude.{◌≤◌, ◌<◌};
    ghost use Rattle.relations.specs.RelationState.{HasBegunIn, link_in};

    ghost view = { λ relation. link_in relation.phase (λ phase. record {
      phase = phase;
      request = relation.request;
      partner = relation.partner;
      options = relation.options;
      began = relation.began;
      inactive = relation.inactive;
      waited = relation.waited;
      taken = relation.taken;
      passed = relation.passed;
      plugs = relation.plugs;
      flow = relation.exchange;
    }) };

    ghost invariant = { λ relation. (relation.inactive ≤ 209712000) × (relation.waited < 32000)
        × HasBegunIn relation.phase relation.exchange };
}

/// The content of a relation that exists.
#[derive(Clone, Copy)]
pub struct RelationParts<'a> {
    /// What its Connect asked for.
    pub request: &'a ConnectRequest,
    /// The cyclic data that it exchanges.
    pub cyclic: &'a CyclicExchange,
    /// The units from the start of the device to the answer to its Connect.
    pub began: u64,
    /// What its last frame of inputs said of the station.
    pub state_sent: StationState,
    /// The endpoint of its alarms: the LocalAlarmReference of the device.
    pub endpoint: u16,
}

impl Relation {
    /// No relation.
    pub fn new() -> Relation
        ensures { result ≡ None }
    {
        Relation {
            phase: None,
            request: ConnectRequest::new(),
            partner: Partner {
                mac: Mac { octets: [0; 6] },
                address: [0; 4],
            },
            options: DeviceOptions::default(),
            began: 0,
            inactive: 0,
            waited: 0,
            taken: TakenRecords::new(),
            passed: PassedRecords::new(),
            plugs: Plugs::new(),
            exchange: DataExchange::new(),
        }
    }

    /// The phase of the relation, if there is one.
    pub fn phase(&self) -> Option<Phase>
        ensures phase { result ≡ phase_of self.now }
        // If there is a relation, its exchange has begun exactly if the phase is `Exchanging`.
        ensures step { IsInStep self.now }
    {
        self.phase
    }

    /// Whether the relation has accepted PrmEnd, so that its parameter records are complete.
    pub fn parameters_end(&self) -> bool
        ensures { result ≡ is_parameterized (phase_of self.now) }
    {
        matches!(
            self.phase,
            Some(Phase::Preparing | Phase::Awaiting | Phase::Exchanging)
        )
    }

    /// The content of the relation, if there is one.
    pub fn parts(&self) -> Option<RelationParts<'_>>
        ensures { option_map (λ parts. (parts.request.now, parts.cyclic.now, parts.began, parts.state_sent, parts.endpoint)) result ≡ parts_of self.now }
    {
        match self.phase {
            Some(_) => Some(RelationParts {
                request: &self.request,
                cyclic: self.exchange.cyclic(),
                began: self.began,
                state_sent: self.exchange.state_sent(),
                endpoint: self.exchange.endpoint(),
            }),
            None => None,
        }
    }

    /// The ARUUID of the relation, if there is one.
    pub fn uuid(&self) -> Option<&Uuid>
        ensures { option_map (λ uuid. uuid.now) result ≡ uuid_of self.now }
    {
        match self.phase {
            Some(_) => Some(&self.request.ar().uuid),
            None => None,
        }
    }

    /// The parameter records that the relation accepted and keeps, in order. Empty if there is no relation.
    pub fn taken(&self) -> &[TakenRecord]
        ensures { result.now ≡ taken_of self.now }
    {
        match self.phase {
            Some(_) => self.taken.as_slice(),
            None => &[],
        }
    }

    /// The last parameter records that were passed on and not kept, at most 16, the oldest first. Empty if there is no relation.
    pub fn passed(&self) -> &[TakenRecord]
        ensures value { result.now ≡ (passed_of self.now).last }
        ensures few { length result.now ≤ 16 }
    {
        match self.phase {
            Some(_) => self.passed.as_slice(),
            None => &[],
        }
    }

    /// How many parameter records were passed on and not kept in the relation, modulo 2^32. 0 if there is no relation.
    pub fn passed_on(&self) -> u32
        ensures { result ≡ (passed_of self.now).count }
    {
        match self.phase {
            Some(_) => self.passed.count(),
            None => 0,
        }
    }

    /// Puts the octets of the ModuleDiffBlock of the relation with these modules, which are its record 0xE002, into an empty
    /// list. None if no module differs now, or if there is no relation.
    // Its rows need a stack of their own, which the callers of other records do not.
    #[inline(never)]
    pub fn put_differing(&self, real: &Real, octets: &mut ArrayVec<u8, 1166>)
        requires { octets.old.items ≡ [] }
        ensures { octets.new.items ≡ differing_in real.now.modules.items self.now }
    {
        if self.phase.is_some() {
            put_differing(octets, &diff(self.request.expected(), real));
        }
    }

    /// Appends a parameter record that was written. Returns TooManyRecords if there are 64 already. While data is exchanged, a
    /// device with that option passes it on instead, and keeps none.
    pub fn keep(&mut self, parameter: TakenRecord) -> Result<(), CallFault>
        ensures kept { OnOk result (IsOk (keeping parameter self.old)) }
        ensures refused { IfErr result (λ fault. keeping parameter self.old ≡ Err fault) }
        ensures state { self.new ≡ updated (taking (keeping parameter self.old)) self.old }
    {
        let Some(phase) = self.phase else {
            return Err(CallFault::UnknownRelation);
        };
        // The records of the start-up stay as they are: they are those that the relation began to exchange data with.
        if passes_on(&self.options, phase) {
            self.passed.add(parameter);
            return Ok(());
        }
        self.taken.keep(parameter)
    }

    /// Whether this is the ARUUID of the relation.
    pub(crate) fn is_named(&self, uuid: &Uuid) -> bool
        ensures { result ≡ is_named uuid.now self.now }
    {
        is_relation(self.uuid(), uuid)
    }

    /// Whether an alarm frame with this source, between these endpoints, belongs to the relation: it comes from
    /// CMInitiatorMacAdd, goes to the endpoint of the device, and comes from the endpoint that is the LocalAlarmReference
    /// of the controller.
    pub fn is_alarm(&self, source: Mac, destination: u16, endpoint: u16) -> bool
        ensures { result ≡ is_alarm_of source destination endpoint self.now }
    {
        self.phase.is_some()
            && source.is(&self.request.ar().initiator)
            && destination == self.exchange.endpoint()
            && endpoint == self.request.alarm().reference
    }

    /// Records that a call of this station was answered. If it names the relation and the answer is positive, the controller is
    /// alive: the activity timer restarts. With the option `only_own_controller` it does so for calls of its own controller
    /// alone.
    pub fn hear_controller(&mut self, source: &Partner, is_named: bool, came: Result<(), CallFault>)
        ensures { self.new ≡ updated (answered (if is_named then Named source.now else Unmoved) came) self.old }
    {
        // A refused call shows that somebody is there, but not that it is the controller at work.
        if is_named && came.is_ok() {
            self.inactive = inactive_after(&self.options, &self.partner, source, self.inactive);
        }
    }

    /// Ends the relation for this reason, as at a reset. Returns the ERR to send, if there was a relation.
    pub fn end(&mut self, reason: Abort) -> Option<Farewell>
        ensures farewell { result ≡ option_map (farewell_of reason) self.old }
        ensures state { self.new ≡ updated Ended self.old }
    {
        let farewell = match self.phase {
            Some(_) => {
                let header = self.exchange.header(PduType::Error);
                Some(Farewell::of(&self.request, &header, reason))
            }
            None => None,
        };
        self.phase = None;
        farewell
    }
}

/// Whether parameter records are passed on in this phase, and not kept.
fn passes_on(options: &DeviceOptions, phase: Phase) -> bool
    ensures { result ≡ passes_on_in options.now phase }
{
    options.records_passed_on && matches!(phase, Phase::Exchanging)
}

/// The units that the activity timer of a relation with this partner has run, after a call from this station.
fn inactive_after(options: &DeviceOptions, own: &Partner, source: &Partner, inactive: u32) -> u32
    ensures value { result ≡ (if is_alive_by options.now own.now source.now then 0 else inactive) }
    ensures most { inactive ≤ 209712000 → result ≤ 209712000 }
{
    if !options.only_own_controller || source.is(own) {
        0
    } else {
        inactive
    }
}
