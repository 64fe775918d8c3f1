//! The controller.
ghost use Rattle.std.specs.Prelude.{◌≡◌, ◌≤◌, IfSome, [], ◌∷◌, length, option_map};
ghost use Rattle.cyclic_data.specs.exchange.Process.{value_at};
ghost use Rattle.frame_codec.specs.Outbox.{boxed};
ghost use Rattle.controller_messages.specs.Access.{record_of};
ghost use Rattle.controller_core.specs.stored.Opening.{IsClosed};
ghost use Rattle.plan_places.specs.Places.{state_at};
ghost use Rattle.controller_core.specs.Machine.{before_start, can_request, end_of, fresh, fresh_with, opening_of, provider_of, report_in};

use crate::stored::{KeptAlarm, OutputMark, open};
use crate::{RefusedRecord, State};
use arrayvec::ArrayVec;
use block_codec::AlarmNotification;
use controller_messages::{
    Access, Answer, ControllerOptions, RecordRequest, Request, Setup, send_request,
};
use cyclic_data::{CyclicExchange, ProviderStatus};
use diagnosis::{Diagnosis, Priority, Report, ReportedDiagnoses};
use frame_codec::{Frame, Outbox};
use plan_places::{PlaceState, PlanPlaces};
use plans::{Plan, RTA_RETRIES, RTA_TIMEOUT_FACTOR};
use pn_alarms::ControllerAlarms;
use pn_values::Mac;
use rpc_core::{Status, Uuid};
use std::marker::Model;

/// The controller of a station. In clauses it is its configuration, and the state that changes from event to event.
#[derive(Drop)]
pub struct Controller {
    pub(crate) setup: Setup,
    pub(crate) phase: State,
    pub(crate) device: Mac,
    /// The request that is active until it is answered.
    pub(crate) asked: Option<Request>,
    /// The units since it was sent.
    pub(crate) waited: u32,
    /// The units that the phase may still last, 0 without a limit.
    pub(crate) left: u32,
    /// The units since the controller was made, modulo 65,536.
    pub(crate) units: u16,
    /// Whether the relation is established.
    pub(crate) stands: bool,
    /// Whether the device reported usable modules that deviate from the plan's.
    pub(crate) deviates: bool,
    /// The last status with which a call was refused.
    pub(crate) refusal: Option<Status>,
    /// The last record that was refused.
    pub(crate) refused_record: Option<RefusedRecord>,
    pub(crate) exchange: CyclicExchange,
    /// The alarms of high priority.
    pub(crate) alarms: ControllerAlarms,
    /// The alarms of low priority.
    pub(crate) low_alarms: ControllerAlarms,
    /// Why the IOPS of outputs are not good, for each place.
    pub(crate) outputs: ArrayVec<OutputMark, 128>,
    /// The last alarm of high priority that was accepted.
    pub(crate) alarm: Option<KeptAlarm>,
    /// The last alarm of low priority that was accepted.
    pub(crate) low_alarm: Option<KeptAlarm>,
    /// The requests of the application.
    pub(crate) access: Access,
    /// The diagnoses that the device reported in this relation.
    pub(crate) diagnosis: ReportedDiagnoses,
    /// The places of the plan in this relation.
    pub(crate) places: PlanPlaces,
}

impl Model for Controller {
    ghost use Rattle.std.specs.Prelude.{◌<◌, option_map};
    ghost use Rattle.controller_core.specs.stored.State.{Controlling};
    ghost use Rattle.controller_core.specs.stored.Alarms.{alarm_in, structure_in};

    ghost Value = { Controlling };

    ghost view = { λ controller. record {
      setup = controller.setup;
      live = record {
        phase = controller.phase;
        device = controller.device;
        asked = controller.asked;
        waited = controller.waited;
        left = controller.left;
        units = controller.units;
        stands = controller.stands;
        deviates = controller.deviates;
        refusal = controller.refusal;
        refused_record = controller.refused_record;
        cyclic = controller.exchange;
        alarms = controller.alarms;
        low_alarms = controller.low_alarms;
        outputs = controller.outputs.items;
        alarm = option_map alarm_in controller.alarm;
        user_structure = structure_in controller.alarm;
        low_alarm = option_map alarm_in controller.low_alarm;
        low_user_structure = structure_in controller.low_alarm;
        access = controller.access;
        diagnosis = controller.diagnosis;
        places = controller.places;
      };
    } };

    ghost invariant = { λ controller. controller.waited < 32000 };
}

impl Controller {
    /// The controller of a plan, with the ARUUID of its relation, which is not zero, and the activity of its calls. It has no
    /// patience: no state has a limit. Its opening frame counts as sent.
    pub fn new(plan: Plan, ar: Uuid, activity: Uuid) -> Controller
        ensures { result ≡ fresh plan ar activity }
    {
        Controller::of(Setup {
            plan,
            ar,
            activity,
            options: ControllerOptions::default(),
        })
    }

    /// The same with options.
    pub fn new_with(plan: Plan, ar: Uuid, activity: Uuid, options: ControllerOptions) -> Controller
        ensures { result ≡ fresh_with plan ar activity options }
    {
        Controller::of(Setup {
            plan,
            ar,
            activity,
            options,
        })
    }

    /// The controller of a plan before it starts. It is small to make, so it can be written where it stays: `start` then
    /// completes it in place.
    #[inline(always)]
    pub fn unstarted(plan: Plan, ar: Uuid, activity: Uuid, options: ControllerOptions) -> Controller
        ensures setup { result.setup ≡ record { plan = plan; ar = ar; activity = activity; options = options } }
        // No request was made, no timer runs, no relation is established, and nothing was received.
        ensures live { result.live ≡ before_start result.live.cyclic }
        // No data is exchanged, and no submodule has a place.
        ensures closed { IsClosed result.live.cyclic }
    {
        // In this order the plan is copied once less.
        let alarms = ControllerAlarms::new(RTA_TIMEOUT_FACTOR, RTA_RETRIES);
        let low_alarms = ControllerAlarms::new(RTA_TIMEOUT_FACTOR, RTA_RETRIES);
        Controller {
            exchange: CyclicExchange::new(),
            phase: State::Looking,
            device: Mac { octets: [0; 6] },
            asked: None,
            waited: 0,
            left: 0,
            units: 0,
            stands: false,
            deviates: false,
            refusal: None,
            refused_record: None,
            alarms,
            low_alarms,
            outputs: ArrayVec::new(),
            alarm: None,
            low_alarm: None,
            access: Access::new(),
            diagnosis: ReportedDiagnoses::new(),
            places: PlanPlaces::new(),
            setup: Setup {
                plan,
                ar,
                activity,
                options,
            },
        }
    }

    /// Starts in place, in any state: the controller is then as `new_with` makes it from the same plan and options. Its opening
    /// frame counts as sent.
    pub fn start(&mut self)
        ensures { self.new ≡ fresh_with self.old.setup.plan self.old.setup.ar self.old.setup.activity self.old.setup.options }
    {
        self.phase = State::Looking;
        self.device = Mac { octets: [0; 6] };
        self.asked = Some(Request::Identify);
        self.waited = 0;
        self.left = 0;
        self.units = 0;
        self.stands = false;
        self.deviates = false;
        self.refusal = None;
        self.refused_record = None;
        self.alarms = ControllerAlarms::new(RTA_TIMEOUT_FACTOR, RTA_RETRIES);
        self.low_alarms = ControllerAlarms::new(RTA_TIMEOUT_FACTOR, RTA_RETRIES);
        self.alarm = None;
        self.low_alarm = None;
        self.access.clear();
        self.diagnosis.clear();
        self.places.clear();
        open(&mut self.exchange, &mut self.outputs, &self.setup.plan);
    }

    /// The controller with this configuration. It is a function of its own so that no stack frame holds both a plan and
    /// a controller.
    #[inline(never)]
    fn of(setup: Setup) -> Controller
        ensures { result ≡ fresh_with setup.plan setup.ar setup.activity setup.options }
    {
        // The exchange is large: it is opened before the controller is written, which is then written once, where the
        // caller has room for it.
        let mut exchange = CyclicExchange::new();
        let mut outputs = ArrayVec::new();
        open(&mut exchange, &mut outputs, &setup.plan);
        Controller {
            setup,
            phase: State::Looking,
            device: Mac { octets: [0; 6] },
            asked: Some(Request::Identify),
            waited: 0,
            left: 0,
            units: 0,
            stands: false,
            deviates: false,
            refusal: None,
            refused_record: None,
            exchange,
            alarms: ControllerAlarms::new(RTA_TIMEOUT_FACTOR, RTA_RETRIES),
            low_alarms: ControllerAlarms::new(RTA_TIMEOUT_FACTOR, RTA_RETRIES),
            outputs,
            alarm: None,
            low_alarm: None,
            access: Access::new(),
            diagnosis: ReportedDiagnoses::new(),
            places: PlanPlaces::new(),
        }
    }

    /// Appends the Identify frame with which it begins.
    #[inline(never)]
    #[tactic(auto, unfolding(crate::specs::Machine::opening_of))]
    pub fn send_opening(&self, outbox: &mut Outbox)
        requires { outbox.old.items ≡ [] }
        ensures { boxed outbox.new ≡ opening_of self.now ∷ [] }
    {
        send_request(&self.setup, self.device, Request::Identify, outbox);
    }

    /// The Identify frame with which it begins.
    #[tactic(auto, unfolding(crate::specs::Machine::opening_of))]
    pub fn opening(&self) -> Frame
        ensures { result.items ≡ opening_of self.now }
    {
        let mut outbox = Outbox::new();
        send_request(&self.setup, self.device, Request::Identify, &mut outbox);
        let mut frame = Frame::new();
        frame.copy(&outbox.as_slice()[0]);
        frame
    }

    /// The plan that it follows.
    pub fn plan(&self) -> &Plan
        ensures { result.now ≡ self.now.setup.plan }
    {
        &self.setup.plan
    }

    /// The ARUUID of its relation.
    pub fn ar(&self) -> Uuid
        ensures { result ≡ self.now.setup.ar }
    {
        self.setup.ar
    }

    /// Its options.
    pub fn options(&self) -> ControllerOptions
        ensures { result ≡ self.now.setup.options }
    {
        self.setup.options
    }

    /// The units that its state may still last before it ends with `Cause::NoProgress`, 0 without a limit.
    pub fn left(&self) -> u32
        ensures { result ≡ self.now.live.left }
    {
        self.left
    }

    /// The state of the controller.
    pub fn state(&self) -> State
        ensures { result ≡ self.now.live.phase }
    {
        self.phase
    }

    /// Whether the device answered its Connect with a ModuleDiffBlock whose modules are all usable: substitutes, or the
    /// plan's own with a diagnosis. The relation is established with them.
    pub fn deviates(&self) -> bool
        ensures { result ≡ self.now.live.deviates }
    {
        self.deviates
    }

    /// The status with which the device refused a call last, if it did: the PNIOStatus of a response, or the status of a
    /// reject or a fault.
    pub fn refusal(&self) -> Option<Status>
        ensures { result ≡ self.now.live.refusal }
    {
        self.refusal
    }

    /// Whether the application can read or write a record: data is exchanged, and no other request waits for its answer, also none
    /// after a plug.
    pub fn can_request(&self) -> bool
        ensures { result ≡ can_request self.now.live }
    {
        matches!(self.phase, State::Exchanging) && self.access.is_free()
    }

    /// The request of the application that waits for its answer. It is sent again each second, and dropped if the relation
    /// ends.
    pub fn waiting(&self) -> Option<RecordRequest>
        ensures { result ≡ self.now.live.access.waiting }
    {
        self.access.waiting()
    }

    /// What the last request of the application was answered with. `None` if none was made, if it waits, or if the relation
    /// ended before its answer.
    pub fn answer(&self) -> Option<Answer>
        ensures { result ≡ self.now.live.access.answer }
    {
        self.access.answer()
    }

    /// The record that this answer brought: empty if it is not the answer to a Read, or if the device refused that.
    pub fn record(&self) -> &[u8]
        ensures { result.now ≡ record_of self.now.live.access }
    {
        self.access.record()
    }

    /// The last record that the device refused, if it refused one; of a list of records the first one that it refused. A plan
    /// may say that the start-up goes on after it (`Plan::continues_on_refused_record`); then an application that looks after
    /// each step sees each of these, since a later record has a greater number.
    pub fn refused_record(&self) -> Option<RefusedRecord>
        ensures { result ≡ self.now.live.refused_record }
    {
        self.refused_record
    }

    /// The input of a submodule, if it has a place: its data in the last accepted frame. All zeros if no frame was
    /// accepted yet, if the IOPS is not good, or if the controller has ended.
    pub fn value(&self, slot: u16, subslot: u16) -> Option<&[u8]>
        ensures value { option_map (λ value. value.now) result ≡ value_at self.now.live.cyclic slot subslot }
        ensures short { IfSome result (λ value. length value.now ≤ 1440) }
    {
        self.exchange.value(slot, subslot)
    }

    /// What the device says of the input of a submodule in its last accepted frame: the IOPS and DataStatus, whose bit 4 is
    /// clear if the device is stopped. `None` if no relation is established, if the input has no place, or if no frame was
    /// accepted yet.
    pub fn provider(&self, slot: u16, subslot: u16) -> Option<ProviderStatus>
        ensures { result ≡ provider_of self.now.live slot subslot }
    {
        if self.stands {
            self.exchange.provider(slot, subslot)
        } else {
            None
        }
    }

    /// The last alarm of high priority that was accepted, if there was one.
    pub fn alarm(&self) -> Option<AlarmNotification<'_>>
        ensures { result ≡ self.now.live.alarm }
    {
        match &self.alarm {
            Some(alarm) => Some(alarm.notification()),
            None => None,
        }
    }

    /// The last alarm of low priority that was accepted, if there was one.
    pub fn low_alarm(&self) -> Option<AlarmNotification<'_>>
        ensures { result ≡ self.now.live.low_alarm }
    {
        match &self.low_alarm {
            Some(alarm) => Some(alarm.notification()),
            None => None,
        }
    }

    /// The last alarm of a priority that was accepted, if there was one, with its UserStructureIdentifier.
    pub fn report(&self, priority: Priority) -> Option<Report<'_>>
        ensures { result ≡ report_in self.now.live priority }
    {
        let kept = match priority {
            Priority::High => &self.alarm,
            Priority::Low => &self.low_alarm,
        };
        match kept {
            Some(alarm) => Some(Report {
                priority,
                notification: alarm.notification(),
                user_structure: alarm.user_structure,
            }),
            None => None,
        }
    }

    /// The SendSeqNum of the last alarm of a priority that was accepted, if there was one. It is another one after each
    /// alarm that is accepted, also if its fields are those of the alarm before it.
    pub fn accepted(&self, priority: Priority) -> Option<u16>
        ensures { result ≡ (end_of self.now.live priority).seen }
    {
        match priority {
            Priority::High => self.alarms.accepted(),
            Priority::Low => self.low_alarms.accepted(),
        }
    }

    /// The diagnoses that exist at the device, as its alarms reported them in this relation, in the order in which they
    /// appeared: at most 256. Empty before the relation is established, and after it ended.
    pub fn diagnoses(&self) -> &[Diagnosis]
        ensures value { result.now ≡ self.now.live.diagnosis.existing }
        ensures few { length result.now ≤ 256 }
    {
        self.diagnosis.as_slice()
    }

    /// How many diagnoses the device reported in this relation for which the list of `diagnoses` had no room. If it is not 0,
    /// a read of the device's record 0xF80C shows them all.
    pub fn diagnoses_left_out(&self) -> u32
        ensures { result ≡ self.now.live.diagnosis.left_out }
    {
        self.diagnosis.left_out()
    }

    /// What is known of a place of the plan: of a submodule that the Connect expects. `None` if the plan has no such submodule, before
    /// the relation is established, and after it ended.
    pub fn place(&self, slot: u16, subslot: u16) -> Option<PlaceState>
        ensures { result ≡ state_at slot subslot self.now.live.places }
    {
        self.places.state(slot, subslot)
    }
}
