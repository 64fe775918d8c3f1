//! What a relation exchanges.
ghost use Rattle.std.specs.Prelude.{◌≡◌, ◌≤◌, IfSome, Some, is_some, length, option_map, true};
ghost use Rattle.relations.specs.declared.phase.Phase.TheVariants.{Exchanging};
ghost use Rattle.relations.specs.Exchanged.{becoming, given_to, heard_by, hearing, output_in, provider_in, raised_to, rating, received_by, receiving, shown_as, turning};
ghost use Rattle.relations.specs.declared.steady.Steady.{Steady};
ghost use Rattle.relations.specs.Leaps.{due_within};
ghost use Rattle.relations.specs.Steady.{IsSteady};
ghost use Rattle.relations.specs.RelationState.{flow_of, phase_of};
ghost use Rattle.relations.specs.Phases.{updated};
ghost use Rattle.relations.specs.Diagnosed.{begin_one, beginning, diagnose_one, diagnosing, has_sent_low, heard_low, hearing_low, is_full_in, owns_in, report_one, reporting};

use crate::Relation;
use crate::exchange::DataExchange;
use crate::plugging::follow;
use cyclic_data::{ProviderStatus, Received, ReceivedValue, zeros};
use diagnosis::{Change, Diagnoses};
use pn_alarms::{Message, PduFate};
use pn_values::{Mac, Real};

/// The output of a place, or zeros if it is touched: then the controller's values are for what was plugged there before, or not
/// for what is plugged yet.
fn shown(value: &[u8], is_touched: bool) -> &[u8]
    requires { length value.now ≤ 1440 }
    ensures value { result.now ≡ shown_as is_touched value.now }
    ensures short { length result.now ≤ 1440 }
{
    if is_touched {
        zeros(value.len())
    } else {
        value
    }
}

/// The same of an output that may have no place.
fn shown_output(value: Option<&[u8]>, is_touched: bool) -> Option<&[u8]>
    requires { IfSome value (λ value. length value.now ≤ 1440) }
    ensures value { option_map (λ value. value.now) result ≡ option_map (shown_as is_touched) (option_map (λ value. value.now) value.entry) }
    ensures short { IfSome result (λ value. length value.now ≤ 1440) }
{
    match value {
        Some(value) => Some(shown(value, is_touched)),
        None => None,
    }
}

/// The same of an output with what the controller says of it.
fn shown_value(value: Option<ReceivedValue<'_>>, is_touched: bool) -> Option<ReceivedValue<'_>>
    requires { IfSome value (λ value. length value.octets.now ≤ 1440) }
    ensures status { option_map (λ value. value.status) result ≡ option_map (λ value. value.status) value.entry }
    ensures octets { option_map (λ value. value.octets.now) result ≡ option_map (shown_as is_touched) (option_map (λ value. value.octets.now) value.entry) }
    ensures short { IfSome result (λ value. length value.octets.now ≤ 1440) }
{
    match value {
        Some(value) => Some(ReceivedValue {
            octets: shown(value.octets, is_touched),
            status: value.status,
        }),
        None => None,
    }
}

impl Relation {
    /// The data exchange, if there is a relation. Frames to be sent are built from it.
    pub fn exchange(&self) -> Option<&DataExchange>
        ensures { option_map (λ exchange. exchange.now) result ≡ flow_of self.now }
    {
        match self.phase {
            Some(_) => Some(&self.exchange),
            None => None,
        }
    }

    /// Receives a cyclic frame: its source, its FrameID, and the octets that follow it. If it is not accepted nothing
    /// changes.
    #[inline(always)]
    pub fn receive(&mut self, source: Mac, frame_id: u16, body: &[u8]) -> Received
        ensures received { result ≡ received_by source frame_id body.now self.old }
        ensures state { self.new ≡ updated (receiving source frame_id body.now self.old) self.old }
        // It only puts off what is due.
        ensures due { due_within self.old ≤ due_within self.new }
        ensures steady { (steady : Steady) → IsSteady steady self.old → IsSteady steady self.new }
    {
        match self.phase {
            Some(_) => self.exchange.receive(source, frame_id, body),
            None => Received::Foreign,
        }
    }

    /// Sets the input of a submodule. Returns whether there is a relation in which the submodule has an input of this
    /// length; if not, nothing changes.
    pub fn give(&mut self, slot: u16, subslot: u16, value: &[u8]) -> bool
        ensures done { result ≡ is_some (given_to slot subslot value.now self.old) }
        ensures state { self.new ≡ updated (becoming (given_to slot subslot value.now self.old)) self.old }
        // It changes nothing that is due.
        ensures due { due_within self.new ≡ due_within self.old }
        ensures steady { (steady : Steady) → IsSteady steady self.old → IsSteady steady self.new }
    {
        match self.phase {
            Some(_) => self.exchange.give(slot, subslot, value),
            None => false,
        }
    }

    /// Says that the inputs of a submodule are good or bad from now on, if there is a relation.
    pub fn rate(&mut self, slot: u16, subslot: u16, is_good: bool)
        ensures { self.new ≡ updated (rating slot subslot is_good self.old) self.old }
    {
        if self.phase.is_some() {
            self.exchange.rate(slot, subslot, is_good);
        }
    }

    /// Says that the application runs or is stopped from now on, if there is a relation.
    pub fn set_running(&mut self, is_running: bool)
        ensures { self.new ≡ updated (turning is_running self.old) self.old }
    {
        if self.phase.is_some() {
            self.exchange.set_running(is_running);
        }
    }

    /// The output of a submodule, if there is a relation in which it has a place.
    pub(crate) fn placed_output(&self, slot: u16, subslot: u16) -> Option<&[u8]>
        ensures value { option_map (λ value. value.now) result ≡ output_in slot subslot self.now }
        ensures short { IfSome result (λ value. length value.now ≤ 1440) }
    {
        match self.phase {
            Some(_) => shown_output(
                self.exchange.output(slot, subslot),
                self.plugs.is_touched(slot, subslot),
            ),
            None => None,
        }
    }

    /// What the controller says of the output of a submodule in its last accepted frame: the IOPS and DataStatus. `None`
    /// if there is no relation, if the output has no place in it, or if no frame was accepted yet.
    pub fn provider(&self, slot: u16, subslot: u16) -> Option<ProviderStatus>
        ensures { result ≡ provider_in slot subslot self.now }
    {
        match self.phase {
            Some(_) => self.exchange.cyclic().provider(slot, subslot),
            None => None,
        }
    }

    /// The output of a submodule in the controller's last accepted frame, and what the controller says of it. `None` if there is no
    /// relation, if the output has no place in it, or if no frame was accepted yet.
    pub fn received_value(&self, slot: u16, subslot: u16) -> Option<ReceivedValue<'_>>
        ensures status { option_map (λ value. value.status) result ≡ provider_in slot subslot self.now }
        ensures octets { IfSome result (λ value. output_in slot subslot self.now ≡ Some value.octets.now) }
        ensures short { IfSome result (λ value. length value.octets.now ≤ 1440) }
    {
        match self.phase {
            Some(_) => shown_value(
                self.exchange.cyclic().received_value(slot, subslot),
                self.plugs.is_touched(slot, subslot),
            ),
            None => None,
        }
    }

    /// Raises a process alarm of a submodule, which the caller then sends. Returns whether it was raised; if not,
    /// nothing changes.
    pub fn raise(&mut self, real: &Real, slot: u16, subslot: u16, octets: &[u8]) -> bool
        ensures done { result ≡ is_some (raised_to real.now.modules.items slot subslot octets.now self.old) }
        ensures state { self.new ≡ updated (becoming (raised_to real.now.modules.items slot subslot octets.now self.old)) self.old }
        // An alarm is raised only while data is exchanged.
        ensures phase { result ≡ true → phase_of self.old ≡ Some Exchanging }
    {
        match self.phase {
            Some(_) => self.exchange.raise(real, slot, subslot, octets),
            None => false,
        }
    }

    /// Data exchange begins: the pulls and plugs that wait are reported, and then the diagnoses that exist. Returns whether an alarm of low priority must be sent.
    pub fn begin_diagnosis(&mut self, real: &Real, diagnoses: &Diagnoses) -> bool
        ensures sent { result ≡ begin_one real.now.modules.items diagnoses.now self.old }
        ensures state { self.new ≡ updated (beginning real.now.modules.items diagnoses.now self.old) self.old }
    {
        if self.phase.is_none() {
            return false;
        }
        let is_sent = self.exchange.begin_diagnosis(real, diagnoses);
        follow(is_sent, &self.exchange, &mut self.plugs, &mut self.taken);
        is_sent
    }

    /// Whether no further change of diagnosis can wait for its alarm.
    pub fn is_full(&self) -> bool
        ensures { result ≡ is_full_in self.now }
    {
        self.phase.is_some() && self.exchange.is_full()
    }

    /// A diagnosis changed, and these exist now. Returns whether an alarm of low priority must be sent.
    pub fn diagnose(&mut self, real: &Real, change: &Change, diagnoses: &Diagnoses) -> bool
        ensures sent { result ≡ diagnose_one real.now.modules.items change.now diagnoses.now self.old }
        ensures state { self.new ≡ updated (diagnosing real.now.modules.items change.now diagnoses.now self.old) self.old }
    {
        if self.phase.is_none() {
            return false;
        }
        let is_sent = self.exchange.diagnose(real, change, diagnoses);
        follow(is_sent, &self.exchange, &mut self.plugs, &mut self.taken);
        is_sent
    }

    /// The first change that waits is reported, if no alarm of low priority is active. Returns whether an alarm
    /// must be sent.
    pub fn report_next(&mut self) -> bool
        ensures sent { result ≡ report_one self.old }
        ensures state { self.new ≡ updated (reporting self.old) self.old }
    {
        if self.phase.is_none() {
            return false;
        }
        let is_sent = self.exchange.report_next();
        follow(is_sent, &self.exchange, &mut self.plugs, &mut self.taken);
        is_sent
    }

    /// Whether a submodule belongs to the relation: its Connect expects it, and it does not differ.
    pub fn owns(&self, slot: u16, subslot: u16) -> bool
        ensures { result ≡ owns_in self.now slot subslot }
    {
        self.phase.is_some() && self.exchange.owns(slot, subslot)
    }

    /// Whether an alarm of low priority was sent in the relation.
    pub fn has_sent_low(&self) -> bool
        ensures { result ≡ has_sent_low self.now }
    {
        self.phase.is_some() && self.exchange.has_sent_low()
    }

    /// Receives a PDU of low priority of the partner. Returns what happens to it.
    pub fn hear_low(&mut self, message: &Message) -> PduFate
        ensures heard { result ≡ heard_low message.now self.old }
        ensures state { self.new ≡ updated (hearing_low message.now self.old) self.old }
    {
        match self.phase {
            Some(_) => self.exchange.hear_low(message),
            None => PduFate::Ignored,
        }
    }

    /// Receives a PDU of the partner. Returns what happens to it: data must be answered; an ERR has ended the relation.
    pub fn hear(&mut self, message: &Message) -> PduFate
        ensures heard { result ≡ heard_by message.now self.old }
        ensures state { self.new ≡ updated (hearing message.now self.old) self.old }
    {
        let Some(_) = self.phase else {
            return PduFate::Ignored;
        };
        let heard = self.exchange.hear(message);
        if let PduFate::Aborted(_) = heard {
            self.phase = None;
        }
        heard
    }
}
