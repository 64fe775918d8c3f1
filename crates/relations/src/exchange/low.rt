//! The alarms of low priority of a relation: changes of diagnosis (IEC 61158-6-10, 4.8 and 5.2.5).
ghost use Rattle.std.specs.Prelude.{◌≡◌, ◌≤◌, ◌++◌, IfSome, is_some, length};
ghost use Rattle.pn_alarms.specs.Device.{heard_as};
ghost use Rattle.relations.specs.exchange.Diagnosis.{begins_with_one, behind_low, diagnosed, diagnoses_begun, is_diagnosed, is_full, low_header_of, next_reported};
ghost use Rattle.relations.specs.exchange.Frames.{body_in, body_of, low_alarm_frame, low_reply_frame};
ghost use Rattle.diagnosis.specs.Queue.{is_module_sent, is_next, modules_changed, waits_for_plug};
ghost use Rattle.relations.specs.exchange.Diagnosis.{with_low};
ghost use Rattle.diagnosis.specs.alarms.Alarms.{is_full as is_low_full};
ghost use Rattle.diagnosis.specs.alarms.Own.{is_own};

use crate::exchange::data_exchange::DataExchange;
use arrayvec::ArrayVec;
use diagnosis::{Change, Diagnoses, ModuleChange, SentAlarm};
use module_diff::RealChange;
use pn_alarms::{Header, Message, Pdu, PduFate, PduType, Taken, pdu_front};
use pn_values::Real;

impl DataExchange {
    /// Whether no further change of diagnosis can wait.
    pub fn is_full(&self) -> bool
        ensures { result ≡ is_full self.now }
    {
        self.cyclic.has_begun() && self.low.is_full()
    }

    /// Whether a submodule belongs to the relation.
    pub fn owns(&self, slot: u16, subslot: u16) -> bool
        ensures { result ≡ is_own self.now.low.places slot subslot }
    {
        self.low.owns(slot, subslot)
    }

    /// Whether an alarm of low priority was sent.
    pub fn has_sent_low(&self) -> bool
        ensures { result ≡ is_some self.now.low.alarms.sender.sending.last }
    {
        self.low.has_sent()
    }

    /// The tag of frames of low priority.
    pub fn low_tag(&self) -> u16
        ensures { result ≡ self.now.low.tag }
    {
        self.low.tag()
    }

    /// Data exchange begins: the diagnoses that exist are reported. Returns whether an alarm must be sent.
    pub fn begin_diagnosis(&mut self, real: &Real, diagnoses: &Diagnoses) -> bool
        ensures sent { result ≡ begins_with_one real.now.modules.items diagnoses.now self.old }
        ensures state { self.new ≡ diagnoses_begun real.now.modules.items diagnoses.now self.old }
    {
        self.low.begin(real, diagnoses)
    }

    /// A diagnosis changed, and these exist now. Returns whether an alarm must be sent.
    pub fn diagnose(&mut self, real: &Real, change: &Change, diagnoses: &Diagnoses) -> bool
        ensures sent { result ≡ is_diagnosed real.now.modules.items change.now diagnoses.now self.old }
        ensures state { self.new ≡ diagnosed real.now.modules.items change.now diagnoses.now self.old }
    {
        let has_begun = self.cyclic.has_begun();
        self.low.change(real, has_begun, change, diagnoses)
    }

    /// The first change that waits is reported, if no alarm of low priority is active. Returns whether an alarm must be sent.
    pub fn report_next(&mut self) -> bool
        ensures sent { result ≡ is_next self.old.low }
        ensures state { self.new ≡ next_reported self.old }
    {
        self.low.next()
    }

    /// A module or a submodule of the relation was pulled or plugged: it is reported, now or as data is exchanged. Returns
    /// whether an alarm must be sent.
    pub fn report_modules(
        &mut self,
        change: ModuleChange,
        made: &RealChange,
        diagnoses: &Diagnoses,
    ) -> bool
        ensures sent { result ≡ is_module_sent self.old.cyclic.begun change made.now diagnoses.now self.old.low }
        ensures state { self.new ≡ with_low self.old (modules_changed self.old.cyclic.begun change made.now diagnoses.now self.old.low) }
    {
        let has_begun = self.cyclic.has_begun();
        self.low.change_modules(has_begun, change, made, diagnoses)
    }

    /// The alarm of low priority that became active last, if one did.
    pub fn sent_low(&self) -> Option<SentAlarm>
        ensures { result ≡ self.now.low.sent }
    {
        self.low.sent()
    }

    /// Whether 32 changes or more wait for their alarms.
    pub fn is_crowded(&self) -> bool
        ensures { result ≡ is_low_full self.now.low }
    {
        self.low.is_full()
    }

    /// Whether a change that waits is a plug of the expected submodule in this slot and subslot.
    pub fn waits_for_plug(&self, slot: u16, subslot: u16) -> bool
        ensures { result ≡ waits_for_plug slot subslot self.now.low.waiting }
    {
        self.low.waits_for_plug(slot, subslot)
    }

    /// Receives a PDU of low priority. Returns what happens to it.
    pub fn hear_low(&mut self, message: &Message) -> PduFate
        ensures heard { result ≡ heard_as self.old.low.alarms message.now }
        ensures state { self.new ≡ behind_low self.old message.now }
    {
        self.low.hear(message)
    }

    /// The header of a PDU of low priority that is sent now.
    fn low_header(&self, kind: PduType) -> Header
        ensures { result ≡ low_header_of self.now kind }
    {
        let reference = self.cyclic.route().reference;
        self.low.header(kind, reference, self.endpoint)
    }

    /// The octets that follow the FrameID of the active alarm of low priority, if there is one: at most 40 octets, and after
    /// them its data, at most 32.
    #[inline(always)]
    pub fn low_alarm(&self) -> Option<(ArrayVec<u8, 40>, &[u8])>
        ensures stands { is_some result ≡ is_some (low_alarm_frame self.now) }
        ensures exact { IfSome result (λ octets. octets.0.items ++ octets.1.now ≡ body_in (low_alarm_frame self.now)) }
        ensures len { IfSome result (λ octets. length octets.0.items ≤ 40) }
        ensures few { IfSome result (λ octets. length octets.1.now ≤ 32) }
    {
        self.low.alarm(&self.low_header(PduType::Data))
    }

    /// The octets that follow the FrameID of the response to data of low priority with this outcome.
    #[inline(always)]
    pub fn low_reply(&self, taken: Taken) -> [u8; 12]
        ensures exact { result ≡ body_of (low_reply_frame self.now taken) }
        ensures len { length result ≡ 12 }
    {
        let pdu = Pdu {
            header: self.low_header(taken.answer()),
            body: &[],
        };
        pdu_front(&pdu)
    }
}
