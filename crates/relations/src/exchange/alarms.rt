//! The alarms of a relation.
ghost use Rattle.std.specs.Prelude.{◌≡◌, ◌+◌, ◌≤◌, ◌++◌, IfSome, is_some, length, unwrap_or};
ghost use Rattle.pn_alarms.specs.Device.{heard_as};
ghost use Rattle.relations.specs.exchange.Frames.{alarm_frame, body_in, body_of, reply_frame};
ghost use Rattle.relations.specs.exchange.Notices.{behind_message, header_of, raised_at};

use crate::exchange::data_exchange::DataExchange;
use module_diff::{module_in, part_ident};
use pn_alarms::{Alarm, Header, Message, Pdu, PduFate, PduType, Taken, alarm_front, pdu_front};
use pn_values::Real;

impl DataExchange {
    /// Raises a process alarm of a submodule, which the caller then sends. Returns whether it was raised. It is raised
    /// only while data is exchanged, with at most 32 octets, if this submodule is plugged and no alarm is active;
    /// otherwise nothing changes.
    pub fn raise(&mut self, real: &Real, slot: u16, subslot: u16, octets: &[u8]) -> bool
        ensures done { result ≡ is_some (raised_at self.old real.now.modules.items slot subslot octets.now) }
        ensures state { self.new ≡ unwrap_or (raised_at self.old real.now.modules.items slot subslot octets.now) self.old }
    {
        let Some(module) = module_in(real, slot) else {
            return false;
        };
        let Some(submodule_ident_number) = part_ident(module, subslot) else {
            return false;
        };
        if !self.cyclic.has_begun() || octets.len() > 32 {
            return false;
        }
        let alarm = Alarm {
            slot_number: slot,
            subslot_number: subslot,
            module_ident_number: module.ident,
            submodule_ident_number,
            alarm_data: octets,
        };
        self.alarms.raise(&alarm).is_ok()
    }

    /// Receives a PDU of the partner. Returns what happens to it: the response to data is an ACK or a NACK; an ERR ends
    /// the relation.
    pub fn hear(&mut self, message: &Message) -> PduFate
        ensures heard { result ≡ heard_as self.old.alarms message.now }
        ensures state { self.new ≡ behind_message self.old message.now }
        // A PDU that is ignored changes nothing.
        ensures ignored { result ≡ PduFate.Ignored → self.new ≡ self.old }
    {
        self.alarms.hear(message)
    }

    /// The header of a PDU of this type that is sent now: with the endpoints of the relation, and the numbers of the
    /// last data that was sent and of the last data that was accepted.
    pub fn header(&self, kind: PduType) -> Header
        ensures { result ≡ header_of self.now kind }
    {
        self.alarms
            .header(kind, self.cyclic.route().reference, self.endpoint)
    }

    /// The octets that follow the FrameID of the active alarm, if there is one: 40 octets, and after them its data, at
    /// most 32.
    #[inline(always)]
    pub fn alarm(&self) -> Option<([u8; 40], &[u8])>
        ensures stands { is_some result ≡ is_some (alarm_frame self.now) }
        ensures exact { IfSome result (λ octets. octets.0 ++ octets.1.now ≡ body_in (alarm_frame self.now)) }
        ensures len { IfSome result (λ octets. length octets.0 ≡ 40) }
        ensures few { IfSome result (λ octets. length octets.1.now ≤ 32) }
    {
        let alarm = self.alarms.standing()?;
        let front = alarm_front(&self.header(PduType::Data), &alarm);
        Some((front, alarm.alarm_data.octets()))
    }

    /// The octets that follow the FrameID of the response to data with this outcome.
    #[inline(always)]
    pub fn reply(&self, taken: Taken) -> [u8; 12]
        ensures exact { result ≡ body_of (reply_frame self.now taken) }
        ensures len { length result ≡ 12 }
    {
        let pdu = Pdu {
            header: self.header(taken.answer()),
            body: &[],
        };
        pdu_front(&pdu)
    }
}
