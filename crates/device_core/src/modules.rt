// Modules that come and go while the device runs.
ghost use Rattle.std.specs.Prelude.{◌≡◌, ◌<◌, ◌&&◌, ◌++◌, [], is_some, map, nat_lt, option_map};
ghost use Rattle.arrayvec.specs.ArrayVec.{array_vec_len};
ghost use Rattle.frame_codec.specs.Outbox.{boxed};
ghost use Rattle.module_diff.specs.Plugged.{module_ident, module_in, submodule_ident};
ghost use Rattle.module_diff.specs.Diff.{ident_or_zero};
ghost use Rattle.relations.specs.Plugging.{calling_next, is_crowded};
ghost use Rattle.device_frames.specs.Sendable.{AreSendable};
ghost use Rattle.device_frames.specs.Sent.{bytes_of};
ghost use Rattle.device_core.specs.Behind.{CanSend, behind, frames_of, plug_responded};
ghost use Rattle.device_core.specs.Handled.{handled_plug, handled_pull, handled_pull_module, handled_ready_at};
ghost use Rattle.device_core.specs.Machine.{end_of};
ghost use Rattle.device_core.specs.Modules.{call_after, calling_after, changed_rest, next_call_sent, plug_of, pull_of, sent_after, slot_pull_of};
ghost use Rattle.device_core.specs.State.{with_rest};

use crate::{Device, Note};
use device_frames::{send_low_alarm, send_plug_ready};
use expected_places::ExpectedPlace;
use flash_model::Flash;
use frame_codec::Outbox;
use module_diff::{
    Affected, ChangeKind, RealChange, can_plug, module_in, part_ident, plug, pull, pull_module,
};
use pn_values::{Real, RealSubmodule};
use records::CallFault;
use relations::{PlugAnswer, forget_statuses, is_plugged};
use rpc_core::Response;

// An ident number, or 0 where nothing is plugged.
fn ident_or_zero(ident: Option<u32>) -> u32
    ensures { result ≡ ident_or_zero ident }
{
    match ident {
        Some(ident) => ident,
        None => 0,
    }
}

// The ident number of the module in this slot, or 0.
fn ident_of(real: &Real, slot: u16) -> u32
    ensures { result ≡ ident_or_zero (module_ident real.now.modules.items slot) }
{
    match module_in(real, slot) {
        Some(entry) => entry.ident,
        None => 0,
    }
}

// The ident number of the submodule in this slot and subslot, or 0.
fn ident_at(real: &Real, slot: u16, subslot: u16) -> u32
    ensures { result ≡ ident_or_zero (submodule_ident real.now.modules.items slot subslot) }
{
    match module_in(real, slot) {
        Some(entry) => ident_or_zero(part_ident(entry, subslot)),
        None => 0,
    }
}

// The pull of the submodule in this slot and subslot.
fn pull_of(real: &Real, slot: u16, subslot: u16) -> RealChange
    ensures { result ≡ pull_of real.now.modules.items slot subslot }
{
    RealChange {
        kind: ChangeKind::Pull,
        slot,
        subslot,
        module_ident_number: ident_of(real, slot),
        submodule_ident_number: ident_at(real, slot, subslot),
    }
}

// The pull of the module in this slot.
fn pull_module_of(real: &Real, slot: u16) -> RealChange
    ensures { result ≡ slot_pull_of real.now.modules.items slot }
{
    RealChange {
        kind: ChangeKind::PullModule,
        slot,
        subslot: 0,
        module_ident_number: ident_of(real, slot),
        submodule_ident_number: 0,
    }
}

// The plug of this submodule.
fn plug_of(slot: u16, module_ident: u32, submodule: &RealSubmodule) -> RealChange
    ensures { result ≡ plug_of slot module_ident submodule.now }
{
    RealChange {
        kind: ChangeKind::Plug,
        slot,
        subslot: submodule.subslot,
        module_ident_number: module_ident,
        submodule_ident_number: submodule.ident,
    }
}

// Whether the submodule in this slot and subslot can be pulled: one is plugged there. Slot 0, the access point, stays.
fn can_pull(real: &Real, slot: u16, subslot: u16) -> bool
    ensures { result ≡ (nat_lt 0 slot && is_some (submodule_ident real.now.modules.items slot subslot)) }
{
    slot > 0 && is_plugged(real, slot, subslot)
}

// Whether the module in this slot can be pulled: one is plugged there.
fn can_pull_module(real: &Real, slot: u16) -> bool
    ensures { result ≡ (nat_lt 0 slot && is_some (module_in real.now.modules.items slot)) }
{
    slot > 0 && module_in(real, slot).is_some()
}

impl<F: Flash<S>, const S: usize> Device<F, S> {
    /// The modules that are plugged now: the given ones, changed by all pulls and plugs since the start.
    pub fn real(&self) -> &Real
        ensures { result.now ≡ self.now.live.rest.real }
    {
        &self.real
    }

    /// The modules that the device was given, which a restart finds again.
    pub fn given(&self) -> &Real
        ensures { result.now ≡ self.now.station.real }
    {
        &self.given
    }

    /// The places of the relation: the submodules that its Connect expects, in its order, and how far each is since something
    /// was pulled or plugged there. `None` if there is no relation.
    pub fn expected(&self) -> Option<&[ExpectedPlace]>
        ensures { option_map (λ places. places.now) result ≡ option_map (λ link. link.plugs.places) self.now.live.rest.link }
    {
        self.relation.expected()
    }

    // Whether a change that is possible is refused: its alarm could not wait.
    fn is_refused(&self, affected: Affected) -> bool
        ensures { result ≡ is_crowded affected self.now.live.rest.link }
    {
        self.relation.refuses(affected)
    }

    // The submodule in this slot and subslot is pulled.
    #[inline(never)]
    pub(crate) fn pull(&mut self, slot: u16, subslot: u16, outbox: &mut Outbox) -> Note
        requires empty { outbox.old.items ≡ [] }
        ensures state { self.new ≡ behind self.old (handled_pull self.old.live slot subslot) }
        ensures frames { boxed outbox.new ≡ frames_of self.old (handled_pull self.old.live slot subslot) }
        ensures sendable { CanSend self.old (handled_pull self.old.live slot subslot) }
        ensures note { result ≡ (end_of self.old.station self.old.live (handled_pull self.old.live slot subslot)).note }
    {
        if !can_pull(&self.real, slot, subslot) {
            return Note::Refused;
        }
        let change = pull_of(&self.real, slot, subslot);
        if self.is_refused(change.affected()) {
            return Note::Refused;
        }
        pull(&mut self.real, slot, subslot);
        self.change(&change, outbox)
    }

    // The module in this slot is pulled.
    #[inline(never)]
    pub(crate) fn pull_module(&mut self, slot: u16, outbox: &mut Outbox) -> Note
        requires empty { outbox.old.items ≡ [] }
        ensures state { self.new ≡ behind self.old (handled_pull_module self.old.live slot) }
        ensures frames { boxed outbox.new ≡ frames_of self.old (handled_pull_module self.old.live slot) }
        ensures sendable { CanSend self.old (handled_pull_module self.old.live slot) }
        ensures note { result ≡ (end_of self.old.station self.old.live (handled_pull_module self.old.live slot)).note }
    {
        if !can_pull_module(&self.real, slot) {
            return Note::Refused;
        }
        let change = pull_module_of(&self.real, slot);
        if self.is_refused(change.affected()) {
            return Note::Refused;
        }
        pull_module(&mut self.real, slot);
        self.change(&change, outbox)
    }

    // A submodule is plugged.
    #[inline(never)]
    pub(crate) fn plug(
        &mut self,
        slot: u16,
        module_ident: u32,
        submodule: &RealSubmodule,
        outbox: &mut Outbox,
    ) -> Note
        requires empty { outbox.old.items ≡ [] }
        ensures state { self.new ≡ behind self.old (handled_plug self.old.live slot module_ident submodule.now) }
        ensures frames { boxed outbox.new ≡ frames_of self.old (handled_plug self.old.live slot module_ident submodule.now) }
        ensures sendable { CanSend self.old (handled_plug self.old.live slot module_ident submodule.now) }
        ensures note { result ≡ (end_of self.old.station self.old.live (handled_plug self.old.live slot module_ident submodule.now)).note }
    {
        if !can_plug(&self.real, slot, module_ident, submodule) {
            return Note::Refused;
        }
        let change = plug_of(slot, module_ident, submodule);
        if self.is_refused(change.affected()) {
            return Note::Refused;
        }
        plug(&mut self.real, slot, module_ident, submodule);
        self.change(&change, outbox)
    }

    // What was pulled takes its diagnoses, its status and what is asked of it with it, and the relation reports the change: its alarm is sent, and
    // after it the next ApplicationReady of a plug, if one was in the way.
    fn change(&mut self, change: &RealChange, outbox: &mut Outbox) -> Note
        requires empty { outbox.old.items ≡ [] }
        ensures state { self.new ≡ with_rest self.old (changed_rest self.old.live.rest change.now self.old.live.rest.real.modules.items) }
        ensures frames { boxed outbox.new
            ≡ map (bytes_of self.old.station.identity) (sent_after self.old.live change.now self.old.live.rest.real.modules.items) }
        ensures sendable { AreSendable self.old.station.identity (sent_after self.old.live change.now self.old.live.rest.real.modules.items) }
        ensures note { result ≡ Note.Done }
    {
        let affected = change.affected();
        self.diagnoses.forget(affected);
        forget_statuses(&mut self.statuses, affected);
        self.asked.drop_at(affected);
        let outgoing = self
            .relation
            .change_modules(&self.real, change, &self.diagnoses);
        let address = self.store.running().suite.address();
        send_low_alarm(&self.identity, outgoing.is_alarm, &self.relation, outbox);
        send_plug_ready(
            &self.identity,
            address,
            outgoing.is_ready,
            &self.relation,
            outbox,
        );
        Note::Done
    }

    // The application is ready for the plug at a place: if the relation waits for that, ApplicationReady is sent, or waits for
    // those before it.
    #[inline(never)]
    pub(crate) fn get_ready_at(&mut self, slot: u16, subslot: u16, outbox: &mut Outbox) -> Note
        requires empty { outbox.old.items ≡ [] }
        ensures state { self.new ≡ behind self.old (handled_ready_at self.old.live slot subslot) }
        ensures frames { boxed outbox.new ≡ frames_of self.old (handled_ready_at self.old.live slot subslot) }
        ensures sendable { CanSend self.old (handled_ready_at self.old.live slot subslot) }
        ensures note { result ≡ (end_of self.old.station self.old.live (handled_ready_at self.old.live slot subslot)).note }
    {
        if !self.relation.get_ready_at(slot, subslot) {
            return Note::Refused;
        }
        self.call_next(outbox)
    }

    // The next ApplicationReady of a plug is sent, if none is active and one may be.
    pub(crate) fn call_next(&mut self, outbox: &mut Outbox) -> Note
        requires room { array_vec_len outbox.old < 4 }
        ensures state { self.new ≡ with_rest self.old (record self.old.live.rest { link = calling_next self.old.live.rest.link }) }
        ensures frames { boxed outbox.new ≡ boxed outbox.old ++ map (bytes_of self.old.station.identity)
            (next_call_sent self.old.live.values.running.suite.address self.old.live.rest.link) }
        ensures sendable { AreSendable self.old.station.identity (next_call_sent self.old.live.values.running.suite.address self.old.live.rest.link) }
        ensures note { result ≡ Note.Done }
    {
        let is_due = self.relation.call_next();
        let address = self.store.running().suite.address();
        send_plug_ready(&self.identity, address, is_due, &self.relation, outbox);
        Note::Done
    }

    // After a PrmEnd of a plug that is accepted the next ApplicationReady of a plug is called, if one may be. One that is refused is
    // only answered.
    pub(crate) fn call_after(&mut self, came: Result<(), CallFault>, outbox: &mut Outbox) -> Note
        requires room { array_vec_len outbox.old < 4 }
        ensures state { self.new ≡ with_rest self.old (record self.old.live.rest { link = calling_after came self.old.live.rest.link }) }
        ensures frames { boxed outbox.new ≡ boxed outbox.old ++ map (bytes_of self.old.station.identity)
            (call_after came self.old.live.values.running.suite.address self.old.live.rest.link) }
        ensures sendable { AreSendable self.old.station.identity (call_after came self.old.live.values.running.suite.address self.old.live.rest.link) }
        ensures note { result ≡ Note.Done }
    {
        match came {
            Ok(()) => self.call_next(outbox),
            Err(_) => Note::Done,
        }
    }

    // A response of the controller while data is exchanged: the relation may wait for that to the ApplicationReady of a plug.
    // Once it is answered, also by a refusal, the next one is sent.
    pub(crate) fn hear_plug_response(
        &mut self,
        response: &Response<'_>,
        outbox: &mut Outbox,
    ) -> Note
        requires empty { outbox.old.items ≡ [] }
        ensures state { self.new ≡ behind self.old (plug_responded self.old response.now) }
        ensures frames { boxed outbox.new ≡ frames_of self.old (plug_responded self.old response.now) }
        ensures sendable { CanSend self.old (plug_responded self.old response.now) }
        ensures note { result ≡ (end_of self.old.station self.old.live (plug_responded self.old response.now)).note }
    {
        match self.relation.hear_plug_ready(response) {
            PlugAnswer::NotWanted => Note::NoRelation,
            PlugAnswer::Garbled => Note::Fault,
            PlugAnswer::Confirmed => self.call_next(outbox),
            PlugAnswer::Refused => self.call_next(outbox),
        }
    }
}
