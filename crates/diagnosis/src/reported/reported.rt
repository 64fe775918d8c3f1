//! The diagnoses that a device reported.
ghost use Rattle.std.specs.Prelude.{◌≡◌, ◌≤◌, length, not};
ghost use Rattle.std.specs.List.{filter};
ghost use Rattle.diagnosis.specs.Existing.{exists, remaining};
ghost use Rattle.diagnosis.specs.reported.Channel.{channel_report as channel_in};
ghost use Rattle.diagnosis.specs.reported.Reported.{after_channel, after_found, after_report, is_gone, nothing_reported, with_diagnosis, without_channel, without_diagnosis};

use crate::diagnosis::Diagnosis;
use crate::reported::channel::{ChannelReport, Specifier, channel_report};
use crate::reported::pulled::pulled_by;
use crate::reports::Report;
use arrayvec::ArrayVec;
use module_diff::Affected;
use std::marker::Model;

/// The maximum number of diagnoses that a controller lists.
pub const MOST_DIAGNOSES: usize = 256;

/// The diagnoses that exist at a device, as its alarms reported them, at most 256, in the order in which they appeared. A
/// device of this product has at most 32. The ones that found no room are counted.
#[derive(Drop)]
pub struct ReportedDiagnoses {
    entries: ArrayVec<Diagnosis, 256>,
    left_out: u32,
}

impl Model for ReportedDiagnoses {
    ghost use Rattle.diagnosis.specs.reported.Reported.{Reported};

    ghost Value = { Reported };

    ghost view = { λ reported. record { existing = reported.entries.items; left_out = reported.left_out } };
}

impl ReportedDiagnoses {
    /// Nothing was reported.
    #[inline(always)]
    pub fn new() -> ReportedDiagnoses
        ensures { result ≡ nothing_reported }
    {
        ReportedDiagnoses {
            entries: ArrayVec::new(),
            left_out: 0,
        }
    }

    /// Nothing was reported, in place.
    pub fn clear(&mut self)
        ensures { self.new ≡ nothing_reported }
    {
        self.entries.clear();
        self.left_out = 0;
    }

    /// The diagnoses that exist.
    pub fn as_slice(&self) -> &[Diagnosis]
        ensures value { result.now ≡ self.now.existing }
        ensures few { length result.now ≤ 256 }
    {
        self.entries.as_slice()
    }

    /// How many diagnoses appeared while 256 existed, and are not in the list. At 4,294,967,295 it stays.
    pub fn left_out(&self) -> u32
        ensures { result ≡ self.now.left_out }
    {
        self.left_out
    }

    /// The device reports this by an alarm. The list is changed by what an alarm of diagnosis says of one channel, and by the
    /// pull of a submodule or a module: the diagnoses of what was pulled disappear with it.
    pub fn take(&mut self, report: &Report<'_>)
        ensures { self.new ≡ after_report report.now self.old }
    {
        self.take_channel(report);
        if let Some(gone) = pulled_by(report) {
            keep_remaining(&mut self.entries, gone);
        }
    }

    /// The device reports this by an alarm: what it says of one channel.
    fn take_channel(&mut self, report: &Report<'_>)
        ensures { self.new ≡ after_found (channel_in report.now) self.old }
    {
        if let Some(channel) = channel_report(report) {
            self.follow(&channel);
        }
    }

    /// The device reports this of a channel.
    fn follow(&mut self, report: &ChannelReport)
        ensures { self.new ≡ after_channel report.now self.old }
    {
        match report.specifier {
            Specifier::AllDisappear => self.remove_channel(&report.diagnosis),
            Specifier::Appears => self.add(&report.diagnosis),
            Specifier::Disappears | Specifier::OthersRemain => self.remove(&report.diagnosis),
        }
    }

    /// Whether this diagnosis exists.
    fn exists(&self, diagnosis: &Diagnosis) -> bool
        ensures { result ≡ exists diagnosis.now self.now.existing }
    {
        self.entries
            .as_slice()
            .iter()
            .any(|other| diagnosis.is_same(other))
    }

    /// A diagnosis appears. If it exists already nothing changes.
    fn add(&mut self, diagnosis: &Diagnosis)
        ensures { self.new ≡ with_diagnosis diagnosis.now self.old }
    {
        if self.exists(diagnosis) {
            return;
        }
        if self.entries.try_push(*diagnosis).is_err() {
            self.left_out = self.left_out.saturating_add(1);
        }
    }

    /// A diagnosis disappears. If it does not exist nothing changes.
    fn remove(&mut self, diagnosis: &Diagnosis)
        ensures { self.new ≡ without_diagnosis diagnosis.now self.old }
    {
        keep_others(&mut self.entries, false, diagnosis);
    }

    /// All diagnoses of a channel disappear.
    fn remove_channel(&mut self, diagnosis: &Diagnosis)
        ensures { self.new ≡ without_channel diagnosis.now self.old }
    {
        keep_others(&mut self.entries, true, diagnosis);
    }
}

/// Whether a diagnosis is this one, or any of its channel.
fn is_gone(whole_channel: bool, one: &Diagnosis, other: &Diagnosis) -> bool
    ensures { result ≡ is_gone whole_channel one.now other.now }
{
    if whole_channel {
        other.is_at(one.slot, one.subslot) && one.channel == other.channel
    } else {
        one.is_same(other)
    }
}

/// Keeps all diagnoses but this one, or but those of its channel.
fn keep_others(entries: &mut ArrayVec<Diagnosis, 256>, whole_channel: bool, diagnosis: &Diagnosis)
    ensures { entries.new.items ≡ filter (λ other. not (is_gone whole_channel diagnosis.now other)) entries.old.items }
{
    let mut next = ArrayVec::new();
    for other in entries.as_slice() {
        if !is_gone(whole_channel, diagnosis, other) {
            next.push(*other);
        }
    }
    *entries = next;
}

/// Keeps all diagnoses but those of what was pulled.
fn keep_remaining(entries: &mut ArrayVec<Diagnosis, 256>, gone: Affected)
    ensures { entries.new.items ≡ remaining gone entries.old.items }
{
    let mut next = ArrayVec::new();
    for other in entries.as_slice() {
        if !gone.covers(other.slot, other.subslot) {
            next.push(*other);
        }
    }
    *entries = next;
}
