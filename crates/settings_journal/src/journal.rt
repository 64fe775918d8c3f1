// The journal: its start, and its commits.
ghost use Rattle.std.specs.Prelude.{◌≡◌, ◌↔◌, ◌⊎◌, ◌+◌, ◌≤◌, ℕ, List, [], ◌∷◌, true, false, IsTrue, IsErr, IfOk, IfErr, OnOk, OnErr};
ghost use Rattle.std.specs.Prelude.{IsErrOf, MatchResult};
ghost use Rattle.pn_values.specs.Command.{apply};
ghost use Rattle.pn_values.specs.Settings.{factory_settings};
ghost use Rattle.pn_values.specs.declared.settings.Settings.{Settings};
ghost use Rattle.flash_model.specs.Calls.{Call, Arms};
ghost use Rattle.flash_model.specs.Image.{erased};
ghost use Rattle.settings_journal.specs.Apart.{StandsApart};
ghost use Rattle.settings_journal.specs.Calls.{HasCommitCalls};
ghost use Rattle.settings_journal.specs.Image.{StartsWith, IsAmple, capacity, commits_left, IsForeign, LeftByDevice, IsGeneration};
ghost use Rattle.settings_journal.specs.Commit.{IsKept, HasBootCause, HasCommitCause};
ghost use Rattle.settings_journal.specs.Faults.{boot_number, commit_number};

use crate::Fill;
use crate::access::slots_of;
use crate::start::{Position, read_start};
use crate::store::store;
use flash_model::{Flash, Order};
use pn_values::{Command, Settings};
use std::marker::Model;

/// Why a journal did not start.
#[derive(Clone, Copy, Debug, PartialEq, Eq)]
pub enum BootFault {
    /// A call of the flash failed.
    FlashFault = 1,
    /// The contents of the flash were not left by a journal of this layout.
    Foreign = 2,
}

impl BootFault {
    /// The number of the fault, 1 or 2.
    pub fn number(self) -> u8
        ensures { result ≡ boot_number self }
    {
        self as u8
    }
}

/// Why a commit was refused.
#[derive(Clone, Copy, Debug, PartialEq, Eq)]
pub enum CommitFault {
    /// The last generation is in use and no slot is left. Nothing changed.
    Exhausted = 1,
    /// A call of the flash failed. The stored settings are the old or the new ones. No commit is carried out until the
    /// next start.
    FlashFault = 2,
    /// An earlier commit failed. Nothing changed.
    Failed = 3,
}

impl CommitFault {
    /// The number of the fault, 1 to 3.
    pub fn number(self) -> u8
        ensures { result ≡ commit_number self }
    {
        self as u8
    }
}

/// The settings of a station, and the flash that stores them. Clauses see the flash, the settings, how many commits
/// there is room for, and whether a commit has failed.
#[derive(Drop)]
pub struct Journal<F: Flash<S>, const S: usize> {
    settings: Settings,
    position: Position,
    has_failed: bool,
    // The size of a flash is not known here, so it is the last field: what the prover computes of a size doubles with
    // each field after it.
    flash: F,
}

impl<F: Flash<S>, const S: usize> Model for Journal<F, S> {
    ghost use Rattle.std.specs.Prelude.{◌≡◌, false};
    ghost use Rattle.flash_model.specs.Image.{slots_in};
    ghost use Rattle.settings_journal.specs.Image.{StartsAt, room_of};
    ghost use Rattle.settings_journal.specs.State.{State};

    ghost Value = { State F };

    ghost view = { λ j. record {
      flash = j.flash;
      settings = j.settings;
      room = room_of (slots_in S) j.position.generation j.position.free;
      has_failed = j.has_failed;
    } };

    ghost invariant = { λ j. j.has_failed ≡ false →
        StartsAt (F.image j.flash) j.position.active j.settings j.position.generation j.position.free };
}

impl<F: Flash<S>, const S: usize> Journal<F, S> {
    /// Reads the settings from the flash and writes nothing. An error returns the flash.
    #[tactic(auto, unfolding(crate::specs::Image::capacity))]
    pub fn boot(flash: F) -> Result<Journal<F, S>, (BootFault, F)>
        // On success the journal has the settings and the room that are read from the image.
        ensures starts { IfOk result (λ journal. StartsWith (F.image flash) journal.settings journal.room) }
        // On success no commit has failed.
        ensures fresh { IfOk result (λ journal. journal.has_failed ≡ false) }

        // If the image can be read, the journal has its settings and room, unless the start fails with FlashFault.
        ensures known { (settings : Settings) (room : ℕ) → StartsWith (F.image flash) settings room →
            MatchResult result (λ journal. (journal.settings ≡ settings)
            × (journal.room ≡ room)) (λ refused. refused.0 ≡ BootFault.FlashFault) }
        // On an image that this device left, a start fails only with FlashFault.
        ensures left { LeftByDevice (F.image flash) → IfErr result (λ refused. refused.0 ≡ BootFault.FlashFault) }

        // Foreign is returned only if no journal of this layout left the image.
        ensures foreign { IfErr result (λ refused. refused.0 ≡ BootFault.Foreign → IsForeign (F.image flash)) }
        // If no journal of this layout left the image, the start fails.
        ensures strange { IsForeign (F.image flash) → IsErr result }

        // A flash that was never written is left by this device, and is read as the factory settings with its full
        // capacity.
        ensures blank { F.image flash ≡ record { first = erased S; second = erased S } →
            LeftByDevice (F.image flash) × StartsWith (F.image flash) factory_settings (capacity S) }
        // A flash that was never written has room for at least 65,535 commits.
        ensures ample { IsAmple S }

        // The image is unchanged, on success and on an error.
        ensures same { MatchResult result (λ journal. F.image journal.flash ≡ F.image flash) (λ refused. F.image refused.1
            ≡ F.image flash) }
        // Nothing is written: no call that changes the flash is made.
        ensures calls { MatchResult result (λ journal. F.asked flash [] journal.flash) (λ refused. F.asked flash [] refused.1) }
        // The count of failed calls is unchanged on success and after Foreign. After FlashFault it has risen or is
        // saturated.
        ensures cause { MatchResult result (λ journal. F.failures journal.flash ≡ F.failures flash)
            (λ refused. HasBootCause refused.0 (F.failures flash) (F.failures refused.1)) }
        // On success the flash has power. Power that was lost stays lost.
        ensures lost { MatchResult result (λ journal. F.is_lost journal.flash ≡ false) (λ refused. F.is_lost flash ≡ true →
            F.is_lost refused.1 ≡ true) }
        // A reliable flash stays reliable, and on it a start fails only with Foreign.
        ensures reliable { F.is_reliable flash →
            MatchResult result (λ journal. F.is_reliable journal.flash) (λ refused. F.is_reliable refused.1
            × (refused.0 ≡ BootFault.Foreign)) }
    {
        // The journal is made after the reading, so that its large settings are moved once and not initialized before.
        let mut flash = flash;
        let Ok(found) = read_start(&mut flash) else {
            return Err((BootFault::FlashFault, flash));
        };
        let Some(start) = found else {
            return Err((BootFault::Foreign, flash));
        };
        Ok(Journal {
            settings: start.settings,
            position: start.position,
            has_failed: false,
            flash,
        })
    }

    /// A journal that has not started: it stores nothing and has read nothing yet.
    pub fn unstarted(flash: F) -> Self
        // The journal has the given flash.
        ensures flash { result.flash ≡ flash }
        // No commit is carried out before a start.
        ensures has_failed { result.has_failed ≡ true }
    {
        Journal {
            settings: Settings::factory(),
            position: Position {
                active: None,
                generation: 0,
                free: 0,
            },
            has_failed: true,
            flash,
        }
    }

    /// Fills the flash of a journal that stores nothing.
    pub fn fill<P: Fill<F>>(&mut self, from: &P)
        requires { self.old.has_failed ≡ true }
        // The flash is as the source leaves it.
        ensures flash { P.post from.now self.old.flash self.new.flash }
        // No commit is carried out before a start.
        ensures has_failed { self.new.has_failed ≡ true }
    {
        from.fill(&mut self.flash);
    }

    /// Starts in place: reads the settings from the flash and writes nothing. After an error no commit is carried out.
    #[tactic(auto, unfolding(crate::specs::Image::capacity))]
    pub fn load(&mut self) -> Result<(), BootFault>
        // On success the journal has the settings and the room that are read from the image.
        ensures starts { OnOk result (StartsWith (F.image self.old.flash) self.new.settings self.new.room) }
        // On success no commit has failed.
        ensures fresh { OnOk result (self.new.has_failed ≡ false) }
        // After an error no commit is carried out.
        ensures refused { OnErr result (self.new.has_failed ≡ true) }

        // If the image can be read, the journal has its settings and room, unless the start fails with FlashFault.
        ensures known { (settings : Settings) (room : ℕ) → StartsWith (F.image self.old.flash) settings room →
            MatchResult result (λ _. (self.new.settings ≡ settings) × (self.new.room ≡ room)) (λ fault. fault ≡ BootFault.FlashFault) }
        // On an image that this device left, a start fails only with FlashFault.
        ensures left { LeftByDevice (F.image self.old.flash) → IfErr result (λ fault. fault ≡ BootFault.FlashFault) }

        // Foreign is returned only if no journal of this layout left the image.
        ensures foreign { IfErr result (λ fault. fault ≡ BootFault.Foreign → IsForeign (F.image self.old.flash)) }
        // If no journal of this layout left the image, the start fails.
        ensures strange { IsForeign (F.image self.old.flash) → IsErr result }

        // A flash that was never written is left by this device, and is read as the factory settings with its full
        // capacity.
        ensures blank { F.image self.old.flash ≡ record { first = erased S; second = erased S } →
            LeftByDevice (F.image self.old.flash) × StartsWith (F.image self.old.flash) factory_settings (capacity S) }
        // A flash that was never written has room for at least 65,535 commits.
        ensures ample { IsAmple S }

        // The image is unchanged, on success and on an error.
        ensures same { F.image self.new.flash ≡ F.image self.old.flash }
        // Nothing is written: no call that changes the flash is made.
        ensures calls { F.asked self.old.flash [] self.new.flash }
        // The count of failed calls is unchanged on success and after Foreign. After FlashFault it has risen or is
        // saturated.
        ensures cause { MatchResult result (λ _. F.failures self.new.flash ≡ F.failures self.old.flash)
            (λ fault. HasBootCause fault (F.failures self.old.flash) (F.failures self.new.flash)) }
        // On success the flash has power. Power that was lost stays lost.
        ensures lost { MatchResult result (λ _. F.is_lost self.new.flash ≡ false) (λ _. F.is_lost self.old.flash ≡ true →
            F.is_lost self.new.flash ≡ true) }
        // A reliable flash stays reliable, and on it a start fails only with Foreign.
        ensures reliable { F.is_reliable self.old.flash →
            F.is_reliable self.new.flash × IfErr result (λ fault. fault ≡ BootFault.Foreign) }
    {
        self.has_failed = true;
        let Ok(found) = read_start(&mut self.flash) else {
            return Err(BootFault::FlashFault);
        };
        let Some(start) = found else {
            return Err(BootFault::Foreign);
        };
        self.settings = start.settings;
        self.position = start.position;
        self.has_failed = false;
        Ok(())
    }

    /// The settings that are stored.
    pub fn settings(&self) -> &Settings
        // The result is the settings of the journal.
        ensures value { result.now ≡ self.now.settings }
        // If no commit failed, a start on the flash reads these settings with the same room.
        ensures stored { self.now.has_failed ≡ false → StartsWith (F.image self.now.flash) self.now.settings self.now.room }
    {
        &self.settings
    }

    /// Whether there is no room for another commit.
    pub fn is_exhausted(&self) -> bool
        ensures { IsTrue result ↔ (self.now.room ≡ 0) }
    {
        self.position.generation == u16::MAX && self.position.free == 0
    }

    /// The number of commits left: this many more are accepted as long as no flash call fails. It is 0 after a commit
    /// that failed, until the next start, and before a start.
    pub fn left(&self) -> u32
        // The result is the number of commits left.
        ensures value { result ≡ commits_left self.now.has_failed self.now.room }
        // If no commit failed, the result is 0 if and only if the room is 0.
        ensures exhausted { self.now.has_failed ≡ false → (result ≡ 0) ↔ (self.now.room ≡ 0) }
        // If no commit failed, a start on the flash reads the settings of the journal with this room.
        ensures read { self.now.has_failed ≡ false → StartsWith (F.image self.now.flash) self.now.settings result }
    {
        if self.has_failed {
            return 0;
        }
        // Each remaining generation has a base and the slots of its sector.
        let generations = u32::from(u16::MAX - self.position.generation);
        generations * (slots_of(S) as u32 + 1) + self.position.free as u32
    }

    /// Whether a commit has failed since the start. Then no further commit is carried out.
    pub fn has_failed(&self) -> bool
        ensures { result ≡ self.now.has_failed }
    {
        self.has_failed
    }

    /// The flash that stores the settings.
    pub fn flash(&self) -> &F
        ensures { result.now ≡ self.now.flash }
    {
        &self.flash
    }

    /// Test hook: orders the flash to do something to a later call.
    pub fn arm(&mut self, order: Order)
        // The settings are unchanged.
        ensures settings { self.new.settings ≡ self.old.settings }
        // The room is unchanged.
        ensures room { self.new.room ≡ self.old.room }
        // Whether a commit has failed is unchanged.
        ensures has_failed { self.new.has_failed ≡ self.old.has_failed }
        // The image is unchanged.
        ensures image { F.image self.new.flash ≡ F.image self.old.flash }
        // The count of failed calls is unchanged.
        ensures failures { F.failures self.new.flash ≡ F.failures self.old.flash }
        // Power is as before.
        ensures lost { F.is_lost self.new.flash ≡ F.is_lost self.old.flash }
        // Exactly this order is given.
        ensures calls { F.asked self.old.flash (Arms order ∷ []) self.new.flash }
    {
        F::arm(&mut self.flash, order);
    }

    /// Returns the flash.
    pub fn into_flash(self) -> F
        ensures { result ≡ self.flash }
    {
        self.flash
    }

    /// Stores the settings that the command makes of the current ones. After a flash fault no commit is carried out
    /// until the next start.
    pub fn commit(&mut self, command: &Command) -> Result<(), CommitFault>
        // On success the settings are those that the command makes of the earlier ones.
        ensures settings { OnOk result (self.new.settings ≡ apply command.now self.old.settings) }
        // On success the room is one less.
        ensures room { OnOk result (self.new.room + 1 ≡ self.old.room) }
        // On success one commit fewer is left.
        ensures counts { OnOk result (commits_left self.new.has_failed self.new.room + 1 ≡ commits_left self.old.has_failed self.old.room) }
        // If no commit has failed, a start on the flash reads these settings with this room.
        ensures stored { self.new.has_failed ≡ false → StartsWith (F.image self.new.flash) self.new.settings self.new.room }
        // On success the generation rises by at most one.
        ensures generation { (before : ℕ) → IsGeneration (F.image self.old.flash) before →
            OnOk result ((now : ℕ) × IsGeneration (F.image self.new.flash) now × (now ≤ before + 1)) }
        // On an error the settings and the room of the journal are unchanged.
        ensures refused { OnErr result ((self.new.settings ≡ self.old.settings) × (self.new.room ≡ self.old.room)) }
        // No commit has failed if and only if none had failed before and this one does not return FlashFault.
        ensures has_failed { (self.new.has_failed ≡ false) ↔ ((self.old.has_failed ≡ false) × (IsErrOf result CommitFault.FlashFault → ⊥)) }

        // Failed is returned if and only if an earlier commit failed.
        ensures failed { IsErrOf result CommitFault.Failed ↔ (self.old.has_failed ≡ true) }
        // Exhausted is returned if and only if no earlier commit failed and there is no room.
        ensures exhausted { IsErrOf result CommitFault.Exhausted ↔ ((self.old.has_failed ≡ false) × (self.old.room ≡ 0)) }
        // No commit is left if and only if Failed or Exhausted is returned.
        ensures none_left { (commits_left self.old.has_failed self.old.room ≡ 0) ↔
            (IsErrOf result CommitFault.Failed ⊎ IsErrOf result CommitFault.Exhausted) }
        // After Failed or Exhausted nothing has changed.
        ensures untouched { IsErrOf result CommitFault.Failed ⊎ IsErrOf result CommitFault.Exhausted → self.new ≡ self.old }
        // After FlashFault the count of failed calls has risen or is saturated. After any other result it is unchanged.
        ensures cause { HasCommitCause result (F.failures self.old.flash) (F.failures self.new.flash) }
        // On success the flash has power.
        ensures lost { OnOk result (F.is_lost self.new.flash ≡ false) }
        // Power that was lost stays lost.
        ensures stays_lost { F.is_lost self.old.flash ≡ true → F.is_lost self.new.flash ≡ true }
        // A reliable flash stays reliable, and on it FlashFault is never returned.
        ensures reliable { F.is_reliable self.old.flash → F.is_reliable self.new.flash × (IsErrOf result CommitFault.FlashFault → ⊥) }

        // These are the calls that the commit makes to the flash: its own, in order, and no others.
        ensures calls { (calls : List Call) × F.asked self.old.flash calls self.new.flash
            × HasCommitCalls result (F.image self.old.flash) self.old.settings self.old.room command.now calls (F.image self.new.flash) }

        // Whichever call failed: everything but the next slot is unchanged, or, if no slot is left, the active sector
        // is unchanged.
        ensures apart { self.old.has_failed ≡ false → StandsApart (F.image self.old.flash) self.old.settings (F.image self.new.flash) }

        // An image that this device left stays one, whichever call failed, with power lost or not.
        ensures left { LeftByDevice (F.image self.old.flash) → LeftByDevice (F.image self.new.flash) }
        // If this device left the image and no earlier commit failed, a start on the new image gives the settings from
        // before or those after the command, whichever call failed, with power lost or not.
        ensures kept { self.old.has_failed ≡ false → LeftByDevice (F.image self.old.flash) →
            IsKept (F.image self.new.flash) self.old.settings (apply command.now self.old.settings) }
    {
        if self.has_failed {
            return Err(CommitFault::Failed);
        }
        if self.is_exhausted() {
            return Err(CommitFault::Exhausted);
        }
        let next = command.apply(self.settings.copy());
        match store(&mut self.flash, self.position, command, &next) {
            Ok(position) => {
                self.settings = next;
                self.position = position;
                Ok(())
            }
            Err(_) => {
                self.has_failed = true;
                Err(CommitFault::FlashFault)
            }
        }
    }
}
