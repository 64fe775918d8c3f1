// How a commit writes: into the next slot, or, if none is left, as a base into the other sector.
ghost use Rattle.std.specs.Prelude.{◌≡◌, ◌≢◌, ◌⊎◌, List, None, Some, IsOk, MatchOption};
ghost use Rattle.pn_values.specs.declared.settings.Settings.{Settings};
ghost use Rattle.flash_model.specs.Calls.{Call};
ghost use Rattle.flash_model.specs.Image.{slots_in};
ghost use Rattle.flash_model.specs.Torn.{HasCause, StaysLost};
ghost use Rattle.settings_journal.specs.Apart.{IsApart};
ghost use Rattle.settings_journal.specs.Calls.{IsAskedFor, calls_of};
ghost use Rattle.settings_journal.specs.Cut.{AreSafe, AreWrites};
ghost use Rattle.settings_journal.specs.Image.{spare};
ghost use Rattle.settings_journal.specs.Store.{IsBefore, Stored};

use crate::access::{slots_of, write_base, write_slot};
use crate::base::encode;
use crate::slot::encode_command;
use crate::start::Position;
use flash_model::{Flash, FlashFault, Sector};
use pn_values::{Command, Settings};

/// Stores a command, and with it the settings that it makes. There must be room. Returns the new position of the
/// journal.
pub(crate) fn store<F: Flash<S>, const S: usize>(
    flash: &mut F,
    position: Position,
    command: &Command,
    next: &Settings,
) -> Result<Position, FlashFault>
    requires few { position.generation ≡ 65535 → position.free ≢ 0 }
    requires stands { (before : Settings) × IsBefore (F.image flash.old) position command.now before next.now }
    ensures stored { (before : Settings) → IsBefore (F.image flash.old) position command.now before next.now →
        Stored (F.image flash.old) (F.image flash.new) (slots_in S) position before next.now result }
    ensures calls { (before : Settings) → IsBefore (F.image flash.old) position command.now before next.now →
        (calls : List Call) × F.asked flash.old calls flash.new
        × IsAskedFor result (F.image flash.old) (calls_of (slots_in S) position.active position.generation position.free before command.now)
        calls (F.image flash.new) }
    ensures writes { (before : Settings) → IsBefore (F.image flash.old) position command.now before next.now →
        AreWrites (calls_of (slots_in S) position.active position.generation position.free before command.now) }
    ensures cut { (before : Settings) → IsBefore (F.image flash.old) position command.now before next.now →
        AreSafe (F.image flash.old) (calls_of (slots_in S) position.active position.generation position.free before command.now) before
        next.now }
    ensures apart { IsApart (slots_in S) position.active position.free (F.image flash.old) (F.image flash.new) }
    ensures cause { HasCause (F.failures flash.old) (F.failures flash.new) result }
    ensures lost { StaysLost (F.is_lost flash.old) (F.is_lost flash.new) result }
    ensures reliable { F.is_reliable flash.old → IsOk result × F.is_reliable flash.new }
{
    match with_slot(position) {
        Some(sector) => {
            let number = slots_of(S) - position.free;
            let entry = encode_command(command);
            write_slot(flash, sector, number, entry.as_slice())?;
            Ok(Position {
                active: Some(sector),
                generation: position.generation,
                free: position.free - 1,
            })
        }
        None => {
            let sector = spare_of(position.active);
            let generation = position.generation + 1;
            let base = encode(generation, next);
            write_base(flash, sector, base.as_slice())?;
            Ok(Position {
                active: Some(sector),
                generation,
                free: slots_of(S),
            })
        }
    }
}

// The active sector, if a slot of it is left.
fn with_slot(position: Position) -> Option<Sector>
    ensures { MatchOption result ((position.active ≡ None) ⊎ (position.free ≡ 0)) (λ sector. (position.active ≡ Some sector)
        × (position.free ≢ 0)) }
{
    if position.free == 0 {
        return None;
    }
    position.active
}

// The sector that is not active. The next base goes there.
fn spare_of(active: Option<Sector>) -> Sector
    ensures { result ≡ spare active }
{
    match active {
        Some(Sector::First) => Sector::Second,
        Some(Sector::Second) | None => Sector::First,
    }
}
