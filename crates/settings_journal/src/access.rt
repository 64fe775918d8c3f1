// The journal's access to the flash: it reads a head and slots, and writes a base or a slot.
ghost use Rattle.std.specs.Prelude.{◌≡◌, ◌<◌, ◌≤◌, List, [], false, length, IsOk, OnOk, IfOk, MatchOption};
ghost use Rattle.pn_values.specs.declared.settings.Settings.{Settings};
ghost use Rattle.flash_model.specs.Calls.{Call};
ghost use Rattle.flash_model.specs.Image.{AreBytes, erased, other, sector_of, slots_in};
ghost use Rattle.flash_model.specs.Torn.{HasCause, StaysLost};
ghost use Rattle.settings_journal.specs.Calls.{IsAskedFor, base_calls, slot_calls};
ghost use Rattle.settings_journal.specs.Image.{head_in};
ghost use Rattle.settings_journal.specs.Slot.{slot_at, next_slot, After, HasEntry};
ghost use Rattle.settings_journal.specs.Writes.{IsBase, KeepsOthers, MayLeave, MayLeaveSlot};

use crate::head::{GATE, HEAD, OPEN, Version};
use crate::slot::{SLOT, SLOT_GATE, behind, follow};
use flash_model::{Flash, FlashFault, Sector};
use pn_values::Settings;

/// The head of a sector.
pub(crate) fn read_head<F: Flash<S>, const S: usize>(
    flash: &mut F,
    sector: Sector,
) -> Result<[u8; HEAD], FlashFault>
    ensures head { IfOk result (λ head. head ≡ head_in (F.image flash.old) sector) }
    ensures same { F.image flash.new ≡ F.image flash.old }
    ensures calls { F.asked flash.old [] flash.new }
    ensures cause { HasCause (F.failures flash.old) (F.failures flash.new) result }
    ensures lost { StaysLost (F.is_lost flash.old) (F.is_lost flash.new) result }
    ensures reliable { F.is_reliable flash.old → IsOk result × F.is_reliable flash.new }
{
    let mut head = [0; HEAD];
    flash.read(sector, 0, &mut head)?;
    Ok(head)
}

/// The number of slots of a sector of this size.
pub(crate) fn slots_of(size: usize) -> usize
    requires { 512 ≤ size }
    ensures { result ≡ slots_in size }
{
    (size - HEAD) / SLOT
}

/// Applies the commands in the open slots of a sector to the settings of its base, in order. Returns the slot after the
/// last one that holds a byte other than FF, so that an interrupted write is never written over. Returns `None` if an
/// open slot does not hold a command.
pub(crate) fn read_slots<F: Flash<S>, const S: usize>(
    flash: &mut F,
    sector: Sector,
    version: Version,
    settings: &mut Settings,
) -> Result<Option<usize>, FlashFault>
    requires { F.is_lost flash.old ≡ false }
    ensures found { IfOk result (λ found. MatchOption found ((after : Settings) →
        ¬ After version (sector_of (F.image flash.old) sector) (slots_in S) settings.old after)
        (λ next. After version (sector_of (F.image flash.old) sector) (slots_in S) settings.old settings.new
        × (next ≡ next_slot (sector_of (F.image flash.old) sector) (slots_in S)))) }
    ensures same { F.image flash.new ≡ F.image flash.old }
    ensures calls { F.asked flash.old [] flash.new }
    ensures cause { HasCause (F.failures flash.old) (F.failures flash.new) result }
    ensures lost { StaysLost (F.is_lost flash.old) (F.is_lost flash.new) result }
    ensures reliable { F.is_reliable flash.old → IsOk result × F.is_reliable flash.new }
{
    let mut slot = [0; SLOT];
    let mut next = 0;
    for number in 0..slots_of(S) {
        read_slot(flash, sector, number, &mut slot)?;
        // A slot whose write was interrupted counts as written: a second write over it could make something else of it.
        next = behind(&slot, number, next);
        let Some(()) = follow(version, &slot, settings) else {
            return Ok(None);
        };
    }
    Ok(Some(next))
}

// Reads one slot of a sector.
fn read_slot<F: Flash<S>, const S: usize>(
    flash: &mut F,
    sector: Sector,
    number: usize,
    slot: &mut [u8; SLOT],
) -> Result<(), FlashFault>
    requires { number < slots_in S }
    ensures slot { OnOk result (slot.new ≡ slot_at (sector_of (F.image flash.old) sector) number) }
    ensures same { F.image flash.new ≡ F.image flash.old }
    ensures calls { F.asked flash.old [] flash.new }
    ensures cause { HasCause (F.failures flash.old) (F.failures flash.new) result }
    ensures lost { StaysLost (F.is_lost flash.old) (F.is_lost flash.new) result }
    ensures reliable { F.is_reliable flash.old → IsOk result × F.is_reliable flash.new }
{
    flash.read(sector, HEAD + SLOT * number, slot)
}

/// Writes a base into a sector. The gate is opened last and by a call of its own, so that a base whose write was
/// interrupted never counts.
pub(crate) fn write_base<F: Flash<S>, const S: usize>(
    flash: &mut F,
    sector: Sector,
    base: &[u8],
) -> Result<(), FlashFault>
    requires { length base.now ≡ 437 }
    ensures done { OnOk result (IsBase (sector_of (F.image flash.new) sector) base.now) }
    ensures left { MayLeave (sector_of (F.image flash.old) sector) base.now (sector_of (F.image flash.new) sector) }
    ensures calls { (calls : List Call) × F.asked flash.old calls flash.new
        × IsAskedFor result (F.image flash.old) (base_calls sector base.now) calls (F.image flash.new) }
    ensures bytes { AreBytes base.now }
    ensures other { sector_of (F.image flash.new) (other sector) ≡ sector_of (F.image flash.old) (other sector) }
    ensures cause { HasCause (F.failures flash.old) (F.failures flash.new) result }
    ensures lost { StaysLost (F.is_lost flash.old) (F.is_lost flash.new) result }
    ensures reliable { F.is_reliable flash.old → IsOk result × F.is_reliable flash.new }
{
    // The sector is erased first: its old gate must be gone before any octet of the new base is written.
    flash.erase(sector)?;
    flash.program(sector, 0, base)?;
    flash.program(sector, GATE, &[OPEN])
}

/// Writes an entry into a blank slot. Its gate is opened last and by a call of its own, so that an entry whose write
/// was interrupted never counts.
pub(crate) fn write_slot<F: Flash<S>, const S: usize>(
    flash: &mut F,
    sector: Sector,
    number: usize,
    entry: &[u8],
) -> Result<(), FlashFault>
    requires inside { number < slots_in S }
    requires short { length entry.now ≤ 242 }
    requires blank { slot_at (sector_of (F.image flash.old) sector) number ≡ erased 256 }
    ensures done { OnOk result (HasEntry (slot_at (sector_of (F.image flash.new) sector) number) entry.now) }
    ensures left { MayLeaveSlot entry.now (slot_at (sector_of (F.image flash.new) sector) number) }
    ensures others { KeepsOthers number (sector_of (F.image flash.old) sector) (sector_of (F.image flash.new) sector) }
    ensures calls { (calls : List Call) × F.asked flash.old calls flash.new
        × IsAskedFor result (F.image flash.old) (slot_calls sector number entry.now) calls (F.image flash.new) }
    ensures bytes { AreBytes entry.now }
    ensures other { sector_of (F.image flash.new) (other sector) ≡ sector_of (F.image flash.old) (other sector) }
    ensures cause { HasCause (F.failures flash.old) (F.failures flash.new) result }
    ensures lost { StaysLost (F.is_lost flash.old) (F.is_lost flash.new) result }
    ensures reliable { F.is_reliable flash.old → IsOk result × F.is_reliable flash.new }
{
    let place = HEAD + SLOT * number;
    flash.program(sector, place, entry)?;
    flash.program(sector, place + SLOT_GATE, &[OPEN])
}
