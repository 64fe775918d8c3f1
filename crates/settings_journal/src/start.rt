// The start from both sectors.
ghost use Rattle.std.specs.Prelude.{◌≡◌, ◌≢◌, ◌⊎◌, ◌↔◌, ◌-◌, ℕ, List, [], Some, None, false, IsTrue, IsOk, IfOk, IfSome, MatchOption};
ghost use Rattle.pn_values.specs.Settings.{factory_settings};
ghost use Rattle.pn_values.specs.declared.settings.Settings.{Settings};
ghost use Rattle.flash_model.specs.Image.{sector_of};
ghost use Rattle.flash_model.specs.Torn.{HasCause, StaysLost};
ghost use Rattle.settings_journal.specs.Head.{Counts, gate_of};
ghost use Rattle.settings_journal.specs.Image.{head_in, left_in, Reads, StartsAt, IsForeign};
ghost use Rattle.settings_journal.specs.Start.{IsReadAs, IsNewestOf, HasNoNewest};

use crate::access::{read_head, read_slots, slots_of};
use crate::base::decode;
use crate::head::{HEAD, generation_of, is_open, version_of};
use crate::slot::left_of;
use flash_model::{Flash, FlashFault, Sector};
use pn_values::Settings;

/// The position of a journal in its sectors.
#[derive(Clone, Copy)]
pub(crate) struct Position {
    /// The sector whose base and slots count, if there is one.
    pub(crate) active: Option<Sector>,
    pub(crate) generation: u16,
    /// How many slots of the active sector are left.
    pub(crate) free: usize,
}

/// The result of a start.
#[derive(Drop)]
pub(crate) struct Start {
    pub(crate) position: Position,
    pub(crate) settings: Settings,
}

/// What a start finds in both sectors. `None` if no journal of this layout left them.
pub(crate) fn read_start<F: Flash<S>, const S: usize>(
    flash: &mut F,
) -> Result<Option<Start>, FlashFault>
    ensures found { IfOk result (λ found. MatchOption found (IsForeign (F.image flash.old))
        (λ start. StartsAt (F.image flash.old) start.position.active start.settings start.position.generation start.position.free)) }
    ensures same { F.image flash.new ≡ F.image flash.old }
    ensures calls { F.asked flash.old [] flash.new }
    ensures cause { HasCause (F.failures flash.old) (F.failures flash.new) result }
    ensures lost { StaysLost (F.is_lost flash.old) (F.is_lost flash.new) result }
    ensures reliable { F.is_reliable flash.old → IsOk result × F.is_reliable flash.new }
{
    let first = read_head(flash, Sector::First)?;
    let second = read_head(flash, Sector::Second)?;
    match newest(generation_of(&first), generation_of(&second)) {
        Some((Sector::First, generation)) => read_sector(flash, Sector::First, generation, &first),
        Some((Sector::Second, generation)) => {
            read_sector(flash, Sector::Second, generation, &second)
        }
        None => Ok(start_closed(&first, &second)),
    }
}

// A start from the base and the slots of an active sector.
fn read_sector<F: Flash<S>, const S: usize>(
    flash: &mut F,
    sector: Sector,
    generation: u16,
    head: &[u8; HEAD],
) -> Result<Option<Start>, FlashFault>
    requires lost { F.is_lost flash.old ≡ false }
    requires counts { Counts head.now }
    requires head { head.now ≡ head_in (F.image flash.old) sector }
    ensures read { IfOk result (λ found. MatchOption found ((settings : Settings) → ¬ Reads (sector_of (F.image flash.old) sector) settings)
        (λ start. Reads (sector_of (F.image flash.old) sector) start.settings
        × (start.position ≡ record {
          active = Some sector;
          generation = generation;
          free = left_in (sector_of (F.image flash.old) sector);
        }))) }
    ensures same { F.image flash.new ≡ F.image flash.old }
    ensures calls { F.asked flash.old [] flash.new }
    ensures cause { HasCause (F.failures flash.old) (F.failures flash.new) result }
    ensures lost { StaysLost (F.is_lost flash.old) (F.is_lost flash.new) result }
    ensures reliable { F.is_reliable flash.old → IsOk result × F.is_reliable flash.new }
{
    let Some(mut settings) = decode(head) else {
        return Ok(None);
    };
    let version = version_of(head);
    let Some(next) = read_slots(flash, sector, version, &mut settings)? else {
        return Ok(None);
    };
    Ok(Some(Start {
        position: Position {
            active: Some(sector),
            generation,
            free: left_of(version, slots_of(S), next),
        },
        settings,
    }))
}

// A start if no sector counts: the factory settings, unless a gate is open.
fn start_closed(first: &[u8; HEAD], second: &[u8; HEAD]) -> Option<Start>
    ensures closed { MatchOption result ((gate_of first.now ≡ 0) ⊎ (gate_of second.now ≡ 0)) (λ _. (gate_of first.now ≢ 0)
        × (gate_of second.now ≢ 0)) }
    ensures factory { IfSome result (λ start. start
        ≡ record { position = record { active = None; generation = 0; free = 0 }; settings = factory_settings }) }
{
    if is_open(first) || is_open(second) {
        return None;
    }
    Some(Start {
        position: Position {
            active: None,
            generation: 0,
            free: 0,
        },
        settings: Settings::factory(),
    })
}

// Of two sectors that count, the one with the greater generation. `None` if they have the same, or none counts.
fn newest(first: Option<u16>, second: Option<u16>) -> Option<(Sector, u16)>
    ensures { (a b : List ℕ) → IsReadAs a first → IsReadAs b second →
        MatchOption result (HasNoNewest a b) (λ newest. IsNewestOf a b newest.0 newest.1) }
{
    match (first, second) {
        (Some(first), Some(second)) if first == second => None,
        (Some(first), Some(second)) if first < second => Some((Sector::Second, second)),
        (Some(first), _) => Some((Sector::First, first)),
        (None, Some(second)) => Some((Sector::Second, second)),
        (None, None) => None,
    }
}
