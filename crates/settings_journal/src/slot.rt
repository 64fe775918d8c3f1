// A slot of a sector: an entry with a command, and a gate after it.
ghost use Rattle.std.specs.Prelude.{◌≡◌, ◌≢◌, ◌<◌, ◌≤◌, ◌++◌, length, true, Some, MatchOption};
ghost use Rattle.pn_values.specs.Command.{apply};
ghost use Rattle.pn_values.specs.IpSuite.{IsSuite};
ghost use Rattle.pn_values.specs.declared.command.Command.TheVariants.{SetName, SetIp, SetIm};
ghost use Rattle.pn_values.specs.declared.settings.Settings.{Settings};
ghost use Rattle.settings_journal.specs.Slot.{command_in, command_of, entry as entry_with, entry_of, im4_in, left_by, next_behind, sized};
ghost use Rattle.settings_journal.specs.Slot.{suite_in, Follows, IsEntryOf, IsHandled};

use crate::head::{OPEN, Version};
use arrayvec::ArrayVec;
use pn_values::{Command, ImValue, IpSuite, Padded, Settings, StationName};

/// The length of a slot in bytes.
pub(crate) const SLOT: usize = 256;

/// The offset of the gate of a slot.
pub(crate) const SLOT_GATE: usize = 255;

/// The maximum length of an entry: its kind, the length of its payload, and a name.
pub(crate) const ENTRY: usize = 2 + MOST;

// The maximum length of a payload.
const MOST: usize = 240;

// The kinds of entries, as the flash holds them. A kind never changes its number: older builds wrote it.
const PERMANENT_NAME: u8 = 1;

const NO_NAME: u8 = 2;

const PERMANENT_SUITE: u8 = 3;

const NO_SUITE: u8 = 4;

const IM1: u8 = 5;

const IM2: u8 = 6;

const IM3: u8 = 7;

const RESET_APPLICATION: u8 = 8;

const RESET_COMMUNICATION: u8 = 9;

const RESET_ALL: u8 = 10;

const IM4: u8 = 11;

// An erased slot.
const BLANK: [u8; SLOT] = [0xFF; SLOT];

/// The entry of a command: its kind, the length of the payload, and the payload.
pub(crate) fn encode_command(command: &Command) -> ArrayVec<u8, ENTRY>
    ensures value { result.items ≡ entry_of command.now }
    ensures length { length result.items ≤ 242 }
    ensures kept { IsEntryOf result.items command.now }
{
    match command {
        Command::SetName { permanent, name } if *permanent => entry(
            PERMANENT_NAME,
            name.as_bytes(),
        ),
        Command::SetName { .. } => entry(NO_NAME, &[]),
        Command::SetIp { permanent, suite } if *permanent => entry(
            PERMANENT_SUITE,
            octets_of(suite).as_slice(),
        ),
        Command::SetIp { .. } => entry(NO_SUITE, &[]),
        Command::SetIm(value) => im_entry(value),
        Command::ResetApplication => entry(RESET_APPLICATION, &[]),
        Command::ResetCommunication => entry(RESET_COMMUNICATION, &[]),
        Command::ResetAll => entry(RESET_ALL, &[]),
    }
}

// The entry of an I&M text.
fn im_entry(value: &ImValue) -> ArrayVec<u8, ENTRY>
    ensures value { result.items ≡ entry_of (SetIm value.now) }
    ensures length { length result.items ≤ 242 }
    ensures kept { IsEntryOf result.items (SetIm value.now) }
{
    match value {
        ImValue::Im1(text) => entry(IM1, text.as_bytes()),
        ImValue::Im2(text) => entry(IM2, text.as_bytes()),
        ImValue::Im3(text) => entry(IM3, text.as_bytes()),
        ImValue::Im4(text) => entry(IM4, text.as_bytes()),
    }
}

// An entry of this kind and payload.
fn entry(kind: u8, payload: &[u8]) -> ArrayVec<u8, ENTRY>
    requires { length payload.now ≤ 240 }
    ensures { result.items ≡ entry_with kind payload.now }
{
    let mut entry = ArrayVec::new();
    let _ = entry.try_extend_from_slice(&[kind, payload.len() as u8]);
    let _ = entry.try_extend_from_slice(payload);
    entry
}

// Address, mask and gateway, one after the other.
fn octets_of(suite: &IpSuite) -> ArrayVec<u8, 12>
    ensures value { result.items ≡ suite.now.address ++ suite.now.mask ++ suite.now.gateway }
    ensures length { length result.items ≡ 12 }
    ensures address { length suite.now.address ≡ 4 }
    ensures mask { length suite.now.mask ≡ 4 }
    ensures gateway { length suite.now.gateway ≡ 4 }
    ensures valid { IsSuite suite.now }
{
    let mut octets = ArrayVec::new();
    let _ = octets.try_extend_from_slice(&suite.address());
    let _ = octets.try_extend_from_slice(&suite.mask());
    let _ = octets.try_extend_from_slice(&suite.gateway());
    octets
}

/// Applies a slot to the settings: a closed slot changes nothing, and the command in an open slot is applied. Returns
/// `None` if an open slot does not hold a command.
pub(crate) fn follow(version: Version, slot: &[u8; SLOT], settings: &mut Settings) -> Option<()>
    ensures { MatchOption result ((next : Settings) →
        ¬ Follows version slot.now settings.old next) (λ _. Follows version slot.now settings.old settings.new) }
{
    if slot[SLOT_GATE] == OPEN {
        change(settings, decode_command(version, slot)?);
    }
    Some(())
}

// Applies a command to settings in place. Most slots hold a name, for which the texts are not copied.
fn change(settings: &mut Settings, command: Command)
    ensures { settings.new ≡ apply command settings.old }
{
    match command {
        Command::SetName {
            permanent: true,
            name,
        } => settings.name = name,
        other => *settings = other.apply(settings.copy()),
    }
}

/// The next slot, after those up to this one: a slot that holds a byte other than FF is in use.
pub(crate) fn behind(slot: &[u8; SLOT], number: usize, next: usize) -> usize
    requires { number < 255 }
    ensures { result ≡ next_behind slot.now number next }
{
    if *slot == BLANK { next } else { number + 1 }
}

/// How many slots are left from the next one on.
pub(crate) fn left_of(version: Version, slots: usize, next: usize) -> usize
    requires { next ≤ slots }
    ensures { result ≡ left_by version slots next }
{
    match version {
        Version::One => 0,
        Version::Two => slots - next,
    }
}

// The command that an open slot holds.
fn decode_command(version: Version, slot: &[u8; SLOT]) -> Option<Command>
    ensures { IsHandled (command_in version slot.now) result }
{
    let length = usize::from(slot[1]);
    if length > MOST {
        return None;
    }
    command_at(version, slot[0], &slot[2..2 + length])
}

// The command of a kind and its payload.
fn command_at(version: Version, kind: u8, payload: &[u8]) -> Option<Command>
    ensures { IsHandled (command_of version kind payload.now) result }
{
    match kind {
        PERMANENT_NAME => name_at(payload),
        NO_NAME => bare(
            payload,
            Command::SetName {
                permanent: false,
                name: StationName::none(),
            },
        ),
        PERMANENT_SUITE => suite_at(payload),
        NO_SUITE => bare(
            payload,
            Command::SetIp {
                permanent: false,
                suite: IpSuite::zero(),
            },
        ),
        IM1 => Some(Command::SetIm(ImValue::Im1(text_at(payload)?))),
        IM2 => Some(Command::SetIm(ImValue::Im2(text_at(payload)?))),
        IM3 => Some(Command::SetIm(ImValue::Im3(text_at(payload)?))),
        RESET_APPLICATION => bare(payload, Command::ResetApplication),
        RESET_COMMUNICATION => bare(payload, Command::ResetCommunication),
        RESET_ALL => bare(payload, Command::ResetAll),
        IM4 => im4_at(version, payload),
        _ => None,
    }
}

// The command that sets a permanent name, if the payload is one or is empty.
fn name_at(payload: &[u8]) -> Option<Command>
    ensures { IsHandled (Some (SetName true payload.now)) result }
{
    if payload.is_empty() {
        return Some(Command::SetName {
            permanent: true,
            name: StationName::none(),
        });
    }
    match station_names::check(payload) {
        Ok(name) => Some(Command::SetName {
            permanent: true,
            name,
        }),
        Err(_) => None,
    }
}

// The command that sets a permanent IP suite, if the payload is one.
fn suite_at(payload: &[u8]) -> Option<Command>
    ensures { IsHandled (sized 12 payload.now (SetIp true (suite_in payload.now))) result }
{
    let (address, rest) = payload.split_first_chunk::<4>()?;
    let (mask, rest) = rest.split_first_chunk::<4>()?;
    let (gateway, rest) = rest.split_first_chunk::<4>()?;
    if !rest.is_empty() {
        return None;
    }
    let suite = IpSuite::new(*address, *mask, *gateway)?;
    Some(Command::SetIp {
        permanent: true,
        suite,
    })
}

// A command without a payload.
fn bare(payload: &[u8], command: Command) -> Option<Command>
    ensures { result ≡ sized 0 payload.now command }
{
    if payload.is_empty() {
        Some(command)
    } else {
        None
    }
}

// The command that sets I&M4; version 1 has none.
fn im4_at(version: Version, payload: &[u8]) -> Option<Command>
    ensures { IsHandled (im4_in version payload.now) result }
{
    match version {
        Version::One => None,
        Version::Two => Some(Command::SetIm(ImValue::Im4(text_at(payload)?))),
    }
}

// A text of `N` bytes, if the payload is one.
fn text_at<const N: usize>(payload: &[u8]) -> Option<Padded<N>>
    ensures { MatchOption result (length payload.now ≢ N) (λ text. (text ≡ payload.now) × (length payload.now ≡ N)) }
{
    if payload.len() != N {
        return None;
    }
    match payload.split_first_chunk::<N>() {
        Some((text, _end)) => Some(Padded::new(*text)),
        None => None,
    }
}
