// The base of a sector: a generation and the settings, in 437 bytes.
ghost use Rattle.std.specs.Prelude.{◌≡◌, ◌↔◌, ◌+◌, ◌≤◌, ◌++◌, ℕ, List, length, replicate, slice_range, take, IsTrue, IfSome};
ghost use Rattle.pn_values.specs.StationName.{IsNameOrNone};
ghost use Rattle.pn_values.specs.declared.settings.Settings.{Settings};
ghost use Rattle.settings_journal.specs.Head.{magic_of, version_at, base_of, im4_at, name_field, HasName, IsSettings, Spells};

use crate::head::{HEAD, Version, magic, part, version_of};
use arrayvec::ArrayVec;
use pn_values::{IpSuite, Padded, Settings, StationName};

/// The length of a base in bytes.
pub(crate) const BASE: usize = 437;

// The offsets of the fields of a base, after magic, version and generation.
const NAME_LENGTH: usize = 6;

const NAME: usize = 7;

const ADDRESS: usize = 247;

const MASK: usize = 251;

const GATEWAY: usize = 255;

const IM1: usize = 259;

const IM2: usize = 313;

const IM3: usize = 329;

const IM4: usize = 383;

/// The length of the name field in bytes.
const NAME_FIELD: usize = ADDRESS - NAME;

/// The base with this generation and these settings. It stores how many generations are left, so that bits that rise in
/// an interrupted erase can only make a sector older.
pub(crate) fn encode(generation: u16, settings: &Settings) -> ArrayVec<u8, BASE>
    ensures value { result.items ≡ base_of generation settings.now }
    ensures valid { IsSettings settings.now }
    ensures length { length result.items ≡ 437 }
{
    let name = settings.name.as_bytes();
    let mut base = ArrayVec::new();
    // Version 1 is only read, so a station comes to version 2 with its next base.
    put(&mut base, &magic(Version::Two));
    put(&mut base, &(u16::MAX - generation).to_be_bytes());
    put(&mut base, &[name.len() as u8]);
    put_name(&mut base, name);
    put(&mut base, &settings.suite.address());
    put(&mut base, &settings.suite.mask());
    put(&mut base, &settings.suite.gateway());
    put(&mut base, settings.im1.as_bytes());
    put(&mut base, settings.im2.as_bytes());
    put(&mut base, settings.im3.as_bytes());
    put(&mut base, settings.im4.as_bytes());
    base
}

// There is room for the bytes.
fn put(base: &mut ArrayVec<u8, BASE>, bytes: &[u8])
    requires { length base.old.items + length bytes.now ≤ 437 }
    ensures { base.new.items ≡ base.old.items ++ bytes.now }
{
    let _ = base.try_extend_from_slice(bytes);
}

// Appends the name, and zeros up to the end of its field.
fn put_name(base: &mut ArrayVec<u8, BASE>, name: &[u8])
    requires room { length base.old.items + 240 ≤ 437 }
    requires short { length name.now ≤ 240 }
    ensures { base.new.items ≡ base.old.items ++ name_field name.now }
{
    put(base, name);
    put(base, &[0; NAME_FIELD][name.len()..]);
}

/// The settings that the base of a head spells, if it spells any. Their generation is ignored.
pub(crate) fn decode(head: &[u8; HEAD]) -> Option<Settings>
    requires { take 4 head.now ≡ magic_of (version_at head.now) }
    ensures spelled { IfSome result (λ settings. Spells head.now settings) }
    ensures only { (settings : Settings) → Spells head.now settings → result ≡ Some settings }
{
    let name = name_of(head)?;
    let suite = IpSuite::new(part(head, ADDRESS), part(head, MASK), part(head, GATEWAY))?;
    Some(Settings {
        name,
        suite,
        im1: Padded::new(part(head, IM1)),
        im2: Padded::new(part(head, IM2)),
        im3: Padded::new(part(head, IM3)),
        im4: im4_of(head),
    })
}

// The I&M4 in the base; version 1 has none.
fn im4_of(head: &[u8; HEAD]) -> Padded<54>
    ensures { result ≡ im4_at (version_at head.now) head.now }
{
    match version_of(head) {
        // An I&M4 that was never stored is like one that was never set.
        Version::One => Padded::zero(),
        Version::Two => Padded::new(part(head, IM4)),
    }
}

// The name in the base. Only zeros may follow it in its field.
fn name_of(head: &[u8; HEAD]) -> Option<StationName>
    ensures named { IfSome result (λ name. IsNameOrNone name × HasName head.now name) }
    ensures only { (name : List ℕ) → IsNameOrNone name → HasName head.now name → result ≡ Some name }
{
    let length = head[NAME_LENGTH] as usize;
    if length > NAME_FIELD {
        return None;
    }
    let field: [u8; NAME_FIELD] = part(head, NAME);
    if !is_zero(&field[length..]) {
        return None;
    }
    if length == 0 {
        return Some(StationName::none());
    }
    station_names::check(&field[..length]).ok()
}

fn is_zero(bytes: &[u8]) -> bool
    ensures { IsTrue result ↔ (bytes.now ≡ replicate (length bytes.now) 0) }
{
    bytes.iter().all(|byte| *byte == 0)
}
