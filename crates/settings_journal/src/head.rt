// The head of a sector: its first 512 bytes, with a base and the gate.
ghost use Rattle.std.specs.Prelude.{◌≡◌, ◌↔◌, ◌+◌, ◌≤◌, slice_range, IsTrue};
ghost use Rattle.settings_journal.specs.Head.{gate_of, magic_of, version_at};
ghost use Rattle.settings_journal.specs.Start.{IsReadAs};

/// How many bytes at the start of a sector the journal reads: the base and the gate after it.
pub(crate) const HEAD: usize = 512;

/// The version of a layout. Version 1 has no I&M4. It is read but never written.
#[derive(Clone, Copy)]
pub(crate) enum Version {
    One,
    Two,
}

/// The offset of the gate.
pub(crate) const GATE: usize = 511;

/// The value of an open gate: the base before it counts.
pub(crate) const OPEN: u8 = 0;

// The offset of the version.
const VERSION: usize = 3;

// The offset of two bytes, the higher first, that store how many generations are left.
const LEFT: usize = 4;

/// The generation of a head that counts: its gate is open, its magic and version are right, and its generation is not
/// 0.
pub(crate) fn generation_of(head: &[u8; HEAD]) -> Option<u16>
    ensures { IsReadAs head.now result }
{
    if !is_open(head) || part(head, 0) != magic(version_of(head)) {
        return None;
    }
    let generation = u16::MAX - u16::from_be_bytes(part(head, LEFT));
    // Erased octets say 0. No base has generation 0, so an erased sector never counts.
    (generation > 0).then_some(generation)
}

/// "PNJ" and the version.
pub(crate) fn magic(version: Version) -> [u8; 4]
    ensures { result ≡ magic_of version }
{
    match version {
        Version::One => [b'P', b'N', b'J', 1],
        Version::Two => [b'P', b'N', b'J', 2],
    }
}

/// The version that a head claims.
pub(crate) fn version_of(head: &[u8; HEAD]) -> Version
    ensures { result ≡ version_at head.now }
{
    if head[VERSION] == 1 {
        Version::One
    } else {
        Version::Two
    }
}

/// Whether the gate is open.
pub(crate) fn is_open(head: &[u8; HEAD]) -> bool
    ensures { IsTrue result ↔ (gate_of head.now ≡ 0) }
{
    head[GATE] == OPEN
}

/// `N` bytes of the head from an offset on.
pub(crate) fn part<const N: usize>(head: &[u8; HEAD], place: usize) -> [u8; N]
    requires { place + N ≤ 512 }
    ensures { result ≡ slice_range head.now place (place + N) }
{
    let mut bytes = [0; N];
    bytes.copy_from_slice(&head[place..place + N]);
    bytes
}
