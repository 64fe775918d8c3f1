//! The list of a MultipleWrite: several records in one Write (index 0xE040; IEC 61158-6-10, 5.2.3).
ghost use Rattle.std.specs.Prelude.{◌≡◌, ◌≤◌, ◌∷◌, [], Some, IfNone, IfSome, length, option_map};
ghost use Rattle.records.specs.writes.Several.{entry_behind, entry_of, is_list, is_several, list_of, most_entries, padded};

use block_codec::{Block, IodWriteReq, read_block};
use std::marker::Model;

/// The index of a Write that carries several records.
const SEVERAL: u16 = 0xE040;

/// The maximum number of records of a list.
const MOST_ENTRIES: usize = 16;

/// A record of a list.
#[derive(Drop)]
pub struct Entry<'a> {
    /// The header of its Write.
    pub request: IodWriteReq,
    /// Its octets: as many as the header counts.
    pub octets: &'a [u8],
}

/// The records of a list that are left.
#[derive(Drop)]
pub struct Entries<'a> {
    rest: &'a [u8],
    left: usize,
}

impl<'a> Model for Entries<'a> {
    ghost use Rattle.std.specs.Prelude.{List};
    ghost use Rattle.records.specs.writes.Entry.{Entry};
    ghost use Rattle.records.specs.writes.Several.{entries_in};

    ghost Value = { List Entry };

    ghost view = { λ entries. entries_in entries.left entries.rest.now };
}

/// Whether a request is that of a list.
pub(crate) fn is_several(request: &IodWriteReq) -> bool
    ensures { result ≡ is_several request.now }
{
    let header = &request.header;
    header.index == SEVERAL
        && header.api == u32::MAX
        && header.slot_number == u16::MAX
        && header.subslot_number == u16::MAX
}

/// The octets of a record with its padding.
fn padded(size: usize) -> usize
    requires { size ≤ 4294967295 }
    ensures { result ≡ padded size }
{
    size.div_ceil(4) * 4
}

/// The entry at the start of these octets, and the octets after it, if all of it is there.
#[tactic(auto, unfolding(crate::specs::writes::Several::entry_of))]
fn entry_at(octets: &[u8]) -> Option<(Entry<'_>, &[u8])>
    ensures { option_map (λ x. ((x.0.request, x.0.octets.now), x.1.now)) result ≡ entry_of octets.now }
{
    match read_block(octets) {
        Ok((Block::IodWriteReq(request), behind)) => entry_behind(request, behind),
        _ => None,
    }
}

/// The entry with this header, and the octets after it, if all octets of its record are there.
fn entry_behind(request: IodWriteReq, behind: &[u8]) -> Option<(Entry<'_>, &[u8])>
    ensures { option_map (λ x. ((x.0.request, x.0.octets.now), x.1.now)) result ≡ entry_behind (Some request) behind.now }
{
    let size = request.header.record_data_length as usize;
    if behind.len() < size {
        return None;
    }
    let entry = Entry {
        request,
        octets: &behind[..size],
    };
    // The padding of the last record may be missing.
    let next = padded(size).min(behind.len());
    Some((entry, &behind[next..]))
}

/// Whether these octets are a list.
fn is_list(octets: &[u8]) -> bool
    ensures { result ≡ is_list most_entries octets.now }
{
    let mut rest = octets;
    for _ in 0..MOST_ENTRIES {
        if rest.is_empty() {
            return true;
        }
        match entry_at(rest) {
            Some((_entry, behind)) => rest = behind,
            None => return false,
        }
    }
    rest.is_empty()
}

impl<'a> Entries<'a> {
    /// The records of these octets, or `None` if they are not a list of at most 16 records, each of them whole.
    #[tactic(auto, using(crate::proofs::Several::few_in))]
    pub(crate) fn read(octets: &'a [u8]) -> Option<Entries<'a>>
        ensures value { result ≡ list_of octets.now }
        ensures few { IfSome result (λ entries. length entries ≤ most_entries) }
    {
        if !is_list(octets) {
            return None;
        }
        Some(Entries {
            rest: octets,
            left: MOST_ENTRIES,
        })
    }

    /// The same records.
    pub fn again(&self) -> Entries<'a>
        // The list is not changed, and can be read again.
        ensures { result ≡ self.now }
    {
        Entries {
            rest: self.rest,
            left: self.left,
        }
    }

    /// Takes the next record.
    pub fn next(&mut self) -> Option<Entry<'a>>
        // Nothing is returned only at the end of the list.
        ensures ends { IfNone result (self.old ≡ []) }
        // It is the first of those that were left, and the others are left.
        ensures next { IfSome result (λ entry. self.old ≡ (entry.request, entry.octets.now) ∷ self.new) }
    {
        if self.left == 0 {
            return None;
        }
        match entry_at(self.rest) {
            Some((entry, behind)) => {
                self.rest = behind;
                self.left -= 1;
                Some(entry)
            }
            None => None,
        }
    }
}
