// A flash in memory, whose calls are recorded.
ghost use Rattle.std.specs.Prelude.{◌≡◌, ◌≢◌, ◌+◌, ◌-◌, ◌^◌, ◌<◌, ◌≤◌, ◌↔◌, Option, None, Some, true, false, [], ◌∷◌, ℕ, length};
ghost use Rattle.std.specs.Prelude.{slice_get, slice_range, IsOk, OnOk, OnErr};
ghost use Rattle.std.specs.List.{list_all};
ghost use Rattle.std.proofs.Props.{props};
ghost use Rattle.flash_model.specs.Calls.{Programs, Erases, Arms};
ghost use Rattle.flash_model.specs.Image.{IsSectorSize, sector_of, with_sector, programmed, erased};
ghost use Rattle.flash_model.specs.Memory.{IsReliable};
ghost use Rattle.flash_model.specs.Torn.{Torn, HasCause, StaysLost};
ghost use Rattle.device_station.specs.recorded.Fits.{entry_fits, fits_in};

use crate::recorded::entries::{entry_at, part, push};
use crate::recorded::entry::{Entry, MOST_BYTES, Recorded};
use arrayvec::ArrayVec;
use flash_model::{Flash, FlashFault, MemoryFlash, Order, Sector};

/// Both sectors in memory, and the last calls that changed them: where each was, and for how many bytes. No call fails. Orders are
/// ignored.
#[derive(Drop)]
pub struct RecordedFlash<const S: usize> {
    memory: MemoryFlash<S>,
    entries: ArrayVec<Entry, 48>,
    count: u32,
    ghost reliable: { IsReliable memory } by { Prim.hlevel props },
    ghost fits: { list_all (entry_fits S) entries.items ≡ true } by { Prim.hlevel props },
}

impl<const S: usize> RecordedFlash<S> {
    ghost use Rattle.device_station.specs.recorded.Entry.{call_of};
    ghost use Rattle.device_station.specs.recorded.Pushed.{pushed};
    ghost use Rattle.device_station.specs.recorded.Record.{image_of, record_of, recalled, after_one, entry_of, filled};

    /// A flash with both sectors erased and no recorded call. The count begins at the maximum: only its growth has a
    /// meaning.
    pub fn blank() -> Self
        requires { IsSectorSize S }
        ensures { record_of result ≡ record { image = record { first = erased S; second = erased S }; recent = []; count = 2 ^ 32 - 1 } }
    {
        RecordedFlash {
            memory: MemoryFlash::blank(),
            entries: ArrayVec::new(),
            count: u32::MAX,
        }
    }

    /// The bytes of one sector.
    pub fn sector(&self, sector: Sector) -> &[u8]
        // The result is the bytes of the sector.
        ensures bytes { result.now ≡ sector_of (image_of self.now) sector }
        // There are `S` bytes.
        ensures size { length result.now ≡ S }
    {
        self.memory.sector(sector)
    }

    /// Puts bytes into a sector and records nothing. If there are more or fewer bytes than the sector has, nothing
    /// changes.
    pub fn put_sector(&mut self, sector: Sector, bytes: &[u8])
        // If there are `S` bytes, the sector holds them, and nothing is recorded.
        ensures put { length bytes.now ≡ S → record_of self.new ≡ filled S (record_of self.old) sector bytes.now }
        // If there are more or fewer bytes, nothing changes.
        ensures kept { length bytes.now ≢ S → record_of self.new ≡ record_of self.old }
    {
        if bytes.len() == S {
            let _ = self.memory.erase(sector);
            let _ = self.memory.program(sector, 0, bytes);
        }
    }

    /// A number that grows by one with each call, modulo 2^32.
    pub fn count(&self) -> u32
        ensures { result ≡ (record_of self.now).count }
    {
        self.count
    }

    /// How many calls are stored: the last ones.
    pub fn stored(&self) -> usize
        ensures { result ≡ length (recalled self.now) }
    {
        self.entries.len()
    }

    /// The stored call at this position. The oldest one is first. Its bytes are those that its sector has now: the ones that it
    /// programmed, as long as no later call changed them.
    pub fn call(&self, index: usize) -> Recorded<'_>
        requires { index < length (recalled self.now) }
        ensures at { slice_get (recalled self.now) index ≡ Some (call_of result) }
        // It lies in its sector, and programs at most 437 bytes.
        ensures fits { fits_in S (call_of result) ≡ true }
    {
        match entry_at(self.entries.as_slice(), index) {
            Entry::Program {
                sector,
                place,
                length,
            } => Recorded::Program {
                sector: *sector,
                place: *place,
                bytes: part(
                    self.memory.sector(*sector),
                    *place as usize,
                    *length as usize,
                ),
            },
            Entry::Erase { sector } => Recorded::Erase { sector: *sector },
        }
    }

    // Records a program call.
    fn record_program(&mut self, sector: Sector, place: u32, bytes: &[u8])
        requires { fits_in S (Programs sector place bytes.now) ≡ true }
        ensures memory { self.new.memory ≡ self.old.memory }
        ensures recent { (record_of self.new).recent ≡ pushed (record_of self.old).recent (entry_of (Programs sector place bytes.now)) }
        ensures count { (record_of self.new).count ≡ (after_one (record_of self.old) (Programs sector place bytes.now)).count }
    {
        let length = bytes.len() as u16;
        push(
            &mut self.entries,
            Entry::Program {
                sector,
                place,
                length,
            },
        );
        self.count = self.count.wrapping_add(1);
    }

    // Records an erase call.
    fn record_erase(&mut self, sector: Sector)
        ensures memory { self.new.memory ≡ self.old.memory }
        ensures recent { (record_of self.new).recent ≡ pushed (record_of self.old).recent (entry_of (Erases sector)) }
        ensures count { (record_of self.new).count ≡ (after_one (record_of self.old) (Erases sector)).count }
    {
        push(&mut self.entries, Entry::Erase { sector });
        self.count = self.count.wrapping_add(1);
    }
}

impl<const S: usize> Flash<S> for RecordedFlash<S> {
    ghost use Rattle.device_station.specs.recorded.Record.{image_of, record_of, IsAsked};
    ghost use Rattle.device_station.specs.recorded.Laws.{failures_of, has_power, IsAlways, IsImage-of, IsSectorSize-of, has_power-of};
    ghost use Rattle.device_station.specs.recorded.Laws.{asked_nothing-of, asked_more-of};

    ghost image = { image_of };

    ghost failures = { failures_of };

    ghost is_lost = { has_power };

    ghost is_reliable = { IsAlways };

    ghost asked = { IsAsked };

    /// Reads the bytes from `place` on.
    fn read(&mut self, sector: Sector, place: usize, buffer: &mut [u8]) -> Result<(), FlashFault> {
        self.memory.read(sector, place, buffer)
    }

    /// Clears each bit that is 0 in `bytes`, from `place` on, and records the call, unless it has more than 437 bytes.
    fn program(&mut self, sector: Sector, place: usize, bytes: &[u8]) -> Result<(), FlashFault>
        requires { place + length bytes.now ≤ S }

        // These clauses are those of the trait.
        ensures done { OnOk result (image_of self.new
            ≡ with_sector (image_of self.old) sector (programmed (sector_of (image_of self.old) sector) place bytes.now)) }
        ensures torn { OnErr result (Torn sector place (place + length bytes.now)
            (programmed (sector_of (image_of self.old) sector) place bytes.now) (image_of self.old) (image_of self.new)) }
        ensures calls { IsAsked self.old (Programs sector place bytes.now ∷ []) self.new }
        ensures cause { HasCause (failures_of self.old) (failures_of self.new) result }
        ensures lost { StaysLost (has_power self.old) (has_power self.new) result }
        ensures reliable { IsAlways self.old → IsOk result × IsAlways self.new }

        // A call with more than 437 bytes is not recorded, and no recorded one is lost.
        ensures unrecorded { 437 < length bytes.now → record_of self.new ≡ record (record_of self.old) { image = image_of self.new } }
    {
        self.memory.program(sector, place, bytes)?;
        if bytes.len() <= MOST_BYTES {
            self.record_program(sector, place as u32, bytes);
        }
        Ok(())
    }

    /// Sets every bit of a sector to 1, and records the call.
    fn erase(&mut self, sector: Sector) -> Result<(), FlashFault> {
        self.memory.erase(sector)?;
        self.record_erase(sector);
        Ok(())
    }

    fn failures(&self) -> u64 {
        self.memory.failures()
    }

    fn is_lost(&self) -> bool {
        false
    }

    /// Arms nothing and records nothing.
    fn arm(&mut self, order: Order)
        // These clauses are those of the trait.
        ensures image { image_of self.new ≡ image_of self.old }
        ensures failures { failures_of self.new ≡ failures_of self.old }
        ensures lost { has_power self.new ≡ has_power self.old }
        ensures calls { IsAsked self.old (Arms order ∷ []) self.new }

        // An order is not a call that a host carries out.
        ensures unrecorded { record_of self.new ≡ record_of self.old }
    {
        let _ = order;
    }

    ghost sized = { IsImage-of };

    ghost sector_size = { IsSectorSize-of };

    ghost has_power = { has_power-of };

    ghost asked_nothing = { asked_nothing-of };

    ghost asked_more = { asked_more-of };
}
