// The behaviour of a flash, whether its calls succeed or fail.
ghost use Rattle.std.specs.Prelude.{◌≡◌, ◌+◌, ◌≤◌, ◌++◌, ℕ, Bool, List, [], ◌∷◌, length, slice_range, IsOk, OnOk, OnErr, true, false};
ghost use Rattle.flash_model.specs.Calls.{Call, Programs, Erases, Arms};
ghost use Rattle.flash_model.specs.Image.{Image, IsImage, IsSectorSize, sector_of, with_sector, programmed, erased};
ghost use Rattle.flash_model.specs.Torn.{Torn, HasCause, StaysLost};

/// One of the two sectors.
#[derive(Clone, Copy, Debug, PartialEq, Eq)]
pub enum Sector {
    First,
    Second,
}

/// A call of the flash failed. This is the only fault, number 1.
#[derive(Clone, Copy, Debug, PartialEq, Eq)]
pub struct FlashFault;

impl FlashFault {
    /// The number of the fault, 1.
    pub fn number(self) -> u8
        ensures { result ≡ 1 }
    {
        1
    }
}

/// An order to a flash to do something to a later call, for fault injection.
#[derive(Clone, Copy, Debug, PartialEq, Eq)]
pub enum Order {
    /// Loses power in the program or erase call that follows `after` others. That call leaves the old bit if the mask
    /// has a 0 and the new bit if it has a 1. The mask's 8 bytes repeat from the start of the call's range.
    Cut { after: u32, mask: [u8; 8] },
    /// Fails the program or erase call that follows `after` others, and leaves bits as a cut does. Power stays, and the
    /// calls after it pass.
    Fault { after: u32, mask: [u8; 8] },
    /// Fails the read that follows `after` others. No byte changes, power stays, and the reads after it pass.
    ReadFault { after: u32 },
}

/// A flash of two sectors of `S` bytes each: 512, and 256 for each of 1 to 255 slots. `erase` sets a sector to FF,
/// `program` clears bits. A call that fails leaves each bit of its range old or new.
pub trait Flash<const S: usize>: Drop {
    /// The bytes of both sectors.
    ghost image: { Self → Image };

    /// How many calls have failed. The count saturates at the maximum of 64 bits.
    ghost failures: { Self → ℕ };

    /// Whether power was lost. Then every call fails until it is back.
    ghost is_lost: { Self → Bool };

    /// If this holds, no call fails: there is power, and nothing is armed. A flash that promises nothing has `⊥`.
    ghost is_reliable: { Self → Type 0 };

    /// The flash changed by exactly these calls, in order. Reads are not among them.
    ghost asked: { Self → List Call → Self → Type 0 };

    /// Reads the bytes from `place` on.
    fn read(&mut self, sector: Sector, place: usize, buffer: &mut [u8]) -> Result<(), FlashFault>
        requires { place + length buffer.old ≤ S }
        // On success the buffer holds the bytes of the sector from `place` on.
        ensures done { OnOk result (buffer.new ≡ slice_range (sector_of (image self.old) sector) place (place + length buffer.old)) }
        // The image is unchanged.
        ensures same { image self.new ≡ image self.old }
        // No call that changes the flash is made.
        ensures calls { asked self.old [] self.new }
        // After an error the count of failed calls has risen or is saturated. On success it is unchanged.
        ensures cause { HasCause (failures self.old) (failures self.new) result }
        // Power that was lost stays lost, and then the call fails.
        ensures lost { StaysLost (is_lost self.old) (is_lost self.new) result }
        // On a reliable flash the call succeeds, and the flash stays reliable.
        ensures reliable { is_reliable self.old → IsOk result × is_reliable self.new };

    /// Clears each bit that is 0 in `bytes`, from `place` on.
    fn program(&mut self, sector: Sector, place: usize, bytes: &[u8]) -> Result<(), FlashFault>
        requires { place + length bytes.now ≤ S }
        // On success the bytes are programmed, and everything else is unchanged.
        ensures done { OnOk result (image self.new
            ≡ with_sector (image self.old) sector (programmed (sector_of (image self.old) sector) place bytes.now)) }
        // After an error each bit in the range is old or as the finished call would have left it, and everything else
        // is unchanged.
        ensures torn { OnErr result (Torn sector place (place + length bytes.now)
            (programmed (sector_of (image self.old) sector) place bytes.now) (image self.old) (image self.new)) }
        // Exactly this program call is made.
        ensures calls { asked self.old (Programs sector place bytes.now ∷ []) self.new }
        // After an error the count of failed calls has risen or is saturated. On success it is unchanged.
        ensures cause { HasCause (failures self.old) (failures self.new) result }
        // Power that was lost stays lost, and then the call fails.
        ensures lost { StaysLost (is_lost self.old) (is_lost self.new) result }
        // On a reliable flash the call succeeds, and the flash stays reliable.
        ensures reliable { is_reliable self.old → IsOk result × is_reliable self.new };

    /// Sets every bit of a sector to 1.
    fn erase(&mut self, sector: Sector) -> Result<(), FlashFault>
        // On success the sector is erased, and the other one is unchanged.
        ensures done { OnOk result (image self.new ≡ with_sector (image self.old) sector (erased S)) }
        // After an error each bit of the sector is old or 1, and the other sector is unchanged.
        ensures torn { OnErr result (Torn sector 0 S (erased S) (image self.old) (image self.new)) }
        // Exactly this erase call is made.
        ensures calls { asked self.old (Erases sector ∷ []) self.new }
        // After an error the count of failed calls has risen or is saturated. On success it is unchanged.
        ensures cause { HasCause (failures self.old) (failures self.new) result }
        // Power that was lost stays lost, and then the call fails.
        ensures lost { StaysLost (is_lost self.old) (is_lost self.new) result }
        // On a reliable flash the call succeeds, and the flash stays reliable.
        ensures reliable { is_reliable self.old → IsOk result × is_reliable self.new };

    /// How many calls have failed. The count saturates at `u64::MAX`.
    fn failures(&self) -> u64
        ensures { result ≡ failures self.now };

    /// Whether power was lost.
    fn is_lost(&self) -> bool
        ensures { result ≡ is_lost self.now };

    /// Test hook (fault injection): orders the flash to do something to a later call. No byte changes.
    fn arm(&mut self, order: Order)
        // The image is unchanged.
        ensures image { image self.new ≡ image self.old }
        // The count of failed calls is unchanged.
        ensures failures { failures self.new ≡ failures self.old }
        // Power is as before.
        ensures lost { is_lost self.new ≡ is_lost self.old }
        // Exactly this order is given.
        ensures calls { asked self.old (Arms order ∷ []) self.new };

    /// Both sectors have `S` bytes.
    ghost sized: { (flash : Self) → IsImage S (image flash) };

    /// A sector has room for the base and for 1 to 255 slots.
    ghost sector_size: { (flash : Self) → IsSectorSize S };

    /// A reliable flash has power.
    ghost has_power: { (flash : Self) → is_reliable flash → is_lost flash ≡ false };

    /// No calls change nothing.
    ghost asked_nothing: { (flash : Self) → asked flash [] flash };

    /// Calls followed by more calls are all of them in order.
    ghost asked_more: { (old between new : Self) (front back : List Call) → asked old front between → asked between back new →
        asked old (front ++ back) new };
}
