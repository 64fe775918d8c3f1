// A flash in memory whose calls can be made to fail, with or without a loss of power.
ghost use Rattle.std.specs.Prelude.{◌≡◌, ◌+◌, ◌≤◌, ◌↔◌, Option, None, Some, true, false, [], ◌∷◌, length, slice_range, IsOk, OnOk, OnErr};
ghost use Rattle.std.specs.Prelude.{min};
ghost use Rattle.std.proofs.Props.{props};
ghost use Rattle.flash_model.specs.Calls.{Programs, Erases, Arms};
ghost use Rattle.flash_model.specs.Image.{IsImage, IsSectorSize, sector_of, with_sector, programmed, erased};
ghost use Rattle.flash_model.specs.Torn.{Torn, HasRisen, HasCause, StaysLost};
ghost use Rattle.flash_model.specs.Fate.{sector_after, failures_after};

use crate::fate::{self, Fate};
use crate::flash::{Flash, FlashFault, Order, Sector};

/// A flash in memory. After an order of [`fuse`](MemoryFlash::fuse) power is lost in a later call, which is then torn,
/// and each call fails until [`power_up`](MemoryFlash::power_up). An order of [`fault`](MemoryFlash::fault) tears a
/// later call, and one of [`fault_read`](MemoryFlash::fault_read) fails a later read; power stays. One order is armed
/// at a time.
#[derive(Drop)]
pub struct MemoryFlash<const S: usize> {
    first: [u8; S],
    second: [u8; S],
    armed: Option<Order>,
    failures: u64,
    is_lost: bool,
    ghost sized: { IsImage S (record { first = first; second = second }) } by { Prim.hlevel props },
    ghost sector_size: { IsSectorSize S } by { Prim.hlevel props },
}

impl<const S: usize> MemoryFlash<S> {
    ghost use Rattle.flash_model.specs.Memory.{image_of, armed_in, failures_of, is_powerless, next_fate, next_armed, next_lost};
    ghost use Rattle.flash_model.specs.Memory.{next_readable, next_read_armed};
    ghost use Rattle.flash_model.specs.declared.flash.Order.TheVariants.{Cut, Fault, ReadFault};

    /// A flash with both sectors erased. It has power, nothing is armed and no failure is counted.
    pub fn blank() -> Self
        requires { IsSectorSize S }
        // Both sectors are erased.
        ensures image { image_of result ≡ record { first = erased S; second = erased S } }
        // Nothing is armed.
        ensures armed { armed_in result ≡ None }
        // No failure is counted.
        ensures failures { failures_of result ≡ 0 }
        // The flash has power.
        ensures lost { is_powerless result ≡ false }
    {
        Self::from_sectors([0xFF; S], [0xFF; S])
    }

    /// A flash with these bytes. It has power, nothing is armed and no failure is counted.
    pub fn from_sectors(first: [u8; S], second: [u8; S]) -> Self
        requires { IsSectorSize S }
        // The sectors have the given bytes.
        ensures image { image_of result ≡ record { first = first.entry; second = second.entry } }
        // Nothing is armed.
        ensures armed { armed_in result ≡ None }
        // No failure is counted.
        ensures failures { failures_of result ≡ 0 }
        // The flash has power.
        ensures lost { is_powerless result ≡ false }
    {
        MemoryFlash {
            first,
            second,
            armed: None,
            failures: 0,
            is_lost: false,
        }
    }

    /// The bytes of one sector.
    pub fn sector(&self, sector: Sector) -> &[u8]
        // The result is the bytes of the sector.
        ensures bytes { result.now ≡ sector_of (image_of self.now) sector }
        // There are `S` bytes.
        ensures size { length result.now ≡ S }
    {
        match sector {
            Sector::First => &self.first,
            Sector::Second => &self.second,
        }
    }

    /// Loses power in the program or erase call that follows `after` others. That call is torn: the new bit if the mask
    /// has a 1, else the old one. The mask's 8 bytes repeat from the start of the call's range. The order replaces one
    /// that was armed before.
    pub fn fuse(&mut self, after: u32, mask: [u8; 8])
        // The cut is armed.
        ensures armed { armed_in self.new ≡ Some (Cut after mask) }
        // The image is unchanged.
        ensures image { image_of self.new ≡ image_of self.old }
        // The count of failed calls is unchanged.
        ensures failures { failures_of self.new ≡ failures_of self.old }
        // Power is as before.
        ensures lost { is_powerless self.new ≡ is_powerless self.old }
    {
        self.armed = Some(Order::Cut { after, mask });
    }

    /// Fails the program or erase call that follows `after` others, which is torn as by [`fuse`](MemoryFlash::fuse).
    /// Power stays, and later calls pass. The order replaces one that was armed before.
    pub fn fault(&mut self, after: u32, mask: [u8; 8])
        // The fault is armed.
        ensures armed { armed_in self.new ≡ Some (Fault after mask) }
        // The image is unchanged.
        ensures image { image_of self.new ≡ image_of self.old }
        // The count of failed calls is unchanged.
        ensures failures { failures_of self.new ≡ failures_of self.old }
        // Power is as before.
        ensures lost { is_powerless self.new ≡ is_powerless self.old }
    {
        self.armed = Some(Order::Fault { after, mask });
    }

    /// Fails the read that follows `after` others. Power stays, and later reads pass. The order replaces one that was
    /// armed before.
    pub fn fault_read(&mut self, after: u32)
        // The fault of a read is armed.
        ensures armed { armed_in self.new ≡ Some (ReadFault after) }
        // The image is unchanged.
        ensures image { image_of self.new ≡ image_of self.old }
        // The count of failed calls is unchanged.
        ensures failures { failures_of self.new ≡ failures_of self.old }
        // Power is as before.
        ensures lost { is_powerless self.new ≡ is_powerless self.old }
    {
        self.armed = Some(Order::ReadFault { after });
    }

    /// Restores power and changes nothing else: a pending order stays armed.
    pub fn power_up(&mut self)
        // The flash has power.
        ensures lost { is_powerless self.new ≡ false }
        // The armed order stays.
        ensures armed { armed_in self.new ≡ armed_in self.old }
        // The image is unchanged.
        ensures image { image_of self.new ≡ image_of self.old }
        // The count of failed calls is unchanged.
        ensures failures { failures_of self.new ≡ failures_of self.old }
    {
        self.is_lost = false;
    }

    /// The fate of the next program or erase call, which the armed order counts.
    fn next_fate(&mut self) -> Fate
        ensures fate { result ≡ next_fate self.old }
        ensures armed { armed_in self.new ≡ next_armed self.old }
        ensures lost { is_powerless self.new ≡ next_lost self.old }
        ensures image { image_of self.new ≡ image_of self.old }
        ensures failures { failures_of self.new ≡ failures_of self.old }
    {
        match (self.is_lost, self.armed) {
            (true, _) => Fate::Fails,
            (false, None | Some(Order::ReadFault { .. })) => Fate::Passes,
            (false, Some(Order::Cut { after: 0, mask })) => {
                self.armed = None;
                self.is_lost = true;
                Fate::Tears(mask)
            }
            (false, Some(Order::Fault { after: 0, mask })) => {
                self.armed = None;
                Fate::Tears(mask)
            }
            (false, Some(Order::Cut { after, mask })) => {
                self.armed = Some(Order::Cut {
                    after: after - 1,
                    mask,
                });
                Fate::Passes
            }
            (false, Some(Order::Fault { after, mask })) => {
                self.armed = Some(Order::Fault {
                    after: after - 1,
                    mask,
                });
                Fate::Passes
            }
        }
    }

    /// Whether the next read passes. The armed order counts it.
    fn next_read(&mut self) -> bool
        ensures passes { result ≡ next_readable self.old }
        ensures armed { armed_in self.new ≡ next_read_armed self.old }
        ensures lost { is_powerless self.new ≡ is_powerless self.old }
        ensures image { image_of self.new ≡ image_of self.old }
        ensures failures { failures_of self.new ≡ failures_of self.old }
    {
        match (self.is_lost, self.armed) {
            (true, _) => false,
            (false, None | Some(Order::Cut { .. } | Order::Fault { .. })) => true,
            (false, Some(Order::ReadFault { after: 0 })) => {
                self.armed = None;
                false
            }
            (false, Some(Order::ReadFault { after })) => {
                self.armed = Some(Order::ReadFault { after: after - 1 });
                true
            }
        }
    }

    /// The result of a program or erase call. A failure is counted.
    fn outcome(&mut self, fate: Fate) -> Result<(), FlashFault>
        ensures passes { IsOk result ↔ (fate ≡ Fate.Passes) }
        ensures cause { HasCause (failures_of self.old) (failures_of self.new) result }
        ensures armed { armed_in self.new ≡ armed_in self.old }
        ensures lost { is_powerless self.new ≡ is_powerless self.old }
        ensures image { image_of self.new ≡ image_of self.old }
        ensures failures { failures_of self.new ≡ failures_after (failures_of self.old) result }
    {
        match fate {
            Fate::Passes => Ok(()),
            Fate::Tears(_) | Fate::Fails => Err(self.failed()),
        }
    }

    /// Counts a call that failed.
    fn failed(&mut self) -> FlashFault
        ensures armed { armed_in self.new ≡ armed_in self.old }
        ensures lost { is_powerless self.new ≡ is_powerless self.old }
        ensures image { image_of self.new ≡ image_of self.old }
        ensures failures { failures_of self.new ≡ min (failures_of self.old + 1) 18446744073709551615 }
        ensures cause { HasRisen (failures_of self.old) (failures_of self.new) }
    {
        self.failures = self.failures.saturating_add(1);
        FlashFault
    }
}

impl<const S: usize> Flash<S> for MemoryFlash<S> {
    ghost use Rattle.flash_model.specs.Memory.{image_of, armed_in, failures_of, is_powerless, next_fate, next_armed, next_lost};
    ghost use Rattle.flash_model.specs.Memory.{next_readable, next_read_armed, IsReliable};
    ghost use Rattle.flash_model.specs.Asked.{IsAsked};
    ghost use Rattle.flash_model.specs.MemoryLaws.{IsImage-of, IsSectorSize-of, has_power-of, asked_nothing-of, asked_more-of};

    ghost image = { image_of };

    ghost failures = { failures_of };

    ghost is_lost = { is_powerless };

    ghost is_reliable = { IsReliable };

    ghost asked = { IsAsked };

    /// Reads the bytes from `place` on. It fails if and only if there is no power or an order for reads strikes. Other
    /// orders do not count it.
    fn read(&mut self, sector: Sector, place: usize, buffer: &mut [u8]) -> Result<(), FlashFault>
        requires { place + length buffer.old ≤ S }

        // On success the buffer holds the bytes of the sector from `place` on.
        ensures done { OnOk result (buffer.new ≡ slice_range (sector_of (image_of self.old) sector) place (place + length buffer.old)) }
        // The image is unchanged.
        ensures same { image_of self.new ≡ image_of self.old }
        // No call that changes the flash is made.
        ensures calls { IsAsked self.old [] self.new }
        // After an error the count of failed calls has risen or is saturated. On success it is unchanged.
        ensures cause { HasCause (failures_of self.old) (failures_of self.new) result }
        // Power that was lost stays lost, and then the call fails.
        ensures lost { StaysLost (is_powerless self.old) (is_powerless self.new) result }
        // On a reliable flash the call succeeds, and the flash stays reliable.
        ensures reliable { IsReliable self.old → IsOk result × IsReliable self.new }

        // The call succeeds if and only if there is power and no armed order for reads strikes.
        ensures passes { IsOk result ↔ (next_readable self.old ≡ true) }
        // After an error the buffer is unchanged.
        ensures refused { OnErr result (buffer.new ≡ buffer.old) }
        // If there is power, an armed order for reads counts the read, and is gone if it struck. Otherwise the order is
        // unchanged.
        ensures armed { armed_in self.new ≡ next_read_armed self.old }
        // Power is as before.
        ensures power { is_powerless self.new ≡ is_powerless self.old }
        // The count of failed calls rises by one after an error, up to the maximum of 64 bits. On success it is
        // unchanged.
        ensures failures { failures_of self.new ≡ failures_after (failures_of self.old) result }
    {
        if !self.next_read() {
            return Err(self.failed());
        }
        let bytes = self.sector(sector);
        buffer.copy_from_slice(&bytes[place..place + buffer.len()]);
        Ok(())
    }

    /// Clears each bit that is 0 in `bytes`, from `place` on. It fails if and only if there is no power or the armed
    /// order strikes.
    fn program(&mut self, sector: Sector, place: usize, bytes: &[u8]) -> Result<(), FlashFault>
        requires { place + length bytes.now ≤ S }

        // On success the bytes are programmed, and everything else is unchanged.
        ensures done { OnOk result (image_of self.new
            ≡ with_sector (image_of self.old) sector (programmed (sector_of (image_of self.old) sector) place bytes.now)) }
        // After an error each bit in the range is old or as the finished call would have left it, and everything else
        // is unchanged.
        ensures torn { OnErr result (Torn sector place (place + length bytes.now)
            (programmed (sector_of (image_of self.old) sector) place bytes.now) (image_of self.old) (image_of self.new)) }
        // Exactly this program call is made.
        ensures calls { IsAsked self.old (Programs sector place bytes.now ∷ []) self.new }
        // After an error the count of failed calls has risen or is saturated. On success it is unchanged.
        ensures cause { HasCause (failures_of self.old) (failures_of self.new) result }
        // Power that was lost stays lost, and then the call fails.
        ensures lost { StaysLost (is_powerless self.old) (is_powerless self.new) result }
        // Without power no byte changes.
        ensures untouched { is_powerless self.old ≡ true → image_of self.new ≡ image_of self.old }
        // On a reliable flash the call succeeds, and the flash stays reliable.
        ensures reliable { IsReliable self.old → IsOk result × IsReliable self.new }

        // The call succeeds if and only if there is power and the armed order does not strike.
        ensures passes { IsOk result ↔ (next_fate self.old ≡ Fate.Passes) }
        // The bytes are those that the fate of the call gives, bit by bit.
        ensures image { image_of self.new
            ≡ with_sector (image_of self.old) sector (sector_after (next_fate self.old) place (place + length bytes.now)
            (programmed (sector_of (image_of self.old) sector) place bytes.now) (sector_of (image_of self.old) sector)) }
        // If there is power, an armed order that is not for reads counts the call, and is gone if it struck. Otherwise
        // the order is unchanged.
        ensures armed { armed_in self.new ≡ next_armed self.old }
        // Power is lost after the call if it was lost before or a cut struck.
        ensures power { is_powerless self.new ≡ next_lost self.old }
        // The count of failed calls rises by one after an error, up to the maximum of 64 bits. On success it is
        // unchanged.
        ensures failures { failures_of self.new ≡ failures_after (failures_of self.old) result }
    {
        let fate = self.next_fate();
        match sector {
            Sector::First => fate::program(&mut self.first, place, bytes, fate),
            Sector::Second => fate::program(&mut self.second, place, bytes, fate),
        }
        self.outcome(fate)
    }

    /// Sets every bit of a sector to 1. It fails if and only if there is no power or the armed order strikes.
    fn erase(&mut self, sector: Sector) -> Result<(), FlashFault>
        // On success the sector is erased, and the other one is unchanged.
        ensures done { OnOk result (image_of self.new ≡ with_sector (image_of self.old) sector (erased S)) }
        // After an error each bit of the sector is old or 1, and the other sector is unchanged.
        ensures torn { OnErr result (Torn sector 0 S (erased S) (image_of self.old) (image_of self.new)) }
        // Exactly this erase call is made.
        ensures calls { IsAsked self.old (Erases sector ∷ []) self.new }
        // After an error the count of failed calls has risen or is saturated. On success it is unchanged.
        ensures cause { HasCause (failures_of self.old) (failures_of self.new) result }
        // Power that was lost stays lost, and then the call fails.
        ensures lost { StaysLost (is_powerless self.old) (is_powerless self.new) result }
        // Without power no byte changes.
        ensures untouched { is_powerless self.old ≡ true → image_of self.new ≡ image_of self.old }
        // On a reliable flash the call succeeds, and the flash stays reliable.
        ensures reliable { IsReliable self.old → IsOk result × IsReliable self.new }

        // The call succeeds if and only if there is power and the armed order does not strike.
        ensures passes { IsOk result ↔ (next_fate self.old ≡ Fate.Passes) }
        // The bytes are those that the fate of the call gives, bit by bit.
        ensures image { image_of self.new
            ≡ with_sector (image_of self.old) sector (sector_after (next_fate self.old) 0 S (erased S)
            (sector_of (image_of self.old) sector)) }
        // If there is power, an armed order that is not for reads counts the call, and is gone if it struck. Otherwise
        // the order is unchanged.
        ensures armed { armed_in self.new ≡ next_armed self.old }
        // Power is lost after the call if it was lost before or a cut struck.
        ensures power { is_powerless self.new ≡ next_lost self.old }
        // The count of failed calls rises by one after an error, up to the maximum of 64 bits. On success it is
        // unchanged.
        ensures failures { failures_of self.new ≡ failures_after (failures_of self.old) result }
    {
        let fate = self.next_fate();
        match sector {
            Sector::First => fate::erase(&mut self.first, fate),
            Sector::Second => fate::erase(&mut self.second, fate),
        }
        self.outcome(fate)
    }

    fn failures(&self) -> u64
        ensures { result ≡ failures_of self.now }
    {
        self.failures
    }

    fn is_lost(&self) -> bool
        ensures { result ≡ is_powerless self.now }
    {
        self.is_lost
    }

    /// Arms the order in place of one that was armed before. No byte changes.
    fn arm(&mut self, order: Order)
        // The image is unchanged.
        ensures image { image_of self.new ≡ image_of self.old }
        // The count of failed calls is unchanged.
        ensures failures { failures_of self.new ≡ failures_of self.old }
        // Power is as before.
        ensures lost { is_powerless self.new ≡ is_powerless self.old }
        // Exactly this order is given.
        ensures calls { IsAsked self.old (Arms order ∷ []) self.new }

        // The order is armed, in place of an earlier one.
        ensures armed { armed_in self.new ≡ Some order }
    {
        match order {
            Order::Cut { after, mask } => self.fuse(after, mask),
            Order::Fault { after, mask } => self.fault(after, mask),
            Order::ReadFault { after } => self.fault_read(after),
        }
    }

    ghost sized = { IsImage-of };

    ghost sector_size = { IsSectorSize-of };

    ghost has_power = { has_power-of };

    ghost asked_nothing = { asked_nothing-of };

    ghost asked_more = { asked_more-of };
}
