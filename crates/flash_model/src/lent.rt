// A borrowed flash.
ghost use Rattle.std.specs.Prelude.{◌≡◌, false};

use crate::MemoryFlash;
use crate::flash::{Flash, FlashFault, Order, Sector};
use std::marker::Model;

/// A borrowed flash. A flash that holds its sectors in memory is large, so it stays in place and this is passed by
/// value instead. Clauses see the flash.
#[derive(Drop)]
pub struct Lent<'a, F> {
    flash: &'a mut F,
}

impl<'a, F> Model for Lent<'a, F> {
    ghost Value = { F };

    ghost coded = { F.code };

    ghost view = { λ lent. lent.flash.now };
}

impl<'a, F> Lent<'a, F> {
    /// Borrows a flash.
    pub fn new(flash: &'a mut F) -> Lent<'a, F>
        ensures { result ≡ flash.old }
    {
        Lent { flash }
    }

    /// The flash that is borrowed.
    pub fn flash(&self) -> &F
        ensures { result.now ≡ self.now }
    {
        self.flash
    }
}

impl<'a, const S: usize> Lent<'a, MemoryFlash<S>> {
    ghost use Rattle.flash_model.specs.Memory.{image_of, armed_in, failures_of, is_powerless};

    /// Restores power and changes nothing else: a pending order stays armed.
    pub fn power_up(&mut self)
        // The flash has power.
        ensures lost { is_powerless self.new ≡ false }
        // The armed order stays.
        ensures armed { armed_in self.new ≡ armed_in self.old }
        // The image is unchanged.
        ensures image { image_of self.new ≡ image_of self.old }
        // The count of failed calls is unchanged.
        ensures failures { failures_of self.new ≡ failures_of self.old }
    {
        self.flash.power_up();
    }
}

impl<'a, F: Flash<S>, const S: usize> Flash<S> for Lent<'a, F> {
    ghost image = { F.image };

    ghost failures = { F.failures };

    ghost is_lost = { F.is_lost };

    ghost is_reliable = { F.is_reliable };

    ghost asked = { F.asked };

    fn read(&mut self, sector: Sector, place: usize, buffer: &mut [u8]) -> Result<(), FlashFault> {
        self.flash.read(sector, place, buffer)
    }

    fn program(&mut self, sector: Sector, place: usize, bytes: &[u8]) -> Result<(), FlashFault> {
        self.flash.program(sector, place, bytes)
    }

    fn erase(&mut self, sector: Sector) -> Result<(), FlashFault> {
        self.flash.erase(sector)
    }

    fn failures(&self) -> u64 {
        self.flash.failures()
    }

    fn is_lost(&self) -> bool {
        self.flash.is_lost()
    }

    fn arm(&mut self, order: Order) {
        self.flash.arm(order);
    }

    ghost sized = { F.sized };

    ghost sector_size = { F.sector_size };

    ghost has_power = { F.has_power };

    ghost asked_nothing = { F.asked_nothing };

    ghost asked_more = { F.asked_more };
}
