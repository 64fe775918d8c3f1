// The fate of a program or erase call of a flash in memory, and the bytes that it leaves.
ghost use Rattle.std.specs.Prelude.{◌≡◌, ◌+◌, ◌≤◌, ℕ, length};
ghost use Rattle.std.specs.Int.{bit_at};
ghost use Rattle.flash_model.specs.Image.{anded, programmed, erased, AreBytes};
ghost use Rattle.flash_model.specs.Torn.{IsBetween, AreBetween, TornSector};
ghost use Rattle.flash_model.specs.Fate.{torn_byte, torn_bytes, sector_after, chosen_bit};

/// The fate of a program or erase call.
#[derive(Clone, Copy)]
pub enum Fate {
    /// It is carried out.
    Passes,
    /// It fails halfway: the mask has a 1 for each bit that is already new.
    Tears([u8; 8]),
    /// There is no power.
    Fails,
}

/// A byte on its way from `old` to `new`: the new bits if the mask has a 1, else the old ones.
pub fn torn_byte(old: u8, new: u8, mask: u8) -> u8
    // The result is the torn byte of the definition.
    ensures value { result ≡ torn_byte old new mask }
    // Each bit is the new one if the mask has a 1, else the old one.
    ensures bits { (k : ℕ) → bit_at result k ≡ chosen_bit (bit_at mask k) (bit_at old k) (bit_at new k) }
    // Each bit is the old or the new one.
    ensures between { IsBetween old new result }
{
    (old & !mask) | (new & mask)
}

/// Clears each bit of the range that is 0 in `bytes`.
fn and_bytes(range: &mut [u8], bytes: &[u8])
    requires { length bytes.now ≡ length range.old }
    ensures { range.new ≡ anded range.old bytes.now }
{
    for (place, byte) in range.iter_mut().enumerate() {
        *byte &= bytes[place];
    }
}

/// Clears those bits of the range that are 0 in `bytes` and 1 in the mask, which repeats from the start of the range.
fn and_masked(range: &mut [u8], bytes: &[u8], mask: [u8; 8])
    requires { length bytes.now ≡ length range.old }
    ensures value { range.new ≡ torn_bytes mask range.old (anded range.old bytes.now) }
    ensures between { AreBetween range.old (anded range.old bytes.now) range.new }
{
    for (place, byte) in range.iter_mut().enumerate() {
        // The mask repeats from the start of the range, so that one order strikes a call of any length.
        *byte = torn_byte(*byte, *byte & bytes[place], mask[place % 8]);
    }
}

/// Sets those bits of the range that are 1 in the mask, which repeats from the start of the range.
fn set_masked(range: &mut [u8], mask: [u8; 8])
    ensures value { range.new ≡ torn_bytes mask range.old (erased (length range.old)) }
    ensures between { AreBetween range.old (erased (length range.old)) range.new }
{
    for (place, byte) in range.iter_mut().enumerate() {
        *byte = torn_byte(*byte, 0xFF, mask[place % 8]);
    }
}

/// Applies a program call to the sector.
pub fn program(sector: &mut [u8], place: usize, bytes: &[u8], fate: Fate)
    requires { place + length bytes.now ≤ length sector.old }
    // The sector is as the fate of the call leaves it.
    ensures value { sector.new ≡ sector_after fate place (place + length bytes.now) (programmed sector.old place bytes.now) sector.old }
    // Each bit in the range is old or as the finished call would have left it, and everything else is unchanged.
    ensures torn { TornSector place (place + length bytes.now) (programmed sector.old place bytes.now) sector.old sector.new }
    // The sector still holds bytes.
    ensures bytes { AreBytes sector.new }
{
    let range = &mut sector[place..place + bytes.len()];
    match fate {
        Fate::Passes => and_bytes(range, bytes),
        Fate::Tears(mask) => and_masked(range, bytes, mask),
        Fate::Fails => {}
    }
}

/// Applies an erase call to the sector.
pub fn erase(sector: &mut [u8], fate: Fate)
    // The sector is as the fate of the call leaves it.
    ensures value { sector.new ≡ sector_after fate 0 (length sector.old) (erased (length sector.old)) sector.old }
    // Each bit of the sector is old or 1.
    ensures torn { TornSector 0 (length sector.old) (erased (length sector.old)) sector.old sector.new }
    // The sector still holds bytes.
    ensures bytes { AreBytes sector.new }
{
    match fate {
        Fate::Passes => sector.fill(0xFF),
        Fate::Tears(mask) => set_masked(sector, mask),
        Fate::Fails => {}
    }
}
