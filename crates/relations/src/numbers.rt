//! The numbers that a device gives itself in a relation.
ghost use Rattle.std.specs.Prelude.{◌≡◌, ◌<◌, ◌≤◌};
ghost use Rattle.relations.specs.Numbers.{endpoint_of, made_after, number_of, output_id};

use connect_blocks::RtClass;
use connects::Iocr;

/// How many numbers there are: as many as FrameIDs of class 1 (IEC 61158-6-10, 4.7).
pub const NUMBERS: u16 = 14_336;

/// The number of a relation: 0 if the numbers do not go round, otherwise by how many relations the device had before it,
/// counted from `first`.
pub fn number_of(first: Option<u16>, made: u16) -> u16
    ensures value { result ≡ number_of first made }
    ensures few { result < 14336 }
{
    match first {
        None => 0,
        Some(first) => ((u32::from(first) + u32::from(made)) % u32::from(NUMBERS)) as u16,
    }
}

/// How many relations a device had, after one more: modulo 14,336.
pub fn made_after(made: u16) -> u16
    ensures { result ≡ made_after made }
{
    ((u32::from(made) + 1) % u32::from(NUMBERS)) as u16
}

/// The FrameID of outputs in a relation of this number, which counts where the Connect leaves the choice to the device.
pub(crate) fn output_id(number: u16, iocr: &Iocr) -> u16
    requires { number < 14336 }
    ensures { result ≡ output_id number iocr.now }
{
    if !iocr.device_chooses {
        return iocr.frame_id;
    }
    match iocr.class {
        RtClass::Class1 => 0xC000 + number,
        RtClass::Class2 => 0x8000 + number,
    }
}

/// The endpoint of the alarms of the device in a relation of this number.
pub(crate) fn endpoint_of(number: u16) -> u16
    requires { number < 14336 }
    ensures { result ≡ endpoint_of number }
{
    number + 1
}
