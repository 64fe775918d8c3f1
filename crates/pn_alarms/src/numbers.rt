//! The numbering of data: 0xFFFF first, and then 0 to 0x7FFF in a circle.
ghost use Rattle.std.specs.Prelude.{◌≡◌};
ghost use Rattle.pn_alarms.specs.Numbers.{next_number as number_behind};

/// The number after the last one.
pub(crate) fn next_number(last: Option<u16>) -> u16
    ensures { result ≡ number_behind last }
{
    match last {
        None => 0xFFFF,
        // The counter has 15 bits. The top bit is set only in the two numbers that mean that nothing was sent or
        // accepted yet.
        Some(last) => ((u32::from(last) + 1) % 0x8000) as u16,
    }
}
