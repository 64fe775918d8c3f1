//! The data of an alarm.
ghost use Rattle.std.specs.Prelude.{◌≡◌, ◌+◌, ◌≤◌, ◌++◌, List, ℕ, length};
ghost use Rattle.arrayvec.specs.ArrayVec.{array_vec_len};

use arrayvec::ArrayVec;
use std::marker::Model;

/// The data of an alarm, borrowed: any octets, at most as many as BlockLength can count after the other fields.
#[derive(Drop)]
pub struct AlarmData<'a> {
    octets: &'a [u8],
}

impl<'a> Model for AlarmData<'a> {
    ghost use Rattle.std.specs.Prelude.{List, ℕ, ◌≤◌, length};

    ghost Value = { List ℕ };

    ghost view = { λ inside. inside.octets.now };

    ghost invariant = { λ inside. length inside.octets.now ≤ 65511 };
}

impl<'a> AlarmData<'a> {
    /// Alarm data of these octets, of which there are at most 65,511.
    pub fn new(octets: &'a [u8]) -> AlarmData<'a>
        requires { length octets.now ≤ 65511 }
        ensures { result ≡ octets.now }
    {
        AlarmData { octets }
    }

    /// The octets.
    pub fn octets(&self) -> &'a [u8]
        ensures value { result.now ≡ self.now }
        ensures few { length self.now ≤ 65511 }
    {
        self.octets
    }
}

/// Appends the data. There must be room.
pub(crate) fn put_alarm_data<const N: usize>(out: &mut ArrayVec<u8, N>, value: &AlarmData)
    requires { array_vec_len out.old + length value.now ≤ N }
    ensures items { out.new.items ≡ out.old.items ++ value.now }
    ensures len { array_vec_len out.new ≡ array_vec_len out.old + length value.now }
{
    wire::append(out, value.octets());
}

/// The number of octets of the data.
pub(crate) fn alarm_data_len(value: &AlarmData) -> usize
    ensures size { result ≡ length value.now }
    ensures few { result ≤ 65511 }
{
    value.octets().len()
}
