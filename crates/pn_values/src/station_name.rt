// A station name, or none.
ghost use Rattle.std.specs.Prelude.{◌≡◌, ◌≤◌, [], length};
ghost use Rattle.pn_values.specs.StationName.{IsNameOrNone, IsStationName};

use arrayvec::ArrayVec;
use std::marker::Model;

/// A NameOfStation (IEC 61158-6-10, 4.3.1.4.15), which has 1 to 240 bytes in labels that dots separate, or no name.
/// Clauses see its bytes.
#[derive(Drop)]
pub struct StationName {
    text: ArrayVec<u8, 240>,
}

impl Model for StationName {
    ghost use Rattle.std.specs.Prelude.{List, ℕ};
    ghost use Rattle.pn_values.specs.StationName.{IsNameOrNone};

    ghost Value = { List ℕ };

    ghost view = { λ name. name.text.items };

    ghost invariant = { λ name. IsNameOrNone name.text.items };
}

impl StationName {
    /// No name: the value for a station that has not been named yet.
    pub fn none() -> StationName
        ensures { result ≡ [] }
    {
        StationName {
            text: ArrayVec::new(),
        }
    }

    /// The name with these bytes. The crate `station_names` has the test.
    pub fn of(bytes: &[u8]) -> StationName
        requires { IsStationName bytes.now }
        ensures { result ≡ bytes.now }
    {
        StationName {
            text: text_of(bytes),
        }
    }

    /// The bytes of the name; empty if there is no name.
    pub fn as_bytes(&self) -> &[u8]
        // The result is the bytes of the name.
        ensures value { result.now ≡ self.now }
        // The bytes are a NameOfStation, or empty.
        ensures valid { IsNameOrNone self.now }
        // There are at most 240 bytes.
        ensures length { length result.now ≤ 240 }
    {
        self.text.as_slice()
    }

    /// A copy of the name. It is not `Clone`: a clone may run out of memory, and this cannot.
    pub fn copy(&self) -> StationName
        ensures { result ≡ self.now }
    {
        StationName {
            text: text_of(self.text.as_slice()),
        }
    }
}

/// A buffer with the bytes of a name.
fn text_of(bytes: &[u8]) -> ArrayVec<u8, 240>
    requires { length bytes.now ≤ 240 }
    ensures { result.items ≡ bytes.now }
{
    let mut text = ArrayVec::new();
    text.try_extend_from_slice(bytes).unwrap();
    text
}
