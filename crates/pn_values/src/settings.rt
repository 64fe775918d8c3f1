// The settings that a station keeps over a power failure.
ghost use Rattle.std.specs.Prelude.{◌≡◌};
ghost use Rattle.pn_values.specs.Settings.{factory_settings};

use crate::{IpSuite, Padded, StationName};

/// The settings that a station keeps over a power failure: its name, its IP suite and the I&M texts.
#[derive(Drop)]
pub struct Settings {
    pub name: StationName,
    pub suite: IpSuite,
    pub im1: Padded<54>,
    pub im2: Padded<16>,
    pub im3: Padded<54>,
    pub im4: Padded<54>,
}

impl Settings {
    /// The factory settings: no name, no address, texts of spaces, and an I&M4 of zeros.
    pub fn factory() -> Settings
        ensures { result ≡ factory_settings }
    {
        Settings {
            name: StationName::none(),
            suite: IpSuite::zero(),
            im1: Padded::blank(),
            im2: Padded::blank(),
            im3: Padded::blank(),
            im4: Padded::zero(),
        }
    }

    /// A copy of the settings. They are not `Clone`: a clone may run out of memory, and this cannot.
    pub fn copy(&self) -> Settings
        ensures { result ≡ self.now }
    {
        Settings {
            name: self.name.copy(),
            suite: self.suite,
            im1: self.im1,
            im2: self.im2,
            im3: self.im3,
            im4: self.im4,
        }
    }
}
