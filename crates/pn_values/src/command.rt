// Commands that change the settings.
ghost use Rattle.std.specs.Prelude.{◌≡◌};
ghost use Rattle.pn_values.specs.Command.{apply, show, without_texts as no_texts, without_address as no_address};

use crate::{ImValue, IpSuite, Padded, Settings, StationName};

/// A change of the settings that a station is asked for by DCP Set (IEC 61158-6-10, 4.3) or by a Write of an I&M
/// record.
#[derive(Drop)]
pub enum Command {
    /// The station name; `permanent` says whether it is kept over a power failure.
    SetName { permanent: bool, name: StationName },
    /// The IP suite; `permanent` says whether it is kept over a power failure.
    SetIp { permanent: bool, suite: IpSuite },
    /// An I&M text.
    SetIm(ImValue),
    /// ResetToFactory mode 1: the I&M texts become blank, and I&M4 becomes zeros.
    ResetApplication,
    /// ResetToFactory mode 2: no name and no address.
    ResetCommunication,
    /// FactoryReset: both resets.
    ResetAll,
}

impl Command {
    /// The stored settings after the command. A value that is not permanent clears the stored one, so that it is lost
    /// with the power.
    pub fn apply(&self, settings: Settings) -> Settings
        ensures { result ≡ apply self.now settings }
    {
        match self {
            Command::SetName { permanent, .. } if !*permanent => Settings {
                name: StationName::none(),
                ..settings
            },
            Command::SetIp { permanent, .. } if !*permanent => Settings {
                suite: IpSuite::zero(),
                ..settings
            },
            _ => self.show(settings),
        }
    }

    /// The running settings after the command: the new values, permanent or not.
    pub fn show(&self, settings: Settings) -> Settings
        ensures { result ≡ show self.now settings }
    {
        match self {
            Command::SetName { name, .. } => Settings {
                name: name.copy(),
                ..settings
            },
            Command::SetIp { suite, .. } => Settings {
                suite: *suite,
                ..settings
            },
            Command::SetIm(ImValue::Im1(text)) => Settings {
                im1: *text,
                ..settings
            },
            Command::SetIm(ImValue::Im2(text)) => Settings {
                im2: *text,
                ..settings
            },
            Command::SetIm(ImValue::Im3(text)) => Settings {
                im3: *text,
                ..settings
            },
            Command::SetIm(ImValue::Im4(text)) => Settings {
                im4: *text,
                ..settings
            },
            Command::ResetApplication => without_texts(settings),
            Command::ResetCommunication => without_address(settings),
            Command::ResetAll => without_texts(without_address(settings)),
        }
    }
}

fn without_texts(settings: Settings) -> Settings
    ensures { result ≡ no_texts settings }
{
    Settings {
        im1: Padded::blank(),
        im2: Padded::blank(),
        im3: Padded::blank(),
        im4: Padded::zero(),
        ..settings
    }
}

fn without_address(settings: Settings) -> Settings
    ensures { result ≡ no_address settings }
{
    Settings {
        name: StationName::none(),
        suite: IpSuite::zero(),
        ..settings
    }
}
