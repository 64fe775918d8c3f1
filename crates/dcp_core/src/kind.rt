// The kinds of blocks.
ghost use Rattle.std.specs.Prelude.{◌≡◌};
ghost use Rattle.dcp_core.specs.Kinds.{kind_of, option_of, suboption_of, blame, is_same};

use pn_values::BlockError;

/// The kind of a block or pair: Option and Suboption (IEC 61158-6-10, 4.3.1.4.1).
#[derive(Clone, Copy, Debug, PartialEq, Eq)]
pub enum Kind {
    /// 1/1: the MAC address.
    MacAddress,
    /// 1/2: the IP suite.
    IpSuite,
    /// 2/1: DeviceVendorValue.
    StationType,
    /// 2/2: NameOfStation.
    NameOfStation,
    /// 2/3: VendorID and DeviceID.
    DeviceId,
    /// 2/4: DeviceRole.
    DeviceRole,
    /// 2/5: the options that the device knows.
    DeviceOptions,
    /// 2/6: AliasName, the name of the station by its place.
    AliasName,
    /// 2/7: DeviceInstance.
    DeviceInstance,
    /// 5/3: the signal lamp.
    Signal,
    /// 5/4: the outcome of one block of a Set, or of one pair of a Get.
    Response,
    /// 5/5: FactoryReset.
    FactoryReset,
    /// 5/6: ResetToFactory.
    ResetToFactory,
    /// FF/FF: all stations, in an Identify.
    All,
    /// Any other Option and Suboption.
    Other { option: u8, suboption: u8 },
}

impl Kind {
    /// The kind of an Option and a Suboption.
    pub fn of(option: u8, suboption: u8) -> Kind
        // The result is the kind of these numbers.
        ensures value { result ≡ kind_of option suboption }
        // The kind has this Option.
        ensures option { option_of result ≡ option }
        // The kind has this Suboption.
        ensures suboption { suboption_of result ≡ suboption }
    {
        match (option, suboption) {
            (1, 1) => Kind::MacAddress,
            (1, 2) => Kind::IpSuite,
            (2, 1) => Kind::StationType,
            (2, 2) => Kind::NameOfStation,
            (2, 3) => Kind::DeviceId,
            (2, 4) => Kind::DeviceRole,
            (2, 5) => Kind::DeviceOptions,
            (2, 6) => Kind::AliasName,
            (2, 7) => Kind::DeviceInstance,
            (5, 3) => Kind::Signal,
            (5, 4) => Kind::Response,
            (5, 5) => Kind::FactoryReset,
            (5, 6) => Kind::ResetToFactory,
            (255, 255) => Kind::All,
            _ => Kind::Other { option, suboption },
        }
    }

    /// The Option.
    pub fn option(self) -> u8
        ensures { result ≡ option_of self }
    {
        match self {
            Kind::MacAddress | Kind::IpSuite => 1,
            Kind::StationType
            | Kind::NameOfStation
            | Kind::DeviceId
            | Kind::DeviceRole
            | Kind::DeviceOptions
            | Kind::AliasName
            | Kind::DeviceInstance => 2,
            Kind::Signal | Kind::Response | Kind::FactoryReset | Kind::ResetToFactory => 5,
            Kind::All => 255,
            Kind::Other { option, .. } => option,
        }
    }

    /// The Suboption.
    pub fn suboption(self) -> u8
        ensures { result ≡ suboption_of self }
    {
        match self {
            Kind::MacAddress | Kind::StationType => 1,
            Kind::IpSuite | Kind::NameOfStation => 2,
            Kind::DeviceId | Kind::Signal => 3,
            Kind::DeviceRole | Kind::Response => 4,
            Kind::DeviceOptions | Kind::FactoryReset => 5,
            Kind::AliasName | Kind::ResetToFactory => 6,
            Kind::DeviceInstance => 7,
            Kind::All => 255,
            Kind::Other { suboption, .. } => suboption,
        }
    }

    /// The error if the kind cannot be read or set: the suboption, if the Option is one that a device has (1 IP, 2
    /// device properties, 5 control), else the option.
    pub(crate) fn blame(self) -> BlockError
        ensures { result ≡ blame self }
    {
        match self.option() {
            1 | 2 | 5 => BlockError::Suboption,
            _ => BlockError::Option,
        }
    }

    /// Whether Option and Suboption are the same as those of the other kind.
    pub(crate) fn is_same(self, other: Kind) -> bool
        ensures { result ≡ is_same self other }
    {
        self.option() == other.option() && self.suboption() == other.suboption()
    }
}
