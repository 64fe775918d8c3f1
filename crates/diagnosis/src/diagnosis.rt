//! A diagnosis, and a change of what exists.
ghost use Rattle.std.specs.Prelude.{◌≡◌};
ghost use Rattle.diagnosis.specs.Existing.{is_at, is_same, is_valid};
ghost use Rattle.diagnosis.specs.Notices.{channel_bytes, properties_of, type_of};

/// ChannelNumber of a diagnosis of the submodule itself.
pub const WHOLE_SUBMODULE: u16 = 0x8000;

/// A diagnosis: what is wrong at a channel of a submodule.
#[derive(Clone, Copy, Debug, Default, PartialEq, Eq)]
pub struct Diagnosis {
    /// SlotNumber.
    pub slot: u16,
    /// SubslotNumber.
    pub subslot: u16,
    /// ChannelNumber: 0 to 0x7FFF, or `WHOLE_SUBMODULE`.
    pub channel: u16,
    /// ChannelErrorType, from 1.
    pub error: u16,
}

impl Diagnosis {
    /// Whether its numbers are in their ranges.
    pub fn is_valid(&self) -> bool
        ensures { result ≡ is_valid self.now }
    {
        self.channel <= WHOLE_SUBMODULE && self.error != 0
    }

    /// Whether it is one of this submodule.
    pub fn is_at(&self, slot: u16, subslot: u16) -> bool
        ensures { result ≡ is_at slot subslot self.now }
    {
        self.slot == slot && self.subslot == subslot
    }

    /// Whether the other one is the same.
    pub fn is_same(&self, other: &Diagnosis) -> bool
        ensures { result ≡ is_same self.now other.now }
    {
        other.is_at(self.slot, self.subslot)
            && self.channel == other.channel
            && self.error == other.error
    }
}

/// A diagnosis that appears or disappears.
#[derive(Clone, Copy, Debug, Default, PartialEq, Eq)]
pub struct Change {
    /// The diagnosis.
    pub diagnosis: Diagnosis,
    /// Whether it appears.
    pub appears: bool,
}

impl Change {
    /// AlarmType of the alarm that reports it.
    pub fn alarm_type(&self) -> u16
        ensures { result ≡ type_of self.now }
    {
        if self.appears { 1 } else { 0x000C }
    }

    /// ChannelNumber, ChannelProperties and ChannelErrorType: what follows UserStructureIdentifier 0x8000.
    pub fn octets(&self) -> [u8; 6]
        ensures { result ≡ channel_bytes self.now }
    {
        let channel = self.diagnosis.channel.to_be_bytes();
        let properties = self.properties().to_be_bytes();
        let error = self.diagnosis.error.to_be_bytes();
        [
            channel[0],
            channel[1],
            properties[0],
            properties[1],
            error[0],
            error[1],
        ]
    }

    /// ChannelProperties.
    fn properties(&self) -> u16
        ensures { result ≡ properties_of self.now }
    {
        if self.appears { 0x0800 } else { 0x1000 }
    }
}
