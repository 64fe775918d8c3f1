ghost use Rattle.std.specs.Prelude.{◌≡◌};
ghost use Rattle.rpc_core.specs.Interface.{interface_uuid};

use uuid::Uuid;

/// The interfaces of PROFINET IO (IEC 61158-6-10, 4.10.3.2.8).
#[derive(Clone, Copy, Debug, PartialEq, Eq)]
pub enum Interface {
    /// `DEA00001-6C97-11D1-8271-00A02442DF7D`, which a device serves.
    Device,
    /// `DEA00002-6C97-11D1-8271-00A02442DF7D`, which a controller serves.
    Controller,
}

impl Interface {
    /// The identifier of the interface in a call.
    pub fn uuid(self) -> Uuid
        ensures { result ≡ interface_uuid self }
    {
        let last = match self {
            Interface::Device => 1,
            Interface::Controller => 2,
        };
        Uuid::from_bytes([
            0xDE, 0xA0, 0x00, last, 0x6C, 0x97, 0x11, 0xD1, 0x82, 0x71, 0x00, 0xA0, 0x24, 0x42,
            0xDF, 0x7D,
        ])
    }
}
