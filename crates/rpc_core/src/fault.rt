ghost use Rattle.std.specs.Prelude.{◌≡◌};
ghost use Rattle.rpc_core.specs.Fault.{fault_number};

/// Why octets are not a call or a response. The first fault in this order is returned.
#[derive(Clone, Copy, Debug, PartialEq, Eq)]
pub enum RpcFault {
    /// The header of 80 octets is incomplete, or the body's length is below 20 or above the number of octets after the
    /// header.
    Short,
    /// The version is not 4, the packet type is not the expected one, or there is authentication.
    Version,
    /// The integer representation is neither big endian (0) nor little endian (1).
    Representation,
    /// The flag 'fragment' is set, or the fragment's number is not 0.
    Fragment,
    /// The interface is not the one that is served.
    Interface,
    /// Offset is not 0, or ArgsLength differs from ActualCount or exceeds the octets present.
    Args,
}

impl RpcFault {
    /// The number of the fault, from 1.
    pub fn number(self) -> u8
        ensures { result ≡ fault_number self }
    {
        match self {
            RpcFault::Short => 1,
            RpcFault::Version => 2,
            RpcFault::Representation => 3,
            RpcFault::Fragment => 4,
            RpcFault::Interface => 5,
            RpcFault::Args => 6,
        }
    }
}
