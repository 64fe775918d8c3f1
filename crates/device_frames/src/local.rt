//! What an application says to its device.

use pn_values::RealSubmodule;

/// What an application says to its device, with its octets as `B`.
#[derive(Drop)]
#[repr(u8)]
pub enum Local<B> {
    /// The input of the submodule in this slot and subslot.
    Input(u16, u16, B),
    /// A process alarm of the submodule in this slot and subslot, with these octets.
    Alarm(u16, u16, B),
    /// Whether the inputs of the submodule in this slot and subslot are good. Without data, it is the IOPS of the submodule.
    Status(u16, u16, bool),
    /// A diagnosis of the submodule in this slot and subslot, of this channel (0 to 0x7FFF, or 0x8000 for the submodule
    /// itself) and with this ChannelErrorType, appears or disappears.
    Diagnosis(u16, u16, u16, u16, bool),
    /// The submodule in this slot and subslot is pulled. Its module stays, also without submodules.
    Pull(u16, u16),
    /// The module in this slot is pulled, with all its submodules.
    PullModule(u16),
    /// This submodule is plugged into this slot, with a module of this ident number if the slot is empty.
    Plug(u16, u32, RealSubmodule),
    /// The application is ready for the plug in this slot and subslot, whose parameters have ended. It counts once for a plug,
    /// at a device whose application says when it is ready.
    ReadyAt(u16, u16),
    /// The application is ready. It counts once in a relation: after PrmEnd, at a device whose application says when it is
    /// ready.
    Ready,
    /// Whether the application runs (`true`) or is stopped, with all its inputs: ProviderState in DataStatus of the frames that the
    /// device sends. It counts from now on, in each relation, until the device starts again.
    ProviderState(bool),
    /// The octets of a record: the answer to the question with this number, which is a Read.
    Answer(u32, B),
    /// A record was written: the answer to the question with this number, which is a Write.
    Written(u32),
    /// The question with this number is refused with this ErrorCode1, 0xA0 to 0xAF, and this ErrorCode2.
    Refuse(u32, u8, u8),
}
