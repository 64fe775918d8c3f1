//! What happens to a device.
ghost use Rattle.std.specs.Prelude.{◌≡◌, take};
ghost use Rattle.device_frames.specs.declared.event.Event.TheVariants.{Application};
ghost use Rattle.device_frames.specs.declared.local.Local.TheVariants as local;

use crate::{Local, Octets};
use frame_codec::Caller;
use lldp::Neighbour;
use pn_values::RealSubmodule;

/// What happens to a device. It borrows its octets.
// The tag is an octet of its own: in an unused value of `Neighbour`, where the compiler puts it, it costs each step 3 instructions.
#[derive(Drop)]
#[repr(u8)]
pub enum Event<'a> {
    /// These octets came from the network. Of a longer frame only the first 1,519 octets are given, which are refused
    /// in the same way.
    Frame(Octets<'a, 1519>),
    /// A call came in fragments, from this caller to this IP address, and was joined: its header, and a body of at most 4,152
    /// octets.
    Call(Caller, [u8; 4], Octets<'a, 4232>),
    /// A unit of 31.25 microseconds is over.
    Tick,
    /// This is the neighbour of the station from now on: what its port leads to, or nothing that is known.
    Neighbour(Option<Neighbour>),
    /// The application says this.
    Application(Local<Octets<'a, 1519>>),
}

impl<'a> Event<'a> {
    /// The application sets the input of the submodule in this slot and subslot. Of longer data only the first 1,519 octets are
    /// given, which are refused in the same way.
    #[inline(always)]
    pub fn input(slot: u16, subslot: u16, octets: &'a [u8]) -> Event<'a>
        ensures { result ≡ Application (local.Input slot subslot (record { items = take 1519 octets.now })) }
    {
        Event::Application(Local::Input(slot, subslot, Octets::of(octets)))
    }

    /// The application raises a process alarm of the submodule in this slot and subslot. Of more data only the first 1,519
    /// octets are given, which are refused in the same way.
    #[inline(always)]
    pub fn alarm(slot: u16, subslot: u16, octets: &'a [u8]) -> Event<'a>
        ensures { result ≡ Application (local.Alarm slot subslot (record { items = take 1519 octets.now })) }
    {
        Event::Application(Local::Alarm(slot, subslot, Octets::of(octets)))
    }

    /// The application says whether the inputs of the submodule in this slot and subslot are good.
    #[inline(always)]
    pub fn status(slot: u16, subslot: u16, is_good: bool) -> Event<'a>
        ensures { result ≡ Application (local.Status slot subslot is_good) }
    {
        Event::Application(Local::Status(slot, subslot, is_good))
    }

    /// A diagnosis of the submodule in this slot and subslot, of this channel and with this ChannelErrorType, appears or
    /// disappears.
    #[inline(always)]
    pub fn diagnosis(slot: u16, subslot: u16, channel: u16, error: u16, appears: bool) -> Event<'a>
        ensures { result ≡ Application (local.Diagnosis slot subslot channel error appears) }
    {
        Event::Application(Local::Diagnosis(slot, subslot, channel, error, appears))
    }

    /// The submodule in this slot and subslot is pulled. Its module stays, also without submodules.
    #[inline(always)]
    pub fn pull(slot: u16, subslot: u16) -> Event<'a>
        ensures { result ≡ Application (local.Pull slot subslot) }
    {
        Event::Application(Local::Pull(slot, subslot))
    }

    /// The module in this slot is pulled, with all its submodules.
    #[inline(always)]
    pub fn pull_module(slot: u16) -> Event<'a>
        ensures { result ≡ Application (local.PullModule slot) }
    {
        Event::Application(Local::PullModule(slot))
    }

    /// This submodule is plugged into this slot, with a module of this ident number if the slot is empty.
    #[inline(always)]
    pub fn plug(slot: u16, module_ident: u32, submodule: RealSubmodule) -> Event<'a>
        ensures { result ≡ Application (local.Plug slot module_ident submodule) }
    {
        Event::Application(Local::Plug(slot, module_ident, submodule))
    }

    /// The application is ready for the plug in this slot and subslot.
    #[inline(always)]
    pub fn ready_at(slot: u16, subslot: u16) -> Event<'a>
        ensures { result ≡ Application (local.ReadyAt slot subslot) }
    {
        Event::Application(Local::ReadyAt(slot, subslot))
    }

    /// The application is ready.
    #[inline(always)]
    pub fn ready() -> Event<'a>
        ensures { result ≡ Application local.Ready }
    {
        Event::Application(Local::Ready)
    }

    /// The application runs from now on, or is stopped.
    #[inline(always)]
    pub fn provider_state(is_running: bool) -> Event<'a>
        ensures { result ≡ Application (local.ProviderState is_running) }
    {
        Event::Application(Local::ProviderState(is_running))
    }

    /// The application answers the question with this number by the octets of a record. Of more than 1,519 octets only the
    /// first are given, which are refused in the same way.
    #[inline(always)]
    pub fn answer(number: u32, octets: &'a [u8]) -> Event<'a>
        ensures { result ≡ Application (local.Answer number (record { items = take 1519 octets.now })) }
    {
        Event::Application(Local::Answer(number, Octets::of(octets)))
    }

    /// The application has written the record of the question with this number.
    #[inline(always)]
    pub fn written(number: u32) -> Event<'a>
        ensures { result ≡ Application (local.Written number) }
    {
        Event::Application(Local::Written(number))
    }

    /// The application refuses the question with this number, with this ErrorCode1 and ErrorCode2.
    #[inline(always)]
    pub fn refuse(number: u32, code1: u8, code2: u8) -> Event<'a>
        ensures { result ≡ Application (local.Refuse number code1 code2) }
    {
        Event::Application(Local::Refuse(number, code1, code2))
    }
}
