use plans::Plan;
use wire::Uuid;

/// How long a state of a controller may last before it ends: its patience, in units of 31.25 microseconds. 0 is without a
/// limit. Looking for the station, exchanging data and the end have no limit.
#[derive(Clone, Copy, Debug, PartialEq, Eq)]
pub struct ControllerOptions {
    /// The patience of each of these states: it sets the IP suite, asks for the relation, writes records (all of them
    /// together), ends the parameters.
    pub patience: u32,
    /// The patience of the wait for ApplicationReady: an application may need long until it is ready.
    pub waiting_patience: u32,
}

impl Default for ControllerOptions {
    ghost use Rattle.std.specs.Prelude.{◌≡◌};
    ghost use Rattle.controller_messages.specs.Options.{default_options};

    ghost is_default = { λ options. options ≡ default_options };

    /// No state has a limit.
    fn default() -> ControllerOptions {
        ControllerOptions {
            patience: 0,
            waiting_patience: 0,
        }
    }
}

/// The configuration of a controller.
#[derive(Drop)]
pub struct Setup {
    pub plan: Plan,
    /// ARUUID: the identifier of its relation.
    pub ar: Uuid,
    /// The activity of its calls.
    pub activity: Uuid,
    /// Its options.
    pub options: ControllerOptions,
}
