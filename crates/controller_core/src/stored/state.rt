// The state of a controller, and why it ended.
ghost use Rattle.std.specs.Prelude.{◌≡◌};
ghost use Rattle.controller_core.specs.stored.Cause.{cause_of, number_of};
ghost use Rattle.controller_core.specs.stored.State.{is_limited, is_writing, left_in, patience_in, phase_for};

use controller_messages::{ControllerOptions, Request};
use pn_alarms::Abort;
use rpc_core::Status;

/// Why a controller ended.
#[derive(Clone, Copy, Debug, PartialEq, Eq)]
pub enum Cause {
    /// The station does not have the plan's VendorID and DeviceID.
    WrongDevice = 1,
    /// The device refused a request.
    Refused = 2,
    /// The modules that are plugged in the device are not those that the plan expects.
    ModuleDiff = 3,
    /// No cyclic frame arrived within the data hold time.
    DataHold = 4,
    /// The device ended the relation.
    Aborted = 5,
    /// An AlarmAck was sent as often as allowed without an ACK.
    AlarmRetries = 6,
    /// The application stopped the controller.
    Stopped = 7,
    /// A state lasted as long as its patience: its answer, or ApplicationReady, did not come in time.
    NoProgress = 8,
}

impl Cause {
    /// The number of this cause, 1 to 8.
    pub fn number(self) -> u8
        ensures { result ≡ number_of self }
    {
        self as u8
    }
}

/// A record of the plan that the device refused.
#[derive(Clone, Copy, Debug, PartialEq, Eq)]
pub struct RefusedRecord {
    /// Its place among the plan's records, counted from 0.
    pub number: u32,
    /// Its PNIOStatus: that of the response to its Write, or of its own block if the Write carried a list.
    pub status: Status,
}

/// The state of a controller.
#[derive(Clone, Copy, Debug, PartialEq, Eq)]
pub enum State {
    /// It looks for the station by its name.
    Looking,
    /// It sets the station's IP suite.
    Addressing,
    /// It asks for the relation, with Connect.
    Connecting,
    /// It writes records.
    Writing,
    /// It ends the parameters, with PrmEnd.
    Ending,
    /// It waits for ApplicationReady.
    Waiting,
    /// It exchanges data.
    Exchanging,
    /// It has ended.
    Ended(Cause),
}

/// The state in which this request, a Write or PrmEnd, is active.
pub fn phase_for(request: Request) -> State
    ensures { result ≡ phase_for request }
{
    match request {
        Request::Write(_) | Request::WriteAfter(_, _) => State::Writing,
        _ => State::Ending,
    }
}

/// The units that this state may last, 0 without a limit.
fn patience_in(options: &ControllerOptions, state: State) -> u32
    ensures { result ≡ patience_in options.now state }
{
    match state {
        State::Addressing | State::Connecting | State::Writing | State::Ending => options.patience,
        State::Waiting => options.waiting_patience,
        State::Looking | State::Exchanging | State::Ended(_) => 0,
    }
}

/// The units that the next state may still last, if the state before it may last this many more. All Writes together are
/// one state.
pub fn left_in(options: &ControllerOptions, left: u32, before: State, next: State) -> u32
    ensures { result ≡ left_in options.now left before next }
{
    if is_writing(before) && is_writing(next) {
        left
    } else {
        patience_in(options, next)
    }
}

/// Whether records are written.
fn is_writing(state: State) -> bool
    ensures { result ≡ is_writing state }
{
    match state {
        State::Writing => true,
        State::Looking
        | State::Addressing
        | State::Connecting
        | State::Ending
        | State::Waiting
        | State::Exchanging
        | State::Ended(_) => false,
    }
}

/// Whether this state has a limit if the options set one.
pub fn is_limited(state: State) -> bool
    ensures { result ≡ is_limited state }
{
    match state {
        State::Addressing | State::Connecting | State::Writing | State::Ending | State::Waiting =>
            true,
        State::Looking | State::Exchanging | State::Ended(_) => false,
    }
}

/// Why the controller ends if its relation ends for this reason.
pub fn cause_of(reason: Abort) -> Cause
    ensures { result ≡ cause_of reason }
{
    match reason {
        Abort::DataHold => Cause::DataHold,
        Abort::Activity | Abort::Other => Cause::AlarmRetries,
    }
}
