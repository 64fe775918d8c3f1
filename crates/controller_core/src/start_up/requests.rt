//! The request that follows, and the number of its call.
ghost use Rattle.std.specs.Prelude.{◌≡◌, ◌+◌};
ghost use Rattle.controller_messages.specs.Requests.{writing_after, writing_from};
ghost use Rattle.controller_core.specs.start_up.Requests.{next_sequence};

use controller_messages::{Request, call_number, write_count};
use plans::Plan;

/// The number of the call after the last one, after this many requests of the application.
pub fn next_sequence(plan: &Plan, calls: u32, asked: Option<Request>) -> u32
    ensures { result ≡ next_sequence plan.now calls asked }
{
    match asked {
        Some(Request::Connect) => 1,
        Some(Request::Write(number)) => u32::from(number) + 2,
        Some(Request::WriteAfter(number, tries)) => u32::from(number) + u32::from(tries) + 2,
        _ => call_number(plan, calls),
    }
}

/// The request after the Write with this number.
pub fn request_behind(plan: &Plan, number: u16) -> Request
    ensures { result ≡ writing_from plan.now (number + 1) }
{
    if u32::from(number) + 1 < write_count(plan) {
        Request::Write(number + 1)
    } else {
        Request::PrmEnd
    }
}

/// The request after the Write with this number, after this many calls were refused as busy.
pub fn request_after(plan: &Plan, number: u16, tries: u16) -> Request
    ensures { result ≡ writing_after plan.now (number + 1) tries }
{
    if u32::from(number) + 1 < write_count(plan) {
        Request::WriteAfter(number + 1, tries)
    } else {
        Request::PrmEndAfter(tries)
    }
}
