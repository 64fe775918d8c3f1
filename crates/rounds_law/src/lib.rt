//! Both ends start: the number of units within which a device and its controller exchange data, if each frame is delivered within a unit.
//!
//! `rounds` has both ends with the frames that are under way between them, and a round. `device` and `controller` have what each end does
//! with each frame of a start-up that succeeds. `law` has the law of a start, and `middle` the law of a start-up that has begun. `again` has
//! the law of a controller that starts while its device still has an earlier relation, and `power` the law of a device that loses its power
//! while data is exchanged. `anywhere` has the law of any state of both ends. `causes` has the law of starts that cannot succeed.
#![tactic(auto)]

mod again;
mod anywhere;
mod causes;
mod controller;
mod device;
mod law;
mod middle;
mod power;
mod rounds;

pub use again::{
    both_ends_come_back, controller_ends_halfway, controller_ends_refused, device_denies_calls,
    device_keeps_an_earlier_relation,
};
pub use anywhere::{both_ends_come_back_after_any_pause, both_ends_come_back_from_anywhere};
pub use causes::starts_end_with_their_cause;
pub use controller::{
    controller_asks_again, controller_finds_its_device, controller_goes_on_in_time,
    controller_takes_responses,
};
pub use device::{
    device_answers_the_search, device_goes_on_in_time, device_repeats, device_takes_calls,
    device_takes_writes,
};
pub use law::both_ends_start;
pub use middle::{both_ends_go_on, controller_waits_for_ready, device_waits_for_a_response};
pub use power::power_comes_back;
pub use rounds::Net;
