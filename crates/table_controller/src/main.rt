//! A controller alone, line by line:
//!
//! ```text
//! start AR ACTIVITY JSON    starts a controller with this ARUUID, this activity UUID of its calls and the plan of this catalogue, in
//!                           place of the last one
//! frame HEX                 these octets come from the network
//! tick N                    N units of 31.25 microseconds pass
//! give S SS HEX             the application sets the output of the submodule in slot S and subslot SS
//! stop                      the application stops the controller
//! value S SS                prints the input of that submodule
//! alarm                     prints the last accepted alarm
//! ar                        prints the ARUUID
//! ```
//!
//! Each of the first five prints `out HEX` for each frame that is sent, and then `state WORD`. `value` prints `value
//! HEX`, or `value none` if there is no such input. `alarm` prints `alarm TYPE SLOT SUBSLOT SPECIFIER HEX`, or `alarm
//! none`. `ar` prints `ar HEX`. Empty octets are printed as `-`.
//!
//! `stdin` is what a station of Scapy's layers says (`tests/interoperation/scapy_station.py`), and `stdout` is what a
//! controller must do by the rules alone, with each frame as Scapy builds it. Neither shares a line with this
//! repository's crates.
#![tactic(auto)]

mod line;
mod words;

use controller_core::Controller;
use frame_codec::Outbox;
use std::io::{self, Write};

fn main(rt: HostRuntime) -> io::Result<()> {
    let lines = io::read_to_string(rt.alloc(), rt.reader())?;
    let mut controller: Option<Controller> = None;
    let mut outbox = Outbox::new();
    let mut text = String::new(rt.alloc());
    for line in lines.lines() {
        if let Some(rest) = line.strip_prefix("start ") {
            controller = Some(line::start(rt.alloc(), rest, &mut text)?);
        } else if let Some(started) = &mut controller {
            line::put_line(rt.alloc(), started, line, &mut outbox, &mut text)?;
        } else {
            return Err(words::wrong());
        }
    }
    io::writer(&rt).write_all(text.as_bytes())
}
