// The commands of the program, and what they print.
use crate::words::{bytes, number, place, put_hex, put_number, state_word, two_words, uuid, wrong};
use configurator::plan_from_json;
use controller_core::{Controller, Event, State};
use frame_codec::Outbox;
use std::alloc::{AllocError, Global};
use std::io;

/// Starts a controller, and appends its first frame and its state.
pub(crate) fn start(alloc: Global, rest: &str, text: &mut String) -> io::Result<Controller> {
    let (ar, rest) = two_words(rest)?;
    let (activity, catalogue) = two_words(rest)?;
    let Ok(plan) = plan_from_json(alloc, catalogue.as_bytes()) else {
        return Err(wrong());
    };
    let started = Controller::new(plan, uuid(ar)?, uuid(activity)?);
    put_frame(alloc, started.opening().as_slice(), text)?;
    put_state(started.state(), text)?;
    Ok(started)
}

/// Runs a line, and appends its result.
pub(crate) fn put_line(
    alloc: Global,
    controller: &mut Controller,
    line: &str,
    outbox: &mut Outbox,
    text: &mut String,
) -> io::Result<()> {
    let (word, rest) = line.split_once(' ').unwrap_or((line, ""));
    match word {
        "value" => return put_value(alloc, controller, rest, text),
        "alarm" => return Ok(put_alarm(alloc, controller, text)?),
        "ar" => return Ok(put_ar(alloc, controller, text)?),
        "tick" => put_ticks(alloc, controller, number(rest)?, outbox, text)?,
        _ => put_step(alloc, controller, &event(alloc, word, rest)?, outbox, text)?,
    }
    Ok(put_state(controller.state(), text)?)
}

/// The event of a line that is neither a query nor a `tick`.
fn event(alloc: Global, word: &str, rest: &str) -> io::Result<Event> {
    match word {
        "frame" => Ok(Event::Frame(bytes(alloc, rest)?)),
        "give" => {
            let (slot, rest) = two_words(rest)?;
            let (subslot, value) = two_words(rest)?;
            Ok(Event::Give(place(slot)?, place(subslot)?, bytes(alloc, value)?))
        }
        "stop" => Ok(Event::Stop),
        _ => Err(wrong()),
    }
}

/// Appends the line of a frame.
fn put_frame(alloc: Global, frame: &[u8], text: &mut String) -> Result<(), AllocError> {
    text.push_str("out ")?;
    put_hex(alloc, frame, text)?;
    text.push_str("\n")
}

/// Appends the line of a state.
fn put_state(state: State, text: &mut String) -> Result<(), AllocError> {
    text.push_str("state ")?;
    text.push_str(state_word(state))?;
    if let State::Ended(cause) = state {
        text.push_str(" ")?;
        put_number(u32::from(cause.number()), text)?;
    }
    text.push_str("\n")
}

/// Makes a step of the controller, and appends the lines of what it sends.
fn put_step(
    alloc: Global,
    controller: &mut Controller,
    event: &Event,
    outbox: &mut Outbox,
    text: &mut String,
) -> Result<(), AllocError> {
    turn(controller, event, outbox);
    for frame in outbox.as_slice() {
        put_frame(alloc, frame.as_slice(), text)?;
    }
    Ok(())
}

/// Makes one step. It is a function of its own, so that its instructions are counted separately
/// (`bench/figures/controller.py`).
#[inline(never)]
fn turn(controller: &mut Controller, event: &Event, outbox: &mut Outbox) {
    controller.step(event, outbox);
}

/// Lets units of time pass, and appends the lines of what is sent.
fn put_ticks(
    alloc: Global,
    controller: &mut Controller,
    units: u32,
    outbox: &mut Outbox,
    text: &mut String,
) -> Result<(), AllocError> {
    for _ in 0..units {
        put_step(alloc, controller, &Event::Tick, outbox, text)?;
    }
    Ok(())
}

/// Appends the line of an input.
fn put_value(
    alloc: Global,
    controller: &Controller,
    rest: &str,
    text: &mut String,
) -> io::Result<()> {
    let (slot, subslot) = two_words(rest)?;
    text.push_str("value ")?;
    match controller.value(place(slot)?, place(subslot)?) {
        Some(value) => put_hex(alloc, value, text)?,
        None => text.push_str("none")?,
    }
    Ok(text.push_str("\n")?)
}

/// Appends the line of the ARUUID.
fn put_ar(alloc: Global, controller: &Controller, text: &mut String) -> Result<(), AllocError> {
    text.push_str("ar ")?;
    put_hex(alloc, controller.ar().as_bytes(), text)?;
    text.push_str("\n")
}

/// Appends the line of the last alarm.
fn put_alarm(alloc: Global, controller: &Controller, text: &mut String) -> Result<(), AllocError> {
    let Some(alarm) = controller.alarm() else {
        return text.push_str("alarm none\n");
    };
    text.push_str("alarm")?;
    for part in [
        alarm.alarm_type,
        alarm.slot_number,
        alarm.subslot_number,
        alarm.alarm_specifier,
    ] {
        text.push_str(" ")?;
        put_number(u32::from(part), text)?;
    }
    text.push_str(" ")?;
    put_hex(alloc, alarm.alarm_data.octets(), text)?;
    text.push_str("\n")
}
