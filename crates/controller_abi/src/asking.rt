//! Who is at a place, and the name for that station.
ghost use Rattle.std.specs.Prelude.{◌≡◌, ◌≢◌, take};
ghost use Rattle.commissioning.specs.Named.{named_by, why_unnamed};
ghost use Rattle.commissioning.specs.Place.{IsTidy, after_frame, name_of, place_of};
ghost use Rattle.controller_abi.specs.Tool.{IsFind, IsName, IsNamed, IsOutcome, tool_in, why_number};

use crate::tool::{WrittenTool, first_of, next_of, tool_of};
use c_layout::{BAD_LENGTH, Op, PLAN_FAULT, put};
use commissioning::{Search, Unnamed};
use pn_values::{Mac, StationName};
use station_names::check;

/// No answer to the request was in the frame.
pub(crate) const NO_ANSWER: u32 = 27;

/// The number for a name that is not valid.
const BAD_NAME: u32 = PLAN_FAULT + 9;

/// The most octets of a name by the place.
const MOST_ALIAS: usize = 511;

/// Begins a search: writes the frame that asks all stations which one has this name by its place, with the tool's next number. Returns 0, or
/// why not; then nothing changes.
pub fn find(tool: &mut WrittenTool, search: &mut Search, alias: &[u8], op: &mut Op) -> u32
    ensures { IsFind tool.old search.old alias.now op.old result tool.new search.new op.new }
{
    if alias.is_empty() || alias.len() > MOST_ALIAS {
        return BAD_LENGTH;
    }
    let octets = tool.mac;
    tool.xid = next_of(tool.xid);
    let frame = search.ask(Mac { octets }, tool.xid, alias);
    put(op, frame.as_slice());
    0
}

/// Hears a received frame: only an answer to the question of this search counts, by its number.
pub fn hear(tool: &WrittenTool, search: &mut Search, given: &[u8])
    ensures place { place_of search.new ≡ after_frame (tool_in tool.now) search.old.xid (place_of search.old) (take 1519 given.now) }
    // It goes on to ask by this number.
    ensures number { search.new.xid ≡ search.old.xid }
    // A host finds no more than was reported.
    ensures tidy { IsTidy search.old → IsTidy search.new }
    // After the answer of a second station the name is still that of the first one.
    ensures kept { search.old.stations ≢ 0 → search.new.stations ≢ 1 → name_of search.new ≡ name_of search.old }
{
    search.hear(&tool_of(tool), &first_of(given));
}

/// Writes the frame by which the station at the place gets this name, with the tool's next number. Returns 0, or why not; then nothing changes.
pub fn name(tool: &mut WrittenTool, search: &Search, text: &[u8], op: &mut Op) -> u32
    ensures { IsName tool.old (place_of search.now) text.now op.old result tool.new op.new }
{
    match check(text) {
        Ok(name) => write_name(tool, search, &name, op),
        Err(_) => BAD_NAME,
    }
}

// The same of a valid name.
fn write_name(tool: &mut WrittenTool, search: &Search, name: &StationName, op: &mut Op) -> u32
    ensures { IsNamed (why_unnamed (place_of search.now)) tool.old (place_of search.now) name.now op.old result tool.new op.new }
{
    let next = next_of(tool.xid);
    match search.name(&tool_of(tool), next, name) {
        Ok(frame) => {
            tool.xid = next;
            put(op, frame.as_slice());
            0
        }
        Err(why) => number_of(why),
    }
}

// The number for why no station gets a name.
fn number_of(why: Unnamed) -> u32
    ensures { result ≡ why_number why }
{
    match why {
        Unnamed::Nobody => 28,
        Unnamed::Several => 29,
        Unnamed::Named => 30,
        Unnamed::Untold => 31,
    }
}

/// What a received frame answers to that Set, which was the tool's last request: the BlockError in `block_error`, 0 if the station has the name. Returns 0, or that it
/// answers nothing.
pub fn outcome(tool: &WrittenTool, search: &Search, given: &[u8], op: &mut Op) -> u32
    ensures { IsOutcome (named_by (tool_in tool.now) tool.now.xid (place_of search.now) (take 1519 given.now)) op.old result op.new }
{
    match search.outcome(&tool_of(tool), tool.xid, &first_of(given)) {
        Some(error) => {
            op.block_error = u32::from(error);
            0
        }
        None => NO_ANSWER,
    }
}
