//! The values in a host's memory when C calls a library: one operation, and the modules that are plugged in a station; and
//! the numbers that the libraries return.
#![tactic(auto)]

mod number;
mod op;
mod plugged;

pub use number::{
    BAD_ABI, BAD_DATA, BAD_LENGTH, BAD_MAC, BAD_OPTION, BAD_PARAMETER, BAD_PLAN, BAD_RECORD,
    BAD_SLOT, BAD_STATION, BAD_SUBSLOT, HAS_WORK, NO_FRAME, NO_PLACE, NO_RECORD, NO_SLOT,
    NOT_ASKED, PLAN_FAULT, REFUSED, SMALL_ROOM, UNKNOWN,
};
pub use op::{Op, pair_of, place_of, put, put_more};
pub use plugged::{
    Module, Parameter, Submodule, are_modules, are_parameters, modules, parameters_in,
    submodules_in,
};
