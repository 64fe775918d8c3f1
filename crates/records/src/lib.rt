//! Records and the calls that read and write them (IEC 61158-6-10, 5.2.3 and 5.2.6): how a Read or Write names its relation
//! and its place, what the device answers, and the PNIOStatus of each refusal.
//!
//! `status` has the operations and their faults, `calls` the blocks that a call has, `reads` and `writes` the two services.
#![tactic(auto)]

mod calls;
mod reads;
mod status;
mod writes;

pub use calls::{check_relation, is_relation, single_block};
pub use reads::{
    Blocks, Level, Listing, check_place, listing_of, names_relation, parameter_length,
    put_identification, put_read_answer, read_request, request_within, serve, serve_listing,
    serve_within,
};
pub use status::{CallFault, Operation, Status, done, refusals_are_not_done};
pub use writes::{
    Effect, Entries, Entry, TakenRecord, TakenRecords, Write, Writing, judge_record, judge_write,
    put_write_answer, put_write_outcome,
};
