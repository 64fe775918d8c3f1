//! The parts that all kinds of PROFINET blocks share (IEC 61158-6-10, 5.2): the faults of a block, its version, and the field
//! lists from which the reader, writer and length of each kind are made.
//!
//! # A kind of blocks
//!
//! A kind is a struct, one list of fields as a macro, and one format in `specs/`. The list names the fields in the order
//! in which they are sent. A field with no name is not in the struct.
//!
//! ```text
//! macro_rules! control_fields {
//!     ($with:ident $args:tt) => {
//!         $with! { $args ControlBlock {
//!             _: blank 2,
//!             ar_uuid: uuid,
//!             session_key: u16,
//!         } }
//!     };
//! }
//! ```
//!
//! `control_fields!(read_fields [bytes])` reads the fields, `control_fields!(read_body [bytes])` reads the version and the fields,
//! `control_fields!(put_fields [out, value])` appends them, and `control_fields!(len_fields [value])` is the number of octets
//! that they take. A long list is written in parts. Each part is read into a struct of its own, whose fields the kind has too.
//!
//! | in the list | what it is |
//! |---|---|
//! | `name: u8`, `u16`, `u32` | a number |
//! | `name: octets N` | N octets |
//! | `name: uuid`, `mac` | 16 octets, 6 octets |
//! | `name: ranged LEAST GREATEST FIELD` | a number of two octets, and the field's number for the fault if it is not accepted |
//! | `_: fixed VALUE FIELD`, `fixed_one VALUE FIELD`, `fixed_four VALUE FIELD` | a number of two octets, one, or four, with one accepted value |
//! | `_: unchecked VALUE` | a number of two octets that is read with any value |
//! | `_: blank N` | N octets that are ignored when read and written as 0 |
//! | `name: KIND by READ(..)` | a field of that kind that a function reads |
//! | `name: (READ, PUT, LEN)` | a field that functions read, append and count |

mod fault;
mod fields;
mod modules;
mod reading;
mod writing;

pub use fault::BlockFault;
pub use modules::{Entry, Module, Modules, Put, modules_len, put_modules};
pub use reading::{
    blank_at, ended, fixed_at, fixed_four_at, fixed_one_at, mac_at, octets_at, ranged_at, slice_at,
    u8_at, u16_at, u32_at, unchecked_at, version_at,
};
pub use uuid::Uuid;
pub use writing::{append, append_u8, append_u16, append_u32, append_zeros, len_of, put_version};
