//! Combinators for formats. The codecs of frames, services and blocks are stated and proved with them. This crate also
//! has the readers and writers of the fields that formats are made of.
//!
//! # What a format is
//!
//! A format is a value of specs/Codec.antt. `Codec F A` is a format of values of `A` that more bytes may follow, with
//! faults of `F`. `Whole F A` is a format of *all* the bytes given. Both have
//!
//! - `Spells`, the relation between bytes and values. It is a relation and not a function, so that bytes that a reader
//!   ignores (reserved fields, padding) may have any value, and no struct needs a field for them.
//! - `read`, which returns the value or the first fault.
//! - `write`, which returns the one spelling that is sent. `Fits` says which values can be written, and `size` how many
//!   bytes that takes.
//!
//! The laws that relate the four are proved once for each combinator, in one record: `IsSound` of a `Codec` and
//! `IsSoundWhole` of a `Whole`. What is read is spelled by the bytes (`takes`), what is spelled is read (`again`), what
//! is written is spelled (`written`) and has the stated size (`sized`). `IsOnward` says that bytes that spell a value
//! still do so with more bytes after them. proofs/ has it for each `Codec` of the table below except `padding`, which
//! looks for the end.
//!
//! # How a format is stated
//!
//! Put the types of the values into `src/`. If a struct owns all its bytes, it is the value itself. If it borrows them,
//! specs/ has a record with lists in place of the slices, and a `view` from the struct to the record. Then put the
//! fields one after the other with `⨾`, and let `seen` turn the resulting pairs into the record and back. Each format
//! with a name is `unfoldable`, so that a proof unfolds only those that it is about:
//!
//! ```antt
//! -- an option, a suboption, a length and that many bytes, and a byte of padding if the length is odd
//! unfoldable pub head : Codec DcpFault Block
//! head = seen (λ x. record { option = x.0; suboption = x.1.0; contents = x.1.1 })
//!     (λ block. (block.option, (block.suboption, block.contents)))
//!     (number Length 1 ⨾ number Length 1 ⨾ framed (number Length 2) Length everything)
//!
//! unfoldable pub block : Codec DcpFault Block
//! block = seen (λ x. x.0) (λ block. (block, tt)) (then_by head (λ block. padding (length block.contents % 2)))
//!
//! -- at most 16 of them, to the end
//! unfoldable pub blocks : Whole DcpFault (List Block)
//! blocks = filled 16 TooMany block
//! ```
//!
//! | format | what it spells |
//! |---|---|
//! | `raw short n` | n bytes; `short` if there are fewer |
//! | `number short n` | a number in n bytes, the highest first |
//! | `unchecked short n v` | n bytes of any value, written as the number v |
//! | `padding n` | up to n bytes of any value, fewer only at the end; written as zeros |
//! | `first ⨾ second`, `then_by first (λ value. second)` | one after the other; the second may depend on the value of
//! the first |
//! | `seen to from codec` | the same bytes, and another view of the value |
//! | `when test codec` | an option: present if the test holds |
//! | `framed lengths short whole` | a length and that many bytes, all of which a `Whole` reads |
//! | `checked test fault codec` | values that pass a test; the fault if they do not |
//! | `named to from fault codec` | names for some of the values; the fault for the others |
//! | `fixed fault n v` | n bytes that must be the number v |
//! | `kept codec` | the same bytes; the value holds them too, so that they can be judged |
//! | `cut short n whole` | n bytes, all of which a `Whole` reads; n comes from an earlier field |
//! | `within codec (λ value. whole)` | a value that ends in bytes, all of which a `Whole` reads |
//! | `listed item n`, `counted counts item` | n values, each of a format that may depend on those before it; the same
//! after their count |
//! | `bounded most fault item` | the items of a list of at most `most` |
//! | `nested header count_of item counts` | a count and entries; each entry counts the items of a second kind that
//! follow it; both kinds are stored as flat lists |
//! | `closed more codec` | a `Whole`: a `Codec` and nothing after it |
//! | `variant to from whole` | a `Whole`: one variant of values that have several |
//! | `everything` | a `Whole`: all the bytes |
//! | `filled n more codec` | a `Whole`: at most n values up to the end; `more` if bytes remain |
//! | `ends_by codec (λ value. whole)` | a `Whole`: a `Codec`, then a `Whole` of the rest |
//! | `loose codec` | a `Whole`: a `Codec`, and anything after it |
//! | `allowed test fault whole` | a `Whole`: the given one if the test holds, else the fault |
//! | `refused fault`, `pick test one other` | a `Whole`: one that spells nothing; one of the two, by the test |
//! | `seen_whole to from whole` | as `seen` |
//!
//! The proof of a format is the same term with `_sound` (or `_onward`) at each name (proofs/ of this crate).
//! `seen_sound` asks that `to` undoes `from`, usually `λ _. refl`. `filled_sound` asks that each value takes at least
//! one byte.
//!
//! ```antt
//! head_sound : IsSound head
//! unfolding head
//! head_sound = seen_sound _ _ _ (λ _. refl) (then_by_sound _ _ (number_sound Length 1) (λ _. then_by_sound _ _ (number_sound Length 1)
//!     (λ _. framed_sound _ _ _ (number_sound Length 2) everything_sound)))
//! ```
//!
//! # How it is read and written
//!
//! A reader of a `Codec` returns `Result<(T, &[u8]), F>`, and a reader of a `Whole` returns `Result<T, F>`. Its one
//! clause says that it `Gives` what `read` gives. It has one line for each field, in order, and needs no proof file:
//!
//! ```text
//! #[tactic(auto, unfolding(crate::specs::Blocks::head))]
//! fn head_at(bytes: &[u8]) -> Result<(Block<'_>, &[u8]), DcpFault>
//!     ensures { Gives (λ x. (view x.0, x.1.now)) result (head.read bytes.now) }
//! {
//!     let (option, rest) = u8_at(bytes, DcpFault::Length)?;
//!     let (suboption, rest) = u8_at(rest, DcpFault::Length)?;
//!     let (length, rest) = u16_at(rest, DcpFault::Length)?;
//!     let (contents, rest) = split(rest, length as usize, DcpFault::Length)?;
//!     Ok((Block { option, suboption, contents }, rest))
//! }
//! ```
//!
//! After a `then_by` whose second format depends on a value, the code branches on that value (`skip` does so for
//! `padding`). A loop over `filled` keeps `with_front (views found) (read_all (most - length (views found)) more codec
//! rest) ≡ read_all most more codec bytes`. Its steps are `list_goes_on`, `list_fails`, `list_is_full` and `list_ends`
//! of proofs/Lists.antt. A public reader states more, and each statement follows in one line from that clause (`found`
//! and `only` of proofs/Given.antt): what it found is spelled by the bytes, and what is spelled is found.
//!
//! A writer appends field by field (`append`, `append_u16` and so on) and ensures `out.new.items ≡ out.old.items ++
//! codec.write value []` and `codec.Fits value`. Both follow from the appenders' clauses. `local` of `IsSound` joins
//! what two writers appended, and `written` says that it is spelled. What is sent often is built from arrays by `join`
//! instead: their sizes are known, so no room is checked and nothing is counted.
#![tactic(auto)]

pub mod blocks;
mod reading;
mod writing;

pub use blocks::{
    BlockFault, Entry, Module, Modules, Put, append_zeros, blank_at, ended, fixed_at,
    fixed_four_at, fixed_one_at, len_of, mac_at, modules_len, put_modules, put_version, ranged_at,
    slice_at, unchecked_at, version_at,
};
pub use reading::{at_most, front, octets_at, skip, split, u8_at, u16_at, u32_at};
pub use uuid::Uuid;
pub use writing::{append, append_u8, append_u16, append_u32, join};
