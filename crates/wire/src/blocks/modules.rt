//! Lists of modules with their submodules, as several kinds of PROFINET blocks have them: a count of modules, then each
//! module followed by its submodules. The submodules of all modules are stored in one list, those of the first module
//! first. A kind of block defines the entries of each list; this crate reads, writes and counts the lists.

mod entry;
mod list;
mod reading;
mod writing;

pub use entry::{Entry, Module, Put};
pub use list::{Modules, modules_len, put_modules};
