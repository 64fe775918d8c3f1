//! The demo station: its identity, and the modules that are plugged in it. Scripts run on it, and tests, tables and
//! benches use it if any station will do.

mod modules;
mod station;

pub use modules::demo_modules;
pub use station::demo_identity;
