//! A controller's end of a start-up: its machine refines the small one of `both_ends`. This crate has laws only and no
//! code.

mod goes_on;

pub use goes_on::controller_goes_on;
