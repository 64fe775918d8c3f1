//! The running settings beside the stored ones, and the effect of commands in order. Of the flash only the outcomes of
//! its commits are visible: the device is specified without any other term of the flash.

mod store;

pub use store::Store;
