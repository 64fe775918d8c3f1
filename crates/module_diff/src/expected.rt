//! The modules that a Connect expects.
use arrayvec::ArrayVec;
use connect_blocks::{ExpectedModule, ExpectedSubmodule};

/// The modules of the ExpectedSubmoduleBlockReq blocks of a Connect: at most 64 modules, in the order of the blocks, and
/// at most 64 submodules of all modules, those of the first module first.
#[derive(Default, Drop)]
pub struct Expected {
    pub modules: ArrayVec<ExpectedModule, 64>,
    pub submodules: ArrayVec<ExpectedSubmodule, 64>,
}
