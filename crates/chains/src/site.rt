//! What every step is told of the machine that it is made in.

use std::alloc::Global;

/// Where a step is made: what it allocates from, and where RAM begins. It is the same for all steps of a machine.
#[derive(Clone, Copy)]
pub struct Site {
    /// For the chain that the step finds.
    pub alloc: Global,

    /// The guest-physical address at which RAM begins.
    pub base: u64,
}
