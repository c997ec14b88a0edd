//! What a host says of a machine that arrives, and of its RAM.

use machine::Limits;

/// The guest-physical address at which the machine's RAM begins, how many bytes the RAM has that was handed in, if one was, and how
/// large the machine may be. No stream tells the address or the limits.
#[derive(Clone, Copy, Drop)]
pub struct RamTerms {
    pub base: u64,
    pub len: Option<u64>,
    pub limits: Limits,
}
