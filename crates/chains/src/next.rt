//! What a ring answers about its next chain.

use crate::chain::Chain;

/// What is at the taking position of a ring.
#[derive(Drop)]
pub enum Next {
    /// The driver has made nothing available there.
    Empty,

    /// The driver has made something available there that breaks a rule of the layout. The device asks for a reset.
    Malformed,

    /// The driver has made this chain available there.
    Chain(Chain),
}
