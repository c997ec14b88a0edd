//! How long a chain is that takes no memory.

/// A chain of at most this many descriptors takes no memory: a list of segments keeps this many inline.
/// A network, console or entropy buffer has one or two segments, and a block request three: its header, its data and its
/// status byte.
pub const SHORT_CHAIN_MAX: usize = 4;
