//! A chain of buffers.
//!
//! A chain is filled in where the caller has it (`Ring::next_into`), so no chain of two lists is moved from call to call. A
//! walk adds each buffer as its descriptor is read, and makes no list of descriptors. It stops at the first one that breaks a
//! rule.

ghost use Rattle.std.specs.Prelude.{◌≡◌, []};

use crate::segs::Segs;
use std::alloc::Global;

/// A chain of buffers that the driver made available. Segments of no bytes are kept.
#[derive(Drop)]
pub struct Chain {
    /// What names the chain when it is published: in a split ring the index of its first descriptor, in a packed ring
    /// the id that its last descriptor holds.
    pub id: u16,

    /// The number of slots of the ring that it takes: always 1 in a split ring.
    pub slots: u16,

    /// The segments that the device may read, in order.
    pub readable: Segs,

    /// The segments that the device may write, in order. They come after the readable ones.
    pub writable: Segs,
}

impl Chain {
    /// A chain of no segments, for a ring to fill in. It takes no memory: long lists go to memory of this allocator.
    pub fn new(alloc: Global) -> Chain
        ensures { result ≡ record { id = 0; slots = 1; readable = []; writable = [] } }
    {
        Chain {
            id: 0,
            slots: 1,
            readable: Segs::new(alloc),
            writable: Segs::new(alloc),
        }
    }
}
