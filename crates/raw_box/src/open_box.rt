//! Boxes that are taken apart into their two fields.

ghost use Rattle.std.specs.Prelude.{◌≡◌};
ghost use Rattle.std.specs.Box.Ownership.{box_owns};

use std::alloc::Allocator;
use std::marker::Model;

/// The address of a box's value, and the allocator that the block is given back to.
pub struct OpenBox<V, H: Allocator> {
    /// The address of the value.
    pub address: *mut V,

    /// The allocator of the block.
    pub heap: H,

    /// The value.
    pub ghost held: { V },
}

impl<V, H: Allocator> Model for OpenBox<V, H> {
    ghost also_owns = { λ o. box_owns (H.dealloc_token o.heap) V.row o.address o.held };
}

impl<V, H: Allocator> OpenBox<V, H> {
    /// Opens a box.
    pub fn open(closed: Box<V, H>) -> OpenBox<V, H>
    where
        V: Drop,
        ensures { result.held ≡ closed.value }
    {
        let (address, heap) = Box::into_raw_with_allocator(closed);
        OpenBox { address, heap }
    }

    /// Closes it again.
    pub fn close(self) -> Box<V, H>
        ensures { result.value ≡ self.held }
    {
        let OpenBox { address, heap } = self;
        unsafe { Box::from_raw(heap, address) }
    }
}
