//! The slot of an index.
//!
//! Every step takes two divisions fewer by the mask; a look at the size decides, so the contract is the remainder for every
//! size.

ghost use Rattle.std.specs.Prelude.{◌≡◌, ◌<◌, ◌%◌};

/// The slot at which an index of a ring of `size` slots lies (VIRTIO 1.2, 2.7.6 and 2.7.8): the remainder. The size of a ready
/// queue is a power of two in this layout, so a mask does it, which is quicker than a division.
#[inline(always)]
pub(crate) fn slot_of(index: u16, size: u16) -> u16
    requires { 0 < size }
    ensures { result ≡ index % size }
{
    let mask = size - 1;
    if size & mask == 0 {
        return index & mask;
    }
    index % size
}
