//! When a queue may be made ready.
//!
//! A queue may share its areas with another queue: nothing forbids it.

ghost use Rattle.std.specs.Prelude.{◌≡◌, ◌≤◌, ◌<◌, ◌↔◌, IsTrue};
ghost use Rattle.mmio.specs.QueueReady.{IsInside, AreInside, MayBeReady, is_inside, are_inside, may_be_ready};

use crate::common::Common;
use crate::constants::{FEATURES_OK, QUEUE_SIZE_MAX, RING_PACKED};
use crate::queue::Queue;
use guestmem::is_within;

/// Whether an area of `bytes` bytes from the guest-physical address `from` on is aligned, and lies wholly inside RAM.
fn is_inside(base: u64, ram_len: u64, from: u64, align: u64, bytes: u64) -> bool
    requires { 0 < align }
    ensures value { result ≡ is_inside base ram_len from align bytes }
    ensures facts { IsTrue result ↔ IsInside base ram_len from align bytes }
{
    from % align == 0 && is_within(base, ram_len, from, bytes)
}

/// Whether the three areas suit this layout.
fn are_inside(base: u64, ram_len: u64, is_packed: bool, queue: &Queue) -> bool
    requires { queue.now.size ≤ QUEUE_SIZE_MAX }
    ensures value { result ≡ are_inside base ram_len is_packed queue.now }
    ensures facts { IsTrue result ↔ AreInside base ram_len is_packed queue.now }
{
    let size = queue.size as u64;
    let align = if is_packed { 4 } else { 2 };
    let driver_bytes = if is_packed { 4 } else { 6 + 2 * size };
    let device_bytes = if is_packed { 4 } else { 6 + 8 * size };
    is_inside(base, ram_len, queue.descriptors, 16, 16 * size)
        && is_inside(base, ram_len, queue.driver, align, driver_bytes)
        && is_inside(base, ram_len, queue.device, 4, device_bytes)
}

/// Whether QueueReady takes the value 1 (VIRTIO 1.2, 4.2.3.2): the features are settled, the size is from 1 to QUEUE_SIZE_MAX, and the
/// size and the areas, in a RAM of `ram_len` bytes from the guest-physical address `base` on, suit the layout that the features name.
#[tactic(auto, unfolding(crate::specs::QueueReady::may_be_ready))]
pub(crate) fn may_be_ready(base: u64, ram_len: u64, common: &Common, queue: &Queue) -> bool
    ensures value { result ≡ may_be_ready base ram_len common.now queue.now }
    ensures facts { IsTrue result ↔ MayBeReady base ram_len common.now queue.now }
{
    if common.status & FEATURES_OK != FEATURES_OK
        || queue.size == 0
        || queue.size > QUEUE_SIZE_MAX
    {
        return false;
    }
    let is_packed = common.features & RING_PACKED == RING_PACKED;
    (is_packed || queue.size.is_power_of_two()) && are_inside(base, ram_len, is_packed, queue)
}
