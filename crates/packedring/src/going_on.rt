//! Advancing a position.

ghost use Rattle.std.specs.Prelude.{◌≡◌, ◌+◌, ◌%◌, ◌<◌, ◌≤◌};
ghost use Rattle.chains.specs.Publish.{gone_on};

use chains::Position;
use mmio::QUEUE_SIZE_MAX;

/// The position `slots` slots further on. At the end of the ring it wraps around, and the wrap counter toggles (VIRTIO
/// 1.2, 2.8.1).
pub(crate) fn going_on(position: Position, slots: u16, size: u16) -> Position
    requires place { position.place < size }
    requires slots { slots ≤ size }
    requires few { size ≤ QUEUE_SIZE_MAX }
    ensures { result ≡ gone_on size position slots }
{
    let place = position.place + slots;
    if place < size {
        return Position { place, ..position };
    }
    Position {
        place: place - size,
        wrap: !position.wrap,
    }
}

/// The slot after a slot. The first one follows the last.
pub(crate) fn slot_after(slot: u16, size: u16) -> u16
    requires { slot < size }
    ensures { result ≡ (slot + 1) % size }
{
    let next = slot + 1;
    if next == size {
        return 0;
    }
    next
}
