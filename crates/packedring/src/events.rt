//! The event suppression areas of a packed ring (VIRTIO 1.2, 2.8.14), by which each side says when it wants to be
//! notified: an offset and a wrap counter in two bytes, and the flags in two more.

ghost use Rattle.std.specs.Prelude.{◌≡◌, ◌+◌, ◌%◌, ◌<◌, ◌≤◌, ◌++◌};
ghost use Rattle.mmio.specs.Bits.{has};
ghost use Rattle.chains.specs.Publish.{positions_from, is_among, bit_if};
ghost use Rattle.byteorder.specs.Endian.{little_bytes};

use crate::going_on::going_on;
use byteorder::{ByteOrder, LittleEndian};
use chains::Position;
use mmio::QUEUE_SIZE_MAX;

/// The bytes of an area.
pub(crate) const AREA_SIZE: usize = 4;

/// The offset of the flags in an area. Two of their bits count.
pub(crate) const FLAGS: u64 = 2;

/// The number of values of these two bits. With any value but those named here there are notifications.
pub(crate) const FLAG_VALUES: u16 = 4;

/// The flags of a side that wants no notifications.
pub(crate) const DISABLE: u16 = 1;

/// The flags of a side that wants one at the descriptor that the offset and the wrap counter name.
pub(crate) const DESC: u16 = 2;

/// The bit of the wrap counter. The offset is in the bits below it.
const WRAP: u16 = 1 << 15;

/// Whether the position that the two bytes `event` of an area name is one of the `slots` positions from `from` on.
pub(crate) fn is_covered(event: u16, from: Position, slots: u16, size: u16) -> bool
    requires place { from.place < size }
    requires few { size ≤ QUEUE_SIZE_MAX }
    ensures { result ≡ is_among (event % 32768) (has event 32768) (positions_from size from slots) }
{
    let offset = event % WRAP;
    let wrap = event & WRAP == WRAP;
    let mut position = from;
    for _step in 0..slots {
        if position.place == offset && position.wrap == wrap {
            return true;
        }
        position = going_on(position, 1, size);
    }
    false
}

/// The area that asks for a notification at a position.
pub(crate) fn asking_at(position: Position) -> [u8; AREA_SIZE]
    requires { position.place < 32768 }
    ensures { result ≡ little_bytes 2 (position.place + bit_if position.wrap 32768) ++ little_bytes 2 2 }
{
    let wrap = if position.wrap { WRAP } else { 0 };
    let mut bytes = [0; AREA_SIZE];
    LittleEndian::write_u16(&mut bytes[0..2], position.place + wrap);
    LittleEndian::write_u16(&mut bytes[2..4], DESC);
    bytes
}
