//! What a console is to its driver (VIRTIO 1.2, 5.3): its id, its queues and its features. Its configuration space is that of its
//! size.

ghost use Rattle.console.specs.Shape.{IsSoundConsole};

use crate::host_bytes::HostBytes;
use crate::size::ConsoleSize;

/// The device ID of a console (VIRTIO 1.2, 5.3.1).
pub const DEVICE_ID: u32 = 3;

/// It has two queues: one for text to the guest, and one for text of the guest (VIRTIO 1.2, 5.3.2).
pub const QUEUE_COUNT: u8 = 2;

/// The feature SIZE: the configuration gives the size of the console, and changes of it are reported to the driver (VIRTIO 1.2,
/// 5.3.3).
pub(crate) const SIZE: u64 = 1 << 0;

/// The feature EMERG_WRITE: the driver may write a byte to the emergency register (VIRTIO 1.2, 5.3.3).
const EMERGENCY_WRITE: u64 = 1 << 2;

/// The features that a console offers, beside those that every device offers (VIRTIO 1.2, 5.3.3).
pub const FEATURES: u64 = SIZE | EMERGENCY_WRITE;

/// States for proofs that the size and the text that is held are such as a console can have (see the page of `guestmem`).
pub fn recall_console(size: &ConsoleSize, held: &HostBytes)
    ensures { IsSoundConsole size.now held.now }
{
    // Each field is read, so that it is known to fit its type.
    let ConsoleSize {
        columns: _columns,
        rows: _rows,
    } = *size;
    held.recall();
}
