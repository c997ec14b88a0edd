//! The emergency register of a console.
//!
//! The register is one address: writes of 1, 2 or 4 bytes at 0x108 print the lowest byte of the value, and those at 0x109 to
//! 0x10b print none.

ghost use Rattle.std.specs.Prelude.{◌≡◌};
ghost use Rattle.console.specs.Emergency.{emergency_byte};

use mmio::CONFIG;

/// The offset of the emergency register in the window of the device (VIRTIO 1.2, 5.3.4).
pub(crate) const EMERGENCY: u32 = CONFIG + 8;

/// The byte that a write of the driver prints: the lowest one of the value, where it is a write of 1, 2 or 4 bytes at
/// the emergency register. It is printed whatever the status of the device is. No other write prints a byte.
pub fn emergency_byte(offset: u32, width: u8, value: u32) -> Option<u8>
    ensures { result ≡ emergency_byte offset width value }
{
    match width {
        1 | 2 | 4 if offset == EMERGENCY => Some((value % 256) as u8),
        _ => None,
    }
}
