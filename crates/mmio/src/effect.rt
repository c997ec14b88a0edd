//! What a write to the registers means for the device.
//!
//! `ConfigWrite` is returned for aligned accesses of 1, 2 or 4 bytes from 0x100 on. Other accesses there are ignored.

/// What a write to the registers means for the device.
#[derive(Clone, Copy, Debug, PartialEq, Eq)]
pub enum Effect {
    /// Nothing beyond the registers.
    None,
    /// The device was reset (VIRTIO 1.2, 2.4).
    Reset,
    /// The driver has put buffers into this queue (VIRTIO 1.2, 4.2.3.3).
    Notified(u8),
    /// This queue was made ready.
    Enabled(u8),
    /// This queue was made not ready. It may not have been ready before.
    Disabled(u8),
    /// The configuration was written to; what that does is the device's own.
    ConfigWrite,
}
