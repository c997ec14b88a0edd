//! The flags of descriptors. Others than those named here are ignored.

/// Another descriptor of the same chain follows (VIRTIO 1.2, 2.7.5 and 2.8.6).
pub const NEXT: u16 = 1;

/// The device writes the buffer, and does not read it (VIRTIO 1.2, 2.7.5 and 2.8.3).
pub const WRITE: u16 = 1 << 1;

/// The descriptor names a table of descriptors (VIRTIO 1.2, 2.7.5.3 and 2.8.7).
pub const INDIRECT: u16 = 1 << 2;

/// In a packed ring the driver sets this one to its wrap counter (VIRTIO 1.2, 2.8.1).
pub const AVAIL: u16 = 1 << 7;

/// In a packed ring the device sets this one to its wrap counter (VIRTIO 1.2, 2.8.1).
pub const USED: u16 = 1 << 15;
