//! What an entropy device is to its driver (VIRTIO 1.2, 5.4): its id and its queue. It offers no feature of its own, and has no
//! configuration space (5.4.3 and 5.4.4).

/// The device ID of an entropy device (VIRTIO 1.2, 5.4.1).
pub const DEVICE_ID: u32 = 4;

/// It has one queue, of buffers to fill (VIRTIO 1.2, 5.4.2).
pub const QUEUE_COUNT: u8 = 1;
