//! The header before each frame.

/// Bytes in the header before each frame (VIRTIO 1.2, 5.1.6).
pub(crate) const HEADER_SIZE: usize = 12;

/// The header of a frame that the guest gets: ten bytes of 0, and then `num_buffers`, which is 1.
pub(crate) const HEADER: [u8; HEADER_SIZE] = [0, 0, 0, 0, 0, 0, 0, 0, 0, 0, 1, 0];
