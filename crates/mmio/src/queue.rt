//! The registers of one queue.

/// What the driver has set for one queue (VIRTIO 1.2, 4.2.2). The positions in its rings are not here: they belong to
/// whoever serves the rings.
#[derive(Clone, Copy, Debug, PartialEq, Eq)]
pub struct Queue {
    /// QueueNum: the size in descriptors, as it was written.
    pub size: u32,
    /// The address of the descriptor area.
    pub descriptors: u64,
    /// The address of the driver area.
    pub driver: u64,
    /// The address of the device area.
    pub device: u64,
    /// QueueReady.
    pub is_ready: bool,
    /// Whether the driver has notified the queue since it was last found empty.
    pub is_notified: bool,
}

impl Queue {
    /// The values that a queue has before the driver writes to it.
    pub const FIRST: Queue = Queue {
        size: 0,
        descriptors: 0,
        driver: 0,
        device: 0,
        is_ready: false,
        is_notified: false,
    };
}
