//! The registers that a device has once, whatever its queues are.

/// The registers that a device has once (VIRTIO 1.2, 4.2.2). A field that has no bits of its own is the number last
/// written, whole.
#[derive(Clone, Copy, Debug, PartialEq, Eq)]
pub struct Common {
    /// The status bits (VIRTIO 1.2, 2.1).
    pub status: u8,
    /// The interrupts that the driver has not acknowledged yet.
    pub interrupts: u8,
    /// DeviceFeaturesSel.
    pub device_select: u32,
    /// DriverFeaturesSel.
    pub driver_select: u32,
    /// The feature bits that the driver has written.
    pub features: u64,
    /// QueueSel.
    pub queue_select: u32,
    /// ConfigGeneration: how often the configuration has changed, modulo 2^32.
    pub generation: u32,
}

impl Common {
    /// The values that a new device has.
    pub const FIRST: Common = Common {
        status: 0,
        interrupts: 0,
        device_select: 0,
        driver_select: 0,
        features: 0,
        queue_select: 0,
        generation: 0,
    };
}
