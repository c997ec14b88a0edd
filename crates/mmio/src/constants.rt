//! The numbers of the register file, each named once. Code and contracts cite them from here.

/// Status bit: the driver has noticed the device (VIRTIO 1.2, 2.1).
pub const ACKNOWLEDGE: u8 = 1;

/// Status bit: the guest has a driver for the device (VIRTIO 1.2, 2.1).
pub const DRIVER: u8 = 2;

/// Status bit: the driver is set up and drives the device (VIRTIO 1.2, 2.1).
pub const DRIVER_OK: u8 = 4;

/// Status bit: driver and device agree on the features (VIRTIO 1.2, 2.1).
pub const FEATURES_OK: u8 = 8;

/// Status bit: the device met an error and asks for a reset (VIRTIO 1.2, 2.1).
pub const DEVICE_NEEDS_RESET: u8 = 64;

/// Status bit: the guest has given up on the device (VIRTIO 1.2, 2.1). It changes nothing else.
pub const FAILED: u8 = 128;

/// Each bit of the status that has a meaning.
pub(crate) const STATUS_BITS: u8 = ACKNOWLEDGE
    | DRIVER
    | DRIVER_OK
    | FEATURES_OK
    | DEVICE_NEEDS_RESET
    | FAILED;

/// The status bits that a write adds whatever the state of the device is.
pub(crate) const FREE_STATUS_BITS: u8 = ACKNOWLEDGE | DRIVER | FAILED;

/// Interrupt bit: the device has used a buffer (VIRTIO 1.2, 4.2.2).
pub const USED_BUFFER: u8 = 1;

/// Interrupt bit: the configuration of the device has changed (VIRTIO 1.2, 4.2.2).
pub const CONFIGURATION_CHANGE: u8 = 2;

/// Each bit of the interrupt status that has a meaning.
pub(crate) const INTERRUPT_BITS: u8 = USED_BUFFER | CONFIGURATION_CHANGE;

/// Feature bit 28: descriptors may name a table of descriptors (VIRTIO 1.2, 6).
pub const INDIRECT_DESC: u64 = 1 << 28;

/// Feature bit 29: each side says at which buffer it wants to be notified (VIRTIO 1.2, 6).
pub const EVENT_IDX: u64 = 1 << 29;

/// Feature bit 32: the standard from version 1 on, and not the legacy interface (VIRTIO 1.2, 6).
pub const VERSION_1: u64 = 1 << 32;

/// Feature bit 34: the queues have the packed layout (VIRTIO 1.2, 6).
pub const RING_PACKED: u64 = 1 << 34;

/// The greatest size of a queue, in descriptors: what QueueNumMax reads.
pub const QUEUE_SIZE_MAX: u32 = 256;

/// The greatest number of queues of a device.
pub const QUEUE_COUNT_MAX: usize = 2;

/// The offset at which the configuration of the device begins. All registers lie below it.
pub const CONFIG: u32 = 0x100;

/// What MagicValue reads: the text `virt` (VIRTIO 1.2, 4.2.2).
pub(crate) const MAGIC_VALUE: u32 = 0x7472_6976;

/// What Version reads (VIRTIO 1.2, 4.2.2).
pub(crate) const DEVICE_VERSION: u32 = 2;

/// What VendorID reads: this project's own number (VIRTIO 1.2, 4.2.2).
pub(crate) const VENDOR: u32 = 0x4f57_5631;

/// What the registers of a shared memory region read where the region does not exist (VIRTIO 1.2, 4.2.2).
pub(crate) const NO_REGION: u32 = 0xffff_ffff;
