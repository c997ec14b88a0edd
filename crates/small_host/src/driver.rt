//! A scripted driver in place of a VCPU. It drives an entropy device and a disk, each over a split ring of four descriptors: the
//! first in page 0 of RAM, the second in page 1.

use anyhow::Result;
use vmig::{Bytes, Event};

/// The number of the entropy device.
pub const ENTROPY: u8 = 0;

/// The number of the block device.
pub const DISK: u8 = 1;

/// The register whose writes are kicks (VIRTIO 1.2, 4.2.2).
const QUEUE_NOTIFY: u32 = 0x050;

/// A guest's exit: what its host does for it before it continues.
#[derive(Clone, Copy)]
pub enum Exit {
    /// It reads the register of a device at an offset.
    Read(u8, u32),

    /// It writes a number to the register of a device at an offset.
    Write(u8, u32, u32),

    /// It writes into RAM from an address on. RAM is the library's, so this is an exit too.
    Store(u64, &'static [u8]),
}

impl Exit {
    /// Whether a device may have work after it.
    pub fn is_kick(self) -> bool {
        matches!(self, Exit::Write(_, QUEUE_NOTIFY, _))
    }

    /// The event that the machine is to apply.
    pub fn event(self, rt: &HostRuntime) -> Result<Event> {
        let event = match self {
            Exit::Read(dev, off) => Event::RegRead { dev, off, width: 4 },
            Exit::Write(dev, off, value) => Event::RegWrite {
                dev,
                off,
                width: 4,
                value,
            },
            Exit::Store(addr, bytes) => Event::MemWrite {
                addr,
                bytes: Bytes::from_vec(bytes.to_vec(rt.alloc())?),
            },
        };
        Ok(event)
    }
}

/// Where the driver keeps a queue: its descriptor table, its driver area and its device area.
#[derive(Clone, Copy)]
pub struct Areas {
    table: u32,
    driver: u32,
    device: u32,
}

/// Those of the entropy device, in page 0.
pub const ENTROPY_AREAS: Areas = Areas {
    table: 0,
    driver: 0x40,
    device: 0x80,
};

/// Those of the disk, in page 1.
pub const DISK_AREAS: Areas = Areas {
    table: 0x1000,
    driver: 0x1040,
    device: 0x1080,
};

/// The driver finds a device, accepts VERSION_1 and EVENT_IDX, and makes queue 0 ready. What it does not write is 0.
pub fn bring_up(dev: u8, areas: Areas) -> [Exit; 13] {
    [
        Exit::Read(dev, 0x008), // DeviceID
        Exit::Write(dev, 0x070, 3), // Status: ACKNOWLEDGE and DRIVER
        Exit::Write(dev, 0x024, 1), // DriverFeaturesSel
        Exit::Write(dev, 0x020, 1), // DriverFeatures: VERSION_1
        Exit::Write(dev, 0x024, 0), // DriverFeaturesSel
        Exit::Write(dev, 0x020, 0x2000_0000), // DriverFeatures: EVENT_IDX
        Exit::Write(dev, 0x070, 11), // Status: and FEATURES_OK
        Exit::Write(dev, 0x038, 4), // QueueNum
        Exit::Write(dev, 0x080, areas.table), // QueueDescLow
        Exit::Write(dev, 0x090, areas.driver), // QueueDriverLow
        Exit::Write(dev, 0x0a0, areas.device), // QueueDeviceLow
        Exit::Write(dev, 0x044, 1), // QueueReady
        Exit::Write(dev, 0x070, 15), // Status: and DRIVER_OK
    ]
}

/// It makes the first buffer for random bytes available and kicks, and then the second one. For that it does not kick: with
/// event indexes it need not, as the device has not said that it found the queue empty (VIRTIO 1.2, 2.7.10).
pub const ASK_TWICE: [Exit; 5] = [
    Exit::Store(0x00, b"\x00\x08\0\0\0\0\0\0\x04\0\0\0\x02\0\0\0"), // descriptor 0: 4 bytes at 0x800
    Exit::Store(0x10, b"\x00\x09\0\0\0\0\0\0\x04\0\0\0\x02\0\0\0"), // descriptor 1: 4 bytes at 0x900
    Exit::Store(0x40, b"\0\0\x01\0\0\0"), // available: one
    Exit::Write(ENTROPY, 0x050, 0), // QueueNotify
    Exit::Store(0x40, b"\0\0\x02\0\0\0\x01\0"), // available: two
];

/// It sees why it is interrupted, acknowledges it, and asks for an interrupt at the next used buffer.
pub const HANDLE_INTERRUPT: [Exit; 3] = [
    Exit::Read(ENTROPY, 0x060), // InterruptStatus
    Exit::Write(ENTROPY, 0x064, 1), // InterruptACK
    Exit::Store(0x4c, b"\x01\0"), // used_event
];

/// It writes four bytes and zeros to sector 2 of its disk: header, sector and status are one chain.
pub const WRITE_SECTOR: [Exit; 9] = [
    Exit::Store(0x1000, b"\x00\x11\0\0\0\0\0\0\x10\0\0\0\x01\0\x01\0"), // descriptor 0: 16 bytes at 0x1100, then 1
    Exit::Store(0x1010, b"\x00\x12\0\0\0\0\0\0\0\x02\0\0\x01\0\x02\0"), // descriptor 1: 512 bytes at 0x1200, then 2
    Exit::Store(0x1020, b"\x00\x14\0\0\0\0\0\0\x01\0\0\0\x02\0\0\0"), // descriptor 2: 1 writable byte at 0x1400
    Exit::Store(0x1100, b"\x01\0\0\0\0\0\0\0\x02\0\0\0\0\0\0\0"), // OUT, sector 2
    Exit::Store(0x1200, b"disk"),
    Exit::Store(0x1040, b"\0\0\x01\0\0\0"), // available: one
    Exit::Write(DISK, 0x050, 0), // QueueNotify
    Exit::Write(DISK, 0x064, 1), // InterruptACK
    Exit::Store(0x104c, b"\x01\0"), // used_event
];

/// It reads the sector again, into another buffer.
pub const READ_SECTOR: [Exit; 5] = [
    Exit::Store(0x1010, b"\x00\x16\0\0\0\0\0\0\0\x02\0\0\x03\0\x02\0"), // descriptor 1: 512 writable bytes at 0x1600
    Exit::Store(0x1100, b"\0"), // IN
    Exit::Store(0x1040, b"\0\0\x02\0\0\0\0\0"), // available: two
    Exit::Write(DISK, 0x050, 0), // QueueNotify
    Exit::Write(DISK, 0x064, 1), // InterruptACK
];
