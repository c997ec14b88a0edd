//! Requests of a driver (VIRTIO 1.2, 5.2.6).
//!
//! A request keeps its segments, and the range that it clears, from taking on. What a driver writes into its descriptors or its
//! segment afterwards changes nothing.

ghost use Rattle.std.specs.Prelude.{◌≡◌, ◌+◌, ◌<◌, ◌^◌};
ghost use Rattle.blk.specs.Request.{verdict_byte, is_open, next_sector};

use chains::Segs;

/// Bytes in the header of a request: its type, 4 bytes that are reserved, and its sector (VIRTIO 1.2, 5.2.6).
pub const HEADER_SIZE: usize = 16;

/// The type of a request that reads sectors.
pub const TYPE_IN: u32 = 0;

/// The type of a request that writes sectors.
pub const TYPE_OUT: u32 = 1;

/// The type of a request that flushes the disk.
pub const TYPE_FLUSH: u32 = 4;

/// The type of a request that reads the id of the device.
pub const TYPE_GET_ID: u32 = 8;

/// The type of a request that clears a range of sectors.
pub const TYPE_WRITE_ZEROES: u32 = 13;

/// Bytes in the segment that names the range to clear: its first sector, how many there are, and flags (VIRTIO 1.2, 5.2.6).
pub const SEGMENT_SIZE: usize = 16;

/// What a request does.
#[derive(Clone, Copy, Debug, PartialEq, Eq)]
pub enum Kind {
    /// It was refused as it was taken, and only reports its verdict.
    Refused,

    /// It reads sectors.
    In,

    /// It writes sectors.
    Out,

    /// It flushes the disk.
    Flush,

    /// It reads the id of the device.
    GetId,

    /// It clears sectors.
    Zero,
}

/// How a request went (VIRTIO 1.2, 5.2.6).
#[derive(Clone, Copy, Debug, PartialEq, Eq)]
pub enum Verdict {
    /// No error so far.
    Good,

    /// The device could not do it.
    IoError,

    /// The device does not know such requests.
    Unsupported,
}

impl Verdict {
    /// The byte that reports it to the driver.
    pub fn byte(self) -> u8
        ensures { result ≡ verdict_byte self }
    {
        match self {
            Verdict::Good => 0,
            Verdict::IoError => 1,
            Verdict::Unsupported => 2,
        }
    }
}

/// A request that was taken. Its segments are those of its chain as it was taken, with the addresses as the guest wrote them, and are
/// never read again.
#[derive(Drop)]
pub struct Request {
    /// What names its chain when it is published.
    pub id: u16,

    /// The number of slots of the ring that its chain takes.
    pub slots: u16,

    /// What it does.
    pub kind: Kind,

    /// How it went so far.
    pub verdict: Verdict,

    /// The first sector that it moves or clears.
    pub first: u64,

    /// How many units it has: sectors to move or to clear, or 1 for what is done at once.
    pub units: u32,

    /// How many of them are done.
    pub done: u32,

    /// The segments that the device may read: the header, and what is written to the disk or names the range to clear.
    pub readable: Segs,

    /// The segments that the device may write: what is read from the disk, and the verdict.
    pub writable: Segs,
}

impl Request {
    /// The sector of its next unit.
    pub(crate) fn next_sector(&self) -> u64
        requires { self.now.first + self.now.done < 2 ^ 64 }
        ensures { result ≡ next_sector self.now }
    {
        self.first + self.done as u64
    }

    /// Whether it has units to do, and no error yet.
    pub(crate) fn is_open(&self) -> bool
        ensures { result ≡ is_open self.now }
    {
        match self.verdict {
            Verdict::Good => self.done < self.units,
            Verdict::IoError | Verdict::Unsupported => false,
        }
    }
}
