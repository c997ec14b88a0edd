//! A disk that keeps the list of its writes.

ghost use Rattle.std.specs.Prelude.{true, false};

use anyhow::Result;
use machine::{Disk, DiskFault, MemDisk, SECTOR_SIZE};
use std::alloc::Global;

/// One write: the sector, and its bytes.
#[derive(Clone, Copy, Debug, PartialEq, Eq)]
pub struct SectorWrite {
    pub sector: u64,
    pub bytes: [u8; SECTOR_SIZE],
}

/// A disk in memory. A write for which there is no room in the list fails, and writes nothing.
#[derive(Drop)]
pub struct RecordingDisk<'w> {
    disk: MemDisk,
    failures: u64,
    writes: &'w mut Vec<SectorWrite>,
}

impl<'w> RecordingDisk<'w> {
    /// A disk of `sectors` sectors of zeros, whose writes are appended to the list.
    pub fn new(
        alloc: Global,
        sectors: u64,
        writes: &'w mut Vec<SectorWrite>,
    ) -> Result<RecordingDisk<'w>> {
        let disk = MemDisk::new(alloc, sectors)?;
        Ok(RecordingDisk {
            disk,
            failures: 0,
            writes,
        })
    }
}

impl Disk for RecordingDisk<'_> {
    ghost state = { λ d. record { sectors = d.disk; failures = d.failures; honest = true; steady = false; is_flushed = true } };

    fn sectors(&self) -> u64 {
        self.disk.sectors()
    }

    fn read(&mut self, n: u64, buf: &mut [u8; 512]) -> Result<(), DiskFault> {
        self.disk.read(n, buf)
    }

    fn write(&mut self, n: u64, bytes: &[u8; 512]) -> Result<(), DiskFault> {
        let write = SectorWrite {
            sector: n,
            bytes: *bytes,
        };
        if self.writes.push(write).is_err() {
            self.failures = self.failures.wrapping_add(1);
            return Err(DiskFault);
        }
        self.disk.write(n, bytes)
    }

    fn flush(&mut self) -> Result<(), DiskFault> {
        self.disk.flush()
    }
}
