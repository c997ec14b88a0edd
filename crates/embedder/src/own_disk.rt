//! A disk that keeps the list of its calls.

ghost use Rattle.std.specs.Prelude.{true, false};

use anyhow::Result;
use std::alloc::Global;
use vmig::{Disk, DiskFault, MemDisk};

/// A call of a disk.
#[derive(Clone, Copy, Debug, PartialEq, Eq)]
pub enum Called {
    /// This sector was read.
    Read(u64),

    /// This sector was written.
    Write(u64),

    /// What was written was made durable.
    Flush,
}

/// A disk in memory. A call for which there is no room in the list fails, and does nothing, and so does each flush where that was said.
#[derive(Drop)]
pub struct OwnDisk {
    disk: MemDisk,
    failures: u64,
    flush_fails: bool,
    pub calls: Vec<Called>,
}

impl OwnDisk {
    /// A disk of `sectors` sectors of zeros.
    pub fn new(alloc: Global, sectors: u64, flush_fails: bool) -> Result<OwnDisk> {
        let disk = MemDisk::new(alloc, sectors)?;
        Ok(OwnDisk {
            disk,
            failures: 0,
            flush_fails,
            calls: Vec::new(alloc),
        })
    }
}

impl Disk for OwnDisk {
    ghost state = { λ d. record { sectors = d.disk; failures = d.failures; honest = true; steady = false; is_flushed = true } };

    fn sectors(&self) -> u64 {
        self.disk.sectors()
    }

    fn read(&mut self, n: u64, buf: &mut [u8; 512]) -> Result<(), DiskFault> {
        if self.calls.push(Called::Read(n)).is_err() {
            self.failures = self.failures.wrapping_add(1);
            return Err(DiskFault);
        }
        self.disk.read(n, buf)
    }

    fn write(&mut self, n: u64, bytes: &[u8; 512]) -> Result<(), DiskFault> {
        if self.calls.push(Called::Write(n)).is_err() {
            self.failures = self.failures.wrapping_add(1);
            return Err(DiskFault);
        }
        self.disk.write(n, bytes)
    }

    fn flush(&mut self) -> Result<(), DiskFault> {
        if self.flush_fails || self.calls.push(Called::Flush).is_err() {
            self.failures = self.failures.wrapping_add(1);
            return Err(DiskFault);
        }
        self.disk.flush()
    }
}
