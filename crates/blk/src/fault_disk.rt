//! A disk that fails by a plan.

ghost use Rattle.std.specs.Prelude.{◌≡◌, ◌<◌, length, ◌+◌, ◌%◌, ◌^◌, IsErr};
ghost use Rattle.blk.specs.Disk.{Reads, Writes, Flushes};
ghost use Rattle.blk.specs.FaultDisk.{disk_of, next_call, one_more_call, is_planned, IsCalled};

use crate::disk::{Disk, DiskFault};
use std::marker::Model;

/// A disk some of whose calls fail: those whose numbers, from 1, are in the plan. A write that is to fail writes nothing.
///
/// The calls are reads, writes and flushes together. Their count stays at the greatest `u64` once there. It is honest
/// where the disk below is, and not steady.
#[derive(Drop)]
pub struct FaultDisk<D: Disk> {
    disk: D,
    plan: Vec<u64>,
    calls: u64,
    failures: u64,
}

impl<D: Disk> Model for FaultDisk<D> {
    ghost use Rattle.blk.specs.FaultDisk.{FaultState};

    ghost Value = { FaultState };

    ghost view = { λ d. record { disk = D.state d.disk; plan = d.plan.items; calls = d.calls; failures = d.failures } };
}

impl<D: Disk> FaultDisk<D> {
    /// A disk that fails by a plan. None of its calls was made yet.
    pub fn new(disk: D, plan: Vec<u64>) -> FaultDisk<D>
        ensures { result ≡ record { disk = D.state disk; plan = plan.items; calls = 0; failures = 0 } }
    {
        FaultDisk {
            disk,
            plan,
            calls: 0,
            failures: 0,
        }
    }

    /// Counts a call, and returns whether it is to fail.
    fn is_next_to_fail(&mut self) -> bool
        ensures answer { result ≡ is_planned self.old }
        ensures calls { self.new ≡ record self.old { calls = next_call self.old } }
    {
        self.calls = self.calls.saturating_add(1);
        self.plan.contains(&self.calls)
    }

    /// Counts a failure.
    fn fail(&mut self) -> Result<(), DiskFault>
        ensures answer { IsErr result }
        ensures failures { self.new ≡ record self.old { failures = (self.old.failures + 1) % 2 ^ 64 } }
    {
        self.failures = self.failures.wrapping_add(1);
        Err(DiskFault)
    }
}

impl<D: Disk> Disk for FaultDisk<D> {
    ghost state = { disk_of };

    ghost calls = { λ d. d.calls };

    ghost called = { one_more_call };

    fn sectors(&self) -> u64 {
        self.disk.sectors()
    }

    fn read(&mut self, n: u64, buf: &mut [u8; 512]) -> Result<(), DiskFault>
        requires { n < length self.old.disk.sectors }
        ensures read { Reads (disk_of self.old) n buf.new result (disk_of self.new) }
        ensures called { IsCalled self.old result self.new }
    {
        if self.is_next_to_fail() || self.disk.read(n, buf).is_err() {
            return self.fail();
        }
        Ok(())
    }

    fn write(&mut self, n: u64, bytes: &[u8; 512]) -> Result<(), DiskFault>
        requires { n < length self.old.disk.sectors }
        ensures written { Writes (disk_of self.old) n bytes.now result (disk_of self.new) }
        ensures called { IsCalled self.old result self.new }
    {
        if self.is_next_to_fail() || self.disk.write(n, bytes).is_err() {
            return self.fail();
        }
        Ok(())
    }

    fn flush(&mut self) -> Result<(), DiskFault>
        ensures flushed { Flushes (disk_of self.old) result (disk_of self.new) }
        ensures called { IsCalled self.old result self.new }
    {
        if self.is_next_to_fail() || self.disk.flush().is_err() {
            return self.fail();
        }
        Ok(())
    }
}
