//! The bad sectors of a machine's disks, one after another, and reads of the others.

ghost use Rattle.std.specs.Prelude.{◌≡◌, ◌<◌, ◌≤◌, length, true};
ghost use Rattle.machine.specs.Applied.{IsGood, ReadsSector};
ghost use Rattle.machine.specs.Calls.{CallsDisk};
ghost use Rattle.machine.specs.EffectLaws.{sector_on, sectors_on};
ghost use Rattle.machine.specs.NextBad.{IsNextBad, found_good};
ghost use Rattle.machine.specs.Seen.{state_of};
ghost use Rattle.machine.specs.Step.{disk_of};

use crate::machine::MachineOver;
use blk::{Disk, DiskFault, SECTOR_SIZE};
use guestmem::Ram;

impl<D: Disk> MachineOver<D, Ram> {
    /// The least bad sector of a device's disk from sector `from` on, or None if there is none. No disk is called.
    pub fn next_bad(&self, dev: u8, from: u64) -> Option<u64>
        requires device { dev < length (state_of self.now).devices }
        requires from { from ≤ length (disk_of (state_of self.now) dev) }
        ensures { IsNextBad (state_of self.now) dev from result }
    {
        self.devices[dev as usize].next_bad(from)
    }

    /// Reads a sector of a device's disk that is not bad, as `read_sector` does, without a look at the marks. Where the disk
    /// fails, the buffer may hold anything.
    pub fn read_good_sector(
        &mut self,
        dev: u8,
        n: u64,
        buf: &mut [u8; SECTOR_SIZE],
    ) -> Result<(), DiskFault>
        requires { IsGood (sector_on (sectors_on (state_of self.old) dev) n) }
        ensures read { ReadsSector self.old dev n buf.new (found_good result) self.new }
        ensures calls { CallsDisk D.called true dev self.old self.new }
    {
        self.devices[dev as usize].read_good(n, buf)
    }
}
