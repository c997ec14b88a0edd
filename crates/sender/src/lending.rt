//! Machines that are being migrated, and whose RAM is lent.

mod beside;
mod calls;
mod held;
mod sectors;

ghost use Rattle.std.specs.Prelude.{◌≡◌, ◌*◌, length};
ghost use Rattle.region.specs.Address.{address};
ghost use Rattle.guestmem.specs.Lent.{AreBelow, given_back};
ghost use Rattle.guestmem.specs.declared.limits.TheConstants.{PAGE_SIZE};
ghost use Rattle.sender.specs.Parked.{live_back};

use crate::live::LiveOver;
use guestmem::{ParkedRam, Ram};
use machine::{Disk, Parked};
use region::Region;
use wire::Digesting;

impl<D: Disk, W: Digesting> LiveOver<D, W, ParkedRam> {
    /// How many pages its RAM has, at least one.
    pub fn pages(&self) -> usize
        ensures { result ≡ length self.now.machine.memory }
    {
        self.machine.pages()
    }

    /// The machine, whose RAM is lent.
    pub fn parked(&self) -> &Parked<D>
        ensures { result.now ≡ self.now.machine }
    {
        &self.machine
    }

    /// The machine whose RAM is given back, as `Parked::give_back` does. The pages that were written meanwhile are dirty.
    pub fn give_back(self, region: Region, pages: &[u32]) -> LiveOver<D, W, Ram>
        requires size { length region.content ≡ PAGE_SIZE * length self.machine.memory }
        requires below { AreBelow (length self.machine.memory) pages.now }
        ensures { result ≡ live_back self (given_back region.content (address region) self.machine.memory pages.now) pages.now }
    {
        let LiveOver {
            machine: parked,
            writer,
            phase,
            due,
            at,
            mut logs,
        } = self;
        let machine = parked.give_back(region, pages, &mut logs.first);
        machine.ram().recall();
        let _shapes = machine.shapes();
        LiveOver {
            machine,
            writer,
            phase,
            due,
            at,
            logs,
        }
    }
}
