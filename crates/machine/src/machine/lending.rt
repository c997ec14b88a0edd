//! Machines whose RAM is lent to the caller, in whose memory it lies.
//!
//! What the rings keep of descriptors is emptied: a page that was written and not named keeps its version, so a kept descriptor
//! could be wrong, and what a ring answers would be no function of RAM.

mod beside;
mod held;
mod planning;
mod storing;

ghost use Rattle.std.specs.Prelude.{◌≡◌, ◌*◌, ◌<◌, ◌≤◌, length, map, None, Some, IfOk, IfErr, slice_get};
ghost use Rattle.region.specs.Address.{address};
ghost use Rattle.guestmem.specs.Item.{MayPages, after_all};
ghost use Rattle.guestmem.specs.Lent.{AreBelow, given_back, page_items};
ghost use Rattle.guestmem.specs.declared.limits.TheConstants.{PAGE_SIZE, PAGES_GREATEST};
ghost use Rattle.machine.specs.Lines.{lines_of};
ghost use Rattle.machine.specs.Parked.{IsParked, WhateverRam, back_with, machine_marked, parked_states};
ghost use Rattle.machine.specs.Seen.{state_of};
ghost use Rattle.machine.specs.Shapes.{made_as};
ghost use Rattle.machine.specs.Sound.{IsSound};
ghost use Rattle.machine.specs.State.{base_of};
ghost use Rattle.machine.specs.declared.machine.TheConstants.{DEVICES_MAX};

use crate::forgetting::forget_all;
use crate::machine::{Machine, MachineOver, Parked};
use blk::Disk;
use guestmem::{ParkedRam, Ram, TouchLog};
use region::Region;

impl<D: Disk> MachineOver<D, Ram> {
    /// Lends the RAM, if it lies in memory of the caller. Takes no memory; its time does not depend on the size of RAM.
    #[tactic(auto, using(crate::proofs::Parking::was_held))]
    pub fn lend(self) -> Result<(Region, Parked<D>), Machine<D>>
        ensures lent { IfOk result (λ r. IsParked self r.0 r.1) }
        ensures own { IfErr result (λ _. self.memory.place ≡ None) }
        ensures same { IfErr result (λ m. m ≡ self) }
    {
        self.ram.recall();
        match self.ram.lend() {
            Ok((region, ram)) => {
                let mut rings = self.rings;
                forget_all(&mut rings);
                let parked = MachineOver {
                    alloc: self.alloc,
                    ram,
                    shapes: self.shapes,
                    devices: self.devices,
                    rings,
                };
                Ok((region, parked))
            }
            Err(ram) => Err(MachineOver { ram, ..self }),
        }
    }

    /// Names pages that the caller wrote while the RAM was lent, and did not name when it gave the RAM back: their versions rise, and
    /// the log takes them in. No byte is read or written. It takes time for these pages alone, and no memory.
    pub fn mark<L: TouchLog>(&mut self, pages: &[u32], log: &mut L)
        requires below { AreBelow (length self.old.memory.versions) pages.now }
        requires may { MayPages L.may log.old (length self.old.memory.bytes) }
        ensures machine { self.new ≡ machine_marked self.old pages.now }
        ensures log { log.new ≡ after_all L.after log.old (page_items pages.now) }
        ensures may { MayPages L.may log.new (length self.new.memory.bytes) }
    {
        self.ram.mark(pages, log);
    }
}

impl<D: Disk> MachineOver<D, ParkedRam> {
    /// How many pages its RAM has, at least one.
    pub fn pages(&self) -> usize
        ensures count { result ≡ length self.now.memory }
        ensures few { result ≤ PAGES_GREATEST }
    {
        self.ram.pages()
    }

    /// For proofs: whatever the RAM holds meanwhile, the machine is sound.
    pub fn recall(&self)
        ensures some { 1 ≤ length self.now.memory }
        ensures few { length self.now.memory ≤ PAGES_GREATEST }
        ensures sound { WhateverRam self.now (λ m. IsSound (state_of (back_with self.now m))) }
    {
        let _pages = self.ram.pages();
    }

    /// The machine whose RAM is given back: its bytes are those that lie there now, and these pages were written meanwhile,
    /// which the log takes in. It takes time for these pages alone, and no memory.
    pub fn give_back<L: TouchLog>(self, region: Region, pages: &[u32], log: &mut L) -> Machine<D>
        requires size { length region.content ≡ PAGE_SIZE * length self.memory }
        requires below { AreBelow (length self.memory) pages.now }
        requires may { MayPages L.may log.old (length region.content) }
        ensures machine { result ≡ back_with self (given_back region.content (address region) self.memory pages.now) }
        ensures log { log.new ≡ after_all L.after log.old (page_items pages.now) }
        ensures may { MayPages L.may log.new (length region.content) }
    {
        let ram = self.ram.give_back(region, pages, log);
        ram.recall();
        MachineOver {
            alloc: self.alloc,
            ram,
            shapes: self.shapes,
            devices: self.devices,
            rings: self.rings,
        }
    }
}
