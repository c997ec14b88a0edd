//! Sectors that are sent while RAM is lent: no disk is in RAM, so no copy by the caller is needed, and nothing races.

ghost use Rattle.std.specs.Prelude.{◌≡◌, ◌<◌, OnOk, false, slice_set};
ghost use Rattle.guestmem.specs.Item as items;
ghost use Rattle.machine.specs.Layout.{item_at, size_of};
ghost use Rattle.machine.specs.Parked.{WhateverRam, back_with};
ghost use Rattle.sender.specs.Parked.{parked_layout};
ghost use Rattle.sender.specs.SectorsLent.{CopiesSector, HasSectorCalled, SendsLent};
ghost use Rattle.sender.specs.Reads.{ReadsItem};

use crate::event::{Item, LiveEvent, SectorAnswer};
use crate::live::{LiveOver, phase_after};
use crate::mig_error::MigError;
use crate::saving::write_read;
use guestmem::ParkedRam;
use machine::{Disk, SECTOR_SIZE};
use wire::Digesting;

impl<D: Disk, W: Digesting> LiveOver<D, W, ParkedRam> {
    /// Sends the least due item where it is a sector, as `LiveOver::copy` does. Where it is a page, or none is due, nothing has changed, and
    /// the answer says so. `DiskFailed` leaves the sector due.
    #[tactic(auto, using(crate::proofs::SectorsLent::least_below, crate::proofs::SectorsLent::copy_refused, crate::proofs::SectorsLent::refused_called, crate::proofs::SectorsLent::none_due, crate::proofs::SectorsLent::page_due, crate::proofs::SectorsLent::sector_copied, crate::proofs::SectorsLent::sector_failed, crate::proofs::SectorsLent::sector_called, crate::proofs::SectorsLent::failed_called))]
    pub fn copy_sector(&mut self) -> Result<SectorAnswer, MigError>
        ensures copied { CopiesSector self.old result self.new }
        ensures calls { HasSectorCalled D.called self.old result self.new }
    {
        if let Some(error) = self.refusal(&LiveEvent::Copy) {
            return Err(error);
        }
        let Some(number) = self.due.first_from(self.at) else {
            return Ok(SectorAnswer::RoundDone);
        };
        match self.item(number) {
            Item::Page(page) => Ok(SectorAnswer::PageDue(page)),
            Item::Sector { dev, sector } => {
                self.send_sector(number, dev, sector)?;
                self.at = number + 1;
                Ok(SectorAnswer::Copied { dev, sector })
            }
        }
    }

    /// Sends the sector with this number.
    fn send_sector(&mut self, number: u64, dev: u8, sector: u32) -> Result<(), MigError>
        requires below { number < size_of (parked_layout self.old.machine) }
        requires item { items.sector dev sector ≡ item_at (parked_layout self.old.machine) number }
        ensures sent { SendsLent self.old number dev sector result self.new }
        ensures due { OnOk result (self.new.due ≡ slice_set self.old.due number false) }
        ensures calls { WhateverRam self.old.machine (λ m. ReadsItem D.called (back_with self.old.machine m) (items.sector dev sector) (back_with self.new.machine m)) }
    {
        let mut bytes = [0; SECTOR_SIZE];
        let read = self.machine.read_sector(dev, sector as u64, &mut bytes);
        if let Err(error) = write_read(dev, sector, read, &bytes, &mut self.writer) {
            self.phase = phase_after(self.phase, error);
            return Err(error);
        }
        self.due.remove(number);
        self.logs.first.set.remove(number);
        Ok(())
    }
}
