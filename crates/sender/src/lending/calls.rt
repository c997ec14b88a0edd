//! The calls of a machine that is being migrated and whose RAM is lent: pages that are handed in, and marks.

ghost use Rattle.std.specs.Prelude.{◌≡◌, ◌<◌, length};
ghost use Rattle.guestmem.specs.Lent.{AreBelow};
ghost use Rattle.dirtylog.specs.Members.{IsLeast};
ghost use Rattle.sender.specs.HandedIn.{HandsInPage, IsNextPage};
ghost use Rattle.sender.specs.Parked.{with_pages};

use crate::event::{LiveEvent, NextDue};
use crate::live::LiveOver;
use crate::mig_error::MigError;
use crate::phase::Phase;
use dirtylog::BitSet;
use guestmem::ParkedRam;
use machine::Disk;
use wire::{Digesting, write_page};

impl<D: Disk, W: Digesting> LiveOver<D, W, ParkedRam> {
    /// The least due item, if it is a page: the one that `copy_page` takes next. `next_item` says too whether sectors are due.
    pub fn next_due(&self) -> Option<u32>
        ensures { IsNextPage (length self.now.machine.memory) self.now.due result }
    {
        match self.next_item() {
            NextDue::Page(page) => Some(page),
            NextDue::Sector | NextDue::Nothing => None,
        }
    }

    /// Sends the least due item, a page, with bytes that the caller copied out of the RAM while it may have been written: by the history
    /// the guest wrote this page with these bytes, and then it was copied. Where the RAM that is given back holds others there, the page
    /// is among those that were written.
    pub fn copy_page(&mut self, page: u32, bytes: &[u8; 4096]) -> Result<(), MigError>
        requires next { IsLeast self.old.due 0 page }
        requires inside { page < length self.old.machine.memory }
        ensures { HandsInPage self.old page bytes.now result self.new }
    {
        if let Some(error) = self.refusal(&LiveEvent::Copy) {
            return Err(error);
        }
        if let Err(_) = write_page(page, bytes, &mut self.writer) {
            self.phase = Phase::Failed;
            return Err(MigError::StreamFailed);
        }
        let number = page as u64;
        self.due.remove(number);
        self.logs.first.set.remove(number);
        self.at = number + 1;
        Ok(())
    }

    /// Names pages that the guest has written, also in this loan: they are dirty. In the history it is a write of each with the bytes that RAM has
    /// there by the history: as it was lent, or as the page was handed in, or as a step beside the guest saw it. A page that may have other
    /// bytes at the return is named there too, as if it had not been marked. No byte is read or written, and no version rises.
    pub fn mark(&mut self, pages: &[u32])
        requires below { AreBelow (length self.old.machine.memory) pages.now }
        ensures { self.new ≡ record self.old { dirty = with_pages self.old.dirty pages.now } }
    {
        self.machine.recall();
        insert_each(&mut self.logs.first.set, pages);
    }
}

/// Makes each of these pages a member.
fn insert_each(set: &mut BitSet, pages: &[u32])
    requires { AreBelow (length set.old) pages.now }
    ensures { set.new ≡ with_pages set.old pages.now }
{
    for n in pages {
        set.insert(*n as u64);
    }
}
