//! The memory of a guest while its pages come.
//!
//! A RAM that is given has bytes already, which stay where no page comes; new memory is first written as pages come. One branch
//! a page tells them apart.

ghost use Rattle.std.specs.Prelude.{◌≡◌, ◌*◌, ◌<◌, ◌≤◌, length, replicate, IfOk, None};
ghost use Rattle.guestmem.specs.Number.{IsBytes};
ghost use Rattle.guestmem.specs.Memory.{Memory, IsMemory};
ghost use Rattle.guestmem.specs.Write.{put_at};

use crate::fresh::FreshRam;
use crate::limits::{PAGE_SIZE, PAGES_GREATEST};
use crate::ram::Ram;
use std::alloc::{AllocError, Global};
use std::marker::Model;

/// Where the pages go.
#[derive(Drop)]
pub enum Room {
    /// Memory that was taken for them.
    Fresh(FreshRam),

    /// A RAM that was there before.
    Given(Ram),
}

/// A RAM whose pages come one by one, into new memory of the library or into a RAM that is given. Where none came it reads as zeros, or
/// as that RAM was. No version rises.
///
/// New memory is taken when it is made, and a page is first written when it comes or a later one does. So pages that come in
/// their order are written once.
#[derive(Drop)]
pub struct ArrivingRam {
    room: Room,
}

impl Model for ArrivingRam {
    ghost use Rattle.guestmem.specs.Arriving.{ram_in};
    ghost use Rattle.guestmem.specs.Memory.{Memory};

    ghost Value = { Memory };

    ghost view = { λ r. ram_in r.room };
}

impl ArrivingRam {
    /// Pages of zeros, none of which came yet. Its only error is out of memory.
    pub fn new(alloc: Global, pages: u32) -> Result<ArrivingRam, AllocError>
        requires some { 1 ≤ pages }
        requires few { pages ≤ PAGES_GREATEST }
        ensures { IfOk result (λ ram. ram ≡ record { bytes = replicate (PAGE_SIZE * pages) 0; versions = replicate pages 0; place = None }) }
    {
        let ram = FreshRam::new(alloc, pages)?;
        Ok(ArrivingRam {
            room: Room::Fresh(ram),
        })
    }

    /// The pages of a RAM, as they are, none of which came yet. It takes no memory.
    pub fn over(ram: Ram) -> ArrivingRam
        ensures { result ≡ ram }
    {
        ArrivingRam {
            room: Room::Given(ram),
        }
    }

    /// States for proofs what holds of every such RAM.
    pub fn recall(&self)
        ensures sound { IsMemory self.now }
        ensures bytes { IsBytes self.now.bytes }
    {
        match &self.room {
            Room::Fresh(ram) => ram.recall(),
            Room::Given(ram) => ram.recall(),
        }
    }

    /// The number of bytes, a multiple of 4,096.
    pub fn len(&self) -> u64
        ensures { result ≡ length self.now.bytes }
    {
        match &self.room {
            Room::Fresh(ram) => ram.len(),
            Room::Given(ram) => ram.len(),
        }
    }

    /// Sets a page. In new memory, earlier pages that have not arrived are zero-filled first.
    pub fn put_page(&mut self, page: u64, bytes: &[u8])
        requires inside { page < length self.old.versions }
        requires whole { length bytes.now ≡ PAGE_SIZE }
        ensures bytes { self.new.bytes ≡ put_at self.old.bytes (PAGE_SIZE * page) bytes.now }
        ensures versions { self.new.versions ≡ self.old.versions }
        ensures place { self.new.place ≡ self.old.place }
    {
        match &mut self.room {
            Room::Fresh(ram) => ram.put_page(page, bytes),
            Room::Given(ram) => ram.set_page(page, bytes),
        }
    }

    /// Sets a page to zeros. In new memory, a page after all that have arrived is zeros already, and is not written.
    pub fn clear_page(&mut self, page: u64)
        requires { page < length self.old.versions }
        ensures bytes { self.new.bytes ≡ put_at self.old.bytes (PAGE_SIZE * page) (replicate PAGE_SIZE 0) }
        ensures versions { self.new.versions ≡ self.old.versions }
        ensures place { self.new.place ≡ self.old.place }
    {
        match &mut self.room {
            Room::Fresh(ram) => ram.clear_page(page),
            Room::Given(ram) => ram.clear_page(page),
        }
    }

    /// The same as a RAM. It takes no memory.
    pub fn into_ram(self) -> Ram
        ensures { result ≡ self }
    {
        let ArrivingRam { room } = self;
        match room {
            Room::Fresh(ram) => ram.into_ram(),
            Room::Given(ram) => ram,
        }
    }
}
