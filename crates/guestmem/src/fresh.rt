//! RAM in memory of the library that is first written as its pages come.
//!
//! The bytes are a `Vec` that grows into its room, so receiving makes no pass of zeros before the first page. A page of zeros
//! past all that came touches nothing. A page that comes ahead of others has zeros written before it.

ghost use Rattle.std.specs.Prelude.{◌≡◌, ◌*◌, ◌<◌, ◌≤◌, length, replicate, IfOk, None};
ghost use Rattle.guestmem.specs.Number.{IsBytes};
ghost use Rattle.guestmem.specs.Memory.{Memory, IsMemory};
ghost use Rattle.guestmem.specs.Write.{put_at};

use crate::limits::{PAGE_SIZE, PAGES_GREATEST};
use crate::ram::{Ram, recall_bytes};
use crate::storage::Storage;
use std::alloc::{AllocError, Global};
use std::marker::Model;

/// A RAM in memory of the library whose pages come one by one. It reads as zeros where none came.
///
/// Its memory is taken when it is made, and a page is first written when it comes or a later one does. So pages that come in
/// their order are written once. No version rises.
#[derive(Drop)]
pub struct FreshRam {
    /// The pages up to the last one that came. Those after it are zeros.
    bytes: Vec<u8>,
    versions: Vec<u64>,
}

impl Model for FreshRam {
    ghost use Rattle.std.specs.Vec.{vec_capacity};
    ghost use Rattle.guestmem.specs.Fresh.{IsFresh, ram_so_far};
    ghost use Rattle.guestmem.specs.Memory.{Memory};

    ghost Value = { Memory };

    ghost view = { λ r. ram_so_far r.bytes.items r.versions.items };

    ghost invariant = { λ r. IsFresh r.bytes.items r.versions.items (vec_capacity r.bytes) };
}

impl FreshRam {
    /// Pages of zeros, none of which came yet. Its only error is out of memory.
    pub fn new(alloc: Global, pages: u32) -> Result<FreshRam, AllocError>
        requires some { 1 ≤ pages }
        requires few { pages ≤ PAGES_GREATEST }
        ensures { IfOk result (λ ram. ram ≡ record { bytes = replicate (PAGE_SIZE * pages) 0; versions = replicate pages 0; place = None }) }
    {
        let bytes = Vec::with_capacity(alloc, pages as usize * PAGE_SIZE)?;
        let versions = vec![in alloc; 0u64; pages as usize]?;
        Ok(FreshRam { bytes, versions })
    }

    /// States for proofs what holds of every such RAM.
    pub fn recall(&self)
        ensures sound { IsMemory self.now }
        ensures bytes { IsBytes self.now.bytes }
    {
        recall_bytes(self.bytes.as_slice());
    }

    /// The number of bytes, a multiple of 4,096.
    pub fn len(&self) -> u64
        ensures { result ≡ length self.now.bytes }
    {
        self.versions.len() as u64 * PAGE_SIZE as u64
    }

    /// Sets a page. Earlier pages that have not arrived are zero-filled first.
    pub fn put_page(&mut self, page: u64, bytes: &[u8])
        requires inside { page < length self.old.versions }
        requires whole { length bytes.now ≡ PAGE_SIZE }
        ensures bytes { self.new.bytes ≡ put_at self.old.bytes (PAGE_SIZE * page) bytes.now }
        ensures versions { self.new.versions ≡ self.old.versions }
        ensures place { self.new.place ≡ self.old.place }
    {
        self.recall();
        let start = page as usize * PAGE_SIZE;
        if start < self.bytes.len() {
            self.bytes[start..start + PAGE_SIZE].copy_from_slice(bytes);
            return;
        }
        self.bytes.resize(start, 0).unwrap();
        self.bytes.extend_from_slice(bytes).unwrap();
    }

    /// Sets a page to zeros. A page after all that have arrived is zeros already, and is not written.
    pub fn clear_page(&mut self, page: u64)
        requires { page < length self.old.versions }
        ensures bytes { self.new.bytes ≡ put_at self.old.bytes (PAGE_SIZE * page) (replicate PAGE_SIZE 0) }
        ensures versions { self.new.versions ≡ self.old.versions }
        ensures place { self.new.place ≡ self.old.place }
    {
        if (page as usize) < self.bytes.len() / PAGE_SIZE {
            self.put_page(page, &[0; PAGE_SIZE]);
        }
    }

    /// The same as a RAM. It takes no memory.
    pub fn into_ram(self) -> Ram
        ensures { result ≡ self }
    {
        let FreshRam { bytes, versions } = self;
        let mut bytes = bytes;
        bytes.resize(versions.len() * PAGE_SIZE, 0).unwrap();
        Ram::from_parts(Storage::own(bytes), versions)
    }
}
