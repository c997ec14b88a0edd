//! What stays of a RAM while its bytes are lent to the caller.
//!
//! A type of its own, with versions and without bytes: no call that reads RAM can be made meanwhile. What the bytes were is not
//! remembered, so giving back is total, whatever was written. That the named pages alone were written is the premise of a law
//! (`given_back_is_written`), and of no call. A page that is named twice counts as written twice.

ghost use Rattle.std.specs.Prelude.{◌≡◌, ◌*◌, ◌≤◌, length};
ghost use Rattle.region.specs.Address.{address};
ghost use Rattle.guestmem.specs.Item.{after_all, MayPages};
ghost use Rattle.guestmem.specs.Lent.{AreBelow, given_back, page_items, raise_each};
ghost use Rattle.guestmem.specs.Memory.{Memory};
ghost use Rattle.guestmem.specs.Rises.{Rises};

use crate::limits::{PAGE_SIZE, PAGES_GREATEST};
use crate::log::TouchLog;
use crate::ram::{Ram, raised_version};
use crate::storage::Storage;
use region::Region;
use std::marker::Model;

/// A RAM whose bytes are lent to the caller: it keeps the version of each page. Contracts see the list of them.
#[derive(Drop)]
pub struct ParkedRam {
    versions: Vec<u64>,
}

impl Model for ParkedRam {
    ghost use Rattle.std.specs.Prelude.{List, ℕ, ◌≤◌, length};
    ghost use Rattle.guestmem.specs.declared.limits.TheConstants.{PAGES_GREATEST};

    ghost Value = { List ℕ };

    ghost view = { λ p. p.versions.items };

    ghost invariant = { λ p. (1 ≤ length p.versions.items) × (length p.versions.items ≤ PAGES_GREATEST) };
}

impl ParkedRam {
    /// The RAM with these versions, without its bytes.
    pub(crate) fn of(versions: Vec<u64>) -> ParkedRam
        requires some { 1 ≤ length versions.items }
        requires few { length versions.items ≤ PAGES_GREATEST }
        ensures { result ≡ versions.items }
    {
        ParkedRam { versions }
    }

    /// How many pages it has, at least one.
    pub fn pages(&self) -> usize
        ensures count { result ≡ length self.now }
        ensures some { 1 ≤ result }
        ensures few { result ≤ PAGES_GREATEST }
    {
        self.versions.len()
    }

    /// The RAM again, with the bytes that the region has now, wherever it lies. `pages` names the pages that were written meanwhile:
    /// the version of each rises, once for each time that it is named, and the log takes it in. No byte is read or written.
    pub fn give_back<L: TouchLog>(self, region: Region, pages: &[u32], log: &mut L) -> Ram
        requires size { length region.content ≡ PAGE_SIZE * length self }
        requires below { AreBelow (length self) pages.now }
        requires may { MayPages L.may log.old (length region.content) }
        ensures ram { result ≡ given_back region.content (address region) self pages.now }
        ensures rises { (lent : Memory) → lent.versions ≡ self → Rises (page_items pages.now) lent result }
        ensures log { log.new ≡ after_all L.after log.old (page_items pages.now) }
        ensures may { MayPages L.may log.new (length result.bytes) }
    {
        let ParkedRam { mut versions } = self;
        raise_each(versions.as_mut_slice(), pages, log);
        Ram::from_parts(Storage::callers(region), versions)
    }
}

/// Raises the version of each of these pages, one after another, and reports them to the log.
pub(crate) fn raise_each<L: TouchLog>(versions: &mut [u64], pages: &[u32], log: &mut L)
    requires below { AreBelow (length versions.old) pages.now }
    requires may { MayPages L.may log.old (PAGE_SIZE * length versions.old) }
    ensures versions { versions.new ≡ raise_each versions.old pages.now }
    ensures log { log.new ≡ after_all L.after log.old (page_items pages.now) }
    ensures may { MayPages L.may log.new (PAGE_SIZE * length versions.new) }
{
    for n in pages {
        versions[*n as usize] = raised_version(versions[*n as usize]);
        log.page(*n as u64);
    }
}
