//! The memory of a guest.
//!
//! What lies in one page is written by `put_in_page`, which raises one version and looks for no second page: a used descriptor
//! of a packed ring (its area is aligned to 16) and the index of a used ring (aligned to 4). An entry of a used ring may begin
//! four bytes before the end of a page, so it is written by `put`.

ghost use Rattle.std.specs.Prelude.{◌≡◌, ◌+◌, ◌*◌, ◌/◌, ◌%◌, ◌<◌, ◌≤◌, ◌^◌, ℕ, length, replicate, take, drop, IfOk, IfErr, OnOk, OnErr, map, slice_index, false, None, Some};
ghost use Rattle.guestmem.specs.Number.{number_at, IsBytes};
ghost use Rattle.guestmem.specs.Item.{page as page_item, after_all, pages_between, MayPages};
ghost use Rattle.guestmem.specs.Writes.{byte_writes, set_all, touched};
ghost use Rattle.guestmem.specs.Memory.{Memory, IsMemory};
ghost use Rattle.guestmem.specs.Page.{page_of};
ghost use Rattle.guestmem.specs.Later.{IsLater};
ghost use Rattle.guestmem.specs.Lent.{AreBelow, IsLent, marked, page_items};
ghost use Rattle.guestmem.specs.Rises.{Rises};
ghost use Rattle.guestmem.specs.Write.{put_at, written, touched_of, refusal_of, unless_refused, raise, raised};
ghost use Rattle.guestmem.specs.declared.touched.Touched.TheVariants.{Pages};
ghost use Rattle.region.specs.Address.{address};

use crate::address::access_refusal;
use crate::error::RamError;
use crate::laws::refusals_at_zero;
use crate::limits::{PAGE_SIZE, PAGES_GREATEST};
use crate::log::TouchLog;
use crate::parked::{ParkedRam, raise_each};
use crate::storage::Storage;
use crate::touched::Touched;
use crate::zero_page::is_zero;
use byteorder::{ByteOrder, LittleEndian};
use region::Region;
use std::alloc::{AllocError, Global};
use std::marker::Model;

/// The memory of a guest: whole pages, each with a version. Its bytes lie in memory of the library or in a
/// region of the caller's memory.
#[derive(Drop)]
pub struct Ram {
    bytes: Storage,
    versions: Vec<u64>,
}

impl Model for Ram {
    ghost Value = { Memory };

    ghost view = { λ r. record { bytes = r.bytes.bytes; versions = r.versions.items; place = r.bytes.place } };

    ghost invariant = { λ r. IsMemory (record { bytes = r.bytes.bytes; versions = r.versions.items; place = r.bytes.place }) };
}

impl Ram {
    /// Pages of zeros, each at version 0. Its only error is out of memory.
    pub fn new(alloc: Global, pages: u32) -> Result<Ram, AllocError>
        requires some { 1 ≤ pages }
        requires few { pages ≤ PAGES_GREATEST }
        ensures { IfOk result (λ ram. ram ≡ record { bytes = replicate (PAGE_SIZE * pages) 0; versions = replicate pages 0; place = None }) }
    {
        Ram::with_version(alloc, pages, 0)
    }

    /// Pages of zeros, each at version `start`, which may be any: near the greatest one, a test sees how a cache ends. Its
    /// only error is out of memory.
    pub fn with_version(alloc: Global, pages: u32, start: u64) -> Result<Ram, AllocError>
        requires some { 1 ≤ pages }
        requires few { pages ≤ PAGES_GREATEST }
        ensures { IfOk result (λ ram. ram ≡ record { bytes = replicate (PAGE_SIZE * pages) 0; versions = replicate pages start; place = None }) }
    {
        let bytes = vec![in alloc; 0u8; pages as usize * PAGE_SIZE]?;
        let versions = vec![in alloc; start; pages as usize]?;
        Ok(Ram {
            bytes: Storage::own(bytes),
            versions,
        })
    }

    /// The RAM whose bytes are those of a region, as they are now, each page at version 0. Memory is taken for the versions alone; the
    /// only error is out of memory, and hands the region back as it was.
    pub fn over(alloc: Global, region: Region) -> Result<Ram, (AllocError, Region)>
        requires whole { length region.content % PAGE_SIZE ≡ 0 }
        requires some { PAGE_SIZE ≤ length region.content }
        requires few { length region.content ≤ PAGE_SIZE * PAGES_GREATEST }
        ensures made { IfOk result (λ ram. ram ≡ record { bytes = region.content; versions = replicate (length region.content / PAGE_SIZE) 0; place = Some (address region) }) }
        ensures back { IfErr result (λ error. error.1 ≡ region) }
    {
        let Ok(versions) = vec![in alloc; 0u64; region.len() / PAGE_SIZE] else {
            return Err((AllocError, region));
        };
        Ok(Ram {
            bytes: Storage::callers(region),
            versions,
        })
    }

    /// The RAM with these bytes and these versions of its pages.
    pub(crate) fn from_parts(bytes: Storage, versions: Vec<u64>) -> Ram
        requires { IsMemory (record { bytes = bytes.bytes; versions = versions.items; place = bytes.place }) }
        ensures { result ≡ record { bytes = bytes.bytes; versions = versions.items; place = bytes.place } }
    {
        Ram { bytes, versions }
    }

    /// Lends the bytes to the caller, if they lie in the caller's memory: the region goes out, and the versions are kept meanwhile. A
    /// RAM in memory of the library stays as it is. It takes constant time.
    pub fn lend(self) -> Result<(Region, ParkedRam), Ram>
        ensures lent { IfOk result (λ lent. IsLent self lent.0 lent.1) }
        ensures own { IfErr result (λ _. self.place ≡ None) }
        ensures same { IfErr result (λ ram. ram ≡ self) }
    {
        self.recall();
        let Ram { bytes, versions } = self;
        match bytes.into_region() {
            Ok(region) => Ok((region, ParkedRam::of(versions))),
            Err(bytes) => Err(Ram { bytes, versions }),
        }
    }

    /// States for proofs what holds of every RAM.
    pub fn recall(&self)
        ensures sound { IsMemory self.now }
        ensures bytes { IsBytes self.now.bytes }
    {
        recall_bytes(self.bytes.as_slice());
    }

    /// The number of bytes, a multiple of 4,096.
    pub fn len(&self) -> u64
        ensures { result ≡ length self.now.bytes }
    {
        self.bytes.len() as u64
    }

    /// Always false: a RAM has a page at least.
    pub fn is_empty(&self) -> bool
        ensures { result ≡ false }
    {
        self.bytes.len() == 0
    }

    /// The version of a page.
    pub fn version(&self, page: u64) -> u64
        requires { page < length self.now.versions }
        ensures { result ≡ slice_index self.now.versions page }
    {
        self.versions[page as usize]
    }

    /// The bytes of a page.
    pub fn page(&self, page: u64) -> &[u8; PAGE_SIZE]
        requires { page < length self.now.versions }
        ensures { result.now ≡ page_of self.now.bytes page }
    {
        let bytes = self.bytes.as_slice();
        let start = page as usize * PAGE_SIZE;
        let bytes = &bytes[start..start + PAGE_SIZE];
        match <&[u8; PAGE_SIZE]>::try_from(bytes) {
            Ok(page) => page,
            Err(_) => &[0; PAGE_SIZE],
        }
    }

    /// The number in the two bytes from an index on.
    #[tactic(auto, unfolding(crate::specs::Number::number_at))]
    pub fn u16_at(&self, index: u64) -> u16
        requires { index + 2 ≤ length self.now.bytes }
        ensures { result ≡ number_at self.now.bytes index 2 }
    {
        LittleEndian::read_u16(&self.bytes.as_slice()[index as usize..])
    }

    /// The number in the eight bytes from an index on.
    #[tactic(auto, unfolding(crate::specs::Number::number_at))]
    pub fn u64_at(&self, index: u64) -> u64
        requires { index + 8 ≤ length self.now.bytes }
        ensures { result ≡ number_at self.now.bytes index 8 }
    {
        LittleEndian::read_u64(&self.bytes.as_slice()[index as usize..])
    }

    /// Why an access of `count` bytes at `addr` would be refused, if it would be.
    pub fn refusal(&self, addr: u64, count: usize) -> Option<RamError>
        ensures { result ≡ refusal_of (length self.now.bytes) addr count }
    {
        refusals_at_zero();
        access_refusal(0, self.len(), addr, count)
    }

    /// Reads the bytes from an address on into the whole buffer. A refusal leaves the buffer as it was.
    pub fn read(&self, addr: u64, buf: &mut [u8]) -> Result<(), RamError>
        ensures result { result ≡ unless_refused (refusal_of (length self.now.bytes) addr (length buf.old)) tt }
        ensures ok { OnOk result (buf.new ≡ take (length buf.old) (drop addr self.now.bytes)) }
        ensures err { OnErr result (buf.new ≡ buf.old) }
    {
        if let Some(error) = self.refusal(addr, buf.len()) {
            return Err(error);
        }
        self.get(addr, buf);
        Ok(())
    }

    /// Fills a buffer of any length with the bytes from an index on, for code that knows them to lie inside RAM.
    pub fn get(&self, index: u64, buf: &mut [u8])
        requires { index + length buf.old ≤ length self.now.bytes }
        ensures { buf.new ≡ take (length buf.old) (drop index self.now.bytes) }
    {
        let start = index as usize;
        buf.copy_from_slice(&self.bytes.as_slice()[start..start + buf.len()]);
    }

    /// Writes bytes from an address on, and returns the pages that they went into. A refusal changes nothing.
    pub fn write(&mut self, addr: u64, bytes: &[u8]) -> Result<Touched, RamError>
        ensures result { result ≡ unless_refused (refusal_of (length self.old.bytes) addr (length bytes.now)) (touched_of addr (length bytes.now)) }
        ensures ok { OnOk result (self.new ≡ written self.old addr bytes.now) }
        ensures err { OnErr result (self.new ≡ self.old) }
        ensures later { IsLater self.old self.new }
    {
        self.recall();
        if let Some(error) = self.refusal(addr, bytes.len()) {
            return Err(error);
        }
        Ok(self.store(addr, bytes))
    }

    /// Writes bytes of any number from an index on, for code that knows them to lie inside RAM, and reports to the
    /// log the pages that they went into.
    #[inline(always)]
    #[tactic(auto, using(crate::proofs::WriteLaws::put_at_set_all))]
    pub fn put<L: TouchLog>(&mut self, index: u64, bytes: &[u8], log: &mut L)
        requires inside { index + length bytes.now ≤ length self.old.bytes }
        requires may { MayPages L.may log.old (length self.old.bytes) }
        ensures bytes { self.new.bytes ≡ set_all self.old.bytes (byte_writes index bytes.now) }
        ensures size { length self.new.bytes ≡ length self.old.bytes }
        ensures versions { self.new ≡ written self.old index bytes.now }
        ensures later { IsLater self.old self.new }
        ensures log { log.new ≡ after_all L.after log.old (touched (byte_writes index bytes.now)) }
        ensures rises { Rises (touched (byte_writes index bytes.now)) self.old self.new }
        ensures may { MayPages L.may log.new (length self.new.bytes) }
    {
        self.recall();
        match self.store(index, bytes) {
            Touched::NoPage => {}
            Touched::Pages(first, last) => tell_pages(log, first, last),
        }
    }

    /// Does what `put` does, for bytes that lie in one page: at least one, and none past the end of the page of the first.
    #[inline(always)]
    #[tactic(auto, using(crate::proofs::WriteLaws::put_at_set_all))]
    pub fn put_in_page<L: TouchLog>(&mut self, index: u64, bytes: &[u8], log: &mut L)
        requires inside { index + length bytes.now ≤ length self.old.bytes }
        requires some { 1 ≤ length bytes.now }
        requires page { index % PAGE_SIZE + length bytes.now ≤ PAGE_SIZE }
        requires may { MayPages L.may log.old (length self.old.bytes) }
        ensures bytes { self.new.bytes ≡ set_all self.old.bytes (byte_writes index bytes.now) }
        ensures versions { self.new ≡ written self.old index bytes.now }
        ensures later { IsLater self.old self.new }
        ensures log { log.new ≡ after_all L.after log.old (touched (byte_writes index bytes.now)) }
        ensures rises { Rises (touched (byte_writes index bytes.now)) self.old self.new }
        ensures may { MayPages L.may log.new (length self.new.bytes) }
    {
        self.recall();
        let page = self.store_in_page(index, bytes);
        tell_pages(log, page, page);
    }

    /// Names pages that the caller wrote while the bytes were lent, and did not name when it gave them back: the version of each rises,
    /// once for each time that it is named, and the log takes it in. No byte is read or written.
    pub fn mark<L: TouchLog>(&mut self, pages: &[u32], log: &mut L)
        requires below { AreBelow (length self.old.versions) pages.now }
        requires may { MayPages L.may log.old (length self.old.bytes) }
        ensures ram { self.new ≡ marked self.old pages.now }
        ensures log { log.new ≡ after_all L.after log.old (page_items pages.now) }
        ensures may { MayPages L.may log.new (length self.new.bytes) }
    {
        self.recall();
        raise_each(self.versions.as_mut_slice(), pages, log);
    }

    /// Sets the bytes of a page, for a RAM of which nobody has read yet: its version stays.
    pub(crate) fn set_page(&mut self, page: u64, bytes: &[u8])
        requires inside { page < length self.old.versions }
        requires whole { length bytes.now ≡ PAGE_SIZE }
        ensures { self.new ≡ record self.old { bytes = put_at self.old.bytes (PAGE_SIZE * page) bytes.now } }
    {
        self.recall();
        self.bytes.put(PAGE_SIZE * page as usize, bytes);
    }

    /// Sets the bytes of a page to zeros, as `set_page` does. A page that has zeros alone is read, and not written: so memory that nobody
    /// has written yet takes none of the host's.
    pub(crate) fn clear_page(&mut self, page: u64)
        requires { page < length self.old.versions }
        ensures { self.new ≡ record self.old { bytes = put_at self.old.bytes (PAGE_SIZE * page) (replicate PAGE_SIZE 0) } }
    {
        self.recall();
        if is_zero(self.page(page)) {
            return;
        }
        self.set_page(page, &[0; PAGE_SIZE]);
    }

    #[inline(always)]
    fn store_in_page(&mut self, index: u64, bytes: &[u8]) -> u64
        requires inside { index + length bytes.now ≤ length self.old.bytes }
        requires some { 1 ≤ length bytes.now }
        requires page { index % PAGE_SIZE + length bytes.now ≤ PAGE_SIZE }
        ensures touched { Pages result result ≡ touched_of index (length bytes.now) }
        ensures written { self.new ≡ written self.old index bytes.now }
    {
        self.recall();
        let start = index as usize;
        self.bytes.put(start, bytes);
        let page = start / PAGE_SIZE;
        raise_page(self.versions.as_mut_slice(), page);
        page as u64
    }

    fn store(&mut self, index: u64, bytes: &[u8]) -> Touched
        requires { index + length bytes.now ≤ length self.old.bytes }
        ensures touched { result ≡ touched_of index (length bytes.now) }
        ensures written { self.new ≡ written self.old index bytes.now }
    {
        self.recall();
        if bytes.is_empty() {
            return Touched::NoPage;
        }
        let start = index as usize;
        let end = start + bytes.len();
        self.bytes.put(start, bytes);
        let (first, last) = (start / PAGE_SIZE, (end - 1) / PAGE_SIZE);
        raise_pages(self.versions.as_mut_slice(), first, last);
        Touched::Pages(first as u64, last as u64)
    }
}

/// Tells a log of the pages from `first` to `last`, both included. A write seldom goes into more than one.
fn tell_pages<L: TouchLog>(log: &mut L, first: u64, last: u64)
    requires order { first ≤ last }
    requires small { last < 2 ^ 52 }
    requires may { (n : ℕ) → n ≤ last → L.may log.old (page_item n) }
    ensures { log.new ≡ after_all L.after log.old (pages_between first last) }
{
    log.page(first);
    if first == last {
        return;
    }
    tell_each(log, first + 1, last);
}

/// Tells a log of each of these pages.
#[inline(never)]
fn tell_each<L: TouchLog>(log: &mut L, first: u64, last: u64)
    requires order { first ≤ last }
    requires small { last < 2 ^ 52 }
    requires may { (n : ℕ) → n ≤ last → L.may log.old (page_item n) }
    ensures { log.new ≡ after_all L.after log.old (pages_between first last) }
{
    for n in first..last + 1 {
        log.page(n);
    }
}

/// States for proofs that each number of a slice of bytes is a byte.
pub fn recall_bytes(bytes: &[u8])
    ensures { IsBytes bytes.now }
{}

/// Raises the versions of the pages from `first` to `last`, both included. A write seldom goes into more than one.
fn raise_pages(versions: &mut [u64], first: usize, last: usize)
    requires order { first ≤ last }
    requires inside { last < length versions.old }
    ensures { versions.new ≡ raise versions.old first last }
{
    versions[first] = raised_version(versions[first]);
    if first < last {
        raise_all(&mut versions[first + 1..=last]);
    }
}

/// Raises the version of one page.
#[inline(always)]
fn raise_page(versions: &mut [u64], page: usize)
    requires { page < length versions.old }
    ensures { versions.new ≡ raise versions.old page page }
{
    versions[page] = raised_version(versions[page]);
}

fn raise_all(versions: &mut [u64])
    ensures { versions.new ≡ map raised versions.old }
{
    for version in versions.iter_mut() {
        *version = raised_version(*version);
    }
}

/// The version of a page after a write into it.
pub(crate) fn raised_version(version: u64) -> u64
    ensures { result ≡ raised version }
{
    version.saturating_add(1)
}
