//! The sectors of a block device: a disk, and which of its sectors are bad.
//!
//! A sector that a failed write left in doubt is bad until a write of it succeeds. A read of it makes no call of the disk and
//! ends as an error: so a guest never reads bytes of which nobody knows which they are, on either host of a move.
//!
//! How many sectors a disk has, and that each has 512 bytes, only the disk knows, after a write too. It is asked where it comes in, and
//! once with each write; between two of these calls nothing changes it.

ghost use Rattle.std.specs.Prelude.{◌≡◌, ◌≤◌, ◌<◌, ◌^◌, count_by, length, map, IfOk, IsTrue, OnOk, OnErr, Some, None, true, false, replicate, slice_set, is_ok, not};
ghost use Rattle.dirtylog.specs.Members.{IsLeastFrom};
ghost use Rattle.blk.specs.Sectors.{AreWhole, Calls, IsFetched, IsKept, bytes_of, called_seen_of, is_asked, is_bad, is_failed, sector_in};

use crate::disk::{Disk, DiskFault, SECTOR_SIZE};
use dirtylog::BitSet;
use guestmem::NoMemory;
use std::alloc::Global;
use std::marker::Model;

/// How a read of a sector went.
#[derive(Clone, Copy, Debug, PartialEq, Eq)]
pub enum Fetched {
    /// The sector is bad, and the disk was not asked.
    Bad,

    /// The disk failed.
    Failed,

    /// The buffer holds the sector.
    Read,
}

/// A disk, and which of its sectors are bad: those that a failed write left with any bytes. Contracts see one list of
/// sectors. The room of the marks is made with it.
#[derive(Drop)]
pub struct Sectors<D: Disk> {
    disk: D,
    bad: BitSet,
}

impl<D: Disk> Model for Sectors<D> {
    ghost use Rattle.std.specs.Prelude.{length, ◌≡◌};
    ghost use Rattle.blk.specs.Disk.{AreSectors};
    ghost use Rattle.blk.specs.Sectors.{SectorsState, called_seen_of};

    ghost Value = { SectorsState };

    ghost view = { λ s. called_seen_of (D.state s.disk) (D.calls s.disk) s.bad };

    ghost invariant = { λ s. (length s.bad ≡ length (D.state s.disk).sectors) × AreSectors (D.state s.disk).sectors };
}

impl<D: Disk> Sectors<D> {
    /// The sectors of a disk, all of them good. Its only error is out of memory, and then the disk is dropped.
    pub fn new(alloc: Global, disk: D) -> Result<Sectors<D>, NoMemory>
    where
        D: Drop,
        ensures { IfOk result (λ sectors. sectors ≡ called_seen_of (D.state disk) (D.calls disk) (replicate (length (D.state disk).sectors) false)) }
    {
        let bad = BitSet::new(alloc, disk.sectors())?;
        Ok(Sectors { disk, bad })
    }

    /// The sectors of a disk, of which these are bad. It takes no memory.
    pub fn with_marks(disk: D, bad: BitSet) -> Sectors<D>
        requires { length bad ≡ length (D.state disk).sectors }
        ensures { result ≡ called_seen_of (D.state disk) (D.calls disk) bad }
    {
        // From this call it is known that each of its sectors has 512 bytes.
        let _count = disk.sectors();
        Sectors { disk, bad }
    }

    /// The disk, and which of its sectors are bad.
    pub fn into_parts(self) -> (D, BitSet)
        ensures parts { self ≡ called_seen_of (D.state result.0) (D.calls result.0) result.1 }
        ensures length { length result.1 ≡ length (D.state result.0).sectors }
    {
        (self.disk, self.bad)
    }

    /// States for proofs that the sectors that are not bad have 512 bytes each, and that the count of sectors fits 64
    /// bits (see the page of `guestmem`). The disk is not asked.
    pub fn recall(&self)
        ensures whole { AreWhole self.now.content }
        ensures few { length self.now.content < 2 ^ 64 }
    {
        let _count = self.bad.len();
    }

    /// How many there are. The disk is not asked.
    pub fn count(&self) -> u64
        ensures { result ≡ length self.now.content }
    {
        self.bad.len()
    }

    /// How many sectors are bad. It takes constant time.
    pub fn bad_count(&self) -> u64
        ensures { result ≡ count_by is_bad self.now.content }
    {
        self.bad.count()
    }

    /// The least bad sector from sector `from` on, or None if there is none. The disk is not asked.
    pub fn next_bad(&self, from: u64) -> Option<u64>
        requires { from ≤ length self.now.content }
        ensures { IsLeastFrom (map is_bad self.now.content) from result }
    {
        self.bad.first_from(from)
    }

    /// Reads a sector. The disk is not asked for a bad one. Where the sector is not read, the buffer may hold anything.
    pub fn read(&mut self, n: u64, buf: &mut [u8; SECTOR_SIZE]) -> Fetched
        requires { n < length self.old.content }
        ensures kept { IsKept self.old (is_failed result) self.new }
        ensures same { self.new.content ≡ self.old.content }
        ensures flushed { self.new.is_flushed ≡ self.old.is_flushed }
        ensures fetched { IsFetched self.old.honest (sector_in self.old.content n) buf.new result }
        ensures calls { Calls D.called (is_asked result) self.old self.new }
    {
        if self.bad.contains(n) {
            return Fetched::Bad;
        }
        if let Err(_) = self.disk.read(n, buf) {
            return Fetched::Failed;
        }
        Fetched::Read
    }

    /// Reads a sector that is not bad, without a look at the marks. Where the disk fails, the buffer may hold anything.
    pub fn read_good(&mut self, n: u64, buf: &mut [u8; SECTOR_SIZE]) -> Result<(), DiskFault>
        requires inside { n < length self.old.content }
        requires good { is_bad (sector_in self.old.content n) ≡ false }
        ensures kept { IsKept self.old (not (is_ok result)) self.new }
        ensures same { self.new.content ≡ self.old.content }
        ensures flushed { self.new.is_flushed ≡ self.old.is_flushed }
        ensures fetched { OnOk result (IsTrue self.old.honest → buf.new ≡ bytes_of (sector_in self.old.content n)) }
        ensures calls { Calls D.called true self.old self.new }
    {
        self.disk.read(n, buf)
    }

    /// Writes a sector. One that is written is good, and one whose write fails is bad.
    pub fn write(&mut self, n: u64, bytes: &[u8; SECTOR_SIZE]) -> Result<(), DiskFault>
        requires { n < length self.old.content }
        ensures kept { IsKept self.old (not (is_ok result)) self.new }
        ensures ok { OnOk result (IsTrue self.old.honest → self.new.content ≡ slice_set self.old.content n (Some bytes.now)) }
        ensures good { OnOk result (map is_bad self.new.content ≡ map is_bad (slice_set self.old.content n (Some bytes.now))) }
        ensures err { OnErr result (self.new.content ≡ slice_set self.old.content n None) }
        ensures calls { Calls D.called true self.old self.new }
    {
        let written = self.disk.write(n, bytes);
        // That each sector still has 512 bytes is known from this call alone, as a disk that is not honest may hold anything.
        let _count = self.disk.sectors();
        if let Err(fault) = written {
            self.bad.insert(n);
            return Err(fault);
        }
        self.bad.remove(n);
        Ok(())
    }

    /// Makes what was written durable. After it the disk is flushed, unless this fails.
    pub fn flush(&mut self) -> Result<(), DiskFault>
        ensures kept { IsKept self.old (not (is_ok result)) self.new }
        ensures same { self.new.content ≡ self.old.content }
        ensures flushed { OnOk result (IsTrue self.new.is_flushed) }
        ensures calls { Calls D.called true self.old self.new }
    {
        self.disk.flush()
    }
}
