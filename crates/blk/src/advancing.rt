//! The step that advances a request.
//!
//! The status byte is written data: the used descriptor has WRITE set in the packed layout also where no data was written
//! (VIRTIO 1.2, 2.8.3). The used length is that of the data, and with the status byte where the data ends right before it: the
//! length counts bytes from the front (2.7.8.2). That byte goes straight to the last place of the segments, which lies in one
//! page.
//!
//! A request that ends is published where it lies, and dropped there if it is the last: moving its 216 bytes would cost each
//! step.

ghost use Rattle.std.specs.Prelude.{◌≡◌, ◌≤◌, ◌<◌, ◌^◌, false, length, true};
ghost use Rattle.guestmem.specs.Item.{MayPages, after_all};
ghost use Rattle.guestmem.specs.Writes.{set_all, touched};
ghost use Rattle.guestmem.specs.Rises.{Rises, Touches};
ghost use Rattle.chains.specs.Frame.{MayServe, HasServed};
ghost use Rattle.chains.specs.Places.{places, AreSegmentsInside};
ghost use Rattle.chains.specs.Served.{scene};
ghost use Rattle.chains.specs.Publish.{after_publish, is_interrupt_due};
ghost use Rattle.blk.specs.Advance.{end_writes, used_len, data_written, HasAdvanced, HasFlushed, asks_at};
ghost use Rattle.blk.specs.Block.{widest};
ghost use Rattle.blk.specs.Sectors.{AreWhole, Calls, IsKept};
ghost use Rattle.blk.specs.Move.{MaySectors, is_disk_failed, move_id, one_done};
ghost use Rattle.blk.specs.Outside.{Failed, HasAdvancedOutside, awaits_at};
ghost use Rattle.blk.specs.Request.{is_open};
ghost use Rattle.blk.specs.Sound.{AreSound, HasSoundWork};
ghost use Rattle.blk.specs.declared.advancing.Advanced.TheVariants.{Completed};
ghost use Rattle.blk.specs.declared.request.Kind.TheVariants.{GetId};
ghost use Rattle.blk.specs.declared.shape.Limits.{Limits};

use crate::block::Block;
use crate::disk::{Disk, SECTOR_SIZE};
use crate::moving::move_unit;
use crate::request::{Kind, Request};
use crate::sectors::Sectors;
use crate::shape::ID_SIZE;
use chains::{Ring, copy_in_last, copy_in_with_base};
use guestmem::{Ram, TouchLog};

/// How advancing a request went.
#[derive(Clone, Copy, Debug, PartialEq, Eq)]
pub enum Advanced {
    /// There is no such request.
    Idle,

    /// One unit is done.
    Moved,

    /// The sector is bad, and the request ends with an error. The disk was not asked.
    BadSector,

    /// The disk failed, and the request ends with an error.
    DiskFailed,

    /// The request was published.
    Completed {
        /// The used length.
        len: u32,

        /// Whether an interrupt is due.
        is_due: bool,
    },
}

/// Which request of a device a step advances, and where.
#[derive(Clone, Copy)]
pub struct Job {
    /// Which of its outstanding requests it is, from 0.
    pub k: usize,

    /// The number of the device, under which sectors are reported to a log.
    pub device: u8,

    /// The guest-physical address at which RAM begins.
    pub base: u64,
}

impl Block {
    /// Advances an outstanding request by one unit, or ends it. It takes no memory, and calls the disk once where a unit reads, writes,
    /// clears or flushes, and not otherwise: not for a bad sector, nor for the id, nor for the end.
    pub fn advance<R: Ring, D: Disk, L: TouchLog>(
        &mut self,
        job: Job,
        ring: &mut R,
        sectors: &mut Sectors<D>,
        ram: &mut Ram,
        log: &mut L,
    ) -> Advanced
        requires base { job.base ≡ (R.state ring.old).base }
        requires ready { MayServe L.may (length ram.old.bytes) (R.state ring.old) log.old }
        requires capacity { length sectors.old.content ≡ self.old.sectors }
        requires sound { AreSound (length ram.old.bytes) (R.state ring.old) (widest self.old.sectors) self.old.requests }
        requires may_sectors { MaySectors L.may log.old job.device (length sectors.old.content) }
        ensures changes { HasAdvanced L.after job.device job.k (scene ram.old log.old (R.state ring.old) self.old) sectors.old (scene ram.new log.new (R.state ring.new) self.new) sectors.new result }
        ensures kept { IsKept sectors.old (is_disk_failed result) sectors.new }
        ensures calls { Calls D.called (asks_at self.old job.k result) sectors.old sectors.new }
        ensures flushed { HasFlushed self.old job.k result sectors.new.is_flushed }
        ensures whole { AreWhole sectors.new.content }
        ensures sound { (limits : Limits) → AreSound (length ram.old.bytes) (R.state ring.old) limits self.old.requests → AreSound (length ram.new.bytes) (R.state ring.new) limits self.new.requests }
        ensures after { HasServed L.may ram.old ram.new log.new }
        ensures decoder { R.decoder ring.new ≡ R.decoder ring.old }
    {
        sectors.recall();
        if job.k >= self.requests.list.len() {
            return Advanced::Idle;
        }
        if self.requests.list[job.k].is_open() {
            let request = &mut self.requests.list[job.k];
            let moved = move_unit(job, &self.id, request, sectors, ram, log);
            sectors.recall();
            return moved;
        }
        let completed = complete(job.base, ring, &self.requests.list[job.k], ram, log);
        self.requests.remove(job.k);
        completed
    }

    /// Advances an outstanding request of a device whose disk is outside, one that does not wait for it: a request for the id gets it, and one
    /// with no units left ends. It takes no memory, and calls no disk.
    pub fn advance_outside<R: Ring, L: TouchLog>(
        &mut self,
        job: Job,
        ring: &mut R,
        ram: &mut Ram,
        log: &mut L,
    ) -> Advanced
        requires base { job.base ≡ (R.state ring.old).base }
        requires ready { MayServe L.may (length ram.old.bytes) (R.state ring.old) log.old }
        requires sound { AreSound (length ram.old.bytes) (R.state ring.old) (widest self.old.sectors) self.old.requests }
        requires answered { awaits_at self.old.requests job.k Failed ≡ false }
        ensures changes { HasAdvancedOutside L.after job.k (scene ram.old log.old (R.state ring.old) self.old) (scene ram.new log.new (R.state ring.new) self.new) result }
        ensures fine { is_disk_failed result ≡ false }
        ensures sound { (limits : Limits) → AreSound (length ram.old.bytes) (R.state ring.old) limits self.old.requests → AreSound (length ram.new.bytes) (R.state ring.new) limits self.new.requests }
        ensures after { HasServed L.may ram.old ram.new log.new }
        ensures decoder { R.decoder ring.new ≡ R.decoder ring.old }
    {
        let k = job.k;
        if k >= self.requests.list.len() {
            return Advanced::Idle;
        }
        if self.requests.list[k].is_open() {
            give_id(job.base, &self.id, &mut self.requests.list[k], ram, log);
            return Advanced::Moved;
        }
        let completed = complete(job.base, ring, &self.requests.list[k], ram, log);
        self.requests.remove(k);
        completed
    }
}

/// Gives the id of the device to a request that asks for it.
fn give_id<L: TouchLog>(
    base: u64,
    id: &[u8; ID_SIZE],
    request: &mut Request,
    ram: &mut Ram,
    log: &mut L,
)
    requires open { is_open request.old ≡ true }
    requires kind { request.old.kind ≡ GetId }
    requires sound { (limits : Limits) × HasSoundWork limits request.old }
    requires inside { AreSegmentsInside base (length ram.old.bytes) request.old.writable }
    requires may { MayPages L.may log.old (length ram.old.bytes) }
    ensures request { request.new ≡ one_done request.old }
    ensures ram { ram.new.bytes ≡ set_all ram.old.bytes (move_id base id.now request.old).writes }
    ensures touches { Touches L.after log.old log.new ram.old ram.new (touched (move_id base id.now request.old).writes) }
    ensures sound { (limits : Limits) → HasSoundWork limits request.old → HasSoundWork limits request.new }
    ensures after { HasServed L.may ram.old ram.new log.new }
{
    copy_in_with_base(ram, base, request.writable.as_slice(), 0, id, log);
    request.done += 1;
}

/// Reports the verdict of a request to the driver and publishes its chain.
#[tactic(auto, unfolding(crate::specs::Advance::end_writes))]
#[inline(always)]
fn complete<R: Ring, L: TouchLog>(
    base: u64,
    ring: &mut R,
    request: &Request,
    ram: &mut Ram,
    log: &mut L,
) -> Advanced
    requires base { base ≡ (R.state ring.old).base }
    requires ready { MayServe L.may (length ram.old.bytes) (R.state ring.old) log.old }
    requires slots { request.now.slots ≤ (R.state ring.old).size }
    requires segments { AreSegmentsInside (R.state ring.old).base (length ram.old.bytes) request.now.writable }
    requires status { 1 ≤ length (places request.now.writable) }
    requires total { length (places request.now.writable) < 2 ^ 32 }
    requires data { data_written request.now.kind request.now.done < length (places request.now.writable) }
    ensures answer { result ≡ Completed (used_len request.now) (is_interrupt_due (R.state ring.old) request.now.slots (set_all ram.old.bytes (end_writes (R.state ring.old) request.now))) }
    ensures bytes { ram.new.bytes ≡ set_all ram.old.bytes (end_writes (R.state ring.old) request.now) }
    ensures ring { R.state ring.new ≡ after_publish (R.state ring.old) request.now.slots }
    ensures log { log.new ≡ after_all L.after log.old (touched (end_writes (R.state ring.old) request.now)) }
    ensures rises { Rises (touched (end_writes (R.state ring.old) request.now)) ram.old ram.new }
    ensures after { HasServed L.may ram.old ram.new log.new }
    ensures decoder { R.decoder ring.new ≡ R.decoder ring.old }
{
    let count = request.writable.total_len();
    let segs = request.writable.as_slice();
    copy_in_last(ram, base, segs, request.verdict.byte(), log);
    let len = used_len(request, count);
    let is_due = ring.publish(request.id, request.slots, len, true, ram, log);
    Advanced::Completed { len, is_due }
}

/// The used length of a request that has `writable` writable bytes.
fn used_len(request: &Request, writable: u64) -> u32
    requires writable { writable ≡ length (places request.now.writable) }
    requires small { length (places request.now.writable) < 2 ^ 32 }
    requires data { data_written request.now.kind request.now.done < length (places request.now.writable) }
    ensures { result ≡ used_len request.now }
{
    let data = data_written(request.kind, request.done);
    if data + 1 == writable {
        return writable as u32;
    }
    data as u32
}

/// How many bytes of data were written into a request of which `done` units are done.
fn data_written(kind: Kind, done: u32) -> u64
    ensures { result ≡ data_written kind done }
{
    match kind {
        Kind::In => SECTOR_SIZE as u64 * done as u64,
        Kind::GetId => ID_SIZE as u64 * done as u64,
        Kind::Out | Kind::Flush | Kind::Refused | Kind::Zero => 0,
    }
}
