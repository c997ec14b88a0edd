//! A disk outside of the machine: what its requests ask of it, and its answers.
//!
//! The host has the disk, and is asked. It looks at what a request asks (`Request::disk_call`), does it whenever it likes, whole or in
//! part, and then gives the answer to the request that awaits it: `Block::disk_gave`, `disk_did` or `disk_failed`. No call of a disk is
//! made here, and no sector is kept. An answer publishes nothing: a request with no units left ends in a step, as every other does.
//!
//! An answer names a request by its place alone, and is taken if it could be one to what that request asks. Whose answer it is the host
//! knows.

ghost use Rattle.std.specs.Prelude.{ℕ, ◌≡◌, ◌+◌, ◌*◌, ◌≤◌, ◌<◌, ◌^◌, ◌++◌, IfSome, Some, drop, length, slice_get};
ghost use Rattle.guestmem.specs.Item.{MayPages};
ghost use Rattle.guestmem.specs.Rises.{Touches};
ghost use Rattle.guestmem.specs.Writes.{set_all, touched};
ghost use Rattle.chains.specs.Frame.{HasServed};
ghost use Rattle.chains.specs.Places.{places, AreSegmentsInside};
ghost use Rattle.chains.specs.State.{RingState};
ghost use Rattle.blk.specs.Block.{with_requests};
ghost use Rattle.blk.specs.Outside.{AreSoundIn, Did, Failed, Gave, answer_step, awaits, awaits_at, disk_call, more_done, written_bytes};
ghost use Rattle.blk.specs.Sound.{AreSound};
ghost use Rattle.blk.specs.Writing.{count_to_write, count_to_write_in};
ghost use Rattle.blk.specs.declared.shape.Limits.{Limits};

use crate::block::Block;
use crate::disk::SECTOR_SIZE;
use crate::request::{HEADER_SIZE, Kind, Request, Verdict};
use crate::requests::Requests;
use chains::{copy_in_with_base, copy_out_with_base};
use guestmem::{Ram, TouchLog};

/// What a disk is asked to do.
#[derive(Clone, Copy, Debug, PartialEq, Eq)]
pub enum What {
    /// To read sectors.
    Read,

    /// To write sectors.
    Write,

    /// To fill sectors with zeros.
    Clear,

    /// To make durable what was written.
    Flush,
}

/// What a request asks of its disk: all the units that it has left.
#[derive(Clone, Copy, Debug, PartialEq, Eq)]
pub struct DiskCall {
    /// What is to be done.
    pub what: What,

    /// The first sector. Of a flush it is 0.
    pub first: u64,

    /// How many sectors. Of a flush it is 1.
    pub count: u32,
}

impl Request {
    /// What it asks of its disk next, if it waits for the disk.
    pub fn disk_call(&self) -> Option<DiskCall>
        requires { self.now.first + self.now.units < 2 ^ 64 }
        ensures asked { result ≡ disk_call self.now }
        ensures within { IfSome result (λ call. (1 ≤ call.count) × (call.first + call.count ≡ self.now.first + self.now.units)) }
    {
        if !self.is_open() {
            return None;
        }
        let what = match self.kind {
            Kind::In => What::Read,
            Kind::Out => What::Write,
            Kind::Zero => What::Clear,
            Kind::Flush => What::Flush,
            Kind::GetId | Kind::Refused => return None,
        };
        Some(DiskCall {
            what,
            first: self.next_sector(),
            count: self.units - self.done,
        })
    }

    /// Whether it waits for its disk.
    pub fn waits(&self) -> bool
        ensures { result ≡ awaits self.now Failed }
    {
        match self.kind {
            Kind::In | Kind::Out | Kind::Zero | Kind::Flush => self.is_open(),
            Kind::GetId | Kind::Refused => false,
        }
    }

    /// How many bytes it has to write, into a buffer of `len` bytes.
    fn count_to_write(&self, len: usize) -> usize
        ensures { result ≡ count_to_write self.now len }
    {
        if !self.is_open() {
            return 0;
        }
        match self.kind {
            Kind::Out => len.min(SECTOR_SIZE * (self.units - self.done) as usize),
            Kind::In | Kind::Zero | Kind::Flush | Kind::GetId | Kind::Refused => 0,
        }
    }

    /// Fills the buffer with the bytes that it writes next, as they lie in RAM.
    fn written_bytes(&self, base: u64, ram: &Ram, buf: &mut [u8])
        requires inside { AreSegmentsInside base (length ram.now.bytes) self.now.readable }
        requires room { HEADER_SIZE + SECTOR_SIZE * self.now.done + length buf.old ≤ length (places self.now.readable) }
        ensures { buf.new ≡ written_bytes base ram.now.bytes self.now (length buf.old) }
    {
        copy_out_with_base(
            ram,
            base,
            self.readable.as_slice(),
            HEADER_SIZE as u64 + SECTOR_SIZE as u64 * self.done as u64,
            buf,
        );
    }

    /// Whether it awaits these bytes.
    fn awaits_bytes(&self, bytes: &[u8]) -> bool
        ensures { result ≡ awaits self.now (Gave bytes.now) }
    {
        match self.kind {
            Kind::In => {
                self.is_open()
                    && !bytes.is_empty()
                    && bytes.len() % SECTOR_SIZE == 0
                    && bytes.len() / SECTOR_SIZE <= (self.units - self.done) as usize
            }
            Kind::Out | Kind::Zero | Kind::Flush | Kind::GetId | Kind::Refused => false,
        }
    }

    /// Whether it awaits that `count` units were done.
    fn awaits_units(&self, count: u32) -> bool
        ensures { result ≡ awaits self.now (Did count) }
    {
        match self.kind {
            Kind::Out | Kind::Zero | Kind::Flush => {
                self.is_open() && 0 < count && count <= self.units - self.done
            }
            Kind::In | Kind::GetId | Kind::Refused => false,
        }
    }

    /// Counts `count` more units as done.
    fn do_more(&mut self, count: u32)
        requires { self.old.done + count ≤ self.old.units }
        ensures { self.new ≡ more_done self.old count }
    {
        self.done += count;
    }
}

impl Requests {
    /// Whether the k-th request, from 0, awaits these bytes.
    fn awaits_bytes(&self, k: usize, bytes: &[u8]) -> bool
        ensures { result ≡ awaits_at self.now k (Gave bytes.now) }
    {
        if k >= self.list.len() {
            return false;
        }
        self.list[k].awaits_bytes(bytes)
    }

    /// Whether the k-th request, from 0, awaits that `count` units were done.
    fn awaits_units(&self, k: usize, count: u32) -> bool
        ensures { result ≡ awaits_at self.now k (Did count) }
    {
        if k >= self.list.len() {
            return false;
        }
        self.list[k].awaits_units(count)
    }

    /// Whether the k-th request, from 0, waits for its disk.
    fn waits(&self, k: usize) -> bool
        ensures { result ≡ awaits_at self.now k Failed }
    {
        if k >= self.list.len() {
            return false;
        }
        self.list[k].waits()
    }
}

impl Block {
    /// Whether the k-th outstanding request, from 0, waits for its disk.
    pub fn waits(&self, k: usize) -> bool
        ensures { result ≡ awaits_at self.now.requests k Failed }
    {
        self.requests.waits(k)
    }

    /// Fills the front of the buffer with the bytes that the k-th outstanding request, from 0, writes next, as they lie in a RAM with this
    /// base, and returns how many these are: all that it has left, or as many as the buffer holds. A request that writes no bytes of its
    /// driver has none.
    pub fn written_bytes(&self, k: usize, base: u64, ram: &Ram, buf: &mut [u8]) -> usize
        requires sound { AreSoundIn base (length ram.now.bytes) self.now.requests }
        ensures count { result ≡ count_to_write_in (slice_get self.now.requests k) (length buf.old) }
        ensures bytes { (r : Request) → slice_get self.now.requests k ≡ Some r → buf.new ≡ written_bytes base ram.now.bytes r result ++ drop result buf.old }
    {
        if k >= self.requests.list.len() {
            return 0;
        }
        let request = &self.requests.list[k];
        let count = request.count_to_write(buf.len());
        if count == 0 {
            return 0;
        }
        request.written_bytes(base, ram, &mut buf[..count]);
        count
    }

    /// The disk gave the bytes of one sector or more of those that the k-th outstanding request, from 0, reads next, in a RAM with this
    /// base. The result says whether that request awaits them. If not, nothing has changed. It takes no memory.
    pub fn disk_gave<L: TouchLog>(
        &mut self,
        k: usize,
        base: u64,
        bytes: &[u8],
        ram: &mut Ram,
        log: &mut L,
    ) -> bool
        requires sound { AreSoundIn base (length ram.old.bytes) self.old.requests }
        requires may { MayPages L.may log.old (length ram.old.bytes) }
        ensures taken { result ≡ (answer_step base self.old.requests k (Gave bytes.now)).taken }
        ensures block { self.new ≡ with_requests self.old (answer_step base self.old.requests k (Gave bytes.now)).requests }
        ensures ram { ram.new.bytes ≡ set_all ram.old.bytes (answer_step base self.old.requests k (Gave bytes.now)).writes }
        ensures touches { Touches L.after log.old log.new ram.old ram.new (touched (answer_step base self.old.requests k (Gave bytes.now)).writes) }
        ensures sound { (q : RingState) (limits : Limits) → q.base ≡ base → AreSound (length ram.old.bytes) q limits self.old.requests → AreSound (length ram.new.bytes) q limits self.new.requests }
        ensures after { HasServed L.may ram.old ram.new log.new }
    {
        ram.recall();
        if !self.requests.awaits_bytes(k, bytes) {
            return false;
        }
        let request = &mut self.requests.list[k];
        let at = SECTOR_SIZE as u64 * request.done as u64;
        copy_in_with_base(ram, base, request.writable.as_slice(), at, bytes, log);
        request.do_more((bytes.len() / SECTOR_SIZE) as u32);
        true
    }

    /// The disk did `count` units of what the k-th outstanding request, from 0, writes, clears or flushes. The result says whether that
    /// request awaits this. If not, nothing has changed. It takes no memory.
    pub fn disk_did(&mut self, k: usize, count: u32) -> bool
        ensures taken { (base : ℕ) → result ≡ (answer_step base self.old.requests k (Did count)).taken }
        ensures block { (base : ℕ) → self.new ≡ with_requests self.old (answer_step base self.old.requests k (Did count)).requests }
    {
        if !self.requests.awaits_units(k, count) {
            return false;
        }
        self.requests.list[k].do_more(count);
        true
    }

    /// The disk failed in what the k-th outstanding request, from 0, asks. The result says whether that request waits for its disk. If
    /// not, nothing has changed. It takes no memory.
    pub fn disk_failed(&mut self, k: usize) -> bool
        ensures taken { (base : ℕ) → result ≡ (answer_step base self.old.requests k Failed).taken }
        ensures block { (base : ℕ) → self.new ≡ with_requests self.old (answer_step base self.old.requests k Failed).requests }
    {
        if !self.requests.waits(k) {
            return false;
        }
        self.requests.list[k].verdict = Verdict::IoError;
        true
    }
}
