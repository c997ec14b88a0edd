//! A device and its disk.

ghost use Rattle.std.specs.Prelude.{◌≡◌, ◌<◌, ◌≤◌, ◌+◌, ◌*◌, ℕ, List, [], IsTrue, OnErr, OnOk, count_by, is_ok, map, not, true, false, length};
ghost use Rattle.guestmem.specs.Rises.{Touches};
ghost use Rattle.dirtylog.specs.Members.{IsLeastFrom};
ghost use Rattle.machine.specs.Seen.{DeviceSeen, calls_of, called_if, flushed_of, sectors_of, marks_of};

use crate::any_ring::AnyRing;
use crate::forgetting::forget;
use crate::reply::Refusal;
use crate::state::DeviceState;
use crate::stepped::Stepped;
use crate::work::Work;
use blk::{Disk, DiskFault, Fetched, Sectors};
use console::ConsoleSize;
use guestmem::{NoMemory, Ram, TouchLog};
use mmio::QUEUE_COUNT_MAX;
use std::alloc::Global;
use std::marker::Model;

/// A device with the disk that belongs to it, if its shape has one.
#[derive(Drop)]
pub struct Device<D: Disk> {
    state: DeviceState,
    disk: Option<Sectors<D>>,
}

impl<D: Disk> Model for Device<D> {
    ghost Value = { DeviceSeen };

    ghost view = { λ d. record { state = d.state; sectors = sectors_of d.disk; marks = marks_of d.disk; is_flushed = flushed_of d.disk; calls = calls_of d.disk } };
}

impl<D: Disk> Device<D> {
    ghost use Rattle.machine.specs.Stepped.{reply_in};
    ghost use Rattle.machine.specs.Step.{ResizesDevice, register_value_of, register_set, drop_of, input_of, with_input, without_input, written_out};
    ghost use Rattle.machine.specs.DeviceWork.{IsDeviceStep};
    ghost use Rattle.chains.specs.Decoder.{Fits};
    ghost use Rattle.machine.specs.AnyRing.{decoder_in};
    ghost use Rattle.machine.specs.Beside.{seen_raised};
    ghost use Rattle.machine.specs.Rings.{FitAll, forgotten};
    ghost use Rattle.machine.specs.declared.any_ring.AnyRing.{AnyRing};
    ghost use Rattle.guestmem.specs.Memory.{Memory};
    ghost use Rattle.mmio.specs.RegisterWrite.{register_write};
    ghost use Rattle.guestmem.specs.Item.{MayPages};
    ghost use Rattle.guestmem.specs.Later.{IsLater};
    ghost use Rattle.machine.specs.Sound.{IsSoundDevice};
    ghost use Rattle.blk.specs.Move.{MaySectors};
    ghost use Rattle.blk.specs.Sectors.{AreWhole, IsFetched, bytes_of, is_asked, is_bad, is_failed, sector_in};
    ghost use Rattle.machine.specs.Calls.{asks_disk};
    ghost use Rattle.machine.specs.Outcome.{is_failure};
    ghost use Rattle.machine.specs.Outside.{TakesAnswer};
    ghost use Rattle.blk.specs.Outside.{Did, Failed, Gave};
    ghost use Rattle.machine.specs.Seen.{failed_if};
    ghost use Rattle.machine.specs.Shapes.{made_as, sector_count};
    ghost use Rattle.machine.specs.Unsynced.{HasFlushed, flushes, with_flush_failed};

    /// A device, and the disk that belongs to it.
    pub(crate) fn new(state: DeviceState, disk: Option<Sectors<D>>) -> Device<D>
        ensures { result ≡ record { state = state; sectors = sectors_of disk; marks = marks_of disk; is_flushed = flushed_of disk; calls = calls_of disk } }
    {
        Device { state, disk }
    }

    /// The state of the device, without its disk.
    pub fn state(&self) -> &DeviceState
        ensures { result.now ≡ self.now.state }
    {
        &self.state
    }

    /// The sectors of its disk, if it has one.
    pub fn into_sectors(self) -> Option<Sectors<D>>
        ensures sectors { self.sectors ≡ sectors_of result }
        ensures marks { self.marks ≡ marks_of result }
        ensures calls { self.calls ≡ calls_of result }
    {
        self.disk
    }

    pub(crate) fn read_register(&self, offset: u32, width: u8) -> u32
        ensures { result ≡ register_value_of self.now.state offset width }
    {
        self.state.read_register(offset, width)
    }

    /// The driver writes a register of the device, which has this number. What its rings keep of descriptors is emptied where the effect is
    /// so. The result is the byte that is written into the emergency register of a console, if one is.
    pub(crate) fn write_register(
        &mut self,
        number: u8,
        rings: &mut Vec<AnyRing>,
        offset: u32,
        width: u8,
        value: u32,
    ) -> Option<u8>
        requires there { QUEUE_COUNT_MAX * number + QUEUE_COUNT_MAX ≤ length rings.old.items }
        ensures device { self.new ≡ record self.old { state = register_set self.old.state offset width value } }
        ensures out { result ≡ written_out self.old.state.kind offset width value }
        ensures rings { (any : AnyRing) → rings.new.items ≡ forgotten number (register_write self.old.state.registers offset width value).0 any rings.old.items }
        ensures fit { (ram : Memory) → FitAll rings.old.items ram → FitAll rings.new.items ram }
        ensures each { length rings.new.items ≡ length rings.old.items }
    {
        let (out, effect) = self.state.write_register(offset, width, value);
        forget(rings, number, effect);
        out
    }

    pub(crate) fn resize(&mut self, size: ConsoleSize) -> Result<(), Refusal>
        ensures state { ResizesDevice self.old.state size result self.new.state }
        ensures disk { self.new ≡ record self.old { state = self.new.state } }
    {
        self.state.resize(size)
    }

    pub(crate) fn input(&mut self, bytes: &[u8]) -> Result<u32, Refusal>
        ensures count { result ≡ input_of self.old.state.kind bytes.now }
        ensures device { self.new ≡ record self.old { state = with_input self.old.state bytes.now } }
    {
        self.state.input(bytes)
    }

    pub(crate) fn drop_input(&mut self) -> Result<(), Refusal>
        ensures answer { result ≡ drop_of self.old.state.kind }
        ensures device { self.new ≡ record self.old { state = without_input self.old.state } }
    {
        self.state.drop_input()
    }

    /// Raises the used-buffer interrupt.
    pub(crate) fn raise_used(&mut self)
        ensures { self.new ≡ seen_raised self.old }
    {
        self.state.raise_used();
    }

    /// Fails the flush that a step with this pick makes, if it makes one. The disk is not called.
    pub(crate) fn fail_flush(&mut self, pick: u8) -> bool
        ensures was { result ≡ flushes self.old.state pick }
        ensures device { self.new ≡ record self.old { state = with_flush_failed self.old.state pick } }
    {
        self.state.fail_flush(pick)
    }

    /// Flushes the disk, if it has one.
    pub(crate) fn flush(&mut self) -> Result<(), DiskFault>
        ensures state { self.new.state ≡ self.old.state }
        ensures sectors { self.new.sectors ≡ self.old.sectors }
        ensures marks { self.new.marks ≡ failed_if (not (is_ok result)) self.old.marks }
        ensures unsteady { OnErr result (self.old.marks.steady ≡ false) }
        ensures flushed { OnOk result (IsTrue self.new.is_flushed) }
        ensures calls { self.new.calls ≡ called_if D.called true self.old.calls }
    {
        match &mut self.disk {
            Some(sectors) => sectors.flush(),
            None => Ok(()),
        }
    }

    /// A disk outside gave these bytes to the request of this pick.
    pub(crate) fn disk_gave<L: TouchLog>(
        &mut self,
        pick: u8,
        bytes: &[u8],
        ram: &mut Ram,
        log: &mut L,
    ) -> Result<bool, Refusal>
        requires sound { IsSoundDevice self.old.state.registers.ram_base (length ram.old.bytes) self.old.state }
        requires may { MayPages L.may log.old (length ram.old.bytes) }
        ensures taken { TakesAnswer (Touches L.after log.old log.new ram.old ram.new) ram.old.bytes self.old.state pick (Gave bytes.now) result ram.new.bytes self.new.state }
        ensures disk { self.new ≡ record self.old { state = self.new.state } }
        ensures later { IsLater ram.old ram.new }
    {
        self.state.disk_gave(pick, bytes, ram, log)
    }

    /// A disk outside did this many units of what the request of this pick asks for.
    pub(crate) fn disk_did(&mut self, pick: u8, count: u32) -> Result<bool, Refusal>
        ensures taken { (ram : List ℕ) → TakesAnswer (λ items. items ≡ []) ram self.old.state pick (Did count) result ram self.new.state }
        ensures disk { self.new ≡ record self.old { state = self.new.state } }
    {
        self.state.disk_did(pick, count)
    }

    /// A disk outside failed in what the request of this pick asks for.
    pub(crate) fn disk_failed(&mut self, pick: u8) -> Result<bool, Refusal>
        ensures taken { (ram : List ℕ) → TakesAnswer (λ items. items ≡ []) ram self.old.state pick Failed result ram self.new.state }
        ensures disk { self.new ≡ record self.old { state = self.new.state } }
    {
        self.state.disk_failed(pick)
    }

    /// Does one piece of the work of the device, which has this number, on a ring that it makes that of the queue which the pick names.
    #[inline(always)]
    pub(crate) fn step<L: TouchLog>(
        &mut self,
        alloc: Global,
        work: Work,
        ring: &mut AnyRing,
        sent: &mut Vec<u8>,
        ram: &mut Ram,
        log: &mut L,
    ) -> Stepped
        requires fits { Fits (decoder_in ring.old) ram.old }
        requires sound { IsSoundDevice self.old.state.registers.ram_base (length ram.old.bytes) self.old.state }
        requires capacity { length self.old.sectors ≡ sector_count (made_as self.old.state.kind) }
        requires whole { AreWhole self.old.sectors }
        requires may { MayPages L.may log.old (length ram.old.bytes) }
        requires may_sectors { MaySectors L.may log.old work.dev (length self.old.sectors) }
        ensures step { IsDeviceStep (Touches L.after log.old log.new ram.old ram.new) work.dev self.old.marks.honest ram.old.bytes self.old.sectors self.old.state work.pick (reply_in result sent.new.items) ram.new.bytes self.new.sectors self.new.state }
        ensures calls { self.new.calls ≡ called_if D.called (asks_disk self.old.state work.pick (reply_in result sent.new.items)) self.old.calls }
        ensures marks { self.new.marks ≡ failed_if (is_failure (reply_in result sent.new.items)) self.old.marks }
        ensures unsteady { is_failure (reply_in result sent.new.items) ≡ true → self.old.marks.steady ≡ false }
        ensures flushed { HasFlushed self.old.state work.pick (reply_in result sent.new.items) self.new.is_flushed }
        ensures capacity { length self.new.sectors ≡ length self.old.sectors }
        ensures whole { AreWhole self.new.sectors }
        ensures later { IsLater ram.old ram.new }
        ensures fits { Fits (decoder_in ring.new) ram.new }
    {
        if self.state.looked_ring(alloc, work.pick, ring) {
            return match ring {
                AnyRing::Split(ring) => self.state.look(alloc, work.pick, ring, sent, ram, log),
                AnyRing::Packed(ring) => self.state.look(alloc, work.pick, ring, sent, ram, log),
            };
        }
        if self.state.is_outside() {
            return self.state.step_outside(alloc, work, ring, ram, log);
        }
        let Some(sectors) = &mut self.disk else {
            return Stepped::Idle;
        };
        if self.state.advanced_ring(alloc, work.pick, ring) {
            return match ring {
                AnyRing::Split(ring) => self.state.advance(work, ring, sectors, ram, log),
                AnyRing::Packed(ring) => self.state.advance(work, ring, sectors, ram, log),
            };
        }
        Stepped::Idle
    }

    /// How many sectors of its disk are bad.
    pub(crate) fn bad_count(&self) -> u64
        ensures { result ≡ count_by is_bad self.now.sectors }
    {
        match &self.disk {
            Some(sectors) => sectors.bad_count(),
            None => 0,
        }
    }

    /// The least bad sector of its disk from sector `from` on, or None if there is none.
    pub(crate) fn next_bad(&self, from: u64) -> Option<u64>
        requires { from ≤ length self.now.sectors }
        ensures { IsLeastFrom (map is_bad self.now.sectors) from result }
    {
        match &self.disk {
            Some(sectors) => sectors.next_bad(from),
            None => None,
        }
    }

    /// Reads a sector of the disk, unless it is bad. Where it is not read, the buffer may hold anything.
    pub(crate) fn read_sector(&mut self, n: u64, buf: &mut [u8; 512]) -> Fetched
        requires { n < length self.old.sectors }
        ensures state { self.new.state ≡ self.old.state }
        ensures sectors { self.new.sectors ≡ self.old.sectors }
        ensures marks { self.new.marks ≡ failed_if (is_failed result) self.old.marks }
        ensures unsteady { is_failed result ≡ true → self.old.marks.steady ≡ false }
        ensures flushed { self.new.is_flushed ≡ self.old.is_flushed }
        ensures fetched { IsFetched self.old.marks.honest (sector_in self.old.sectors n) buf.new result }
        ensures calls { self.new.calls ≡ called_if D.called (is_asked result) self.old.calls }
    {
        match &mut self.disk {
            Some(sectors) => sectors.read(n, buf),
            // A device without a disk has no sectors, so this cannot be.
            None => Fetched::Bad,
        }
    }

    /// Reads a sector of the disk that is not bad. Where the disk fails, the buffer may hold anything.
    pub(crate) fn read_good(&mut self, n: u64, buf: &mut [u8; 512]) -> Result<(), DiskFault>
        requires inside { n < length self.old.sectors }
        requires good { is_bad (sector_in self.old.sectors n) ≡ false }
        ensures state { self.new.state ≡ self.old.state }
        ensures sectors { self.new.sectors ≡ self.old.sectors }
        ensures marks { self.new.marks ≡ failed_if (not (is_ok result)) self.old.marks }
        ensures unsteady { OnErr result (self.old.marks.steady ≡ false) }
        ensures flushed { self.new.is_flushed ≡ self.old.is_flushed }
        ensures fetched { OnOk result (IsTrue self.old.marks.honest → buf.new ≡ bytes_of (sector_in self.old.sectors n)) }
        ensures calls { self.new.calls ≡ called_if D.called true self.old.calls }
    {
        match &mut self.disk {
            Some(sectors) => sectors.read_good(n, buf),
            // A device without a disk has no sectors, so this cannot be.
            None => Err(DiskFault),
        }
    }
}
