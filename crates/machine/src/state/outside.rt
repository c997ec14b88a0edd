//! A device whose disk is outside of the machine: what it asks of the disk, what the disk answers, and its steps that need no disk.

ghost use Rattle.std.specs.Prelude.{◌≡◌, ◌++◌, ℕ, List, [], Bool, IfSome, Some, None, true, false, drop, length, nat_lt};
ghost use Rattle.guestmem.specs.Item.{MayPages};
ghost use Rattle.guestmem.specs.Later.{IsLater};
ghost use Rattle.guestmem.specs.Rises.{Touches};
ghost use Rattle.chains.specs.Decoder.{Fits};
ghost use Rattle.blk.specs.Outside.{Did, Failed, Gave, written_bytes};
ghost use Rattle.blk.specs.Sectors.{AreWhole, Sector};
ghost use Rattle.blk.specs.Writing.{count_to_write_in};
ghost use Rattle.blk.specs.declared.request.Request.{Request};
ghost use Rattle.machine.specs.AnyRing.{decoder_in};
ghost use Rattle.machine.specs.DeviceStep.{advanced_at, is_outside, looked_at};
ghost use Rattle.machine.specs.DeviceWork.{IsDeviceStep};
ghost use Rattle.machine.specs.Dropping.{drops_requests};
ghost use Rattle.machine.specs.Outcome.{is_failure};
ghost use Rattle.machine.specs.Outside.{MayAsk, TakesAnswer, asking_request, asking_requests, call_with, changes_sectors, outside_call, outside_requests};
ghost use Rattle.machine.specs.Shapes.{made_as};
ghost use Rattle.machine.specs.Sound.{IsSoundDevice};
ghost use Rattle.machine.specs.Stepped.{reply_in};

use crate::any_ring::AnyRing;
use crate::kind::{Kind, is_first_ready};
use crate::outside_call::OutsideCall;
use crate::reply::Refusal;
use crate::state::{
    DeviceState, device_id, is_due, offered, queue_count, raise_if, reply_to_advance,
};
use crate::stepped::Stepped;
use crate::work::Work;
use blk::{DiskCall, FLUSH, Job, Request, What};
use chains::Ring;
use guestmem::{Ram, TouchLog};
use mmio::Regs;
use std::alloc::Global;

impl DeviceState {
    /// Whether its disk is outside of the machine.
    pub fn is_outside(&self) -> bool
        ensures { result ≡ is_outside self.now.kind }
    {
        match &self.kind {
            Kind::Outside(_) => true,
            Kind::Network { .. } | Kind::Block(_) | Kind::Console { .. } | Kind::Entropy(_) =>
                false,
        }
    }

    /// The outstanding requests that may ask for something of a disk outside, in the order of taking: none of a device that has none, or
    /// does not run.
    pub fn asking_requests(&self) -> &[Request]
        ensures { result.now ≡ asking_requests self.now }
    {
        if !self.registers.is_running() {
            return &[];
        }
        match &self.kind {
            Kind::Outside(block) => block.requests.as_slice(),
            Kind::Network { .. } | Kind::Block(_) | Kind::Console { .. } | Kind::Entropy(_) => &[],
        }
    }

    /// A call of this device's driver, with whether it has to be durable before it is answered (VIRTIO 1.2, 5.2.6.2).
    pub fn call_with_durability(&self, call: DiskCall) -> OutsideCall
        ensures { result ≡ call_with self.now.registers.common.features call }
    {
        let takes_flush = self.registers.features() & FLUSH == FLUSH;
        OutsideCall {
            call,
            durable: changes_sectors(call.what) && !takes_flush,
        }
    }

    /// What the request of this pick asks of a disk outside, if it waits for that.
    pub(crate) fn outside_call(&self, pick: u8) -> Option<OutsideCall>
        requires sound { (len : ℕ) × IsSoundDevice self.now.registers.ram_base len self.now }
        ensures asked { result ≡ outside_call self.now pick }
        ensures allowed { IfSome result (λ asked. MayAsk (made_as self.now.kind) asked.call) }
    {
        if pick == 0 {
            return None;
        }
        let request = self.asking_requests().get(pick as usize - 1)?;
        let call = request.disk_call()?;
        Some(self.call_with_durability(call))
    }

    /// Fills the front of the buffer with the bytes that the request of this pick writes next to a disk outside, and returns how many these
    /// are.
    pub(crate) fn written_bytes(&self, pick: u8, ram: &Ram, buf: &mut [u8]) -> usize
        requires sound { IsSoundDevice self.now.registers.ram_base (length ram.now.bytes) self.now }
        ensures count { result ≡ count_to_write_in (asking_request self.now pick) (length buf.old) }
        ensures bytes { (r : Request) → asking_request self.now pick ≡ Some r → buf.new ≡ written_bytes self.now.registers.ram_base ram.now.bytes r result ++ drop result buf.old }
    {
        if pick == 0 || !self.registers.is_running() {
            return 0;
        }
        let base = self.registers.ram_base();
        match &self.kind {
            Kind::Outside(block) => block.written_bytes(pick as usize - 1, base, ram, buf),
            Kind::Network { .. } | Kind::Block(_) | Kind::Console { .. } | Kind::Entropy(_) => 0,
        }
    }

    /// A disk outside gave these bytes to the request of this pick. The result says whether that request awaits them.
    pub(crate) fn disk_gave<L: TouchLog>(
        &mut self,
        pick: u8,
        bytes: &[u8],
        ram: &mut Ram,
        log: &mut L,
    ) -> Result<bool, Refusal>
        requires sound { IsSoundDevice self.old.registers.ram_base (length ram.old.bytes) self.old }
        requires may { MayPages L.may log.old (length ram.old.bytes) }
        ensures taken { TakesAnswer (Touches L.after log.old log.new ram.old ram.new) ram.old.bytes self.old pick (Gave bytes.now) result ram.new.bytes self.new }
        ensures later { IsLater ram.old ram.new }
    {
        let may = self.registers.is_running() && pick > 0;
        let base = self.registers.ram_base();
        match &mut self.kind {
            Kind::Outside(block) => {
                if !may {
                    return Ok(false);
                }
                Ok(block.disk_gave(pick as usize - 1, base, bytes, ram, log))
            }
            Kind::Network { .. } | Kind::Block(_) | Kind::Console { .. } | Kind::Entropy(_) => {
                Err(Refusal::WrongKind)
            }
        }
    }

    /// A disk outside did this many units of what the request of this pick asks for. The result says whether that request awaits this.
    pub(crate) fn disk_did(&mut self, pick: u8, count: u32) -> Result<bool, Refusal>
        ensures taken { (ram : List ℕ) → TakesAnswer (λ items. items ≡ []) ram self.old pick (Did count) result ram self.new }
    {
        let may = self.registers.is_running() && pick > 0;
        match &mut self.kind {
            Kind::Outside(block) => {
                if !may {
                    return Ok(false);
                }
                Ok(block.disk_did(pick as usize - 1, count))
            }
            Kind::Network { .. } | Kind::Block(_) | Kind::Console { .. } | Kind::Entropy(_) => {
                Err(Refusal::WrongKind)
            }
        }
    }

    /// A disk outside failed in what the request of this pick asks for. The result says whether that request waits for the disk.
    pub(crate) fn disk_failed(&mut self, pick: u8) -> Result<bool, Refusal>
        ensures taken { (ram : List ℕ) → TakesAnswer (λ items. items ≡ []) ram self.old pick Failed result ram self.new }
    {
        let may = self.registers.is_running() && pick > 0;
        match &mut self.kind {
            Kind::Outside(block) => {
                if !may {
                    return Ok(false);
                }
                Ok(block.disk_failed(pick as usize - 1))
            }
            Kind::Network { .. } | Kind::Block(_) | Kind::Console { .. } | Kind::Entropy(_) => {
                Err(Refusal::WrongKind)
            }
        }
    }

    /// Whether this register write would drop requests that may have asked something of a disk outside, in a machine whose RAM has `ram_len`
    /// bytes. It is tried on a copy of the registers.
    pub(crate) fn drops_requests(&self, ram_len: u64, offset: u32, width: u8, value: u32) -> bool
        requires sound { IsSoundDevice self.now.registers.ram_base ram_len self.now }
        ensures { result ≡ drops_requests self.now offset width value }
    {
        if !self.has_outside_requests() {
            return false;
        }
        let shape = self.kind.shape();
        let mut registers = Regs::new_at(
            device_id(shape),
            offered(shape),
            queue_count(shape),
            self.registers.ram_base(),
            ram_len,
        );
        registers.restore(self.registers.common(), self.registers.queues());
        let _effect = registers.write(offset, width, value);
        !is_first_ready(registers.queues())
    }

    /// Whether there are outstanding requests of a device whose disk is outside.
    fn has_outside_requests(&self) -> bool
        ensures { result ≡ nat_lt 0 (length (outside_requests self.now.kind)) }
    {
        match &self.kind {
            Kind::Outside(block) => block.requests.len() > 0,
            Kind::Network { .. } | Kind::Block(_) | Kind::Console { .. } | Kind::Entropy(_) =>
                false,
        }
    }

    /// A step of a device whose disk is outside that looks at no queue: it gives its id, or ends a request. It is a call of its own, which other
    /// devices do not carry along, and cold: otherwise the compiler takes what follows it, the step of a disk in the machine, as unlikely, and
    /// inlines nothing there.
    #[cold]
    #[inline(never)]
    pub(crate) fn step_outside<L: TouchLog>(
        &mut self,
        alloc: Global,
        work: Work,
        ring: &mut AnyRing,
        ram: &mut Ram,
        log: &mut L,
    ) -> Stepped
        requires fits { Fits (decoder_in ring.old) ram.old }
        requires sound { IsSoundDevice self.old.registers.ram_base (length ram.old.bytes) self.old }
        requires outside { is_outside self.old.kind ≡ true }
        requires unlooked { looked_at self.old work.pick ≡ None }
        requires may { MayPages L.may log.old (length ram.old.bytes) }
        ensures step { (sent : List ℕ) (honest : Bool) (content : List Sector) → AreWhole content → IsDeviceStep (Touches L.after log.old log.new ram.old ram.new) work.dev honest ram.old.bytes content self.old work.pick (reply_in result sent) ram.new.bytes content self.new }
        ensures fine { (sent : List ℕ) → is_failure (reply_in result sent) ≡ false }
        ensures later { IsLater ram.old ram.new }
        ensures fits { Fits (decoder_in ring.new) ram.new }
    {
        if !self.advanced_ring(alloc, work.pick, ring) {
            return Stepped::Idle;
        }
        match ring {
            AnyRing::Split(ring) => self.advance_outside(work, ring, ram, log),
            AnyRing::Packed(ring) => self.advance_outside(work, ring, ram, log),
        }
    }

    /// Advances an outstanding request that waits for no disk, of a device whose disk is outside.
    fn advance_outside<R: Ring, L: TouchLog>(
        &mut self,
        work: Work,
        ring: &mut R,
        ram: &mut Ram,
        log: &mut L,
    ) -> Stepped
        requires sound { IsSoundDevice self.old.registers.ram_base (length ram.old.bytes) self.old }
        requires outside { is_outside self.old.kind ≡ true }
        requires unlooked { looked_at self.old work.pick ≡ None }
        requires advanced { advanced_at self.old work.pick ≡ Some (R.state ring.old) }
        requires fits { Fits (R.decoder ring.old) ram.old }
        requires may { MayPages L.may log.old (length ram.old.bytes) }
        ensures step { (sent : List ℕ) (honest : Bool) (content : List Sector) → AreWhole content → IsDeviceStep (Touches L.after log.old log.new ram.old ram.new) work.dev honest ram.old.bytes content self.old work.pick (reply_in result sent) ram.new.bytes content self.new }
        ensures fine { (sent : List ℕ) → is_failure (reply_in result sent) ≡ false }
        ensures later { IsLater ram.old ram.new }
        ensures fits { Fits (R.decoder ring.new) ram.new }
    {
        let job = Job {
            k: work.pick as usize - 1,
            device: work.dev,
            base: self.registers.ram_base(),
        };
        let Kind::Outside(block) = &mut self.kind else {
            unreachable!()
        };
        let advanced = block.advance_outside(job, ring, ram, log);
        self.positions[0] = ring.positions();
        raise_if(&mut self.registers, is_due(advanced));
        reply_to_advance(advanced)
    }
}

/// Whether the disk is to change sectors.
fn changes_sectors(what: What) -> bool
    ensures { result ≡ changes_sectors what }
{
    match what {
        What::Write | What::Clear => true,
        What::Read | What::Flush => false,
    }
}
