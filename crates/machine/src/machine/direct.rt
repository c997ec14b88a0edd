//! The events of a machine as calls of their own: for a host that has the numbers and the bytes at hand, and needs no list of
//! events. Each is the step of its event.
//!
//! A host on an exit has numbers, and needs no event: it matches no reply that cannot come, and copies no bytes into an event.
//! `Live` has the same calls, with a reply as their result, so a host may keep its machine in a `Live` from the start.

ghost use Rattle.std.specs.Prelude.{◌≡◌, ◌+◌, ◌*◌, ◌==◌, if◌then◌else◌, length, OnErr};
ghost use Rattle.machine.specs.Applied.{IsApplied, IsAppliedLogged, MayItems};
ghost use Rattle.machine.specs.Calls.{HasCalled};
ghost use Rattle.machine.specs.Direct.{value_reply, done_reply, bytes_reply, accepted_reply, written_result};
ghost use Rattle.machine.specs.Seen.{state_of};
ghost use Rattle.machine.specs.Stepped.{reply_in};
ghost use Rattle.machine.specs.declared.event.Event.TheVariants as events;

use crate::machine::MachineOver;
use crate::reply::{Refusal, Reply};
use crate::stepped::Stepped;
use crate::work::Work;
use blk::Disk;
use console::ConsoleSize;
use guestmem::{NoLog, Ram, TouchLog, access_refusal, recall_bytes};
use mmio::QUEUE_COUNT_MAX;

impl<D: Disk> MachineOver<D, Ram> {
    /// The guest reads RAM from a guest-physical address on into the whole buffer. It takes no memory. A refusal leaves the buffer as
    /// it was.
    pub fn read_ram(&self, addr: u64, buf: &mut [u8]) -> Result<(), Refusal>
        ensures applied { IsApplied self.now (events.MemRead addr (length buf.old)) (bytes_reply result buf.new) self.now }
        ensures err { OnErr result (buf.new ≡ buf.old) }
    {
        let base = self.base();
        if let Some(error) = access_refusal(base, self.ram.len(), addr, buf.len()) {
            return Err(Refusal::from(error));
        }
        self.ram.get(addr - base, buf);
        Ok(())
    }

    /// The guest writes bytes into RAM from a guest-physical address on.
    pub fn write_ram(&mut self, addr: u64, bytes: &[u8]) -> Result<(), Refusal>
        ensures applied { IsApplied self.old (events.MemWrite addr bytes.now) (done_reply result) self.new }
        ensures calls { HasCalled D.called self.old (events.MemWrite addr bytes.now) (done_reply result) self.new }
    {
        self.write_ram_logged(addr, bytes, &mut NoLog)
    }

    /// A device does one piece of its work, which the pick names.
    pub fn step(&mut self, dev: u8, pick: u8) -> Reply
        ensures applied { IsApplied self.old (events.Step dev pick) result self.new }
        ensures calls { HasCalled D.called self.old (events.Step dev pick) result self.new }
    {
        self.step_logged(dev, pick, &mut NoLog)
    }

    /// Does what `step` does. The bytes of a message go into the buffer, which is cut or grows to them; where none is sent it may hold
    /// anything. A step that sends no message takes no memory but for a chain of more than four descriptors, and neither does one
    /// whose message the buffer has room for.
    pub fn step_into(&mut self, dev: u8, pick: u8, sent: &mut Vec<u8>) -> Stepped
        ensures applied { IsApplied self.old (events.Step dev pick) (reply_in result sent.new.items) self.new }
        ensures calls { HasCalled D.called self.old (events.Step dev pick) (reply_in result sent.new.items) self.new }
    {
        self.step_into_logged(dev, pick, sent, &mut NoLog)
    }

    /// Does what `write_ram` does, and reports to the log each page that is written, even if its bytes stay the same.
    pub fn write_ram_logged<L: TouchLog>(
        &mut self,
        addr: u64,
        bytes: &[u8],
        log: &mut L,
    ) -> Result<(), Refusal>
        requires may { MayItems L.may log.old (state_of self.old) }
        ensures applied { IsAppliedLogged L.after self.old log.old (events.MemWrite addr bytes.now) (done_reply result) self.new log.new }
        ensures calls { HasCalled D.called self.old (events.MemWrite addr bytes.now) (done_reply result) self.new }
    {
        let base = self.base();
        if let Some(error) = access_refusal(base, self.ram.len(), addr, bytes.len()) {
            return Err(Refusal::from(error));
        }
        recall_bytes(bytes);
        self.ram.put(addr - base, bytes, log);
        Ok(())
    }

    /// Does what `step_into` does, and reports to the log each page and sector that is written, even if its bytes stay the same.
    pub fn step_into_logged<L: TouchLog>(
        &mut self,
        dev: u8,
        pick: u8,
        sent: &mut Vec<u8>,
        log: &mut L,
    ) -> Stepped
        requires may { MayItems L.may log.old (state_of self.old) }
        ensures applied { IsAppliedLogged L.after self.old log.old (events.Step dev pick) (reply_in result sent.new.items) self.new log.new }
        ensures calls { HasCalled D.called self.old (events.Step dev pick) (reply_in result sent.new.items) self.new }
    {
        let number = dev as usize;
        if number >= self.devices.len() {
            return Stepped::Refused(Refusal::NoDevice);
        }
        let device = &mut self.devices[number];
        let ring = &mut self.rings[ring_of(dev, pick)];
        let work = Work { dev, pick };
        let stepped = device.step(self.alloc, work, ring, sent, &mut self.ram, log);
        self.ram.recall();
        stepped
    }

    pub(super) fn step_logged<L: TouchLog>(&mut self, dev: u8, pick: u8, log: &mut L) -> Reply
        requires may { MayItems L.may log.old (state_of self.old) }
        ensures applied { IsAppliedLogged L.after self.old log.old (events.Step dev pick) result self.new log.new }
        ensures calls { HasCalled D.called self.old (events.Step dev pick) result self.new }
    {
        let mut sent = Vec::new(self.alloc);
        let stepped = self.step_into_logged(dev, pick, &mut sent, log);
        stepped.reply(sent)
    }
}

/// The index of the ring that a step of a device makes its own: that of the queue which the pick names, or the second of the device for
/// a request of a block device, which has one queue.
fn ring_of(dev: u8, pick: u8) -> usize
    ensures { result ≡ QUEUE_COUNT_MAX * dev + (if pick == 0 then 0 else 1) }
{
    let first = QUEUE_COUNT_MAX * dev as usize;
    if pick == 0 { first } else { first + 1 }
}
