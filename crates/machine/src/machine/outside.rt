//! Disks outside of the machine: what is asked of them, and what they answer.
//!
//! A request of a device whose disk is outside waits, and no step advances it. The host looks at what it asks (`disk_call`), does that in its
//! own time, and hands the answer in, whole or in part: an event, with its bytes in it. Both questions change nothing, and no call here takes
//! memory.

ghost use Rattle.std.specs.Prelude.{◌≡◌, IfSome, Some, map, slice_get};
ghost use Rattle.blk.specs.Outside.{Did, Failed, Gave};
ghost use Rattle.machine.specs.Applied.{IsApplied, IsAppliedLogged, MayItems};
ghost use Rattle.machine.specs.Calls.{HasCalled};
ghost use Rattle.machine.specs.Dropping.{drops_of};
ghost use Rattle.machine.specs.Over.{AppliesOver, calls_in, sectors_in};
ghost use Rattle.machine.specs.Outside.{IsFilled, MayAsk, disk_call_of, disk_reply};
ghost use Rattle.machine.specs.Seen.{state_of};
ghost use Rattle.machine.specs.Shapes.{made_as};
ghost use Rattle.machine.specs.declared.event.DiskAnswer.TheVariants as answers;
ghost use Rattle.machine.specs.declared.event.Event.TheVariants as events;
ghost use Rattle.machine.specs.declared.shape.Shape.{Shape};

use crate::event::DiskAnswer;
use crate::guest_ram::GuestRam;
use crate::machine::MachineOver;
use crate::outside_call::OutsideCall;
use crate::reply::{Refusal, Reply};
use blk::Disk;
use guestmem::{NoLog, Ram, TouchLog, recall_bytes};

impl<D: Disk> MachineOver<D, Ram> {
    /// What the request that a pick names asks of a disk outside: all that it has left. `None` if it waits for none.
    ///
    /// Whatever a guest or a stream did, the call has one sector at least, and none past the last; and of a device that is read-only no sector
    /// is to be written or cleared.
    pub fn disk_call(&self, dev: u8, pick: u8) -> Option<OutsideCall>
        ensures asked { result ≡ disk_call_of (state_of self.now) dev pick }
        ensures allowed { IfSome result (λ asked. (shape : Shape) × (slice_get (map (λ d. made_as d.kind) (state_of self.now).devices) dev ≡ Some shape) × MayAsk shape asked.call) }
    {
        let dev = dev as usize;
        if dev >= self.devices.len() {
            return None;
        }
        self.devices[dev].state().outside_call(pick)
    }

    /// Fills the front of the buffer with the bytes that the request which a pick names writes next to a disk outside, as they lie in RAM, and
    /// returns how many these are: all that it has left, or as many as the buffer holds. None for a request that writes no bytes of its
    /// driver.
    pub fn written_bytes(&self, dev: u8, pick: u8, buf: &mut [u8]) -> usize
        ensures { IsFilled (state_of self.now) dev pick buf.old result buf.new }
    {
        let dev = dev as usize;
        if dev >= self.devices.len() {
            return 0;
        }
        self.devices[dev]
            .state()
            .written_bytes(pick, &self.ram, buf)
    }

    /// A disk outside gave these bytes: whole sectors, from the first one that is asked for on. The result says whether the request that the pick
    /// names awaits them; if not, nothing has changed (`Event::Disk`).
    pub fn disk_gave(&mut self, dev: u8, pick: u8, bytes: &[u8]) -> Result<bool, Refusal>
        ensures applied { IsApplied self.old (events.Disk dev pick (answers.Gave bytes.now)) (disk_reply (Gave bytes.now) result) self.new }
        ensures calls { HasCalled D.called self.old (events.Disk dev pick (answers.Gave bytes.now)) (disk_reply (Gave bytes.now) result) self.new }
    {
        self.disk_gave_logged(dev, pick, bytes, &mut NoLog)
    }

    /// Does what `disk_gave` does, and reports to the log each page that is written, even if its bytes stay the same.
    pub fn disk_gave_logged<L: TouchLog>(
        &mut self,
        dev: u8,
        pick: u8,
        bytes: &[u8],
        log: &mut L,
    ) -> Result<bool, Refusal>
        requires may { MayItems L.may log.old (state_of self.old) }
        ensures applied { IsAppliedLogged L.after self.old log.old (events.Disk dev pick (answers.Gave bytes.now)) (disk_reply (Gave bytes.now) result) self.new log.new }
        ensures calls { HasCalled D.called self.old (events.Disk dev pick (answers.Gave bytes.now)) (disk_reply (Gave bytes.now) result) self.new }
    {
        let number = dev as usize;
        if number >= self.devices.len() {
            return Err(Refusal::NoDevice);
        }
        recall_bytes(bytes);
        let gave = self.devices[number].disk_gave(pick, bytes, &mut self.ram, log);
        self.ram.recall();
        gave
    }

    /// Hands an answer in.
    pub(super) fn hand_in<L: TouchLog>(
        &mut self,
        dev: u8,
        pick: u8,
        answer: &DiskAnswer,
        log: &mut L,
    ) -> Reply
        requires may { MayItems L.may log.old (state_of self.old) }
        ensures applied { IsAppliedLogged L.after self.old log.old (events.Disk dev pick answer.now) result self.new log.new }
        ensures calls { HasCalled D.called self.old (events.Disk dev pick answer.now) result self.new }
    {
        match answer {
            DiskAnswer::Gave(bytes) => {
                Reply::from_moved(self.disk_gave_logged(dev, pick, bytes.as_slice(), log))
            }
            DiskAnswer::Did(count) => Reply::from_moved(self.disk_did(dev, pick, *count)),
            DiskAnswer::Failed => Reply::from_failed(self.disk_failed(dev, pick)),
        }
    }
}

// These need no byte of RAM, which may be lent.
impl<D: Disk, M: GuestRam> MachineOver<D, M> {
    /// A disk outside did this many sectors of a write or of a clearing, from the first one that is asked for on; or a flush, which is one. The
    /// result says whether the request that the pick names awaits this; if not, nothing has changed (`Event::Disk`).
    pub fn disk_did(&mut self, dev: u8, pick: u8, count: u32) -> Result<bool, Refusal>
        ensures applied { AppliesOver M.known self.old (events.Disk dev pick (answers.Did count)) (disk_reply (Did count) result) self.new }
        ensures sectors { sectors_in self.new ≡ sectors_in self.old }
        ensures calls { calls_in self.new ≡ calls_in self.old }
    {
        let dev = dev as usize;
        if dev >= self.devices.len() {
            return Err(Refusal::NoDevice);
        }
        self.devices[dev].disk_did(pick, count)
    }

    /// A disk outside failed: the request that the pick names ends with an error. The result says whether that request waits for the disk; if
    /// not, nothing has changed (`Event::Disk`).
    pub fn disk_failed(&mut self, dev: u8, pick: u8) -> Result<bool, Refusal>
        ensures applied { AppliesOver M.known self.old (events.Disk dev pick answers.Failed) (disk_reply Failed result) self.new }
        ensures sectors { sectors_in self.new ≡ sectors_in self.old }
        ensures calls { calls_in self.new ≡ calls_in self.old }
    {
        let dev = dev as usize;
        if dev >= self.devices.len() {
            return Err(Refusal::NoDevice);
        }
        self.devices[dev].disk_failed(pick)
    }
}
