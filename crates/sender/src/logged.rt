//! Calls of a machine that is being migrated, with a log of the caller's beside the dirty items.
//!
//! The log lies among the machine's own while it is told. Two logs in a struct that borrowed them would be lent on, and what they then
//! hold would not be known.

ghost use Rattle.std.specs.Prelude.{◌≡◌};
ghost use Rattle.guestmem.specs.Maybe.{after_if, may_if};
ghost use Rattle.machine.specs.Applied.{MayItems};
ghost use Rattle.machine.specs.PageLog.{may_note, noted};
ghost use Rattle.machine.specs.declared.event.DiskAnswer.TheVariants as answers;
ghost use Rattle.machine.specs.declared.event.Event.TheVariants as events;
ghost use Rattle.sender.specs.Calls.{guest_reply, stepped_result};
ghost use Rattle.sender.specs.LiveState.{now};
ghost use Rattle.sender.specs.Logged.{ServesLogged};
ghost use Rattle.sender.specs.Reads.{HasLiveCalled};

use crate::event::LiveEvent;
use crate::live::LiveOver;
use crate::mig_error::MigError;
use guestmem::Ram;
use machine::{Disk, Event, PageLog, Reply, Stepped};
use std::mem;
use wire::Digesting;

impl<D: Disk, W: Digesting> LiveOver<D, W, Ram> {
    /// Does what `apply` does, and reports to the log each page that is written, even if its bytes stay the same.
    #[tactic(auto, using(crate::proofs::Logging::logged_refused))]
    pub fn apply_logged(
        &mut self,
        event: &Event,
        log: &mut Option<PageLog>,
    ) -> Result<Reply, MigError>
        requires may { MayItems (may_if may_note) log.old (now self.old) }
        ensures served { ServesLogged (after_if noted) self.old log.old event.now (guest_reply result) self.new log.new }
        ensures calls { HasLiveCalled D.called self.old (LiveEvent.Guest event.now) (guest_reply result) self.new }
    {
        self.running()?;
        mem::swap(&mut self.logs.second, log);
        let reply = self.machine.apply_logged(event, &mut self.logs);
        mem::swap(&mut self.logs.second, log);
        Ok(reply)
    }

    /// Does what `step_into` does, and reports to the log each page that is written.
    #[tactic(auto, using(crate::proofs::Logging::logged_refused))]
    pub fn step_into_logged(
        &mut self,
        dev: u8,
        pick: u8,
        sent: &mut Vec<u8>,
        log: &mut Option<PageLog>,
    ) -> Result<Stepped, MigError>
        requires may { MayItems (may_if may_note) log.old (now self.old) }
        ensures served { ServesLogged (after_if noted) self.old log.old (events.Step dev pick) (guest_reply (stepped_result result sent.new.items)) self.new log.new }
        ensures calls { HasLiveCalled D.called self.old (LiveEvent.Guest (events.Step dev pick)) (guest_reply (stepped_result result sent.new.items)) self.new }
    {
        self.running()?;
        mem::swap(&mut self.logs.second, log);
        let stepped = self
            .machine
            .step_into_logged(dev, pick, sent, &mut self.logs);
        mem::swap(&mut self.logs.second, log);
        Ok(stepped)
    }

    /// Does what `write_ram` does, and reports to the log each page that is written.
    #[tactic(auto, using(crate::proofs::Logging::logged_refused))]
    pub fn write_ram_logged(
        &mut self,
        addr: u64,
        bytes: &[u8],
        log: &mut Option<PageLog>,
    ) -> Result<Reply, MigError>
        requires may { MayItems (may_if may_note) log.old (now self.old) }
        ensures served { ServesLogged (after_if noted) self.old log.old (events.MemWrite addr bytes.now) (guest_reply result) self.new log.new }
        ensures calls { HasLiveCalled D.called self.old (LiveEvent.Guest (events.MemWrite addr bytes.now)) (guest_reply result) self.new }
    {
        self.running()?;
        mem::swap(&mut self.logs.second, log);
        let answer = self.machine.write_ram_logged(addr, bytes, &mut self.logs);
        mem::swap(&mut self.logs.second, log);
        Ok(Reply::from_done(answer))
    }

    /// Does what `disk_gave` does, and reports to the log each page that is written.
    #[tactic(auto, using(crate::proofs::Logging::logged_refused))]
    pub fn disk_gave_logged(
        &mut self,
        dev: u8,
        pick: u8,
        bytes: &[u8],
        log: &mut Option<PageLog>,
    ) -> Result<Reply, MigError>
        requires may { MayItems (may_if may_note) log.old (now self.old) }
        ensures served { ServesLogged (after_if noted) self.old log.old (events.Disk dev pick (answers.Gave bytes.now)) (guest_reply result) self.new log.new }
        ensures calls { HasLiveCalled D.called self.old (LiveEvent.Guest (events.Disk dev pick (answers.Gave bytes.now))) (guest_reply result) self.new }
    {
        self.running()?;
        mem::swap(&mut self.logs.second, log);
        let answer = self
            .machine
            .disk_gave_logged(dev, pick, bytes, &mut self.logs);
        mem::swap(&mut self.logs.second, log);
        Ok(Reply::from_moved(answer))
    }
}
