//! Events, applied to a machine.
//!
//! `apply` is `apply_logged` with a log that keeps nothing: a machine that nobody copies pays nothing for the log, and there is
//! one proof. The log gets every page that is written into, also with what was there, so that no byte is compared. `play` says
//! that its events are applied one after another, whatever the disks do: so all that is known of one event is known of each.

ghost use Rattle.std.specs.Prelude.{◌≡◌, map, length, IfOk, OnErr};
ghost use Rattle.guestmem.specs.Later.{IsLater};
ghost use Rattle.machine.specs.Applied.{AreApplied, FailOnlyUnsteady, IsApplied, IsAppliedLogged, MayItems, marks_run};
ghost use Rattle.machine.specs.Calls.{HasCalled, HaveCalled};
ghost use Rattle.machine.specs.Outcome.{outcome_of};
ghost use Rattle.machine.specs.Run.{IsRun};
ghost use Rattle.machine.specs.Seen.{AreHonest, state_of, all_marks};
ghost use Rattle.machine.specs.Sound.{IsSound};
ghost use Rattle.machine.specs.declared.event.Event.TheVariants as events;

use crate::event::Event;
use crate::machine::MachineOver;
use crate::reply::{Refusal, Reply};
use blk::Disk;
use guestmem::{Bytes, NoLog, NoMemory, Ram, TouchLog, access_refusal};

impl<D: Disk> MachineOver<D, Ram> {
    /// Applies one event, and returns the reply. After `NoMemory` and `Refused` nothing has changed.
    pub fn apply(&mut self, event: &Event) -> Reply
        ensures applied { IsApplied self.old event.now result self.new }
        ensures calls { HasCalled D.called self.old event.now result self.new }
    {
        self.apply_logged(event, &mut NoLog)
    }

    /// Does what `apply` does, and reports to the log each page and sector that is written, even if its bytes stay the
    /// same.
    pub fn apply_logged<L: TouchLog>(&mut self, event: &Event, log: &mut L) -> Reply
        requires may { MayItems L.may log.old (state_of self.old) }
        ensures applied { IsAppliedLogged L.after self.old log.old event.now result self.new log.new }
        ensures calls { HasCalled D.called self.old event.now result self.new }
    {
        match event {
            Event::RegRead { dev, off, width } => Reply::from_value(self.read_register(
                *dev, *off, *width,
            )),
            Event::RegWrite {
                dev,
                off,
                width,
                value,
            } => Reply::from_written(self.write_register(*dev, *off, *width, *value)),
            Event::MemRead { addr, len } => self.read_bytes(*addr, *len),
            Event::MemWrite { addr, bytes } => {
                Reply::from_done(self.write_ram_logged(*addr, bytes.as_slice(), log))
            }
            Event::Step { dev, pick } => self.step_logged(*dev, *pick, log),
            Event::Input { dev, bytes } => {
                Reply::from_accepted(self.input(*dev, bytes.as_slice()))
            }
            Event::Resize { dev, cols, rows } => {
                Reply::from_done(self.resize(*dev, *cols, *rows))
            }
            Event::Drop { dev } => Reply::from_done(self.drop_input(*dev)),
            Event::Disk { dev, pick, answer } => self.hand_in(*dev, *pick, answer, log),
        }
    }

    /// Applies all events in order, and gives their replies. It reserves room for the replies first: where that is
    /// refused, nothing was played.
    pub fn play(&mut self, events: &[Event]) -> Result<Vec<Reply>, NoMemory>
        ensures each { IfOk result (λ replies. length replies.items ≡ length events.now) }
        ensures run { IfOk result (λ replies. AreHonest self.old → IsRun (state_of self.old) events.now (map outcome_of replies.items) replies.items (state_of self.new)) }
        ensures applied { IfOk result (λ replies. AreApplied self.old events.now replies.items self.new) }
        ensures calls { IfOk result (λ replies. HaveCalled D.called self.old events.now replies.items self.new) }
        ensures sound { IsSound (state_of self.new) }
        ensures later { IsLater self.old.memory self.new.memory }
        ensures marks { IfOk result (λ replies. all_marks self.new ≡ marks_run (all_marks self.old) events.now replies.items) }
        ensures unsteady { IfOk result (λ replies. FailOnlyUnsteady (all_marks self.old) events.now replies.items) }
        ensures err { OnErr result (self.new ≡ self.old) }
    {
        let mut replies = Vec::with_capacity(self.alloc, events.len())?;
        for event in events {
            let reply = self.apply(event);
            replies.push_reserved(reply);
        }
        Ok(replies)
    }

    /// Reads RAM into memory of its own.
    fn read_bytes(&self, addr: u64, len: u32) -> Reply
        ensures { IsApplied self.now (events.MemRead addr len) result self.now }
    {
        let base = self.base();
        if let Some(error) = access_refusal(base, self.ram.len(), addr, len as usize) {
            return Reply::Refused(Refusal::from(error));
        }
        let Ok(mut bytes) = vec![in self.alloc; 0u8; len as usize] else {
            return Reply::NoMemory;
        };
        self.ram.get(addr - base, &mut bytes);
        Reply::Bytes(Bytes::from_vec(bytes))
    }
}
