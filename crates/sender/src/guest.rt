//! What a host does for a guest that runs, whether its machine is being migrated or not: one loop of a host serves both.

use crate::live::LiveOver;
use crate::mig_error::MigError;
use guestmem::Ram;
use machine::{Disk, DiskFault, Event, Machine, Reply, Stepped, Turn, TurnEnd};
use wire::Digesting;

/// A machine whose guest runs. Only one that is being migrated refuses: once it is stopped.
pub trait Guest<D: Disk> {
    ghost use Rattle.std.specs.Prelude.{◌≡◌, ℕ, Bool, List, Result};
    ghost use Rattle.blk.specs.declared.disk.DiskFault.{DiskFault};
    ghost use Rattle.machine.specs.Seen.{Seen};
    ghost use Rattle.machine.specs.Unsynced.{FlushesDisk};
    ghost use Rattle.machine.specs.declared.event.DiskAnswer.TheVariants as answers;
    ghost use Rattle.machine.specs.declared.event.Event.{Event};
    ghost use Rattle.machine.specs.declared.event.Event.TheVariants as events;
    ghost use Rattle.machine.specs.declared.reply.Reply.{Reply};
    ghost use Rattle.machine.specs.declared.turn.Turn.{Turn};
    ghost use Rattle.machine.specs.declared.turn.TurnEnd.{TurnEnd};
    ghost use Rattle.sender.specs.Calls.{stepped_result};
    ghost use Rattle.sender.specs.declared.mig_error.MigError.{MigError};

    /// The machine.
    ghost seen: { Self → Seen };

    /// What an event of the guest does, by its answer.
    ghost serves: { Self → Event → Result Reply MigError → Self → Type 0 };

    /// What a flush that fails in place of its step does, by the device, the pick and its answer.
    ghost tries_flush: { Self → ℕ → ℕ → Result Bool MigError → Self → Type 0 };

    /// What a turn of the devices does, by its answer and the bytes that are in the buffer after it.
    ghost turns: { Self → Turn → Result TurnEnd MigError → List ℕ → Self → Turn → Type 0 };

    /// Applies an event of the guest, or a step.
    fn apply(&mut self, event: &Event) -> Result<Reply, MigError>
        ensures { serves self.old event.now result self.new };

    /// The driver reads a register. As `apply` of that event.
    fn read_register(&mut self, dev: u8, offset: u32, width: u8) -> Result<Reply, MigError>
        ensures { serves self.old (events.RegRead dev offset width) result self.new };

    /// The driver writes a register. As `apply` of that event.
    fn write_register(
        &mut self,
        dev: u8,
        offset: u32,
        width: u8,
        value: u32,
    ) -> Result<Reply, MigError>
        ensures { serves self.old (events.RegWrite dev offset width value) result self.new };

    /// The guest writes bytes into RAM from address `addr` on. As `apply` of that event, whose bytes need not be copied.
    fn write_ram(&mut self, addr: u64, bytes: &[u8]) -> Result<Reply, MigError>
        ensures { serves self.old (events.MemWrite addr bytes.now) result self.new };

    /// The host puts bytes in. As `apply` of that event, whose bytes need not be copied.
    fn input(&mut self, dev: u8, bytes: &[u8]) -> Result<Reply, MigError>
        ensures { serves self.old (events.Input dev bytes.now) result self.new };

    /// The host drops what it has put in and the guest has not yet taken. As `apply` of that event.
    fn drop_input(&mut self, dev: u8) -> Result<Reply, MigError>
        ensures { serves self.old (events.Drop dev) result self.new };

    /// The host sets the size of a console, in characters. As `apply` of that event.
    fn resize(&mut self, dev: u8, cols: u16, rows: u16) -> Result<Reply, MigError>
        ensures { serves self.old (events.Resize dev cols rows) result self.new };

    /// A disk outside gave these bytes, which the request that the pick names awaits (`Machine::disk_gave`). As `apply` of that event, whose bytes
    /// need not be copied.
    fn disk_gave(&mut self, dev: u8, pick: u8, bytes: &[u8]) -> Result<Reply, MigError>
        ensures { serves self.old (events.Disk dev pick (answers.Gave bytes.now)) result self.new };

    /// A disk outside did this many sectors of a write or of a clearing, or a flush, which is one. As `apply` of that event.
    fn disk_did(&mut self, dev: u8, pick: u8, count: u32) -> Result<Reply, MigError>
        ensures { serves self.old (events.Disk dev pick (answers.Did count)) result self.new };

    /// A disk outside failed: the request that the pick names ends with an error. As `apply` of that event.
    fn disk_failed(&mut self, dev: u8, pick: u8) -> Result<Reply, MigError>
        ensures { serves self.old (events.Disk dev pick answers.Failed) result self.new };

    /// A device does one piece of its work, which the pick names. As `apply` of that event; the bytes of a message go into the buffer,
    /// which is cut or grows to them, and where none is sent it may hold anything.
    fn step_into(&mut self, dev: u8, pick: u8, sent: &mut Vec<u8>) -> Result<Stepped, MigError>
        ensures { serves self.old (events.Step dev pick) (stepped_result result sent.new.items) self.new };

    /// The devices' turn: the steps that have something to do, one after another, until the host has to do something (`Machine::work`). The
    /// bytes of a message go into the buffer.
    fn work(&mut self, turn: &mut Turn, sent: &mut Vec<u8>) -> Result<TurnEnd, MigError>
        ensures { turns self.old turn.old result sent.new.items self.new turn.new };

    /// In place of a step that flushes a disk: makes it as a step whose disk failed, and calls no disk (`Machine::fail_flush`). The
    /// result says whether the step with this pick flushes; if not, nothing has changed.
    fn fail_flush(&mut self, dev: u8, pick: u8) -> Result<bool, MigError>
        ensures { tries_flush self.old dev pick result self.new };

    /// Flushes the disk of a device once, if it has one (`Machine::flush_disk`).
    fn flush_disk(&mut self, dev: u8) -> Result<(), DiskFault>
        ensures { FlushesDisk (seen self.old) dev result (seen self.new) };

    /// The machine, to be read.
    fn machine(&self) -> &Machine<D>
        ensures { result.now ≡ seen self.now };
}

impl<D: Disk> Guest<D> for Machine<D> {
    ghost use Rattle.sender.specs.Guests.{IsFlushTried, IsServed, IsTurnTaken};

    ghost seen = { λ m. m };

    ghost serves = { IsServed };

    ghost tries_flush = { IsFlushTried };

    ghost turns = { IsTurnTaken D.called };

    fn apply(&mut self, event: &Event) -> Result<Reply, MigError> {
        Ok(Machine::apply(self, event))
    }

    fn read_register(&mut self, dev: u8, offset: u32, width: u8) -> Result<Reply, MigError> {
        let answer = Machine::read_register(self, dev, offset, width);
        Ok(Reply::from_value(answer))
    }

    fn write_register(
        &mut self,
        dev: u8,
        offset: u32,
        width: u8,
        value: u32,
    ) -> Result<Reply, MigError> {
        let answer = Machine::write_register(self, dev, offset, width, value);
        Ok(Reply::from_written(answer))
    }

    fn write_ram(&mut self, addr: u64, bytes: &[u8]) -> Result<Reply, MigError> {
        Ok(Reply::from_done(Machine::write_ram(self, addr, bytes)))
    }

    fn input(&mut self, dev: u8, bytes: &[u8]) -> Result<Reply, MigError> {
        Ok(Reply::from_accepted(Machine::input(self, dev, bytes)))
    }

    fn drop_input(&mut self, dev: u8) -> Result<Reply, MigError> {
        Ok(Reply::from_done(Machine::drop_input(self, dev)))
    }

    fn resize(&mut self, dev: u8, cols: u16, rows: u16) -> Result<Reply, MigError> {
        Ok(Reply::from_done(Machine::resize(self, dev, cols, rows)))
    }

    fn disk_gave(&mut self, dev: u8, pick: u8, bytes: &[u8]) -> Result<Reply, MigError> {
        let answer = Machine::disk_gave(self, dev, pick, bytes);
        Ok(Reply::from_moved(answer))
    }

    fn disk_did(&mut self, dev: u8, pick: u8, count: u32) -> Result<Reply, MigError> {
        let answer = Machine::disk_did(self, dev, pick, count);
        Ok(Reply::from_moved(answer))
    }

    fn disk_failed(&mut self, dev: u8, pick: u8) -> Result<Reply, MigError> {
        Ok(Reply::from_failed(Machine::disk_failed(self, dev, pick)))
    }

    fn step_into(&mut self, dev: u8, pick: u8, sent: &mut Vec<u8>) -> Result<Stepped, MigError> {
        Ok(Machine::step_into(self, dev, pick, sent))
    }

    fn work(&mut self, turn: &mut Turn, sent: &mut Vec<u8>) -> Result<TurnEnd, MigError> {
        Ok(Machine::work(self, turn, sent))
    }

    fn fail_flush(&mut self, dev: u8, pick: u8) -> Result<bool, MigError> {
        Ok(Machine::fail_flush(self, dev, pick))
    }

    fn flush_disk(&mut self, dev: u8) -> Result<(), DiskFault> {
        Machine::flush_disk(self, dev)
    }

    fn machine(&self) -> &Machine<D> {
        self
    }
}

/// While a machine is being migrated, what an event writes into becomes dirty, and is sent again.
impl<D: Disk, W: Digesting> Guest<D> for LiveOver<D, W, Ram> {
    ghost use Rattle.sender.specs.Guests.{IsServedLive};
    ghost use Rattle.sender.specs.Turns.{TakesLiveTurn};
    ghost use Rattle.sender.specs.Unsynced.{TriesFlush};

    ghost seen = { λ l. l.machine };

    ghost serves = { IsServedLive };

    ghost tries_flush = { TriesFlush };

    ghost turns = { TakesLiveTurn D.called };

    fn apply(&mut self, event: &Event) -> Result<Reply, MigError> {
        LiveOver::apply(self, event)
    }

    fn read_register(&mut self, dev: u8, offset: u32, width: u8) -> Result<Reply, MigError> {
        LiveOver::read_register(self, dev, offset, width)
    }

    fn write_register(
        &mut self,
        dev: u8,
        offset: u32,
        width: u8,
        value: u32,
    ) -> Result<Reply, MigError> {
        LiveOver::write_register(self, dev, offset, width, value)
    }

    fn write_ram(&mut self, addr: u64, bytes: &[u8]) -> Result<Reply, MigError> {
        LiveOver::write_ram(self, addr, bytes)
    }

    fn input(&mut self, dev: u8, bytes: &[u8]) -> Result<Reply, MigError> {
        LiveOver::input(self, dev, bytes)
    }

    fn drop_input(&mut self, dev: u8) -> Result<Reply, MigError> {
        LiveOver::drop_input(self, dev)
    }

    fn resize(&mut self, dev: u8, cols: u16, rows: u16) -> Result<Reply, MigError> {
        LiveOver::resize(self, dev, cols, rows)
    }

    fn disk_gave(&mut self, dev: u8, pick: u8, bytes: &[u8]) -> Result<Reply, MigError> {
        LiveOver::disk_gave(self, dev, pick, bytes)
    }

    fn disk_did(&mut self, dev: u8, pick: u8, count: u32) -> Result<Reply, MigError> {
        LiveOver::disk_did(self, dev, pick, count)
    }

    fn disk_failed(&mut self, dev: u8, pick: u8) -> Result<Reply, MigError> {
        LiveOver::disk_failed(self, dev, pick)
    }

    fn step_into(&mut self, dev: u8, pick: u8, sent: &mut Vec<u8>) -> Result<Stepped, MigError> {
        LiveOver::step_into(self, dev, pick, sent)
    }

    fn work(&mut self, turn: &mut Turn, sent: &mut Vec<u8>) -> Result<TurnEnd, MigError> {
        LiveOver::work(self, turn, sent)
    }

    fn fail_flush(&mut self, dev: u8, pick: u8) -> Result<bool, MigError> {
        LiveOver::fail_flush(self, dev, pick)
    }

    fn flush_disk(&mut self, dev: u8) -> Result<(), DiskFault> {
        LiveOver::flush_disk(self, dev)
    }

    fn machine(&self) -> &Machine<D> {
        LiveOver::machine(self)
    }
}
