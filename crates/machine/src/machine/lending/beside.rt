//! Steps of a machine whose RAM is lent, each over a window, while the guest runs.
//!
//! The window is memory of the caller of the size of RAM, of any content. The caller copies into it the pieces of RAM that the step reads, one
//! by one, as `Parked::lacks` asks for them, and then makes the step over it (`Parked::step_over`). It is the step of the machine, whatever
//! its RAM holds elsewhere (`laws::held_is_beside`). What the step wrote is to be copied from the window into RAM, in order
//! (`laws::stores_are_writes`).
//!
//! The driver's word about interrupts is read last, once what the step wrote is in RAM. So the step may be made while the word of the window asks
//! for no interrupt: it is open then, and `Parked::end` raises the interrupt if the word that was read asks for it. Where the window has the
//! true word, the step is closed at once.

ghost use Rattle.std.specs.Prelude.{◌≡◌, ◌*◌, IfOk, length};
ghost use Rattle.region.specs.Address.{address};
ghost use Rattle.guestmem.specs.declared.limits.TheConstants.{PAGE_SIZE};
ghost use Rattle.chains.specs.Lacking.{LacksOr};
ghost use Rattle.machine.specs.Applied.{MayItems};
ghost use Rattle.machine.specs.Asked.{StepAsks};
ghost use Rattle.machine.specs.Beside.{IsLoggedOver, KnowsReads, ended, window_memory};
ghost use Rattle.machine.specs.Parked.{back_with};
ghost use Rattle.machine.specs.Seen.{state_of};
ghost use Rattle.machine.specs.Stepped.{reply_in};

use crate::asking::Asking;
use crate::machine::{MachineOver, Parked};
use crate::stepped::Stepped;
use blk::Disk;
use chains::Piece;
use guestmem::{NoLog, NoMemory, ParkedRam, Ram, TouchLog};
use region::Region;

impl<D: Disk> MachineOver<D, Ram> {
    /// The first piece of RAM that the step of this pick lacks, where these pieces are held, if it lacks one.
    fn lacks(&self, dev: u8, pick: u8, held: &[Piece]) -> Result<Option<Piece>, NoMemory>
        ensures { IfOk result (LacksOr (length self.now.memory.bytes) held.now (KnowsReads held.now (state_of self.now) dev pick)) }
    {
        let dev = dev as usize;
        if dev >= self.devices.len() {
            return Ok(None);
        }
        self.devices[dev]
            .state()
            .lacks(self.alloc, pick, &self.ram, held)
    }

    /// What the step of this pick publishes, if it publishes a chain.
    fn asking(&self, dev: u8, pick: u8) -> Result<Option<Asking>, NoMemory>
        ensures { IfOk result (λ asking. StepAsks (state_of self.now) dev pick asking) }
    {
        let dev = dev as usize;
        if dev >= self.devices.len() {
            return Ok(None);
        }
        self.devices[dev]
            .state()
            .asking(self.alloc, pick, &self.ram)
    }
}

impl<D: Disk> MachineOver<D, ParkedRam> {
    /// The first piece of RAM that the step of this pick lacks, if it lacks one, where these pieces are held: they were copied into the
    /// window. The driver's word about interrupts is not asked for. Copy the piece, add it to those that are held, and ask again. The piece lies
    /// inside RAM and in none of those that are held, so this comes to an end. Window and machine are handed out as they were. Memory may be
    /// refused, as it is for the step.
    pub fn lacks(
        self,
        window: Region,
        dev: u8,
        pick: u8,
        held: &[Piece],
    ) -> (Result<Option<Piece>, NoMemory>, Region, Parked<D>)
        requires size { length window.content ≡ PAGE_SIZE * length self.memory }
        ensures lacking { IfOk result.0 (LacksOr (length window.content) held.now (KnowsReads held.now (state_of (back_with self (window_memory self window))) dev pick)) }
        ensures content { result.1.content ≡ window.content }
        ensures place { address result.1 ≡ address window }
        ensures machine { result.2 ≡ self }
    {
        let machine = self.give_back(window, &[], &mut NoLog);
        let lacking = machine.lacks(dev, pick, held);
        match machine.lend() {
            Ok((window, parked)) => (lacking, window, parked),
            Err(_machine) => unreachable!(),
        }
    }

    /// What the step of this pick publishes, if it publishes a chain, by the pieces that the window holds: they are all that the step reads
    /// (`lacks`). It says which word of the driver is to be read last. Window and machine are handed out as they were. Memory may be refused,
    /// as it is for the step.
    pub fn asking(
        self,
        window: Region,
        dev: u8,
        pick: u8,
    ) -> (Result<Option<Asking>, NoMemory>, Region, Parked<D>)
        requires size { length window.content ≡ PAGE_SIZE * length self.memory }
        ensures asking { IfOk result.0 (λ asking. StepAsks (state_of (back_with self (window_memory self window))) dev pick asking) }
        ensures content { result.1.content ≡ window.content }
        ensures place { address result.1 ≡ address window }
        ensures machine { result.2 ≡ self }
    {
        let machine = self.give_back(window, &[], &mut NoLog);
        let asking = machine.asking(dev, pick);
        match machine.lend() {
            Ok((window, parked)) => (asking, window, parked),
            Err(_machine) => unreachable!(),
        }
    }

    /// Makes the step of this pick with this window for RAM. The window is handed out again, with what the step wrote, and so is the machine,
    /// whose RAM is lent as before. The bytes of a message are left in the buffer.
    pub fn step_over<L: TouchLog>(
        self,
        window: Region,
        dev: u8,
        pick: u8,
        sent: &mut Vec<u8>,
        log: &mut L,
    ) -> (Stepped, Region, Parked<D>)
        requires size { length window.content ≡ PAGE_SIZE * length self.memory }
        requires may { MayItems L.may log.old (state_of (back_with self (window_memory self window))) }
        ensures { IsLoggedOver L.after self window log.old dev pick (reply_in result.0 sent.new.items) result.1 result.2 log.new }
    {
        let mut machine = self.give_back(window, &[], log);
        let stepped = machine.step_into_logged(dev, pick, sent, log);
        match machine.lend() {
            Ok((window, parked)) => (stepped, window, parked),
            Err(_machine) => unreachable!(),
        }
    }

    /// Ends an open step of a device: raises its used-buffer interrupt, if the driver's word asks for that.
    pub fn end(&mut self, dev: u8, is_due: bool)
        ensures { self.new ≡ ended is_due dev self.old }
    {
        let dev = dev as usize;
        if !is_due {
            return;
        }
        if dev >= self.devices.len() {
            return;
        }
        self.devices[dev].raise_used();
    }
}
