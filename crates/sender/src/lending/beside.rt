//! Steps of a machine that is being migrated and whose RAM is lent, each over a window, while the guest runs (`Parked::step_over`).
//!
//! In the history such a step is the guest's writes of the pages that it had written till then, as the step saw them, and then the step. A
//! page of which the step only reads does not become dirty: where its bytes are not those of the history, the guest wrote it, and the return
//! names it.

ghost use Rattle.std.specs.Prelude.{◌≡◌, ◌*◌, IfOk, length};
ghost use Rattle.region.specs.Address.{address};
ghost use Rattle.guestmem.specs.declared.limits.TheConstants.{PAGE_SIZE};
ghost use Rattle.chains.specs.Lacking.{LacksOr};
ghost use Rattle.machine.specs.Asked.{StepAsks};
ghost use Rattle.machine.specs.Beside.{KnowsReads, window_memory};
ghost use Rattle.machine.specs.Parked.{back_with};
ghost use Rattle.machine.specs.Seen.{state_of};
ghost use Rattle.machine.specs.Stepped.{reply_in};
ghost use Rattle.machine.specs.Writing.{StepStores};
ghost use Rattle.sender.specs.Beside.{IsLiveMadeOver, TriesOver, live_ended};

use crate::live::{LiveOver, LiveParked};
use crate::mig_error::MigError;
use guestmem::{NoMemory, ParkedRam};
use machine::{Asking, Disk, Piece, Stepped, Stores};
use region::Region;
use wire::Digesting;

impl<D: Disk, W: Digesting> LiveOver<D, W, ParkedRam> {
    /// The first piece of RAM that the step of this pick lacks, where these pieces are held (`Parked::lacks`). No phase refuses it.
    pub fn lacks(
        self,
        window: Region,
        dev: u8,
        pick: u8,
        held: &[Piece],
    ) -> (Result<Option<Piece>, NoMemory>, Region, LiveParked<D, W>)
        requires size { length window.content ≡ PAGE_SIZE * length self.machine.memory }
        ensures lacking { IfOk result.0 (LacksOr (length window.content) held.now (KnowsReads held.now (state_of (back_with self.machine (window_memory self.machine window))) dev pick)) }
        ensures content { result.1.content ≡ window.content }
        ensures place { address result.1 ≡ address window }
        ensures machine { result.2 ≡ self }
    {
        let (lacking, window, machine) = self.machine.lacks(window, dev, pick, held);
        let same = LiveOver { machine, ..self };
        (lacking, window, same)
    }

    /// What the step of this pick publishes, if it publishes a chain, by the pieces that the window holds (`Parked::asking`). No phase refuses
    /// it.
    pub fn asking(
        self,
        window: Region,
        dev: u8,
        pick: u8,
    ) -> (Result<Option<Asking>, NoMemory>, Region, LiveParked<D, W>)
        requires size { length window.content ≡ PAGE_SIZE * length self.machine.memory }
        ensures asking { IfOk result.0 (λ asking. StepAsks (state_of (back_with self.machine (window_memory self.machine window))) dev pick asking) }
        ensures content { result.1.content ≡ window.content }
        ensures place { address result.1 ≡ address window }
        ensures machine { result.2 ≡ self }
    {
        let (asking, window, machine) = self.machine.asking(window, dev, pick);
        let same = LiveOver { machine, ..self };
        (asking, window, same)
    }

    /// What the step of this pick writes by, by the pieces that the window holds (`Parked::storing`). No phase refuses it.
    pub fn storing(
        self,
        window: Region,
        dev: u8,
        pick: u8,
    ) -> (Result<Stores, NoMemory>, Region, LiveParked<D, W>)
        requires size { length window.content ≡ PAGE_SIZE * length self.machine.memory }
        ensures storing { IfOk result.0 (λ stores. StepStores (state_of (back_with self.machine (window_memory self.machine window))) dev pick stores) }
        ensures content { result.1.content ≡ window.content }
        ensures place { address result.1 ≡ address window }
        ensures machine { result.2 ≡ self }
    {
        let (storing, window, machine) = self.machine.storing(window, dev, pick);
        let same = LiveOver { machine, ..self };
        (storing, window, same)
    }

    /// Makes a step over a window, as `Parked::step_over` does. Exactly the items that the step writes into become dirty: a page of which it
    /// only reads does not. After a stop that closed the stream it is refused.
    #[tactic(auto, using(crate::proofs::Over::over_refused, crate::proofs::Over::over_made))]
    pub fn step_over(
        self,
        window: Region,
        dev: u8,
        pick: u8,
        sent: &mut Vec<u8>,
    ) -> (Result<Stepped, MigError>, Region, LiveParked<D, W>)
        requires size { length window.content ≡ PAGE_SIZE * length self.machine.memory }
        ensures { TriesOver self window dev pick result.0 sent.new.items result.1 result.2 }
    {
        if let Err(error) = self.running() {
            return (Err(error), window, self);
        }
        let (stepped, window, next) = self.made_over(window, dev, pick, sent);
        (Ok(stepped), window, next)
    }

    /// The same in a phase in which the guest runs.
    fn made_over(
        self,
        window: Region,
        dev: u8,
        pick: u8,
        sent: &mut Vec<u8>,
    ) -> (Stepped, Region, LiveParked<D, W>)
        requires size { length window.content ≡ PAGE_SIZE * length self.machine.memory }
        ensures { IsLiveMadeOver self window dev pick (reply_in result.0 sent.new.items) result.1 result.2 }
    {
        let mut logs = self.logs;
        let (stepped, window, machine) = self
            .machine
            .step_over(window, dev, pick, sent, &mut logs.first);
        let next = LiveOver {
            machine,
            logs,
            ..self
        };
        (stepped, window, next)
    }

    /// Ends an open step of a device (`Parked::end`): raises its used-buffer interrupt, if the driver's word asks for that. No item becomes
    /// dirty.
    pub fn end(&mut self, dev: u8, is_due: bool)
        ensures { self.new ≡ live_ended is_due dev self.old }
    {
        self.machine.end(dev, is_due);
    }
}
