//! What a step over a window writes, before it is made.

ghost use Rattle.std.specs.Prelude.{◌≡◌, ◌*◌, IfOk, length};
ghost use Rattle.region.specs.Address.{address};
ghost use Rattle.guestmem.specs.declared.limits.TheConstants.{PAGE_SIZE};
ghost use Rattle.machine.specs.Beside.{window_memory};
ghost use Rattle.machine.specs.Parked.{back_with};
ghost use Rattle.machine.specs.Seen.{state_of};
ghost use Rattle.machine.specs.Writing.{StepStores};

use crate::any_ring::AnyRing;
use crate::machine::{MachineOver, Parked};
use crate::stores::{Stores, Target};
use blk::Disk;
use guestmem::{NoLog, NoMemory, ParkedRam, Ram};
use region::Region;

impl<D: Disk> MachineOver<D, Ram> {
    /// What determines the writes of the step of this pick.
    fn storing(&self, dev: u8, pick: u8) -> Result<Stores, NoMemory>
        ensures { IfOk result (λ stores. StepStores (state_of self.now) dev pick stores) }
    {
        let dev = dev as usize;
        if dev >= self.devices.len() {
            return Ok(Stores::new(0, AnyRing::new(self.alloc), Target::Nothing));
        }
        self.devices[dev]
            .state()
            .storing(self.alloc, pick, &self.ram)
    }
}

impl<D: Disk> MachineOver<D, ParkedRam> {
    /// What determines the writes of the step of this pick, by the pieces that the window holds: they are all that the step reads (`lacks`).
    /// With the step's answer it hands out the pieces to store in RAM, in order. Window and machine are handed out as they were. Memory may be
    /// refused, as it is for the step, and for the segments of a request.
    pub fn storing(
        self,
        window: Region,
        dev: u8,
        pick: u8,
    ) -> (Result<Stores, NoMemory>, Region, Parked<D>)
        requires size { length window.content ≡ PAGE_SIZE * length self.memory }
        ensures storing { IfOk result.0 (λ stores. StepStores (state_of (back_with self (window_memory self window))) dev pick stores) }
        ensures content { result.1.content ≡ window.content }
        ensures place { address result.1 ≡ address window }
        ensures machine { result.2 ≡ self }
    {
        let machine = self.give_back(window, &[], &mut NoLog);
        let storing = machine.storing(dev, pick);
        match machine.lend() {
            Ok((window, parked)) => (storing, window, parked),
            Err(_machine) => unreachable!(),
        }
    }
}
