//! A step over a window with the pieces that are held of it (`Pieces`): it is made where they are all that it reads, and not stale.

ghost use Rattle.std.specs.Prelude.{◌≡◌, ◌*◌, IfErr, IfOk, length};
ghost use Rattle.region.specs.Address.{address};
ghost use Rattle.guestmem.specs.declared.limits.TheConstants.{PAGE_SIZE};
ghost use Rattle.machine.specs.Applied.{MayItems};
ghost use Rattle.machine.specs.Beside.{IsLoggedOver, window_memory};
ghost use Rattle.machine.specs.Parked.{back_with};
ghost use Rattle.machine.specs.Pieces.{IsWhyNot, MayMake};
ghost use Rattle.machine.specs.Seen.{state_of};
ghost use Rattle.machine.specs.Serials.{touched};
ghost use Rattle.machine.specs.Stepped.{reply_in};

use crate::machine::{MachineOver, Parked};
use crate::pieces::{NotMade, Pieces};
use crate::serials::Serials;
use crate::stepped::Stepped;
use blk::Disk;
use guestmem::{NoMemory, ParkedRam, TouchLog};
use region::Region;

impl<D: Disk> MachineOver<D, ParkedRam> {
    /// Makes the step of these pieces with this window for RAM, as `step_over` does, and its device is touched. It is not made where the
    /// pieces are stale, and else where it lacks one; then nothing has changed, and the window is handed out as it was.
    pub fn step_held<L: TouchLog>(
        self,
        window: Region,
        pieces: &Pieces,
        serials: &mut Serials,
        sent: &mut Vec<u8>,
        log: &mut L,
    ) -> (Result<Stepped, NotMade>, Region, Parked<D>)
        requires size { length window.content ≡ PAGE_SIZE * length self.memory }
        requires may { MayItems L.may log.old (state_of (back_with self (window_memory self window))) }
        ensures may_make { IfOk result.0 (λ _. MayMake self window serials.old pieces.now) }
        ensures made { IfOk result.0 (λ stepped. IsLoggedOver L.after self window log.old pieces.now.work.dev pieces.now.work.pick (reply_in stepped sent.new.items) result.1 result.2 log.new) }
        ensures touched { IfOk result.0 (λ _. serials.new ≡ touched serials.old pieces.now.work.dev) }
        ensures why_not { IfErr result.0 (λ why. IsWhyNot (length window.content) serials.old pieces.now why) }
        ensures content { IfErr result.0 (λ _. result.1.content ≡ window.content) }
        ensures place { IfErr result.0 (λ _. address result.1 ≡ address window) }
        ensures machine { IfErr result.0 (λ _. result.2 ≡ self) }
        ensures log { IfErr result.0 (λ _. log.new ≡ log.old) }
        ensures serials { IfErr result.0 (λ _. serials.new ≡ serials.old) }
        ensures sent { IfErr result.0 (λ _. sent.new ≡ sent.old) }
    {
        if pieces.is_stale(serials) {
            return (Err(NotMade::Stale), window, self);
        }
        let work = pieces.work();
        let (lacking, window, parked) = self.lacks(window, work.dev, work.pick, pieces.held());
        match lacking {
            Ok(None) => {}
            Ok(Some(piece)) => return (Err(NotMade::Lacks(piece)), window, parked),
            Err(NoMemory) => return (Err(NotMade::NoMemory), window, parked),
        }
        serials.touch(work.dev);
        let (stepped, window, parked) = parked.step_over(window, work.dev, work.pick, sent, log);
        (Ok(stepped), window, parked)
    }
}
