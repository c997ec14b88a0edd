//! A step over a window with the pieces that are held of it (`Parked::step_held`), of a machine that is being migrated and whose RAM is lent.

ghost use Rattle.std.specs.Prelude.{◌≡◌, ◌*◌, IfErr, IfOk, None, Some, length};
ghost use Rattle.region.specs.Address.{address};
ghost use Rattle.guestmem.specs.declared.limits.TheConstants.{PAGE_SIZE};
ghost use Rattle.machine.specs.Pieces.{IsWhyNot, MayMake};
ghost use Rattle.machine.specs.Serials.{touched};
ghost use Rattle.machine.specs.Stepped.{reply_in};
ghost use Rattle.machine.specs.declared.event.Event.TheVariants as events;
ghost use Rattle.sender.specs.Beside.{IsLiveMadeOver};
ghost use Rattle.sender.specs.Held.{IfMade, IfNotMade};
ghost use Rattle.sender.specs.LiveState.{refusal_for};
ghost use Rattle.sender.specs.declared.event.LiveEvent.TheVariants.{Guest};

use crate::live::{LiveOver, LiveParked};
use crate::mig_error::MigError;
use guestmem::ParkedRam;
use machine::{Disk, NotMade, Pieces, Serials, Stepped};
use region::Region;
use wire::Digesting;

impl<D: Disk, W: Digesting> LiveOver<D, W, ParkedRam> {
    /// Makes the step of these pieces over a window, as `Parked::step_held` does, and its device is touched. Exactly the items that the step
    /// writes into become dirty. After a stop that closed the stream it is refused. Where it is not made nothing has changed.
    #[tactic(auto, using(crate::proofs::HeldOver::phase_closed, crate::proofs::HeldOver::phase_open))]
    pub fn step_held(
        self,
        window: Region,
        pieces: &Pieces,
        serials: &mut Serials,
        sent: &mut Vec<u8>,
    ) -> (
        Result<Result<Stepped, NotMade>, MigError>,
        Region,
        LiveParked<D, W>,
    )
        requires size { length window.content ≡ PAGE_SIZE * length self.machine.memory }
        ensures runs { IfOk result.0 (λ _. refusal_for self.phase (Guest (events.Step pieces.now.work.dev pieces.now.work.pick)) ≡ None) }
        ensures refused { IfErr result.0 (λ x. refusal_for self.phase (Guest (events.Step pieces.now.work.dev pieces.now.work.pick)) ≡ Some x) }
        ensures may_make { IfMade result.0 (λ _. MayMake self.machine window serials.old pieces.now) }
        ensures made { IfMade result.0 (λ stepped. IsLiveMadeOver self window pieces.now.work.dev pieces.now.work.pick (reply_in stepped sent.new.items) result.1 result.2) }
        ensures touched { IfMade result.0 (λ _. serials.new ≡ touched serials.old pieces.now.work.dev) }
        ensures why_not { IfOk result.0 (λ tried. IfErr tried (λ why. IsWhyNot (length window.content) serials.old pieces.now why)) }
        ensures content { IfNotMade result.0 (result.1.content ≡ window.content) }
        ensures place { IfNotMade result.0 (address result.1 ≡ address window) }
        ensures machine { IfNotMade result.0 (result.2 ≡ self) }
        ensures serials { IfNotMade result.0 (serials.new ≡ serials.old) }
        ensures sent { IfNotMade result.0 (sent.new ≡ sent.old) }
    {
        if let Err(error) = self.running() {
            return (Err(error), window, self);
        }
        let (tried, window, next) = self.tried_over(window, pieces, serials, sent);
        (Ok(tried), window, next)
    }

    /// The same in a phase in which the guest runs.
    fn tried_over(
        self,
        window: Region,
        pieces: &Pieces,
        serials: &mut Serials,
        sent: &mut Vec<u8>,
    ) -> (Result<Stepped, NotMade>, Region, LiveParked<D, W>)
        requires size { length window.content ≡ PAGE_SIZE * length self.machine.memory }
        ensures may_make { IfOk result.0 (λ _. MayMake self.machine window serials.old pieces.now) }
        ensures made { IfOk result.0 (λ stepped. IsLiveMadeOver self window pieces.now.work.dev pieces.now.work.pick (reply_in stepped sent.new.items) result.1 result.2) }
        ensures touched { IfOk result.0 (λ _. serials.new ≡ touched serials.old pieces.now.work.dev) }
        ensures why_not { IfErr result.0 (λ why. IsWhyNot (length window.content) serials.old pieces.now why) }
        ensures content { IfErr result.0 (λ _. result.1.content ≡ window.content) }
        ensures place { IfErr result.0 (λ _. address result.1 ≡ address window) }
        ensures machine { IfErr result.0 (λ _. result.2 ≡ self) }
        ensures serials { IfErr result.0 (λ _. serials.new ≡ serials.old) }
        ensures sent { IfErr result.0 (λ _. sent.new ≡ sent.old) }
    {
        let mut logs = self.logs;
        let (tried, window, machine) = self
            .machine
            .step_held(window, pieces, serials, sent, &mut logs.first);
        let next = LiveOver {
            machine,
            logs,
            ..self
        };
        (tried, window, next)
    }
}
