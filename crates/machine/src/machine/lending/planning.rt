//! The next step of a turn that the host makes beside its guest.

ghost use Rattle.machine.specs.Seen.{states_of};
ghost use Rattle.machine.specs.TurnBeside.{Plans};

use crate::guest_ram::GuestRam;
use crate::kind::Kind;
use crate::machine::MachineOver;
use crate::turn::{Plan, Turn, TurnEnd};
use blk::{Disk, SyncOwed};

impl<D: Disk, M: GuestRam> MachineOver<D, M> {
    /// The next step of a turn, or why the turn ends: none has something to do, the turn has no step left, or the step ends a write of a
    /// driver that did not accept FLUSH and was passed over, as in `Machine::work`. The host makes the step over a window, and continues by
    /// `Turn::after`. So it makes a turn of them (`laws::beside_is_once`).
    pub fn plan(&self, turn: &mut Turn) -> Result<Plan, TurnEnd>
        ensures { Plans (states_of self.now) turn.old result turn.new }
    {
        let Some(work) = self.next_work(turn.last) else {
            return Err(TurnEnd::Idle);
        };
        if turn.left == 0 {
            return Err(TurnEnd::Unfinished);
        }
        let device = self.state(work.dev);
        if let SyncOwed::EndOfWrite = device.must_sync(work.pick) {
            turn.count(work);
            return Err(TurnEnd::SyncOwed);
        }
        let is_entropy = matches!(device.kind(), Kind::Entropy(_));
        Ok(Plan { work, is_entropy })
    }
}
