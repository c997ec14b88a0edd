//! A turn of the devices in one call.

ghost use Rattle.std.specs.Prelude.{◌≤◌};
ghost use Rattle.machine.specs.MachineTurn.{MakesStep, TakesTurn, devices_in};
ghost use Rattle.machine.specs.Turn.{Once};

use crate::kind::Kind;
use crate::machine::MachineOver;
use crate::stepped::Stepped;
use crate::turn::{Turn, TurnEnd, goes_on};
use blk::{Disk, SyncOwed};
use guestmem::Ram;

impl<D: Disk> MachineOver<D, Ram> {
    /// The devices' turn: makes the steps that `next_work` names, one after another, until none has something to do, the turn has no
    /// step left, or the host has to do something (`TurnEnd`). Call it again to go on.
    ///
    /// The step of a flush flushes the disk by itself. A step that ends a write of a driver that did not accept FLUSH is passed over. The
    /// bytes of a message are in the buffer, as `step_into` leaves them.
    #[tactic(auto, using(crate::proofs::DeviceTurns::ended))]
    pub fn work(&mut self, turn: &mut Turn, sent: &mut Vec<u8>) -> TurnEnd
        ensures { TakesTurn D.called self.old turn.old result sent.new.items self.new turn.new }
    {
        for made in 0..turn.left {
            match self.work_once(turn, sent) {
                None => {}
                Some(TurnEnd::NoMemory) if made > 0 => return TurnEnd::Unfinished,
                Some(end) => return end,
            }
        }
        match self.next_work(turn.last) {
            Some(_) => TurnEnd::Unfinished,
            None => TurnEnd::Idle,
        }
    }

    /// The next step of a turn, or why it ends.
    fn work_once(&mut self, turn: &mut Turn, sent: &mut Vec<u8>) -> Option<TurnEnd>
        requires { 1 ≤ turn.old.left }
        ensures { Once devices_in (MakesStep D.called) self.old turn.old result sent.new.items self.new turn.new }
    {
        let Some(work) = self.next_work(turn.last) else {
            return Some(TurnEnd::Idle);
        };
        let device = self.state(work.dev);
        if let SyncOwed::EndOfWrite = device.must_sync(work.pick) {
            turn.count(work);
            return Some(TurnEnd::SyncOwed);
        }
        let is_entropy = matches!(device.kind(), Kind::Entropy(_));
        let stepped = self.step_into(work.dev, work.pick, sent);
        if let Stepped::NoMemory = stepped {
            return Some(TurnEnd::NoMemory);
        }
        turn.count(work);
        if goes_on(is_entropy, stepped) {
            return None;
        }
        Some(TurnEnd::Answer(stepped))
    }
}
