//! A turn of the devices in one call, while the machine is being migrated.

ghost use Rattle.std.specs.Prelude.{◌≢◌, ◌≤◌};
ghost use Rattle.machine.specs.Turn.{Once};
ghost use Rattle.sender.specs.Turns.{MakesLiveStep, TakesLiveTurn, live_devices};

use crate::live::LiveOver;
use crate::mig_error::MigError;
use crate::phase::Phase;
use guestmem::Ram;
use machine::{Disk, Kind, Stepped, SyncOwed, Turn, TurnEnd, goes_on};
use wire::Digesting;

impl<D: Disk, W: Digesting> LiveOver<D, W, Ram> {
    /// The devices' turn, as `Machine::work` makes it. What its steps write becomes dirty. It is refused once the machine is stopped.
    #[tactic(auto, using(crate::proofs::DeviceTurns::ended_running))]
    pub fn work(&mut self, turn: &mut Turn, sent: &mut Vec<u8>) -> Result<TurnEnd, MigError>
        ensures { TakesLiveTurn D.called self.old turn.old result sent.new.items self.new turn.new }
    {
        self.running()?;
        for made in 0..turn.left {
            match self.work_once(turn, sent) {
                None => {}
                Some(TurnEnd::NoMemory) if made > 0 => return Ok(TurnEnd::Unfinished),
                Some(end) => return Ok(end),
            }
        }
        let Some(_) = self.machine.next_work(turn.last) else {
            return Ok(TurnEnd::Idle);
        };
        Ok(TurnEnd::Unfinished)
    }

    /// The next step of a turn, or why it ends.
    fn work_once(&mut self, turn: &mut Turn, sent: &mut Vec<u8>) -> Option<TurnEnd>
        requires left { 1 ≤ turn.old.left }
        requires running { self.old.phase ≢ Phase.Stopped }
        ensures once { Once live_devices (MakesLiveStep D.called) self.old turn.old result sent.new.items self.new turn.new }
        ensures running { self.new.phase ≢ Phase.Stopped }
    {
        let Some(work) = self.machine.next_work(turn.last) else {
            return Some(TurnEnd::Idle);
        };
        let device = self.machine.state(work.dev);
        if let SyncOwed::EndOfWrite = device.must_sync(work.pick) {
            turn.count(work);
            return Some(TurnEnd::SyncOwed);
        }
        let is_entropy = matches!(device.kind(), Kind::Entropy(_));
        let stepped = self.stepped(work.dev, work.pick, sent);
        if let Stepped::NoMemory = stepped {
            return Some(TurnEnd::NoMemory);
        }
        turn.count(work);
        if goes_on(is_entropy, stepped) {
            return None;
        }
        Some(TurnEnd::Answer(stepped))
    }
}
