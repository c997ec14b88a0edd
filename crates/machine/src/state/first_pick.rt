//! The picks with which a device has something to do.

ghost use Rattle.std.specs.Prelude.{◌≡◌, ◌≤◌, ℕ, false};
ghost use Rattle.std.specs.List.{find};
ghost use Rattle.std.specs.Option.{is_some};
ghost use Rattle.machine.specs.DeviceStep.{advanced_at, looked_at};
ghost use Rattle.machine.specs.NextWork.{can_work_with, has_work_with, is_end_owed, picks_from};
ghost use Rattle.machine.specs.Sound.{IsSoundDevice};

use crate::state::DeviceState;
use blk::SyncOwed;

impl DeviceState {
    /// The first pick, from this one on, with which the device has something to do, and that may be made if its disk is lost.
    pub(crate) fn first_pick(&self, from: u8, is_lost: bool) -> Option<u8>
        requires sound { (len : ℕ) × IsSoundDevice self.now.registers.ram_base len self.now }
        ensures { result ≡ find (can_work_with is_lost self.now) (picks_from from) }
    {
        for pick in from..self.picks() {
            if self.can_work_with(pick, is_lost) {
                return Some(pick);
            }
        }
        None
    }

    /// Past the last pick that can name a queue or an outstanding request.
    fn picks(&self) -> u8
        requires sound { (len : ℕ) × IsSoundDevice self.now.registers.ram_base len self.now }
        ensures { (pick : ℕ) → result ≤ pick → has_work_with self.now pick ≡ false }
    {
        let queues = self.registers.queues().len();
        let requests = self.kind.outstanding();
        if requests < queues {
            queues as u8
        } else {
            requests as u8 + 1
        }
    }

    /// Whether the device has something to do with this pick, and it may be made.
    fn can_work_with(&self, pick: u8, is_lost: bool) -> bool
        requires sound { (len : ℕ) × IsSoundDevice self.now.registers.ram_base len self.now }
        ensures { result ≡ can_work_with is_lost self.now pick }
    {
        !(is_lost && is_end_owed(self.must_sync(pick))) && self.has_work_with(pick)
    }

    /// Whether the device has something to do with this pick.
    fn has_work_with(&self, pick: u8) -> bool
        requires sound { (len : ℕ) × IsSoundDevice self.now.registers.ram_base len self.now }
        ensures { result ≡ has_work_with self.now pick }
    {
        self.looks_with(pick) || self.advances(pick)
    }

    /// Whether a step with this pick looks at a queue.
    fn looks_with(&self, pick: u8) -> bool
        requires sound { (len : ℕ) × IsSoundDevice self.now.registers.ram_base len self.now }
        ensures { result ≡ is_some (looked_at self.now pick) }
    {
        let queues = self.registers.queues();
        let number = pick as usize;
        if number >= queues.len() {
            return false;
        }
        self.looks(pick, &queues[number])
    }
}

/// Whether a step ends a write that its driver takes for durable.
fn is_end_owed(owed: SyncOwed) -> bool
    ensures { result ≡ is_end_owed owed }
{
    matches!(owed, SyncOwed::EndOfWrite)
}
