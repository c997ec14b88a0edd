//! A turn of the devices: steps that the next work names, one after another.
//!
//! A host that writes this loop itself can be wrong in four ways: it makes no bound, and a guest keeps it for ever; it puts two messages
//! into one buffer; it forgets that a disk has to be flushed before a step; or it comes back at once to a step that was refused memory.
//!
//! A host whose guest runs makes the steps itself, over a window: `Parked::plan` names each, and `Turn::after` says whether the turn continues.
//!
//! The bound is the turn's and not a call's: each step that is made or passed over counts it down. So a loop around the call ends too.

ghost use Rattle.std.specs.Prelude.{◌≡◌, ◌≤◌, ℕ, List};
ghost use Rattle.machine.specs.Stepped.{reply_in};
ghost use Rattle.machine.specs.Turn.{counted, goes_on};
ghost use Rattle.machine.specs.TurnBeside.{end_after, turn_after};

use crate::stepped::Stepped;
use crate::work::Work;

/// How far the devices' turn has come. A host keeps it with its machine, and sets `left` before each turn.
#[derive(Clone, Copy, Debug, PartialEq, Eq)]
pub struct Turn {
    /// The step that was made or passed over last. The next one comes after it, in turn.
    pub last: Work,

    /// How many steps may still be made or passed over.
    pub left: u32,
}

impl Turn {
    /// A turn of at most `steps` steps. It begins with the first step of the first device.
    pub fn new(steps: u32) -> Turn
        ensures { result ≡ record { last = record { dev = 255; pick = 255 }; left = steps } }
    {
        let last = Work {
            dev: u8::MAX,
            pick: u8::MAX,
        };
        Turn { last, left: steps }
    }

    /// The step was made, or passed over.
    pub fn count(&mut self, work: Work)
        requires { 1 ≤ self.old.left }
        ensures { self.new ≡ counted self.old work }
    {
        self.last = work;
        self.left -= 1;
    }

    /// The step of this plan was made beside the guest, and answered so: why the turn ends, if it does. A step to which memory was refused
    /// is not counted, and is the next one again.
    pub fn after(&mut self, plan: Plan, stepped: Stepped) -> Option<TurnEnd>
        requires { 1 ≤ self.old.left }
        ensures end { result ≡ end_after plan stepped }
        ensures turn { self.new ≡ turn_after self.old plan stepped }
    {
        if let Stepped::NoMemory = stepped {
            return Some(TurnEnd::NoMemory);
        }
        self.count(plan.work);
        if goes_on(plan.is_entropy, stepped) {
            return None;
        }
        Some(TurnEnd::Answer(stepped))
    }
}

/// The next step of a turn that is made beside the guest (`Parked::plan`).
#[derive(Clone, Copy, Debug, PartialEq, Eq)]
pub struct Plan {
    /// The step.
    pub work: Work,

    /// Whether its device gives random bytes: a turn ends after each chain that such a device completed.
    pub is_entropy: bool,
}

/// Why the steps of a turn ended.
#[derive(Clone, Copy, Debug, PartialEq, Eq)]
pub enum TurnEnd {
    /// No step of any device has something to do.
    Idle,

    /// There is more to do. The turn has no step left, or memory was refused to a step that was not the first of this call: that one has
    /// changed nothing, and is the first of the next call.
    Unfinished,

    /// The step `last` ends a write of a driver that did not accept FLUSH, and was passed over. The host flushes the disk, and makes
    /// the step (`Machine::flush_disk`). The next call continues after it.
    SyncOwed,

    /// Memory was refused to the first step. Nothing has changed, and the next call begins with it again.
    NoMemory,

    /// The step `last` was made, and its answer is one that the host has to know: a message was sent, and is in the buffer; a frame was
    /// dropped; a sector was bad; the disk failed; the device asks for a reset; or an entropy device completed a chain, so it has room
    /// for bytes.
    Answer(Stepped),
}

/// Whether a turn continues after a step with this answer.
pub fn goes_on(is_entropy: bool, stepped: Stepped) -> bool
    ensures { (sent : List ℕ) → result ≡ goes_on is_entropy (reply_in stepped sent) }
{
    match stepped {
        Stepped::Idle | Stepped::Taken | Stepped::Moved => true,
        Stepped::Completed(_) => !is_entropy,
        _ => false,
    }
}
