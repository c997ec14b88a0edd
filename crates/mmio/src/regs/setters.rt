//! The two ways in which registers change, but for a reset and a restore: other common registers, or another queue.

ghost use Rattle.std.specs.Prelude.{◌≡◌, ◌<◌, Some, length};
ghost use Rattle.mmio.specs.State.{with_common, with_queue, queue_at};
ghost use Rattle.mmio.specs.Sound.{IsSoundQueue, IsSoundRegisters};

use crate::common::Common;
use crate::queue::Queue;
use crate::regs::Regs;

impl Regs {
    /// Replaces the common registers. The caller makes sure that the new ones are sound.
    pub(super) fn set_common(&mut self, common: Common)
        requires { IsSoundRegisters (with_common self.old common) }
        ensures { self.new ≡ with_common self.old common }
    {
        self.common = common;
    }

    /// Replaces the registers of one queue. The caller makes sure that the new ones are sound.
    pub(super) fn set_queue(&mut self, number: u8, queue: Queue)
        requires below { number < length self.old.queues }
        requires sound { IsSoundQueue self.old.ram_base self.old.ram_len self.old.common queue }
        ensures value { self.new ≡ with_queue self.old number queue }
        ensures there { queue_at self.new number ≡ Some queue }
    {
        self.queues[number as usize] = queue;
    }
}
