//! Registers as they were saved.

ghost use Rattle.std.specs.Prelude.{◌≡◌, length};
ghost use Rattle.mmio.specs.Sound.{IsSoundRegisters};

use crate::common::Common;
use crate::queue::Queue;
use crate::regs::Regs;

impl Regs {
    /// Sets the registers as they were saved. The caller has checked that they are sound, by `is_sound_common` and, of
    /// each queue, `is_sound_queue`.
    pub fn restore(&mut self, common: Common, queues: &[Queue])
        requires count { length queues.now ≡ length self.old.queues }
        requires sound { IsSoundRegisters (record self.old { common = common; queues = queues.now }) }
        ensures { self.new ≡ record self.old { common = common; queues = queues.now } }
    {
        self.common = common;
        self.queues[..queues.len()].copy_from_slice(queues);
    }
}
