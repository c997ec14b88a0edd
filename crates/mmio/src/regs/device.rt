//! What the device does to its registers.
//!
//! `ask_reset` does nothing without DRIVER_OK: the standard allows DEVICE_NEEDS_RESET only beside it, and a device works only
//! then. `config_changed` takes the feature bits with which a driver may hear of the change: each device knows its own, the
//! register file does not.

ghost use Rattle.std.specs.Prelude.{◌≡◌, ◌<◌, length};
ghost use Rattle.mmio.specs.Interrupts.{used_raised, configuration_changed, reset_asked};
ghost use Rattle.mmio.specs.State.{with_common, queue_at};
ghost use Rattle.mmio.specs.QueueRegisters.{notified_cleared};
ghost use Rattle.mmio.specs.Effects.{IsSameDevice};

use crate::common::Common;
use crate::constants::{CONFIGURATION_CHANGE, DEVICE_NEEDS_RESET, DRIVER_OK, USED_BUFFER};
use crate::queue::Queue;
use crate::regs::Regs;

impl Regs {
    /// Asks the driver for a reset (VIRTIO 1.2, 2.1.2): DEVICE_NEEDS_RESET and the interrupt of a configuration change.
    /// A device that is not driven, without DRIVER_OK, stays as it is.
    #[tactic(auto, using(crate::proofs::Keeping::asked_kept))]
    pub fn ask_reset(&mut self)
        ensures { self.new ≡ with_common self.old (reset_asked self.old.common) }
    {
        let common = self.common();
        if common.status & DRIVER_OK != DRIVER_OK {
            return;
        }
        self.set_common(Common {
            status: common.status | DEVICE_NEEDS_RESET,
            interrupts: common.interrupts | CONFIGURATION_CHANGE,
            ..common
        });
    }

    /// Raises the interrupt of a used buffer.
    pub fn raise_used(&mut self)
        ensures { self.new ≡ with_common self.old (used_raised self.old.common) }
    {
        self.common.interrupts |= USED_BUFFER;
    }

    /// Reports to the driver that the configuration has changed. The change is counted, modulo 2^32. It interrupts
    /// where DRIVER_OK is set and each feature bit of `feature`, by which the driver may learn of it, is negotiated.
    #[tactic(auto, using(crate::proofs::Keeping::change_kept))]
    pub fn config_changed(&mut self, feature: u64)
        ensures { self.new ≡ with_common self.old (configuration_changed self.old.common feature) }
    {
        let common = self.common();
        let counted = Common {
            generation: common.generation.wrapping_add(1),
            ..common
        };
        if common.status & DRIVER_OK != DRIVER_OK || common.features & feature != feature {
            self.set_common(counted);
            return;
        }
        self.set_common(Common {
            interrupts: counted.interrupts | CONFIGURATION_CHANGE,
            ..counted
        });
    }

    /// Clears the notified flag of a queue, which was found empty.
    pub fn clear_notified(&mut self, number: u8)
        requires { number < length self.old.queues }
        ensures value { self.new ≡ notified_cleared self.old number (queue_at self.old number) }
        ensures same { IsSameDevice self.old self.new }
    {
        let queue = self.queue(number);
        self.set_queue(
            number,
            Queue {
                is_notified: false,
                ..queue
            },
        );
    }
}
