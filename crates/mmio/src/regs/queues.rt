//! Writes to the registers of a queue.
//!
//! QueueReady takes the values 1 and 0. Others are ignored, 3 and 0x10001 among them.

ghost use Rattle.std.specs.Prelude.{◌≡◌};
ghost use Rattle.mmio.specs.State.{queue_at, selected};
ghost use Rattle.mmio.specs.QueueRegisters.{queue_written, size_or_address_written, ready_written, notify_written};
ghost use Rattle.mmio.specs.Sound.{FitsQueue};
ghost use Rattle.mmio.specs.Effects.{IsSameDevice, IsTold};

use crate::bits::with_half;
use crate::effect::Effect;
use crate::queue::Queue;
use crate::readiness::may_be_ready;
use crate::register::Register;
use crate::regs::Regs;

impl Regs {
    /// A size or address register of the selected queue. A queue that is ready keeps its own.
    pub(super) fn write_queue(&mut self, register: Register, value: u32) -> Effect
        ensures value { (result, self.new) ≡ size_or_address_written self.old register value (selected self.old) }
        ensures same { IsSameDevice self.old self.new }
        ensures told { IsTold result self.new }
    {
        let selected = self.common().queue_select;
        if selected >= self.queue_count() as u32 {
            return Effect::None;
        }
        let queue = self.queue(selected as u8);
        if queue.is_ready {
            return Effect::None;
        }
        self.set_queue(selected as u8, queue_written(register, value, queue));
        Effect::None
    }

    pub(super) fn write_ready(&mut self, value: u32) -> Effect
        ensures value { (result, self.new) ≡ ready_written self.old value (selected self.old) }
        ensures same { IsSameDevice self.old self.new }
        ensures told { IsTold result self.new }
    {
        let common = self.common();
        if common.queue_select >= self.queue_count() as u32 {
            return Effect::None;
        }
        let selected = common.queue_select as u8;
        let queue = self.queue(selected);
        if value == 0 {
            self.set_queue(
                selected,
                Queue {
                    is_ready: false,
                    is_notified: false,
                    ..queue
                },
            );
            return Effect::Disabled(selected);
        }
        if value == 1
            && !queue.is_ready
            && may_be_ready(self.ram_base, self.ram_len, &common, &queue)
        {
            self.set_queue(
                selected,
                Queue {
                    is_ready: true,
                    ..queue
                },
            );
            return Effect::Enabled(selected);
        }
        Effect::None
    }

    pub(super) fn write_notify(&mut self, value: u32) -> Effect
        ensures value { (result, self.new) ≡ notify_written self.old value (queue_at self.old value) }
        ensures same { IsSameDevice self.old self.new }
        ensures told { IsTold result self.new }
    {
        if value >= self.queue_count() as u32 {
            return Effect::None;
        }
        let queue = self.queue(value as u8);
        if !queue.is_ready {
            return Effect::None;
        }
        self.set_queue(
            value as u8,
            Queue {
                is_notified: true,
                ..queue
            },
        );
        Effect::Notified(value as u8)
    }
}

/// A queue after a write to one of its size and address registers.
#[tactic(auto, unfolding(crate::specs::QueueRegisters::queue_written))]
fn queue_written(register: Register, value: u32, queue: Queue) -> Queue
    ensures value { result ≡ queue_written register value queue }
    ensures fits { FitsQueue result }
    ensures ready { result.is_ready ≡ queue.is_ready }
    ensures notified { result.is_notified ≡ queue.is_notified }
{
    let Queue {
        descriptors,
        driver,
        device,
        ..
    } = queue;
    match register {
        Register::QueueNum => Queue {
            size: value,
            ..queue
        },
        Register::QueueDescLow => Queue {
            descriptors: with_half(descriptors, 0, value),
            ..queue
        },
        Register::QueueDescHigh => Queue {
            descriptors: with_half(descriptors, 1, value),
            ..queue
        },
        Register::QueueDriverLow => Queue {
            driver: with_half(driver, 0, value),
            ..queue
        },
        Register::QueueDriverHigh => Queue {
            driver: with_half(driver, 1, value),
            ..queue
        },
        Register::QueueDeviceLow => Queue {
            device: with_half(device, 0, value),
            ..queue
        },
        Register::QueueDeviceHigh => Queue {
            device: with_half(device, 1, value),
            ..queue
        },
        _ => queue,
    }
}
