//! Reads.

ghost use Rattle.std.specs.Prelude.{◌≡◌, option_copied};
ghost use Rattle.mmio.specs.State.{selected};
ghost use Rattle.mmio.specs.RegisterRead.{register_read, register_value};

use crate::bits::half_of;
use crate::configuration::configuration_value;
use crate::constants::{CONFIG, DEVICE_VERSION, MAGIC_VALUE, NO_REGION, QUEUE_SIZE_MAX, VENDOR};
use crate::queue::Queue;
use crate::register::Register;
use crate::regs::Regs;
use crate::table::register_at;

impl Regs {
    /// What the driver reads with an access of `width` bytes at an offset (VIRTIO 1.2, 4.2.2). A register is read with
    /// width 4. From CONFIG on the bytes of the configuration are read, with width 1, 2 or 4, aligned to the width; past
    /// its end they are 0. What is read in any other way is 0.
    pub fn read(&self, offset: u32, width: u8, config: &[u8]) -> u32
        ensures { result ≡ register_read self.now offset width config.now }
    {
        if offset >= CONFIG {
            return configuration_value(config, offset - CONFIG, width);
        }
        if width != 4 {
            return 0;
        }
        match register_at(offset) {
            Some(register) => self.value(register),
            None => 0,
        }
    }

    /// The value of a register; 0 where it can only be written.
    #[tactic(auto, unfolding(crate::specs::RegisterRead::register_value))]
    fn value(&self, register: Register) -> u32
        ensures { result ≡ register_value self.now register }
    {
        match register {
            Register::MagicValue => MAGIC_VALUE,
            Register::Version => DEVICE_VERSION,
            Register::DeviceId => self.device_id,
            Register::VendorId => VENDOR,
            Register::DeviceFeatures => half_of(self.offered, self.common.device_select),
            Register::QueueNumMax => match self.selected() {
                Some(_) => QUEUE_SIZE_MAX,
                None => 0,
            },
            Register::QueueReady => match self.selected() {
                Some(queue) => u32::from(queue.is_ready),
                None => 0,
            },
            Register::InterruptStatus => u32::from(self.common.interrupts),
            Register::Status => u32::from(self.common.status),
            Register::ShmLenLow
            | Register::ShmLenHigh
            | Register::ShmBaseLow
            | Register::ShmBaseHigh => NO_REGION,
            Register::ConfigGeneration => self.common.generation,
            _ => 0,
        }
    }

    /// The queue that QueueSel names, if it exists.
    fn selected(&self) -> Option<&Queue>
        ensures { option_copied result ≡ selected self.now }
    {
        self.queues().get(self.common.queue_select as usize)
    }
}
