//! Parts of the registers, one at a time.

ghost use Rattle.std.specs.Prelude.{◌≡◌, length};
ghost use Rattle.mmio.specs.Status.{is_running};

use crate::constants::{DEVICE_NEEDS_RESET, DRIVER_OK};
use crate::regs::Regs;

impl Regs {
    /// What kind of device it is: the value of DeviceID.
    pub fn device_id(&self) -> u32
        ensures { result ≡ self.now.device_id }
    {
        self.device_id
    }

    /// The feature bits that the device offers.
    pub fn offered(&self) -> u64
        ensures { result ≡ self.now.offered }
    {
        self.offered
    }

    /// The guest-physical address of RAM's first byte, as given when the registers were made.
    pub fn ram_base(&self) -> u64
        ensures { result ≡ self.now.ram_base }
    {
        self.ram_base
    }

    /// The status bits.
    pub fn status(&self) -> u8
        ensures { result ≡ self.now.common.status }
    {
        self.common.status
    }

    /// The interrupts that the driver has not acknowledged yet. The line of the device is high while there are any.
    pub fn interrupts(&self) -> u8
        ensures { result ≡ self.now.common.interrupts }
    {
        self.common.interrupts
    }

    /// The feature bits that the driver has written. They are settled once FEATURES_OK is set.
    pub fn features(&self) -> u64
        ensures { result ≡ self.now.common.features }
    {
        self.common.features
    }

    /// How many queues the device has.
    pub(crate) fn queue_count(&self) -> u8
        ensures { result ≡ length self.now.queues }
    {
        self.queues().len() as u8
    }

    /// Whether the device does its work: the driver drives it, and it has not asked for a reset.
    pub fn is_running(&self) -> bool
        ensures { result ≡ is_running self.now.common }
    {
        let status = self.status();
        status & DRIVER_OK == DRIVER_OK && status & DEVICE_NEEDS_RESET != DEVICE_NEEDS_RESET
    }
}
