//! Writes.
//!
//! Selectors are stored whole. After FEATURES_OK only DriverFeatures is ignored; both feature selectors stay writable.

ghost use Rattle.std.specs.Prelude.{◌≡◌};
ghost use Rattle.mmio.specs.State.{reset_registers, with_common};
ghost use Rattle.mmio.specs.Interrupts.{acknowledged};
ghost use Rattle.mmio.specs.Features.{features_written};
ghost use Rattle.mmio.specs.Effects.{IsSameDevice, IsTold, StayReady};
ghost use Rattle.mmio.specs.RegisterWrite.{status_written, register_written, register_write};

use crate::bits::with_half;
use crate::common::Common;
use crate::configuration::configuration_effect;
use crate::constants::{CONFIG, FEATURES_OK, QUEUE_COUNT_MAX};
use crate::effect::Effect;
use crate::queue::Queue;
use crate::register::Register;
use crate::regs::Regs;
use crate::status::status_after;
use crate::table::register_at;

impl Regs {
    /// A write of the driver, of `width` bytes at an offset (VIRTIO 1.2, 4.2.2): the registers take the value, and the
    /// effect says what the device has to do. A register is written with width 4. From CONFIG on lies the configuration,
    /// which no register belongs to. A write in any other way is ignored.
    pub fn write(&mut self, offset: u32, width: u8, value: u32) -> Effect
        ensures value { (result, self.new) ≡ register_write self.old offset width value }
        ensures same { IsSameDevice self.old self.new }
        ensures told { IsTold result self.new }
        ensures ready { StayReady self.old self.new }
    {
        let _sound = self.common();
        self.write_at(offset, width, value)
    }

    fn write_at(&mut self, offset: u32, width: u8, value: u32) -> Effect
        ensures value { (result, self.new) ≡ register_write self.old offset width value }
        ensures same { IsSameDevice self.old self.new }
        ensures told { IsTold result self.new }
    {
        if offset >= CONFIG {
            return configuration_effect(offset - CONFIG, width);
        }
        if width != 4 {
            return Effect::None;
        }
        match register_at(offset) {
            Some(register) => self.write_register(register, value),
            None => Effect::None,
        }
    }

    #[tactic(auto, unfolding(crate::specs::RegisterWrite::register_written))]
    fn write_register(&mut self, register: Register, value: u32) -> Effect
        ensures value { (result, self.new) ≡ register_written self.old register value }
        ensures same { IsSameDevice self.old self.new }
        ensures told { IsTold result self.new }
    {
        match register {
            Register::DeviceFeaturesSel => self.select_device_features(value),
            Register::DriverFeatures => self.write_features(value),
            Register::DriverFeaturesSel => self.select_driver_features(value),
            Register::QueueSel => self.select_queue(value),
            Register::QueueReady => self.write_ready(value),
            Register::QueueNotify => self.write_notify(value),
            Register::InterruptAck => self.acknowledge(value),
            Register::Status => self.write_status(value),
            Register::QueueNum
            | Register::QueueDescLow
            | Register::QueueDescHigh
            | Register::QueueDriverLow
            | Register::QueueDriverHigh
            | Register::QueueDeviceLow
            | Register::QueueDeviceHigh => self.write_queue(register, value),
            _ => Effect::None,
        }
    }

    fn select_device_features(&mut self, value: u32) -> Effect
        ensures effect { result ≡ Effect.None }
        ensures state { self.new ≡ with_common self.old (record self.old.common { device_select = value }) }
    {
        let common = self.common();
        self.set_common(Common {
            device_select: value,
            ..common
        });
        Effect::None
    }

    fn select_driver_features(&mut self, value: u32) -> Effect
        ensures effect { result ≡ Effect.None }
        ensures state { self.new ≡ with_common self.old (record self.old.common { driver_select = value }) }
    {
        let common = self.common();
        self.set_common(Common {
            driver_select: value,
            ..common
        });
        Effect::None
    }

    fn select_queue(&mut self, value: u32) -> Effect
        ensures effect { result ≡ Effect.None }
        ensures state { self.new ≡ with_common self.old (record self.old.common { queue_select = value }) }
    {
        let common = self.common();
        self.set_common(Common {
            queue_select: value,
            ..common
        });
        Effect::None
    }

    /// The selected half of the driver's features. They are settled by FEATURES_OK.
    fn write_features(&mut self, value: u32) -> Effect
        ensures effect { result ≡ Effect.None }
        ensures state { self.new ≡ with_common self.old (features_written self.old.common value) }
    {
        let common = self.common();
        if common.status & FEATURES_OK == FEATURES_OK {
            return Effect::None;
        }
        let features = with_half(common.features, common.driver_select, value);
        self.set_common(Common { features, ..common });
        Effect::None
    }

    /// Each interrupt whose bit is written is acknowledged.
    fn acknowledge(&mut self, value: u32) -> Effect
        ensures effect { result ≡ Effect.None }
        ensures state { self.new ≡ with_common self.old (acknowledged self.old.common value) }
    {
        let common = self.common();
        let interrupts = common.interrupts & !((value % 256) as u8);
        self.set_common(Common {
            interrupts,
            ..common
        });
        Effect::None
    }

    fn write_status(&mut self, value: u32) -> Effect
        ensures value { (result, self.new) ≡ status_written self.old value }
        ensures same { IsSameDevice self.old self.new }
        ensures told { IsTold result self.new }
    {
        if value == 0 {
            self.reset();
            return Effect::Reset;
        }
        let common = self.common();
        let status = status_after(self.offered(), &common, value);
        self.set_common(Common { status, ..common });
        Effect::None
    }

    /// The registers take their first values. The count of configuration changes stays.
    fn reset(&mut self)
        ensures { self.new ≡ reset_registers self.old }
    {
        self.common = Common {
            generation: self.common.generation,
            ..Common::FIRST
        };
        self.queues = [Queue::FIRST; QUEUE_COUNT_MAX];
    }
}
