//! The register file of a device.

mod device;
mod getters;
mod queues;
mod read;
mod restore;
mod setters;
mod write;

ghost use Rattle.std.specs.Prelude.{◌≡◌, ◌≤◌, ◌<◌, length, slice_get, slice_set};
ghost use Rattle.mmio.specs.State.{first_registers, with_common, with_queue, queue_at};
ghost use Rattle.mmio.specs.Sound.{IsSoundCommon, IsSoundQueue, IsSoundRegisters};

use crate::common::Common;
use crate::constants::QUEUE_COUNT_MAX;
use crate::queue::Queue;
use std::marker::Model;

/// The register file of a device with at most QUEUE_COUNT_MAX queues (VIRTIO 1.2, 4.2.2). No call takes memory.
#[derive(Drop)]
pub struct Regs {
    device_id: u32,
    offered: u64,
    ram_base: u64,
    ram_len: u64,
    common: Common,
    // The queues of the device are the first `count` ones.
    queues: [Queue; QUEUE_COUNT_MAX],
    count: u8,
}

impl Model for Regs {
    ghost use Rattle.std.specs.Prelude.{◌≤◌, take};
    ghost use Rattle.mmio.specs.State.{Registers};
    ghost use Rattle.mmio.specs.Sound.{IsSoundRegisters};
    ghost use Rattle.mmio.specs.declared.constants.TheConstants.{QUEUE_COUNT_MAX};

    ghost Value = { Registers };

    ghost view = { λ r. record {
      device_id = r.device_id;
      offered = r.offered;
      ram_base = r.ram_base;
      ram_len = r.ram_len;
      common = r.common;
      queues = take r.count r.queues;
    } };

    ghost invariant = { λ r. (r.count ≤ QUEUE_COUNT_MAX) × IsSoundRegisters (record {
      device_id = r.device_id;
      offered = r.offered;
      ram_base = r.ram_base;
      ram_len = r.ram_len;
      common = r.common;
      queues = take r.count r.queues;
    }) };
}

impl Regs {
    /// The registers of a new device, where RAM begins at the address 0: its number, the feature bits that it offers, how many queues
    /// it has, and how many bytes RAM has. All that the driver may set is 0, and no queue is ready.
    pub fn new(device_id: u32, offered: u64, queues: u8, ram_len: u64) -> Regs
        requires { queues ≤ QUEUE_COUNT_MAX }
        ensures { result ≡ first_registers device_id offered queues 0 ram_len }
    {
        Regs::new_at(device_id, offered, queues, 0, ram_len)
    }

    /// As `new`, where RAM's first byte has the guest-physical address `ram_base`.
    pub fn new_at(device_id: u32, offered: u64, queues: u8, ram_base: u64, ram_len: u64) -> Regs
        requires { queues ≤ QUEUE_COUNT_MAX }
        ensures { result ≡ first_registers device_id offered queues ram_base ram_len }
    {
        Regs {
            device_id,
            offered,
            ram_base,
            ram_len,
            common: Common::FIRST,
            queues: [Queue::FIRST; QUEUE_COUNT_MAX],
            count: queues,
        }
    }

    /// The registers that the device has once.
    pub fn common(&self) -> Common
        ensures value { result ≡ self.now.common }
        ensures sound { IsSoundRegisters self.now }
    {
        self.common
    }

    /// The registers of all queues, by the queues' numbers.
    pub fn queues(&self) -> &[Queue]
        ensures value { result.now ≡ self.now.queues }
        ensures sound { IsSoundRegisters self.now }
    {
        &self.queues[..self.count as usize]
    }

    /// The registers of one queue.
    pub fn queue(&self, number: u8) -> Queue
        requires { number < length self.now.queues }
        ensures value { queue_at self.now number ≡ Some result }
        ensures sound { IsSoundQueue self.now.ram_base self.now.ram_len self.now.common result }
    {
        self.queues()[number as usize]
    }
}
