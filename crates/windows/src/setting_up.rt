//! How a driver sets its device up.

use crate::bench::Bench;
use crate::queue::{AREAS, Queue};
use anyhow::Result;
use mmio::{EVENT_IDX, INDIRECT_DESC};

/// The sizes of queues. Those that are no power of two are taken of packed rings alone.
const SIZES: [u16; 8] = [8, 8, 16, 16, 4, 5, 2, 1];

/// The features that a driver may leave out: none, INDIRECT_DESC, EVENT_IDX, or both.
const LEFT_OUT: [u32; 4] = [0, 1 << 28, 1 << 29, 3 << 28];

impl Bench {
    /// The driver of a device begins anew, and makes its queues of all these ready (VIRTIO 1.2, 3.1.1).
    pub fn set_up(&mut self, dev: u8, queues: &mut [Queue]) -> Result<()> {
        let is_packed = self.draws.once_in(2);
        let accepted = self.negotiate(dev, is_packed)?;
        for (n, queue) in queues.iter_mut().enumerate() {
            if queue.dev == dev {
                *queue = Queue::first(dev, queue.number, n.wrapping_mul(AREAS));
                queue.is_packed = is_packed;
                queue.has_tables = accepted & INDIRECT_DESC != 0;
                queue.has_events = accepted & EVENT_IDX != 0;
                self.place_areas(queue)?;
            }
        }
        self.write_register(dev, 0x070, 15)
    }

    /// The driver resets a device, and accepts features: those that it offers, but for tables or event indexes now and then. Returns the
    /// lower 32 that it accepted.
    fn negotiate(&mut self, dev: u8, is_packed: bool) -> Result<u64> {
        for status in [0, 1, 3] {
            self.write_register(dev, 0x070, status)?;
        }
        self.write_register(dev, 0x014, 0)?;
        let offered = self.read_register(dev, 0x010)?;
        let accepted = offered & (u32::MAX - self.draws.one_of(&LEFT_OUT));
        self.write_register(dev, 0x024, 0)?;
        self.write_register(dev, 0x020, accepted)?;
        self.write_register(dev, 0x024, 1)?;
        self.write_register(dev, 0x020, if is_packed { 5 } else { 1 })?;
        self.write_register(dev, 0x070, 11)?;
        Ok(accepted as u64)
    }

    /// The driver chooses a size for a queue and places for its areas, mostly apart from all else, and makes it ready.
    fn place_areas(&mut self, queue: &mut Queue) -> Result<()> {
        let size = self.draws.one_of(&SIZES);
        queue.size = if queue.is_packed || size != 5 {
            size
        } else {
            4
        };
        queue.driver = queue.descriptors.wrapping_add(0x100);
        queue.device = queue.descriptors.wrapping_add(0x200);
        if self.draws.once_in(6) {
            self.misplace(queue);
        }
        self.write(queue.descriptors, &[0; 256])?;
        self.write(queue.driver, &[0; 40])?;
        self.write(queue.device, &[0; 134])?;
        self.write_register(queue.dev, 0x030, queue.number as u32)?;
        self.write_register(queue.dev, 0x038, queue.size as u32)?;
        self.write_address(queue.dev, 0x080, queue.descriptors)?;
        self.write_address(queue.dev, 0x090, queue.driver)?;
        self.write_address(queue.dev, 0x0a0, queue.device)?;
        self.write_register(queue.dev, 0x044, 1)
    }

    /// Places an area anywhere, or over another one of the queue.
    fn misplace(&mut self, queue: &mut Queue) {
        let any = 16 * self.draws.below(0x600) as usize;
        let behind = queue.device.wrapping_add(4 * self.draws.below(8) as usize);
        match self.draws.below(6) {
            0 => queue.descriptors = any,
            1 => queue.driver = any,
            2 => queue.device = any,
            3 => queue.device = queue.descriptors,
            4 => queue.driver = behind,
            _ => queue.driver = behind.wrapping_sub(2 + 2 * queue.size as usize),
        }
    }

    /// The driver writes the address of an area.
    fn write_address(&mut self, dev: u8, register: u32, at: usize) -> Result<()> {
        let addr = self.base.wrapping_add(at as u64);
        self.write_register(dev, register, (addr % 0x1_0000_0000) as u32)?;
        self.write_register(dev, register.wrapping_add(4), (addr / 0x1_0000_0000) as u32)
    }
}
