//! Chains that a driver makes available in a queue.

use crate::bench::Bench;
use crate::parts::{MOST_PARTS, Part, Parts, TABLES};
use crate::queue::Queue;
use anyhow::Result;

/// Flags of descriptors (VIRTIO 1.2, 2.7.5 and 2.8.1).
const NEXT: u16 = 1;

const WRITE: u16 = 2;

const INDIRECT: u16 = 4;

const AVAIL: u16 = 0x80;

const USED: u16 = 0x8000;

/// The values of the flags of a packed ring's event suppression, and one that is reserved (VIRTIO 1.2, 2.8.10).
const EVENT_FLAGS: [u8; 5] = [0, 0, 1, 2, 3];

/// The bytes of a descriptor, whose last two numbers are flags and the next index, or an id and flags.
fn descriptor(addr: u64, len: u32, third: u16, fourth: u16) -> [u8; 16] {
    let mut bytes = [0; 16];
    bytes[..8].copy_from_slice(&addr.to_le_bytes());
    bytes[8..12].copy_from_slice(&len.to_le_bytes());
    bytes[12..14].copy_from_slice(&third.to_le_bytes());
    bytes[14..].copy_from_slice(&fourth.to_le_bytes());
    bytes
}

/// The flags of a part that has others behind it, or not.
fn flags_of(part: Part, has_next: bool) -> u16 {
    let next = if has_next { NEXT } else { 0 };
    if part.is_writable { next | WRITE } else { next }
}

impl Bench {
    /// The driver of a queue makes a chain available, says when it wants an interrupt, and notifies the device.
    pub fn offer(&mut self, queue: &mut Queue) -> Result<()> {
        let parts = self.parts_for(queue)?;
        let parts = if queue.has_tables && self.draws.once_in(3) {
            self.table_of(queue, &parts)?
        } else {
            parts
        };
        if queue.is_packed {
            self.offer_packed(queue, &parts)?;
            self.suppress_packed(queue)?;
        } else {
            self.offer_split(queue, &parts)?;
            self.suppress_split(queue)?;
        }
        if self.draws.once_in(20) {
            return Ok(());
        }
        self.write_register(queue.dev, 0x050, queue.number as u32)
    }

    /// Writes the parts into a table, and returns the one part that names it. It is no part of a device's own: it is neither readable nor
    /// writable, and its length says how many entries there are.
    fn table_of(&mut self, queue: &Queue, parts: &Parts) -> Result<Parts> {
        let at = TABLES + 64 * self.draws.below(32) as usize;
        for (n, part) in parts.parts.iter().enumerate() {
            let has_next = n + 1 < parts.count;
            let flags = self.blurred(flags_of(*part, has_next && !queue.is_packed));
            let bytes = if queue.is_packed {
                descriptor(part.addr, part.len, 0, flags)
            } else {
                descriptor(part.addr, part.len, flags, self.next_of(n as u16, 4))
            };
            self.write(at.wrapping_add(16 * n), &bytes)?;
        }
        let table = Part {
            addr: self.base.wrapping_add(at as u64),
            len: 16 * parts.count.min(MOST_PARTS) as u32,
            is_writable: false,
        };
        Ok(Parts {
            parts: [table; MOST_PARTS],
            count: 0,
        })
    }

    /// The flags, of which one is wrong now and then.
    fn blurred(&mut self, flags: u16) -> u16 {
        if self.draws.once_in(100) {
            flags ^ (self.draws.word() % 0x1_0000) as u16
        } else {
            flags
        }
    }

    /// The index behind this one in a table of so many, which is wrong now and then.
    fn next_of(&mut self, index: u16, size: u16) -> u16 {
        if self.draws.once_in(100) {
            return self.draws.below(20) as u16;
        }
        index.wrapping_add(1) % size.max(1)
    }

    /// The flags of a part of a chain in a ring. A chain of no parts is a table.
    fn flags_at(&mut self, parts: &Parts, n: usize) -> u16 {
        if parts.count == 0 {
            return self.blurred(INDIRECT);
        }
        match parts.parts.get(n) {
            Some(part) => self.blurred(flags_of(*part, n + 1 < parts.count)),
            None => 0,
        }
    }

    /// Writes a chain into a split ring, and makes it available (VIRTIO 1.2, 2.7.13).
    fn offer_split(&mut self, queue: &mut Queue, parts: &Parts) -> Result<()> {
        let size = queue.size.max(1);
        let first = (queue.made % 0x1000 * MOST_PARTS as u16) % size;
        let mut index = first;
        for (n, part) in parts.parts.iter().enumerate().take(parts.count.max(1)) {
            let flags = self.flags_at(parts, n);
            let next = self.next_of(index, size);
            let bytes = descriptor(part.addr, part.len, flags, next);
            self.write(queue.descriptors.wrapping_add(16 * index as usize), &bytes)?;
            index = index.wrapping_add(1) % size;
        }
        let entry = 4 + 2 * (queue.made % size) as usize;
        let head = if self.draws.once_in(60) {
            self.draws.below(300) as u16
        } else {
            first
        };
        self.write(queue.driver.wrapping_add(entry), &head.to_le_bytes())?;
        queue.made = queue.made.wrapping_add(1);
        if self.draws.once_in(150) {
            queue.made = queue.made.wrapping_add(self.draws.below(20) as u16);
        }
        self.write(queue.driver.wrapping_add(2), &queue.made.to_le_bytes())
    }

    /// Says at which chain the driver of a split ring wants an interrupt: mostly at the next one (VIRTIO 1.2, 2.7.7).
    fn suppress_split(&mut self, queue: &Queue) -> Result<()> {
        let is_next = !self.draws.once_in(3);
        let index = match self.ram.get(queue.device.wrapping_add(2)) {
            Some(used) if is_next => *used as u16,
            _ => self.draws.below(16) as u16,
        };
        let flags = if is_next { 0 } else { 1 };
        self.write(queue.driver, &[flags, 0])?;
        let event = queue.driver.wrapping_add(4 + 2 * queue.size as usize);
        self.write(event, &index.to_le_bytes())
    }

    /// Writes a chain into a packed ring, whose first descriptor is written last (VIRTIO 1.2, 2.8.13).
    fn offer_packed(&mut self, queue: &mut Queue, parts: &Parts) -> Result<()> {
        let size = queue.size.max(1);
        let id = self.draws.below(16) as u16;
        for (n, part) in parts.parts.iter().enumerate().take(parts.count.max(1)) {
            let turn = if queue.wrap { AVAIL } else { USED };
            let flags = self.flags_at(parts, n) ^ turn;
            let bytes = descriptor(part.addr, part.len, id, flags);
            let at = 16 * queue.slot as usize;
            self.write(queue.descriptors.wrapping_add(at), &bytes)?;
            queue.slot = queue.slot.wrapping_add(1);
            if queue.slot >= size {
                queue.slot = 0;
                queue.wrap = !queue.wrap;
            }
        }
        queue.made = queue.made.wrapping_add(1);
        Ok(())
    }

    /// Says at which descriptor the driver of a packed ring wants an interrupt (VIRTIO 1.2, 2.8.10).
    fn suppress_packed(&mut self, queue: &Queue) -> Result<()> {
        let place = self.draws.below(queue.size.clamp(1, 100) as u32) as u8;
        let wrap = if self.draws.once_in(2) { 0x80 } else { 0 };
        let flags = self.draws.one_of(&EVENT_FLAGS);
        self.write(queue.driver, &[place, wrap, flags, 0])
    }
}
