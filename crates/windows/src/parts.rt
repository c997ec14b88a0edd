//! The parts of a chain that a driver makes available.

use crate::bench::{Bench, SECTORS};
use crate::queue::Queue;
use crate::window::BYTES;
use anyhow::Result;

/// Where tables of descriptors are, of four entries each.
pub const TABLES: usize = 0x1c00;

/// Where the headers of requests and the ranges that they clear are.
const HEADERS: usize = 0x2400;

/// Where the buffers are.
const BUFFERS: usize = 0x2c00;

/// The types of requests: In, Out, Flush, GetId, WriteZeroes, and one that is not known.
const TYPES: [u32; 10] = [0, 0, 0, 1, 1, 1, 4, 8, 13, 11];

/// The most parts of a chain.
pub const MOST_PARTS: usize = 4;

/// A buffer of a chain.
#[derive(Clone, Copy, Debug)]
pub struct Part {
    /// Its address.
    pub addr: u64,

    /// How many bytes it has.
    pub len: u32,

    /// Whether the device may write it.
    pub is_writable: bool,
}

/// The parts of a chain, of which there are one at least.
#[derive(Clone, Copy, Debug)]
pub struct Parts {
    /// The parts, and some that are not of the chain.
    pub parts: [Part; MOST_PARTS],

    /// How many parts the chain has.
    pub count: usize,
}

impl Bench {
    /// A chain for this queue, which mostly fits its device.
    pub fn parts_for(&mut self, queue: &Queue) -> Result<Parts> {
        match (queue.dev, queue.number) {
            (0, 0) => Ok(self.buffers(queue, 1600, true)),
            (0, _) => Ok(self.buffers(queue, 500, false)),
            (1, _) | (2, _) => self.request(queue),
            (3, 1) => Ok(self.buffers(queue, 80, false)),
            _ => Ok(self.buffers(queue, 80, true)),
        }
    }

    /// One to four buffers of fewer than `most` bytes each.
    fn buffers(&mut self, queue: &Queue, most: u32, is_writable: bool) -> Parts {
        let mut parts = [Part {
            addr: 0,
            len: 0,
            is_writable,
        }; MOST_PARTS];
        for part in &mut parts {
            part.addr = self.place(queue, BUFFERS);
            part.len = self.len(most);
        }
        let count = 1 + self.draws.below(MOST_PARTS as u32) as usize;
        Parts { parts, count }
    }

    /// A request: its header, its data, and the byte of its status.
    fn request(&mut self, queue: &Queue) -> Result<Parts> {
        let kind = self.draws.one_of(&TYPES);
        let header = self.place(queue, HEADERS);
        let sector = self.draws.below(SECTORS as u32 + 1);
        self.write_at(header, &[kind, 0, sector, 0])?;
        let is_read = kind == 0 || kind == 8;
        let mut data = Part {
            addr: self.place(queue, BUFFERS),
            len: 512 * (1 + self.draws.below(3)),
            is_writable: is_read,
        };
        if kind == 13 {
            data.addr = self.place(queue, HEADERS);
            data.len = 16;
            let count = 1 + self.draws.below(3);
            self.write_at(data.addr, &[sector, 0, count, 0])?;
        }
        if self.draws.once_in(16) {
            data.len = self.len(2000);
        }
        let head = Part {
            addr: header,
            len: 16,
            is_writable: false,
        };
        let status = Part {
            addr: self.place(queue, BUFFERS),
            len: 1,
            is_writable: true,
        };
        let (parts, count) = if kind == 4 {
            ([head, status, status, status], 2)
        } else {
            ([head, data, status, status], 3)
        };
        Ok(Parts { parts, count })
    }

    /// Writes words at an address.
    fn write_at(&mut self, addr: u64, words: &[u32; 4]) -> Result<()> {
        let at = addr.wrapping_sub(self.base) as usize;
        let mut place = at;
        for word in words {
            self.write(place, &word.to_le_bytes())?;
            place = place.wrapping_add(4);
        }
        Ok(())
    }

    /// How many bytes a buffer has: mostly fewer than `most`.
    fn len(&mut self, most: u32) -> u32 {
        match self.draws.below(40) {
            0 => 0,
            1 => u32::MAX,
            2 => 4096,
            3 => BYTES as u32,
            _ => self.draws.word() % most.max(1),
        }
    }

    /// An address for a buffer: mostly from the index `area` of RAM on, else over a ring, its driver's word, a table, the end of RAM, or
    /// nowhere.
    fn place(&mut self, queue: &Queue, area: usize) -> u64 {
        let near = self.draws.below(0x300) as u64;
        let places = if area == BUFFERS { 0x300 } else { 0x7f };
        let (begin, offset) = match self.draws.below(60) {
            0 => (queue.descriptors, near % 0x100),
            1 => (queue.driver, near % 40),
            2 => (queue.device, near % 0x80),
            3 | 4 => (queue.word(), near % 4),
            5 => (0, 8 * near),
            6 => (TABLES, near),
            7 => (BYTES - 64, near % 65),
            8 => (BYTES, near),
            9 => (0, u64::MAX - near),
            _ => (area, 16 * (near % places)),
        };
        let index = (begin as u64).wrapping_add(offset);
        self.base.wrapping_add(index)
    }
}
