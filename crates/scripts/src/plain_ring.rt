//! A plain reader of a queue whose first chain begins at descriptor 0: what stands there by the rules of the standard (VIRTIO 1.2,
//! 2.7 and 2.8), read off a page of bytes.

use anyhow::Result;
use chains::Seg;
use std::alloc::Global;

const NEXT: u16 = 1;

const WRITE: u16 = 2;

const INDIRECT: u16 = 4;

const AVAIL: u16 = 128;

const USED: u16 = 32_768;

/// What stands in a queue.
#[derive(Debug, Drop, PartialEq, Eq)]
pub enum Found {
    /// Nothing is available.
    Empty,

    /// What is available breaks a rule.
    Malformed,

    /// A chain.
    Chain {
        id: u16,
        slots: u16,
        readable: Vec<Seg>,
        writable: Vec<Seg>,
    },
}

/// A descriptor. In a split ring `name` is the index of the next one, in a packed ring the id.
#[derive(Clone, Copy)]
struct Descriptor {
    seg: Seg,
    flags: u16,
    name: u16,
}

impl Descriptor {
    fn has(self, flag: u16) -> bool {
        self.flags & flag != 0
    }
}

/// A queue of `size` descriptors at address 0, in RAM of these bytes. `has_tables` says that the driver accepted INDIRECT_DESC.
#[derive(Drop)]
pub struct PlainRing<'r> {
    pub ram: &'r [u8],
    pub size: u16,
    pub has_tables: bool,
    pub is_packed: bool,
}

impl<'r> PlainRing<'r> {
    /// What the device finds where it has taken nothing yet. In a split ring the driver has made descriptor 0 available.
    pub fn found(&self, alloc: Global) -> Result<Found> {
        let first = self.descriptor(0, 0);
        if self.is_packed && (!first.has(AVAIL) || first.has(USED)) {
            return Ok(Found::Empty);
        }
        let is_table = self.is_packed && first.has(INDIRECT);
        let list = match (self.is_packed, is_table) {
            (false, _) => self.split_list(alloc)?,
            (true, false) => self.packed_list(alloc)?,
            (true, true) => self.packed_table(alloc, first)?,
        };
        let Some(list) = list else {
            return Ok(Found::Malformed);
        };
        let (id, slots) = match (self.is_packed, is_table) {
            (false, _) => (0, 1),
            (true, false) => (last_name(list.as_slice()), u16::try_from(list.len())?),
            (true, true) => (first.name, 1),
        };
        self.chain(alloc, id, slots, list.as_slice())
    }

    /// The list of a split ring: from descriptor 0 on by NEXT, and then through a table that the last one names.
    fn split_list(&self, alloc: Global) -> Result<Option<Vec<Descriptor>>> {
        let mut list = Vec::new(alloc);
        let (mut table, mut entries, mut index) = (0, self.size as u64, 0u16);
        let mut is_own = true;
        for _ in 0..=self.size {
            if index as u64 >= entries {
                return Ok(None);
            }
            let descriptor = self.descriptor(table, index);
            if descriptor.has(INDIRECT) {
                if !is_own || !self.is_table(descriptor) {
                    return Ok(None);
                }
                (table, entries) = (descriptor.seg.addr, descriptor.seg.len as u64 / 16);
                (index, is_own) = (0, false);
                continue;
            }
            list.push(descriptor)?;
            if list.len() > self.size as usize {
                return Ok(None);
            }
            if !descriptor.has(NEXT) {
                return Ok(Some(list));
            }
            index = descriptor.name;
        }
        Ok(None)
    }

    /// The list of a packed ring: consecutive descriptors while NEXT is set, of which none names a table.
    fn packed_list(&self, alloc: Global) -> Result<Option<Vec<Descriptor>>> {
        let mut list = Vec::new(alloc);
        for index in 0..self.size {
            let descriptor = self.descriptor(0, index);
            if descriptor.has(INDIRECT) {
                return Ok(None);
            }
            list.push(descriptor)?;
            if !descriptor.has(NEXT) {
                return Ok(Some(list));
            }
        }
        Ok(None)
    }

    /// All entries of the table that a descriptor of a packed ring names.
    fn packed_table(&self, alloc: Global, naming: Descriptor) -> Result<Option<Vec<Descriptor>>> {
        if !self.is_table(naming) || naming.seg.len / 16 > self.size as u32 {
            return Ok(None);
        }
        let entries = u16::try_from(naming.seg.len / 16)?;
        let mut list = Vec::new(alloc);
        for index in 0..entries {
            list.push(self.descriptor(naming.seg.addr, index))?;
        }
        Ok(Some(list))
    }

    /// Whether a descriptor with INDIRECT names a table as it may.
    fn is_table(&self, naming: Descriptor) -> bool {
        let len = naming.seg.len;
        self.has_tables
            && !naming.has(NEXT)
            && len != 0
            && len.is_multiple_of(16)
            && self.is_inside(naming.seg)
    }

    fn is_inside(&self, seg: Seg) -> bool {
        let len = self.ram.len() as u64;
        seg.addr <= len && seg.len as u64 <= len - seg.addr
    }

    /// The chain of a list of descriptors: all buffers lie inside RAM, and none to be read comes after one to be written.
    fn chain(&self, alloc: Global, id: u16, slots: u16, list: &[Descriptor]) -> Result<Found> {
        let (mut readable, mut writable) = (Vec::new(alloc), Vec::new(alloc));
        for descriptor in list {
            let is_late = !descriptor.has(WRITE) && !writable.is_empty();
            if is_late || !self.is_inside(descriptor.seg) {
                return Ok(Found::Malformed);
            }
            if descriptor.has(WRITE) {
                writable.push(descriptor.seg)?;
            } else {
                readable.push(descriptor.seg)?;
            }
        }
        Ok(Found::Chain {
            id,
            slots,
            readable,
            writable,
        })
    }

    /// The descriptor of an index in the table at an address.
    fn descriptor(&self, table: u64, index: u16) -> Descriptor {
        let at = table.saturating_add(16 * index as u64);
        let (addr, len): ([u8; 8], [u8; 4]) = (self.bytes(at), self.bytes(at.saturating_add(8)));
        let third = u16::from_le_bytes(self.bytes(at.saturating_add(12)));
        let fourth = u16::from_le_bytes(self.bytes(at.saturating_add(14)));
        let (flags, name) = if self.is_packed {
            (fourth, third)
        } else {
            (third, fourth)
        };
        Descriptor {
            seg: Seg {
                addr: u64::from_le_bytes(addr),
                len: u32::from_le_bytes(len),
            },
            flags,
            name,
        }
    }

    /// The bytes at an address. What is not in RAM counts as 0.
    fn bytes<const N: usize>(&self, addr: u64) -> [u8; N] {
        let mut bytes = [0; N];
        for (place, byte) in bytes.iter_mut().enumerate() {
            let at = addr.saturating_add(place as u64);
            *byte = self.ram.get(at as usize).map_or(0, |byte| *byte);
        }
        bytes
    }
}

/// The id of the last descriptor.
fn last_name(list: &[Descriptor]) -> u16 {
    list.last().map_or(0, |descriptor| descriptor.name)
}
