//! Descriptors of guest memory.
//!
//! An indirect descriptor names its table whatever its WRITE flag is: VIRTIO 1.2, 2.7.5.3.2 and 2.8.7.1 say to ignore it.

ghost use Rattle.std.specs.Prelude.{◌≡◌, ◌+◌, ◌≤◌, length, IsTrue, ◌↔◌};
ghost use Rattle.chains.specs.Descriptor.{decoded, words_of};

use crate::flags::{AVAIL, INDIRECT, NEXT, USED, WRITE};
use guestmem::{Ram, is_within};

/// The bytes of a descriptor in guest memory, in a table of either layout.
pub const DESCRIPTOR_SIZE: u64 = 16;

/// One entry of a table of descriptors, decoded.
#[derive(Clone, Copy, Debug, PartialEq, Eq)]
pub struct Descriptor {
    /// The guest-physical address of the buffer, or of the table that an indirect descriptor names.
    pub addr: u64,

    /// The bytes of the buffer or of the table.
    pub len: u32,

    /// In a split ring the index of the descriptor that follows, if one does. 0 in a packed ring.
    pub next: u16,

    /// In a packed ring the buffer's id. 0 in a split ring.
    pub id: u16,

    /// Whether another descriptor of the same chain follows.
    pub has_next: bool,

    /// Whether the device writes the buffer. It reads it otherwise.
    pub is_writable: bool,

    /// Whether this names a table of descriptors, in place of a buffer.
    pub is_indirect: bool,

    /// The flag AVAIL of a packed ring.
    pub avail_flag: bool,

    /// The flag USED of a packed ring.
    pub used_flag: bool,
}

/// The bytes of a descriptor, as two little-endian numbers: the address of its buffer, and all else.
#[derive(Clone, Copy, Debug, PartialEq, Eq)]
pub struct Words {
    /// The first eight bytes.
    pub first: u64,

    /// The last eight bytes: the length in the lowest four, and then two numbers of two bytes, of which the layout says what they
    /// are.
    pub second: u64,
}

/// Reads the bytes of a descriptor. This is the one function that reads descriptors from RAM. A ring's look calls it once, in its
/// `Decoder`, where it counts; `lacking` calls it of what is held.
#[inline(always)]
pub(crate) fn words_at(ram: &Ram, index: u64) -> Words
    requires inside { index + DESCRIPTOR_SIZE ≤ length ram.now.bytes }
    ensures { result ≡ words_of ram.now.bytes index }
{
    ram.recall();
    Words {
        first: ram.u64_at(index),
        second: ram.u64_at(index + 8),
    }
}

/// Takes the bytes of a descriptor apart, as one of a table of the layout.
#[inline(always)]
pub(crate) fn decode(is_packed: bool, words: Words) -> Descriptor
    ensures { result ≡ decoded is_packed words }
{
    let low = ((words.second >> 32) % (1 << 16)) as u16;
    let high = (words.second >> 48) as u16;
    let flags = if is_packed { high } else { low };
    Descriptor {
        addr: words.first,
        len: (words.second % (1 << 32)) as u32,
        next: if is_packed { 0 } else { high },
        id: if is_packed { low } else { 0 },
        has_next: flags & NEXT == NEXT,
        is_writable: flags & WRITE == WRITE,
        is_indirect: flags & INDIRECT == INDIRECT,
        avail_flag: flags & AVAIL == AVAIL,
        used_flag: flags & USED == USED,
    }
}

ghost use Rattle.chains.specs.Whole.{IsTable};

/// Whether the table that an indirect descriptor names has some whole entries and lies inside RAM, which has this base.
pub fn is_table(descriptor: &Descriptor, base: u64, ram: &Ram) -> bool
    ensures { IsTrue result ↔ IsTable base ram.now.bytes descriptor.now }
{
    let len = descriptor.len as u64;
    len != 0 && len % DESCRIPTOR_SIZE == 0 && is_within(base, ram.len(), descriptor.addr, len)
}
