//! The list of descriptors that begins at an entry of a table.

ghost use Rattle.std.specs.Prelude.{◌≡◌, ◌+◌, ◌-◌, ◌*◌, ◌%◌, ◌<◌, ◌≤◌, List, length, true, false, Ok};
ghost use Rattle.chains.specs.declared.descriptor.Descriptor.{Descriptor};
ghost use Rattle.chains.specs.Decoder.{Fits, HasDecoded};
ghost use Rattle.chains.specs.Held.{AreHeld, segment_count};
ghost use Rattle.splitring.specs.Walk.{WalkGives};

use chains::{Chain, DESCRIPTOR_SIZE, Decoder, Descriptor, NoChain, RingCore, add};
use guestmem::Ram;

/// A table of descriptors.
#[derive(Clone, Copy)]
pub(crate) struct Table {
    /// The index in RAM at which it lies.
    pub(crate) at: u64,

    /// How many entries it has.
    pub(crate) entries: u32,

    /// Whether it is the queue's own: descriptors of no other are kept.
    pub(crate) is_own: bool,
}

/// Adds to a chain the buffers of the list that begins at entry `first` of a table, up to one that names a table, which it
/// hands out as `last`. The result is whether there is such a one. It stops at a descriptor that breaks a rule, and where the chain
/// has as many as there are slots. No more are decoded than there was room for, nor, where the last one names a table, than are
/// added and that one.
#[inline(always)]
pub(crate) fn walk(
    core: &RingCore,
    ram: &Ram,
    decoder: &mut Decoder,
    table: Table,
    first: u16,
    chain: &mut Chain,
    last: &mut Descriptor,
) -> Result<bool, NoChain>
    requires inside { table.at + DESCRIPTOR_SIZE * table.entries ≤ length ram.now.bytes }
    requires aligned { table.is_own ≡ true → table.at % DESCRIPTOR_SIZE ≡ 0 }
    requires room { segment_count chain.old ≤ core.now.size }
    requires fits { Fits decoder.old ram.now }
    ensures gives { (before : List Descriptor) → AreHeld core.now.base (length ram.now.bytes) before chain.old → WalkGives core.now.base ram.now.bytes table first core.now.size before chain.new last.new result }
    ensures decoded { HasDecoded decoder.old decoder.new ram.now (core.now.size - segment_count chain.old) }
    ensures each { result ≡ Ok true → decoder.new.decoded + segment_count chain.old ≤ decoder.old.decoded + segment_count chain.new + 1 }
    ensures left { result ≡ Ok true → segment_count chain.new < core.now.size }
    ensures apart { table.is_own ≡ false → decoder.new.kept ≡ decoder.old.kept }
{
    let len = ram.len();
    let room = core.size - (chain.readable.len() + chain.writable.len()) as u16;
    let mut index = first;
    for _step in 0..room {
        // An index past the table.
        if index as u32 >= table.entries {
            return Err(NoChain::Malformed);
        }
        let descriptor = decoder.read(ram, false, table.at, index, table.is_own);
        if descriptor.is_indirect {
            // INDIRECT and NEXT.
            if descriptor.has_next {
                return Err(NoChain::Malformed);
            }
            *last = descriptor;
            return Ok(true);
        }
        add(&descriptor, core.base, len, chain)?;
        if !descriptor.has_next {
            return Ok(false);
        }
        index = descriptor.next;
    }
    // More descriptors than there is room for, or no end.
    Err(NoChain::Malformed)
}
