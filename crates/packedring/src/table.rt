//! Tables, each of which replaces the descriptor that names it.

ghost use Rattle.std.specs.Prelude.{◌≡◌, ◌+◌, ◌*◌, ◌<◌, ◌≤◌, [], true, length};
ghost use Rattle.chains.specs.Decoder.{Fits, HasDecoded};
ghost use Rattle.chains.specs.State.{HasAreas};
ghost use Rattle.chains.specs.RingCore.{core_state};
ghost use Rattle.chains.specs.Descriptor.{descriptor_at};
ghost use Rattle.chains.specs.Gives.{ChainGives};
ghost use Rattle.packedring.specs.Walk.{EntriesGives};

use crate::walk::walk;
use chains::{
    Chain, DESCRIPTOR_SIZE, Decoder, Descriptor, NoChain, RingCore, add, ended, is_table,
};
use guestmem::Ram;

/// Fills in the chain at the taking position, if there is one. The first descriptor there is `first`; where it names a table, the
/// entries of the table replace it. There is no chain if a rule is broken, or there are more buffers than slots.
#[inline(always)]
pub(crate) fn find(
    core: &RingCore,
    decoder: &mut Decoder,
    ram: &Ram,
    first: Descriptor,
    chain: &mut Chain,
) -> Result<(), NoChain>
    requires areas { HasAreas (length ram.now.bytes) (core_state true core.now) }
    requires slot { core.now.taking.place < core.now.size }
    requires first { first ≡ descriptor_at true ram.now.bytes core.now.descriptors core.now.taking.place }
    requires fits { Fits decoder.old ram.now }
    ensures gives { ChainGives ram.now.bytes (core_state true core.now) chain.new result }
    ensures decoded { HasDecoded decoder.old decoder.new ram.now core.now.size }
{
    chain.readable.clear();
    chain.writable.clear();
    if !first.is_indirect {
        return walk(core, decoder, ram, first, chain);
    }
    // INDIRECT with NEXT, or without the feature, or a table that `is_table` refuses.
    let has_indirect = core.has_indirect();
    if first.has_next || !has_indirect || !is_table(&first, core.base, ram) {
        return Err(NoChain::Malformed);
    }
    let count = first.len / DESCRIPTOR_SIZE as u32;
    // More descriptors than slots.
    if count > core.size as u32 {
        return Err(NoChain::Malformed);
    }
    // The index in RAM of the table, whose address is as the guest wrote it.
    let table = first.addr - core.base;
    add_entries(decoder, core.base, ram, table, count as u16, chain)?;
    chain.id = first.id;
    chain.slots = 1;
    ended(chain)
}

/// Adds the buffers of the `count` entries of a table to a chain that has none. The table lies at the index `table` in RAM, which
/// begins at the guest-physical address `base`. A driver makes such a table anew for each chain, so none of its descriptors is kept.
fn add_entries(
    decoder: &mut Decoder,
    base: u64,
    ram: &Ram,
    table: u64,
    count: u16,
    chain: &mut Chain,
) -> Result<(), NoChain>
    requires inside { table + DESCRIPTOR_SIZE * count ≤ length ram.now.bytes }
    requires fits { Fits decoder.old ram.now }
    requires none_readable { chain.old.readable ≡ [] }
    requires none_writable { chain.old.writable ≡ [] }
    ensures gives { EntriesGives base ram.now.bytes table count chain.new result }
    ensures decoded { HasDecoded decoder.old decoder.new ram.now count }
    ensures apart { decoder.new.kept ≡ decoder.old.kept }
{
    let len = ram.len();
    for index in 0..count {
        let descriptor = decoder.read(ram, true, table, index, false);
        add(&descriptor, base, len, chain)?;
    }
    Ok(())
}
