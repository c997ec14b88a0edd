//! Tables, each of which replaces the descriptor that names it.

ghost use Rattle.std.specs.Prelude.{◌≡◌, ◌+◌, ◌-◌, ◌<◌, ◌≤◌, List, length, false};
ghost use Rattle.chains.specs.declared.descriptor.Descriptor.{Descriptor};
ghost use Rattle.chains.specs.Decoder.{Fits, HasDecoded};
ghost use Rattle.chains.specs.State.{HasAreas};
ghost use Rattle.chains.specs.RingCore.{core_state};
ghost use Rattle.mmio.specs.Bits.{has};
ghost use Rattle.mmio.specs.declared.constants.TheConstants.{INDIRECT_DESC};
ghost use Rattle.chains.specs.Gives.{ChainGives};
ghost use Rattle.chains.specs.SplitChain.{waiting, head};
ghost use Rattle.chains.specs.Held.{AreHeld, segment_count};
ghost use Rattle.splitring.specs.Walk.{FollowGives};

use crate::walk::{Table, walk};
use chains::{Chain, DESCRIPTOR_SIZE, Decoder, Descriptor, NoChain, RingCore, ended, is_table};
use guestmem::Ram;

/// What is where a walk puts the last descriptor, until it does.
const NO_DESCRIPTOR: Descriptor = Descriptor {
    addr: 0,
    len: 0,
    next: 0,
    id: 0,
    has_next: false,
    is_writable: false,
    is_indirect: false,
    avail_flag: false,
    used_flag: false,
};

/// Fills in the segments of a chain: the buffers of the list that begins at the head, and where its last descriptor names a
/// table, those of the list of the table in its place. There is no chain if a rule is broken, or there are more buffers than
/// the queue has slots. The indirect descriptor itself is decoded besides, so at most one more than there are slots is.
#[inline(always)]
pub(crate) fn find(
    core: &RingCore,
    decoder: &mut Decoder,
    ram: &Ram,
    first: u16,
    chain: &mut Chain,
) -> Result<(), NoChain>
    requires areas { HasAreas (length ram.now.bytes) (core_state false core.now) }
    requires available { waiting ram.now.bytes (core_state false core.now) ≤ core.now.size }
    requires head { first ≡ head ram.now.bytes (core_state false core.now) }
    requires fits { Fits decoder.old ram.now }
    ensures gives { ChainGives ram.now.bytes (core_state false core.now) (record chain.new { id = first; slots = 1 }) result }
    ensures decoded { HasDecoded decoder.old decoder.new ram.now (core.now.size + 1) }
{
    chain.readable.clear();
    chain.writable.clear();
    let table = Table {
        at: core.descriptors,
        entries: core.size as u32,
        is_own: true,
    };
    let mut last = NO_DESCRIPTOR;
    let is_named = walk(core, ram, decoder, table, first, chain, &mut last)?;
    if is_named {
        return follow(core, decoder, ram, &last, chain);
    }
    ended(chain)
}

/// Continues in the table that `last`, the last descriptor of the list, names, after those before it. A driver makes such a table
/// anew for each chain, so none of its descriptors is kept. `last` is only read here: were it written, each walk would have to keep
/// its descriptors in memory, also where none names a table.
fn follow(
    core: &RingCore,
    decoder: &mut Decoder,
    ram: &Ram,
    last: &Descriptor,
    chain: &mut Chain,
) -> Result<(), NoChain>
    requires room { segment_count chain.old < core.now.size }
    requires fits { Fits decoder.old ram.now }
    ensures gives { (front : List Descriptor) → AreHeld core.now.base (length ram.now.bytes) front chain.old → FollowGives core.now.base ram.now.bytes (has core.now.features INDIRECT_DESC) core.now.size front last.now chain.new result }
    ensures decoded { HasDecoded decoder.old decoder.new ram.now (core.now.size - segment_count chain.old) }
    ensures apart { decoder.new.kept ≡ decoder.old.kept }
{
    // INDIRECT without the feature, or a table that `is_table` refuses.
    if !core.has_indirect() || !is_table(last, core.base, ram) {
        return Err(NoChain::Malformed);
    }
    // The index in RAM of the table, whose address is as the guest wrote it.
    let table = Table {
        at: last.addr - core.base,
        entries: last.len / DESCRIPTOR_SIZE as u32,
        is_own: false,
    };
    let mut nested = NO_DESCRIPTOR;
    let is_nested = walk(core, ram, decoder, table, 0, chain, &mut nested)?;
    // INDIRECT inside the table.
    if is_nested {
        return Err(NoChain::Malformed);
    }
    ended(chain)
}
