//! The descriptors of consecutive slots.

ghost use Rattle.std.specs.Prelude.{◌≡◌, ◌+◌, ◌-◌, ◌<◌, ◌≤◌, [], true, false, length};
ghost use Rattle.chains.specs.Decoder.{Fits, HasDecoded};
ghost use Rattle.chains.specs.State.{HasAreas};
ghost use Rattle.chains.specs.RingCore.{core_state};
ghost use Rattle.chains.specs.Descriptor.{descriptor_at};
ghost use Rattle.chains.specs.Gives.{ChainGives};

use crate::going_on::slot_after;
use chains::{Chain, Decoder, Descriptor, NoChain, RingCore, add, ended};
use guestmem::Ram;

/// Fills in the chain of the descriptors from the taking position on. The first is `first`, which names no table; each with NEXT
/// is followed by another one. There is no chain if a later one names a table, or as many as there are slots all have NEXT. No slot
/// is read twice.
#[inline(always)]
pub(crate) fn walk(
    core: &RingCore,
    decoder: &mut Decoder,
    ram: &Ram,
    first: Descriptor,
    chain: &mut Chain,
) -> Result<(), NoChain>
    requires areas { HasAreas (length ram.now.bytes) (core_state true core.now) }
    requires slot { core.now.taking.place < core.now.size }
    requires first { first ≡ descriptor_at true ram.now.bytes core.now.descriptors core.now.taking.place }
    requires plain { first.is_indirect ≡ false }
    requires fits { Fits decoder.old ram.now }
    requires none_readable { chain.old.readable ≡ [] }
    requires none_writable { chain.old.writable ≡ [] }
    ensures gives { ChainGives ram.now.bytes (core_state true core.now) chain.new result }
    ensures decoded { HasDecoded decoder.old decoder.new ram.now (core.now.size - 1) }
{
    let (base, table, size) = (core.base, core.descriptors, core.size);
    let len = ram.len();
    let mut slot = core.taking.place;
    let mut last = first;
    let mut count = 1;
    add(&last, base, len, chain)?;
    while last.has_next {
        // More descriptors than slots.
        if count == size {
            return Err(NoChain::Malformed);
        }
        slot = slot_after(slot, size);
        last = decoder.read(ram, true, table, slot, true);
        // INDIRECT after another descriptor.
        if last.is_indirect {
            return Err(NoChain::Malformed);
        }
        add(&last, base, len, chain)?;
        count += 1;
    }
    chain.id = last.id;
    chain.slots = count;
    ended(chain)
}
