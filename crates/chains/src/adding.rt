//! What a chain holds while its descriptors are gathered.

ghost use Rattle.std.specs.Prelude.{◌≡◌, ◌+◌, ◌<◌, ◌^◌, List, OnOk};
ghost use Rattle.chains.specs.declared.descriptor.Descriptor.{Descriptor};
ghost use Rattle.chains.specs.Held.{AreHeld, AddGives, EndGives, segment_count};

use crate::chain::Chain;
use crate::descriptor::Descriptor;
use crate::no_chain::NoChain;
use crate::segs::Seg;
use guestmem::is_within;

/// Adds the buffer of a descriptor to the segments of a chain, in a RAM of `len` bytes with this base. It is not added if it does not lie
/// inside RAM, or if it is readable and the chain has writable ones. Memory is refused only where the chain has
/// `SHORT_CHAIN_MAX` segments or more.
#[inline(always)]
pub fn add(descriptor: &Descriptor, base: u64, len: u64, chain: &mut Chain) -> Result<(), NoChain>
    requires few { segment_count chain.old < 2 ^ 32 }
    ensures gives { (ds : List Descriptor) → AreHeld base len ds chain.old → AddGives base len ds descriptor.now chain.new result }
    ensures count { OnOk result (segment_count chain.new ≡ segment_count chain.old + 1) }
{
    // A buffer that is not inside RAM.
    if !is_within(base, len, descriptor.addr, descriptor.len as u64) {
        return Err(NoChain::Malformed);
    }
    let seg = Seg {
        addr: descriptor.addr,
        len: descriptor.len,
    };
    if descriptor.is_writable {
        chain.writable.push(seg)?;
        return Ok(());
    }
    // A readable buffer after a writable one.
    if !chain.writable.is_empty() {
        return Err(NoChain::Malformed);
    }
    chain.readable.push(seg)?;
    Ok(())
}

/// The test of a chain whose descriptors are gathered: that they have together less than 4 GiB.
pub fn ended(chain: &Chain) -> Result<(), NoChain>
    ensures { EndGives chain.now result }
{
    let bytes = chain
        .readable
        .total_len()
        .saturating_add(chain.writable.total_len());
    if bytes >= 1 << 32 {
        return Err(NoChain::Malformed);
    }
    Ok(())
}
