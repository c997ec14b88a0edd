//! Chains into which a device writes.
//!
//! Bytes of the host that wrap around at the end of their buffer are two slices, but seldom two for one chain.

ghost use Rattle.std.specs.Prelude.{◌≡◌, ◌≤◌, ◌+◌, ◌++◌, length};
ghost use Rattle.guestmem.specs.Rises.{Touches};
ghost use Rattle.chains.specs.Frame.{MayServe, HasServed};
ghost use Rattle.chains.specs.Places.{places};
ghost use Rattle.chains.specs.Ring.{IsBounded};
ghost use Rattle.chains.specs.ReceiveBuffer.{IsFilled};

use crate::chain::Chain;
use crate::copy::copy_in_with_base;
use crate::ring::Ring;
use guestmem::{Ram, TouchLog};

/// Gives bytes to the chain that `Ring::next` found: they go to its first writable bytes. The chain is taken, and published
/// with their count. RAM begins at the guest-physical address `base`. The result is whether an interrupt is due.
#[inline(always)]
pub fn fill<R: Ring, L: TouchLog>(
    ring: &mut R,
    base: u64,
    chain: &Chain,
    bytes: &[u8],
    ram: &mut Ram,
    log: &mut L,
) -> bool
    requires base { base ≡ (R.state ring.old).base }
    requires ready { MayServe L.may (length ram.old.bytes) (R.state ring.old) log.old }
    requires bounded { IsBounded (length ram.old.bytes) (R.state ring.old) chain.now }
    requires room { length bytes.now ≤ length (places chain.now.writable) }
    ensures filled { IsFilled (Touches L.after log.old log.new ram.old ram.new) ram.old.bytes (R.state ring.old) chain.now bytes.now result ram.new.bytes (R.state ring.new) }
    ensures after { HasServed L.may ram.old ram.new log.new }
    ensures decoder { R.decoder ring.new ≡ R.decoder ring.old }
{
    copy_in_with_base(ram, base, chain.writable.as_slice(), 0, bytes, log);
    ring.take(chain);
    let count = bytes.len() as u32;
    ring.publish(chain.id, chain.slots, count, count > 0, ram, log)
}

/// Gives the bytes of two slices, one after the other, as `fill` gives those of one. The back slice is empty more often than not.
#[inline(always)]
pub fn fill_in_parts<R: Ring, L: TouchLog>(
    ring: &mut R,
    base: u64,
    chain: &Chain,
    front: &[u8],
    back: &[u8],
    ram: &mut Ram,
    log: &mut L,
) -> bool
    requires base { base ≡ (R.state ring.old).base }
    requires ready { MayServe L.may (length ram.old.bytes) (R.state ring.old) log.old }
    requires bounded { IsBounded (length ram.old.bytes) (R.state ring.old) chain.now }
    requires room { length front.now + length back.now ≤ length (places chain.now.writable) }
    ensures filled { IsFilled (Touches L.after log.old log.new ram.old ram.new) ram.old.bytes (R.state ring.old) chain.now (front.now ++ back.now) result ram.new.bytes (R.state ring.new) }
    ensures after { HasServed L.may ram.old ram.new log.new }
    ensures decoder { R.decoder ring.new ≡ R.decoder ring.old }
{
    if back.is_empty() {
        return fill(ring, base, chain, front, ram, log);
    }
    let segs = chain.writable.as_slice();
    copy_in_with_base(ram, base, segs, 0, front, log);
    copy_in_with_base(ram, base, segs, front.len() as u64, back, log);
    ring.take(chain);
    let len = (front.len() + back.len()) as u32;
    ring.publish(chain.id, chain.slots, len, len > 0, ram, log)
}
