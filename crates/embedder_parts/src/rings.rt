//! Rings of both layouts, and the bytes of their chains.

ghost use Rattle.std.specs.Prelude.{◌≡◌, length};
ghost use Rattle.guestmem.specs.Memory.{Memory};
ghost use Rattle.chains.specs.Decoder.{Fits};
ghost use Rattle.chains.specs.State.{HasAreas};

use crate::own_log::OwnLog;
use crate::own_ring::OwnRing;
use anyhow::{Result, bail, ensure};
use chains::{Next, Positions, Ring, copy_in, copy_out};
use guestmem::{Ram, RamError};
use mmio::Queue;
use packedring::PackedRing;
use splitring::SplitRing;
use std::alloc::Global;

const RING_PACKED: u64 = 1 << 34;

/// A queue of one descriptor.
const QUEUE: Queue = Queue {
    size: 1,
    descriptors: 0,
    driver: 0x100,
    device: 0x200,
    is_ready: true,
    is_notified: true,
};

/// Serves a chain of one writable byte from a split ring, from a ring of our own, and from a packed ring.
pub fn agree(alloc: Global) -> Result<()> {
    let mut split = SplitRing::new(alloc, &QUEUE, 0, Positions::FIRST);
    split_serves(alloc, &mut split)?;
    let inner = SplitRing::new(alloc, &QUEUE, 0, Positions::FIRST);
    split_serves(alloc, &mut OwnRing { inner })?;
    packed_serves(alloc)
}

/// The driver makes descriptor 0 available, and finds it used (VIRTIO 1.2, 2.7.6 and 2.7.8).
fn split_serves<R: Ring>(alloc: Global, ring: &mut R) -> Result<()>
    requires areas { HasAreas 4096 (R.state ring.old) }
    requires base { (R.state ring.old).base ≡ 0 }
    requires fits { (ram : Memory) → Fits (R.decoder ring.old) ram }
{
    ensure!(ring.decoded() == 0, "nothing was decoded yet");
    let mut ram = Ram::new(alloc, 1)?;
    write(
        &mut ram,
        0,
        &[0, 8, 0, 0, 0, 0, 0, 0, 1, 0, 0, 0, 2, 0, 0, 0],
    )?;
    write(&mut ram, 0x102, &[1, 0])?;
    serve(ring, &mut ram)?;
    holds(&ram, 0x200, &[0, 0, 1, 0, 0, 0, 0, 0, 1, 0, 0, 0])?;
    ensure!(ring.positions().used.place == 1, "the used position");
    Ok(())
}

/// The same of a packed ring (VIRTIO 1.2, 2.8.1 and 2.8.7).
fn packed_serves(alloc: Global) -> Result<()> {
    let mut ring = PackedRing::new(alloc, &QUEUE, RING_PACKED, Positions::FIRST);
    let mut ram = Ram::new(alloc, 1)?;
    write(
        &mut ram,
        0,
        &[0, 8, 0, 0, 0, 0, 0, 0, 1, 0, 0, 0, 7, 0, 0x82, 0],
    )?;
    serve(&mut ring, &mut ram)?;
    holds(&ram, 8, &[1, 0, 0, 0, 7, 0, 0x82, 0x80])
}

/// Gives the next chain the byte aa, and publishes it. Then the ring is empty.
fn serve<R: Ring>(ring: &mut R, ram: &mut Ram) -> Result<()>
    requires areas { HasAreas (length ram.old.bytes) (R.state ring.old) }
    requires base { (R.state ring.old).base ≡ 0 }
    requires fits { Fits (R.decoder ring.old) ram.old }
{
    let Next::Chain(chain) = ring.next(ram)? else {
        bail!("no chain");
    };
    if chain.writable.total_len() != 1 {
        bail!("another chain");
    }
    let mut log = OwnLog::EMPTY;
    copy_in(ram, chain.writable.as_slice(), 0, &[0xaa], &mut log);
    let mut byte = [0];
    copy_out(ram, chain.writable.as_slice(), 0, &mut byte);
    ensure!(byte == [0xaa] && log.is_touched, "the byte of the chain");
    ring.take(&chain);
    let is_due = ring.publish(chain.id, chain.slots, 1, true, ram, &mut log);
    ensure!(is_due, "the interrupt");
    Ok(())
}

/// Writes RAM.
fn write(ram: &mut Ram, addr: u64, bytes: &[u8]) -> Result<(), RamError> {
    let _ = ram.write(addr, bytes)?;
    Ok(())
}

/// Fails unless RAM has these bytes at an address.
fn holds(ram: &Ram, addr: u64, bytes: &[u8]) -> Result<()> {
    let mut place = addr;
    for expected in bytes {
        let mut found = [0];
        ram.read(place, &mut found)?;
        ensure!(found[0] == *expected, "the byte at {place}");
        place = place.wrapping_add(1);
    }
    Ok(())
}
