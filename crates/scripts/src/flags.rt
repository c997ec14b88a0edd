//! Each value of the flags of descriptor 0, in rings of both layouts: what a ring finds is what a plain reader finds.

ghost use Rattle.std.specs.Prelude.{length};
ghost use Rattle.chains.specs.Decoder.{Fits};
ghost use Rattle.chains.specs.State.{HasAreas};

use crate::plain_ring::{Found, PlainRing};
use anyhow::{Context, Result, ensure};
use chains::{Next, Positions, Ring};
use guestmem::Ram;
use mmio::Queue;
use packedring::PackedRing;
use splitring::SplitRing;
use std::alloc::Global;

/// The feature VERSION_1.
const WITHOUT_TABLES: u64 = 0x1_0000_0000;

/// That and INDIRECT_DESC.
const WITH_TABLES: u64 = 0x1_1000_0000;

/// The features VERSION_1 and RING_PACKED.
const PACKED_WITHOUT_TABLES: u64 = 0x5_0000_0000;

/// Those and INDIRECT_DESC.
const PACKED_WITH_TABLES: u64 = 0x5_1000_0000;

/// The number of descriptors.
const SIZE: u16 = 2;

/// The ready queue: its areas are in page 0.
const QUEUE: Queue = Queue {
    size: SIZE as u32,
    descriptors: 0,
    driver: 0x200,
    device: 0x300,
    is_ready: true,
    is_notified: true,
};

/// The second descriptor, by the four bytes behind its address and length: readable, writable, one that names a table, and one that
/// has a next one. Flags, and index or id, have the same value, so that both layouts read the same.
const SECONDS: [[u8; 4]; 4] = [[0, 0, 0, 0], [2, 0, 2, 0], [4, 0, 4, 0], [1, 0, 1, 0]];

/// Tries each value with each of the second descriptors, in both layouts, with and without tables of descriptors.
pub fn agree(alloc: Global) -> Result<()> {
    for second in SECONDS {
        let mut ram = ram_with(alloc, second)?;
        agree_with(alloc, &mut ram)?;
    }
    Ok(())
}

fn agree_with(alloc: Global, ram: &mut Ram) -> Result<()> {
    for flags in 0..=u16::MAX {
        agree_on(alloc, ram, flags).context(flags)?;
    }
    Ok(())
}

/// A page with two descriptors of 32 and 16 bytes, each of which would be a table too, of which the first is made available.
fn ram_with(alloc: Global, second: [u8; 4]) -> Result<Ram> {
    let mut ram = Ram::new(alloc, 1)?;
    write_queue(&mut ram, second)?;
    Ok(ram)
}

fn write_queue(ram: &mut Ram, second: [u8; 4]) -> Result<()> {
    let _ = ram.write(0x0, &[0, 8, 0, 0, 0, 0, 0, 0, 32, 0, 0, 0, 1, 0, 1, 0])?;
    let _ = ram.write(0x10, &[0, 9, 0, 0, 0, 0, 0, 0, 16, 0, 0, 0])?;
    let _ = ram.write(0x1c, &second)?;
    let _ = ram.write(0x200, &[0, 0, 1, 0, 0, 0])?;
    // The table of descriptor 0: a readable entry and a writable one. That of descriptor 1: a writable one.
    let _ = ram.write(0x800, &[0, 10, 0, 0, 0, 0, 0, 0, 3, 0, 0, 0, 1, 0, 1, 0])?;
    let _ = ram.write(0x810, &[0, 11, 0, 0, 0, 0, 0, 0, 4, 0, 0, 0, 2, 0, 2, 0])?;
    let _ = ram.write(0x900, &[0, 12, 0, 0, 0, 0, 0, 0, 5, 0, 0, 0, 2, 0, 2, 0])?;
    Ok(())
}

fn agree_on(alloc: Global, ram: &mut Ram, flags: u16) -> Result<()> {
    let bytes = flags.to_le_bytes();
    let _ = ram.write(12, &bytes)?;
    let _ = ram.write(14, &[1, 0])?;
    for has_tables in [false, true] {
        agree_on_split(alloc, ram, has_tables)?;
    }
    let _ = ram.write(12, &[1, 0])?;
    let _ = ram.write(14, &bytes)?;
    for has_tables in [false, true] {
        agree_on_packed(alloc, ram, has_tables)?;
    }
    Ok(())
}

fn agree_on_split(alloc: Global, ram: &Ram, has_tables: bool) -> Result<()> {
    let found = found_split(alloc, ram, has_tables)?;
    let expected = plainly_found(alloc, ram, has_tables, false)?;
    ensure!(found == expected, "split");
    Ok(())
}

fn agree_on_packed(alloc: Global, ram: &Ram, has_tables: bool) -> Result<()> {
    let found = found_packed(alloc, ram, has_tables)?;
    let expected = plainly_found(alloc, ram, has_tables, true)?;
    ensure!(found == expected, "packed");
    Ok(())
}

/// What a new split ring finds.
fn found_split(alloc: Global, ram: &Ram, has_tables: bool) -> Result<Found> {
    ram.recall();
    let mut ring = if has_tables {
        SplitRing::new(alloc, &QUEUE, WITH_TABLES, Positions::FIRST)
    } else {
        SplitRing::new(alloc, &QUEUE, WITHOUT_TABLES, Positions::FIRST)
    };
    found_by(alloc, &mut ring, ram)
}

/// What a new packed ring finds.
fn found_packed(alloc: Global, ram: &Ram, has_tables: bool) -> Result<Found> {
    ram.recall();
    let mut ring = if has_tables {
        PackedRing::new(alloc, &QUEUE, PACKED_WITH_TABLES, Positions::FIRST)
    } else {
        PackedRing::new(alloc, &QUEUE, PACKED_WITHOUT_TABLES, Positions::FIRST)
    };
    found_by(alloc, &mut ring, ram)
}

fn found_by<R: Ring>(alloc: Global, ring: &mut R, ram: &Ram) -> Result<Found>
    requires areas { HasAreas (length ram.now.bytes) (R.state ring.old) }
    requires fits { Fits (R.decoder ring.old) ram.now }
{
    match ring.next(ram)? {
        Next::Empty => Ok(Found::Empty),
        Next::Malformed => Ok(Found::Malformed),
        Next::Chain(chain) => Ok(Found::Chain {
            id: chain.id,
            slots: chain.slots,
            readable: Vec::from_slice(alloc, chain.readable.as_slice())?,
            writable: Vec::from_slice(alloc, chain.writable.as_slice())?,
        }),
    }
}

/// What the plain reader finds.
fn plainly_found(alloc: Global, ram: &Ram, has_tables: bool, is_packed: bool) -> Result<Found> {
    ram.recall();
    let ring = PlainRing {
        ram: ram.page(0),
        size: SIZE,
        has_tables,
        is_packed,
    };
    ring.found(alloc)
}
