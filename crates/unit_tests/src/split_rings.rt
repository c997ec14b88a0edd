//! What a ring decodes again, and what it has kept.

ghost use Rattle.std.specs.Prelude.{◌≤◌};

use chains::laws::fits_later;
use chains::{Next, Positions, Ring};
use guestmem::{NoMemory, Ram};
use mmio::Queue;
use splitring::SplitRing;
use std::alloc::Global;
use std::marker::Model;
use std::test::Fail;

/// The features VERSION_1 and INDIRECT_DESC.
const FEATURES: u64 = 0x1_1000_0000;

/// The base of a RAM that does not begin at the address 0.
const BASE: u64 = 0x8000_0000;

/// A ring, and the RAM that it looks at.
#[derive(Drop)]
struct Bench {
    ring: SplitRing,
    ram: Ram,
}

impl Model for Bench {
    ghost use Rattle.std.specs.Prelude.{length};
    ghost use Rattle.guestmem.specs.Memory.{Memory};
    ghost use Rattle.chains.specs.Decoder.{Fits};
    ghost use Rattle.chains.specs.RingSeen.{RingSeen};
    ghost use Rattle.chains.specs.State.{HasAreas};

    ghost Value = { RingSeen × Memory };

    ghost view = { λ b. (b.ring, b.ram) };

    ghost invariant = { λ b. HasAreas (length b.ram.bytes) b.ring.state × Fits b.ring.decoder b.ram };
}

impl Bench {
    /// A new ring of some slots, whose three areas are in page 0 of a RAM with this base.
    fn new(alloc: Global, ram: Ram, base: u64, size: u32) -> Bench
        requires low { base ≤ BASE }
        requires some { 1 ≤ size }
        requires few { size ≤ 16 }
    {
        ram.recall();
        let queue = Queue {
            size,
            descriptors: base,
            driver: base + 0x200,
            device: base + 0x300,
            is_ready: true,
            is_notified: true,
        };
        let ring = SplitRing::new_at(alloc, &queue, FEATURES, base, Positions::FIRST);
        Bench { ring, ram }
    }

    /// Writes where a test says. The RAM is a later one, so what the ring keeps fits it.
    fn store(&mut self, addr: u64, bytes: &[u8]) {
        fits_later();
        let _touched = self.ram.write(addr, bytes);
    }

    /// What a look finds: how many segments may be written, and the first one's address and length; and how many descriptors were
    /// decoded by then.
    fn look(&mut self) -> Result<(usize, u64, u32, u64), NoMemory> {
        let next = self.ring.next(&self.ram)?;
        let decoded = self.ring.decoded();
        let Next::Chain(chain) = next else {
            return Ok((0, 0, 0, decoded));
        };
        match chain.writable.as_slice() {
            [] => Ok((0, 0, 0, decoded)),
            [seg, ..] => Ok((chain.writable.len(), seg.addr, seg.len, decoded)),
        }
    }

    /// Whether a look finds that the driver broke a rule.
    fn is_malformed(&mut self) -> Result<bool, NoMemory> {
        let next = self.ring.next(&self.ram)?;
        Ok(matches!(&next, Next::Malformed))
    }

    /// Descriptor 0 is one byte to be written at 0x800, and the driver has made its chain available.
    fn one_buffer(&mut self) {
        self.store(0, &[0, 8, 0, 0, 0, 0, 0, 0, 1, 0, 0, 0, 2, 0, 0, 0]);
        self.store(0x200, &[0, 0, 1, 0, 0, 0]);
    }

    /// Descriptor 0 is one byte to be written at index 0x800 of RAM, descriptor 1 names a table at index 0x900, whose first entry is
    /// one byte to be written at index 0xa00, and the driver has made their chain available. `high` is the fourth byte of each address:
    /// that of the base of RAM.
    fn one_table(&mut self, high: u8) {
        self.store(0, &[0, 8, 0, high, 0, 0, 0, 0, 1, 0, 0, 0, 3, 0, 1, 0]);
        self.store(16, &[0, 9, 0, high, 0, 0, 0, 0, 32, 0, 0, 0, 4, 0, 0, 0]);
        self.store(0x900, &[0, 10, 0, high, 0, 0, 0, 0, 1, 0, 0, 0, 2, 0, 0, 0]);
        self.store(0x200, &[0, 0, 1, 0, 0, 0]);
    }
}

/// The bytes of sixteen descriptors of one byte each at 0x800, each but the last followed by another.
fn sixteen() -> [u8; 256] {
    let mut bytes = [0; 256];
    for index in 0..16usize {
        let entry = 16 * index;
        bytes[entry + 1] = 8;
        bytes[entry + 8] = 1;
        bytes[entry + 12] = if index < 15 { 3 } else { 2 };
        bytes[entry + 14] = if index < 15 { index as u8 + 1 } else { 0 };
    }
    bytes
}

/// A kept descriptor is used until its page is written, whatever is written there.
#[test]
fn kept_until_the_page_is_written(rt: HostRuntime) -> Result<(), Fail> {
    let mut bench = Bench::new(rt.alloc(), Ram::new(rt.alloc(), 2)?, 0, 1);
    bench.one_buffer();
    assert_eq!(rt; bench.look()?, (1, 0x800, 1, 1));
    assert_eq!(rt; bench.look()?, (1, 0x800, 1, 1));
    bench.store(0x1000, &[1]);
    assert_eq!(rt; bench.look()?, (1, 0x800, 1, 1));
    bench.store(0x900, &[1]);
    assert_eq!(rt; bench.look()?, (1, 0x800, 1, 2));
    bench.store(8, &[2, 0, 0, 0]);
    assert_eq!(rt; bench.look()?, (1, 0x800, 2, 3));
    Ok(())
}

/// The greatest version says nothing of the page: it stays when the page is written.
#[test]
fn never_used_at_the_greatest_version(rt: HostRuntime) -> Result<(), Fail> {
    let ram = Ram::with_version(rt.alloc(), 1, u64::MAX - 1)?;
    let mut bench = Bench::new(rt.alloc(), ram, 0, 1);
    bench.one_buffer();
    assert_eq!(rt; bench.look()?, (1, 0x800, 1, 1));
    bench.store(8, &[2, 0, 0, 0]);
    assert_eq!(rt; bench.look()?, (1, 0x800, 2, 2));
    assert_eq!(rt; bench.look()?, (1, 0x800, 2, 3));
    Ok(())
}

/// Sixteen descriptors have a place each. What follows them is another one's place.
#[test]
fn sixteen_are_kept(rt: HostRuntime) -> Result<(), Fail> {
    let mut bench = Bench::new(rt.alloc(), Ram::new(rt.alloc(), 2)?, 0, 16);
    bench.store(0, &sixteen());
    bench.store(0x200, &[0, 0, 1, 0, 0, 0]);
    assert_eq!(rt; bench.look()?, (16, 0x800, 1, 16));
    assert_eq!(rt; bench.look()?, (16, 0x800, 1, 16));
    Ok(())
}

/// The entries of an indirect table are decoded at each look. A chain of as many descriptors as there are slots, of which the
/// last names a table, is where one more is decoded than there are slots.
#[test]
fn tables_are_decoded_again(rt: HostRuntime) -> Result<(), Fail> {
    let mut bench = Bench::new(rt.alloc(), Ram::new(rt.alloc(), 2)?, 0, 2);
    bench.one_table(0);
    assert_eq!(rt; bench.look()?, (2, 0x800, 1, 3));
    assert_eq!(rt; bench.look()?, (2, 0x800, 1, 4));
    // The first entry of the table names the second one, for which there is no slot.
    bench.store(0x90c, &[3, 0, 1, 0]);
    assert_eq!(rt; bench.look()?, (0, 0, 0, 7));
    Ok(())
}

/// Over a RAM that begins at a base the addresses are as much greater, and all else is as over one that begins at 0.
#[test]
fn a_base_moves_addresses_alone(rt: HostRuntime) -> Result<(), Fail> {
    let mut bench = Bench::new(rt.alloc(), Ram::new(rt.alloc(), 2)?, BASE, 2);
    bench.one_table(0x80);
    assert_eq!(rt; bench.look()?, (2, 0x8000_0800, 1, 3));
    assert_eq!(rt; bench.look()?, (2, 0x8000_0800, 1, 4));
    // Addresses without the base lie outside RAM.
    bench.one_table(0);
    assert!(rt; bench.is_malformed()?);
    Ok(())
}

/// A buffer whose first byte lies below the base is outside RAM, though its second one is the first of RAM.
#[test]
fn below_the_base_is_malformed(rt: HostRuntime) -> Result<(), Fail> {
    let mut bench = Bench::new(rt.alloc(), Ram::new(rt.alloc(), 1)?, BASE, 1);
    let below = [0xff, 0xff, 0xff, 0x7f, 0, 0, 0, 0, 2, 0, 0, 0, 2, 0, 0, 0];
    bench.store(0, &below);
    bench.store(0x200, &[0, 0, 1, 0, 0, 0]);
    assert!(rt; bench.is_malformed()?);
    bench.store(0, &[0, 0, 0, 0x80]);
    assert_eq!(rt; bench.look()?, (1, BASE, 2, 2));
    Ok(())
}
