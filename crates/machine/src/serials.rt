//! How often each device was touched, so that a host finds out whether the pieces of RAM that it holds of a step are stale (`Pieces`).
//!
//! Whoever does something to a machine that may change a device counts it here: a register write, input, a size, a step, an answer of a disk
//! outside (`touch_by`, which goes by the event), a flush that fails (`touch`). A count that has become the greatest stays, and from then on
//! all pieces of its device are stale: so no number of touches makes old pieces look new.

ghost use Rattle.std.specs.Prelude.{◌≡◌, map, replicate, slice_index};
ghost use Rattle.guestmem.specs.Write.{raised};
ghost use Rattle.machine.specs.Serials.{touched, touched_by};
ghost use Rattle.machine.specs.declared.machine.TheConstants.{DEVICES_MAX};

use crate::event::Event;
use crate::machine::DEVICES_MAX;
use std::marker::Model;

/// How often each device of a machine was touched. Contracts see a count for each of as many devices as a machine can have.
#[derive(Drop)]
pub struct Serials {
    counts: [u64; DEVICES_MAX],
}

impl Model for Serials {
    ghost use Rattle.std.specs.Prelude.{◌≡◌, List, ℕ, length};
    ghost use Rattle.machine.specs.declared.machine.TheConstants.{DEVICES_MAX};

    ghost Value = { List ℕ };

    ghost view = { λ s. s.counts };

    ghost invariant = { λ s. length s.counts ≡ DEVICES_MAX };
}

/// A count after a touch.
fn raised_count(count: u64) -> u64
    ensures { result ≡ raised count }
{
    count.saturating_add(1)
}

/// Each count rises.
fn raise_all(counts: &mut [u64])
    ensures { counts.new ≡ map raised counts.old }
{
    for count in counts.iter_mut() {
        *count = raised_count(*count);
    }
}

impl Serials {
    /// No device was touched.
    pub fn new() -> Serials
        ensures { result ≡ replicate DEVICES_MAX 0 }
    {
        Serials {
            counts: [0; DEVICES_MAX],
        }
    }

    /// How often a device was touched.
    pub fn of(&self, dev: u8) -> u64
        ensures { result ≡ slice_index self.now dev }
    {
        match self.counts.get(dev as usize) {
            Some(count) => *count,
            None => 0,
        }
    }

    /// A device is touched.
    pub fn touch(&mut self, dev: u8)
        ensures { self.new ≡ touched self.old dev }
    {
        let dev = dev as usize;
        if dev < DEVICES_MAX {
            self.counts[dev] = raised_count(self.counts[dev]);
        }
    }

    /// All devices are touched: by a host that gives the RAM back.
    pub fn touch_all(&mut self)
        ensures { self.new ≡ map raised self.old }
    {
        raise_all(&mut self.counts);
    }

    /// The device that this event may change is touched.
    pub fn touch_by(&mut self, event: &Event)
        ensures { self.new ≡ touched_by self.old event.now }
    {
        match event {
            Event::RegRead { .. } | Event::MemRead { .. } | Event::MemWrite { .. } => {}
            Event::RegWrite { dev, .. } => self.touch(*dev),
            Event::Step { dev, .. } => self.touch(*dev),
            Event::Input { dev, .. } => self.touch(*dev),
            Event::Resize { dev, .. } => self.touch(*dev),
            Event::Drop { dev } => self.touch(*dev),
            Event::Disk { dev, .. } => self.touch(*dev),
        }
    }
}
