//! A ring with the calls that a ring has to have, and no other.

use chains::{Chain, Next, Positions, Ring};
use guestmem::{NoMemory, Ram, TouchLog};
use splitring::SplitRing;

/// A split ring. What its own type has beyond the calls of a ring is not used.
#[derive(Drop)]
pub struct OwnRing {
    pub inner: SplitRing,
}

impl Ring for OwnRing {
    ghost state = { λ r. ⟦<SplitRing as Ring>⟧.state r.inner };

    ghost decoder = { λ r. ⟦<SplitRing as Ring>⟧.decoder r.inner };

    fn next(&mut self, ram: &Ram) -> Result<Next, NoMemory> {
        self.inner.next(ram)
    }

    fn take(&mut self, chain: &Chain) {
        self.inner.take(chain);
    }

    fn publish<L: TouchLog>(
        &mut self,
        id: u16,
        slots: u16,
        len: u32,
        wrote: bool,
        ram: &mut Ram,
        log: &mut L,
    ) -> bool {
        self.inner.publish(id, slots, len, wrote, ram, log)
    }

    fn note_empty<L: TouchLog>(&mut self, ram: &mut Ram, log: &mut L) {
        self.inner.note_empty(ram, log);
    }

    fn decoded(&self) -> u64 {
        self.inner.decoded()
    }

    fn positions(&self) -> Positions {
        self.inner.positions()
    }
}
