//! What a step publishes, before it is made: so a host knows which word of the driver it has to read last.

ghost use Rattle.std.specs.Prelude.{◌≡◌, ◌-◌, ◌<◌, ◌^◌, IfOk, None, Some, length};
ghost use Rattle.chains.specs.Decoder.{Fits};
ghost use Rattle.machine.specs.AnyRing.{decoder_in, ring_in};
ghost use Rattle.machine.specs.Asked.{IsAsking};
ghost use Rattle.machine.specs.DeviceStep.{advanced_at, looked_at};
ghost use Rattle.machine.specs.Footprint.{ending_at};
ghost use Rattle.machine.specs.Sound.{IsSoundDevice};

use crate::any_ring::AnyRing;
use crate::asking::Asking;
use crate::state::DeviceState;
use chains::{Chain, NextKind};
use guestmem::{NoMemory, Ram};
use std::alloc::Global;

impl DeviceState {
    /// What a step with this pick publishes, if it publishes a chain. Memory may be refused, as it is for the step.
    pub(crate) fn asking(
        &self,
        alloc: Global,
        pick: u8,
        ram: &Ram,
    ) -> Result<Option<Asking>, NoMemory>
        requires sound { IsSoundDevice self.now.registers.ram_base (length ram.now.bytes) self.now }
        ensures { IfOk result (λ asking. IsAsking self.now ram.now.bytes pick asking) }
    {
        let mut ring = AnyRing::new(alloc);
        if self.looked_ring(alloc, pick, &mut ring) {
            return self.asking_looked(alloc, pick, ring, ram);
        }
        if !self.advanced_ring(alloc, pick, &mut ring) {
            return Ok(None);
        }
        ram.recall();
        Ok(self.asking_advanced(pick, ring))
    }

    /// The same of a step that looks at this ring: the chain there, which the step takes before it publishes it.
    fn asking_looked(
        &self,
        alloc: Global,
        pick: u8,
        ring: AnyRing,
        ram: &Ram,
    ) -> Result<Option<Asking>, NoMemory>
        requires sound { IsSoundDevice self.now.registers.ram_base (length ram.now.bytes) self.now }
        requires looked { looked_at self.now pick ≡ Some (ring_in ring) }
        requires fits { Fits (decoder_in ring) ram.now }
        ensures { IfOk result (λ asking. IsAsking self.now ram.now.bytes pick asking) }
    {
        ram.recall();
        let mut ring = ring;
        let mut chain = Chain::new(alloc);
        match ring.next_into(ram, &mut chain) {
            NextKind::NoMemory => Err(NoMemory),
            NextKind::Empty => Ok(None),
            NextKind::Malformed => Ok(None),
            NextKind::Chain => {
                ring.take(&chain);
                Ok(Some(Asking::new(ring, chain.slots)))
            }
        }
    }

    /// The same of a step that advances a request, on this ring: the request's chain, which was taken before.
    fn asking_advanced(&self, pick: u8, ring: AnyRing) -> Option<Asking>
        requires near { (ring_in ring).driver < 2 ^ 63 }
        ensures { result ≡ ending_at self.now.kind (pick - 1) (Some (ring_in ring)) }
    {
        let k = (pick as usize).saturating_sub(1);
        match self.kind.request_slots(k) {
            Some(slots) => Some(Asking::new(ring, slots)),
            None => None,
        }
    }
}
