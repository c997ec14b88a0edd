//! Which piece of RAM a step still lacks, where only some pieces are held (`chains`, `lacking`). The driver's word about interrupts is no
//! part of it: a step reads that last, after all that it writes.

ghost use Rattle.std.specs.Prelude.{◌≡◌, ◌==◌, ◌<◌, ◌^◌, IfOk, None, Some, if◌then◌else◌, length};
ghost use Rattle.chains.specs.Decoder.{Fits};
ghost use Rattle.chains.specs.Lacking.{LacksOr, TellsLacking};
ghost use Rattle.chains.specs.Places.{AreSegmentsInside, places};
ghost use Rattle.machine.specs.AnyRing.{decoder_in, ring_in};
ghost use Rattle.machine.specs.DeviceStep.{looked_at};
ghost use Rattle.machine.specs.Footprint.{chain_reads, raised};
ghost use Rattle.machine.specs.Lacking.{CoversReads, KnowsDevice};
ghost use Rattle.machine.specs.Sound.{IsSoundDevice};

use crate::any_ring::AnyRing;
use crate::kind::Kind;
use crate::state::DeviceState;
use chains::{Chain, NextKind, Piece, lacks_bytes};
use guestmem::{NoMemory, Ram};
use std::alloc::Global;

impl DeviceState {
    /// Raises the used-buffer interrupt.
    pub(crate) fn raise_used(&mut self)
        ensures { self.new ≡ raised self.old }
    {
        self.registers.raise_used();
    }

    /// The first piece that a step with this pick lacks, if it lacks one. Memory may be refused, as it is for the step.
    pub(crate) fn lacks(
        &self,
        alloc: Global,
        pick: u8,
        ram: &Ram,
        held: &[Piece],
    ) -> Result<Option<Piece>, NoMemory>
        requires sound { IsSoundDevice self.now.registers.ram_base (length ram.now.bytes) self.now }
        ensures { IfOk result (LacksOr (length ram.now.bytes) held.now (KnowsDevice held.now self.now ram.now.bytes pick)) }
    {
        let mut ring = AnyRing::new(alloc);
        if self.looked_ring(alloc, pick, &mut ring) {
            return self.lacks_looked(alloc, pick, &mut ring, ram, held);
        }
        Ok(self.lacks_advanced(pick, ram, held))
    }

    /// The first piece that is lacking of what a step reads that looks at this ring: of the look, and then of the chain that it sees.
    fn lacks_looked(
        &self,
        alloc: Global,
        pick: u8,
        ring: &mut AnyRing,
        ram: &Ram,
        held: &[Piece],
    ) -> Result<Option<Piece>, NoMemory>
        requires sound { IsSoundDevice self.now.registers.ram_base (length ram.now.bytes) self.now }
        requires looked { looked_at self.now pick ≡ Some (ring_in ring.old) }
        requires fits { Fits (decoder_in ring.old) ram.now }
        ensures { IfOk result (LacksOr (length ram.now.bytes) held.now (KnowsDevice held.now self.now ram.now.bytes pick)) }
    {
        if let Some(piece) = ring.lacks(ram, held) {
            return Ok(Some(piece));
        }
        let mut chain = Chain::new(alloc);
        match ring.next_into(ram, &mut chain) {
            NextKind::NoMemory => Err(NoMemory),
            NextKind::Empty => Ok(None),
            NextKind::Malformed => Ok(None),
            NextKind::Chain => Ok(self.lacks_chain(pick, ram, &chain, held)),
        }
    }

    /// The first piece that is lacking of what a step reads of the chain that it sees.
    fn lacks_chain(&self, pick: u8, ram: &Ram, chain: &Chain, held: &[Piece]) -> Option<Piece>
        requires inside { AreSegmentsInside self.now.registers.ram_base (length ram.now.bytes) chain.now.readable }
        requires total { length (places chain.now.readable) < 2 ^ 32 }
        ensures { TellsLacking held.now ram.now.bytes (chain_reads self.now.kind pick self.now.registers.ram_base chain.now) result }
    {
        let base = self.registers.ram_base();
        let count = most_read(&self.kind, pick);
        lacks_bytes(held, base, ram, chain.readable.as_slice(), 0, count)
    }

    /// The first piece that is lacking of what a step reads that looks at no queue: of the request that it advances, if it advances one.
    fn lacks_advanced(&self, pick: u8, ram: &Ram, held: &[Piece]) -> Option<Piece>
        requires sound { IsSoundDevice self.now.registers.ram_base (length ram.now.bytes) self.now }
        requires unlooked { looked_at self.now pick ≡ None }
        ensures { LacksOr (length ram.now.bytes) held.now (KnowsDevice held.now self.now ram.now.bytes pick) result }
    {
        if !self.advances(pick) {
            return None;
        }
        let base = self.registers.ram_base();
        let k = pick as usize - 1;
        match &self.kind {
            Kind::Block(block) => block.lacks(k, base, ram, held),
            Kind::Outside(block) => block.lacks(k, base, ram, held),
            Kind::Network { .. } | Kind::Console { .. } | Kind::Entropy(_) => None,
        }
    }
}

/// How many bytes of a chain in the queue of this number a step of such a device reads at most, from the first readable one on.
fn most_read(kind: &Kind, number: u8) -> u64
    ensures { CoversReads kind.now number result }
{
    match kind {
        Kind::Network { .. } | Kind::Console { .. } => most_sent(number),
        Kind::Block(_) | Kind::Outside(_) => 32,
        Kind::Entropy(_) => 0,
    }
}

/// The same of a device that receives in its first queue and sends in its second.
fn most_sent(number: u8) -> u64
    ensures { result ≡ (if number == 0 then 0 else 2 ^ 32) }
{
    if number == 0 { 0 } else { 1 << 32 }
}
