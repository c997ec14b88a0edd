//! What a step writes into RAM, before it is made: so a host knows which pieces it has to store after it.

ghost use Rattle.std.specs.Prelude.{◌≡◌, ◌<◌, ◌^◌, ℕ, All, IfOk, None, Some, length, slice_get};
ghost use Rattle.chains.specs.Decoder.{Fits};
ghost use Rattle.machine.specs.AnyRing.{decoder_in, ring_in};
ghost use Rattle.machine.specs.DeviceStep.{advanced_at, looked_at, requests_of};
ghost use Rattle.machine.specs.Sound.{IsSoundDevice};
ghost use Rattle.machine.specs.Writing.{IsStoring, first_piece, unread, unread_in};

use crate::any_ring::AnyRing;
use crate::kind::Kind;
use crate::state::DeviceState;
use crate::stores::{Stores, Target};
use blk::Request;
use chains::{Chain, DESCRIPTOR_SIZE, NextKind, Piece, Segs};
use guestmem::{NoMemory, Ram};
use mmio::RING_PACKED;
use std::alloc::Global;

impl DeviceState {
    /// What determines the writes of a step with this pick. Memory may be refused, as it is for the step, and for the segments of a request.
    pub(crate) fn storing(&self, alloc: Global, pick: u8, ram: &Ram) -> Result<Stores, NoMemory>
        requires sound { IsSoundDevice self.now.registers.ram_base (length ram.now.bytes) self.now }
        ensures { IfOk result (λ stores. IsStoring self.now ram.now.bytes pick stores) }
    {
        let mut ring = AnyRing::new(alloc);
        if self.looked_ring(alloc, pick, &mut ring) {
            return self.storing_looked(alloc, pick, ring, ram);
        }
        if !self.advanced_ring(alloc, pick, &mut ring) {
            return Ok(Stores::new(0, ring, Target::Nothing));
        }
        self.storing_advanced(alloc, pick, ring, ram)
    }

    /// The same of a step that looks at this ring: what it finds there.
    fn storing_looked(
        &self,
        alloc: Global,
        pick: u8,
        ring: AnyRing,
        ram: &Ram,
    ) -> Result<Stores, NoMemory>
        requires sound { IsSoundDevice self.now.registers.ram_base (length ram.now.bytes) self.now }
        requires looked { looked_at self.now pick ≡ Some (ring_in ring) }
        requires fits { Fits (decoder_in ring) ram.now }
        requires there { pick < length self.now.registers.queues }
        ensures { IfOk result (λ stores. IsStoring self.now ram.now.bytes pick stores) }
    {
        ram.recall();
        let base = self.registers.ram_base();
        let mut ring = ring;
        let mut chain = Chain::new(alloc);
        match ring.next_into(ram, &mut chain) {
            NextKind::NoMemory => Err(NoMemory),
            NextKind::Empty => {
                let first = self.first_piece(pick, &ring);
                Ok(Stores::new(base, ring, Target::Empty(first)))
            }
            NextKind::Malformed => Ok(Stores::new(0, ring, Target::Nothing)),
            NextKind::Chain => Ok(Stores::new(base, ring, Target::Chain(chain))),
        }
    }

    /// The piece that a look at this queue reads first: the driver's index, or the descriptor at the taking position.
    fn first_piece(&self, number: u8, ring: &AnyRing) -> Piece
        requires sound { (len : ℕ) × (len < 2 ^ 63) × IsSoundDevice self.now.registers.ram_base len self.now }
        requires looked { looked_at self.now number ≡ Some (ring_in ring.now) }
        requires there { number < length self.now.registers.queues }
        ensures { result ≡ first_piece (ring_in ring.now) }
    {
        let base = self.registers.ram_base();
        let queue = &self.registers.queues()[number as usize];
        if self.registers.features() & RING_PACKED == RING_PACKED {
            let place = self.positions[number as usize].taking.place;
            return Piece {
                at: queue.descriptors - base + DESCRIPTOR_SIZE * place as u64,
                count: DESCRIPTOR_SIZE,
            };
        }
        Piece {
            at: queue.driver - base + 2,
            count: 2,
        }
    }

    /// The same of a step that advances a request, on this ring.
    fn storing_advanced(
        &self,
        alloc: Global,
        pick: u8,
        ring: AnyRing,
        ram: &Ram,
    ) -> Result<Stores, NoMemory>
        requires sound { IsSoundDevice self.now.registers.ram_base (length ram.now.bytes) self.now }
        requires unlooked { looked_at self.now pick ≡ None }
        requires advanced { advanced_at self.now pick ≡ Some (ring_in ring) }
        ensures { IfOk result (λ stores. IsStoring self.now ram.now.bytes pick stores) }
    {
        ram.recall();
        let base = self.registers.ram_base();
        let k = (pick as usize).saturating_sub(1);
        match copied(alloc, &self.kind, k)? {
            Some(request) => Ok(Stores::new(base, ring, Target::Request(request))),
            None => Ok(Stores::new(0, ring, Target::Nothing)),
        }
    }
}

/// A copy of the k-th outstanding request, from 0, if there is one, without its readable segments.
fn copied(alloc: Global, kind: &Kind, k: usize) -> Result<Option<Request>, NoMemory>
    requires few { All (λ r. length r.writable < 2 ^ 32) (requests_of kind.now) }
    ensures { IfOk result (λ copy. copy ≡ unread_in (slice_get (requests_of kind.now) k)) }
{
    match kind {
        Kind::Block(block) | Kind::Outside(block) => copied_at(alloc, block.requests.as_slice(), k),
        Kind::Network { .. } | Kind::Console { .. } | Kind::Entropy(_) => Ok(None),
    }
}

fn copied_at(alloc: Global, requests: &[Request], k: usize) -> Result<Option<Request>, NoMemory>
    requires few { All (λ r. length r.writable < 2 ^ 32) requests.now }
    ensures { IfOk result (λ copy. copy ≡ unread_in (slice_get requests.now k)) }
{
    if k >= requests.len() {
        return Ok(None);
    }
    Ok(Some(copy_of(alloc, &requests[k])?))
}

/// A copy of a request, without its readable segments.
fn copy_of(alloc: Global, request: &Request) -> Result<Request, NoMemory>
    requires few { length request.now.writable < 2 ^ 32 }
    ensures { IfOk result (λ copy. copy ≡ unread request.now) }
{
    let mut writable = Segs::new(alloc);
    for seg in request.writable.as_slice() {
        writable.push(*seg)?;
    }
    Ok(Request {
        id: request.id,
        slots: request.slots,
        kind: request.kind,
        verdict: request.verdict,
        first: request.first,
        units: request.units,
        done: request.done,
        readable: Segs::new(alloc),
        writable,
    })
}
