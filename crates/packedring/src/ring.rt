//! A packed ring.
//!
//! The flag WRITE of a used descriptor says whether bytes were written (VIRTIO 1.2, 2.8.3), so `publish` takes that beside the
//! count.

mod word;

ghost use Rattle.std.specs.Prelude.{◌≡◌, ◌≤◌, ◌<◌, ◌+◌, ◌++◌, true, length, IsTrue, ◌↔◌};
ghost use Rattle.guestmem.specs.Memory.{Memory};
ghost use Rattle.chains.specs.Decoder.{Fits, empty_decoder};
ghost use Rattle.chains.specs.Footprint.{look_pieces};
ghost use Rattle.chains.specs.Lacking.{TellsLacking};
ghost use Rattle.chains.specs.RingCore.{core_state};
ghost use Rattle.chains.specs.State.{state_of, MayRing, HasAreas};
ghost use Rattle.chains.specs.PackedChain.{IsAvailable};
ghost use Rattle.chains.specs.Publish.{is_packed_due, bit_if};
ghost use Rattle.byteorder.specs.Endian.{little_bytes};

use crate::events::{DESC, DISABLE, FLAG_VALUES, FLAGS, asking_at, is_covered};
use crate::going_on::going_on;
use crate::table::find;
use byteorder::{ByteOrder, LittleEndian};
use chains::flags::{AVAIL, USED, WRITE};
use chains::{
    Chain, DESCRIPTOR_SIZE, Decoder, Descriptor, Next, NextKind, Piece, Positions, Ring, RingCore,
    lacks_packed,
};
use guestmem::{NoMemory, Ram, TouchLog};
use mmio::Queue;
use std::alloc::Global;
use std::marker::Model;

/// The offset of length, id and flags in a descriptor, after the address.
const LENGTH: u64 = 8;

/// A ring in the packed layout. Both positions are slots of it.
#[derive(Drop)]
pub struct PackedRing {
    core: RingCore,
    decoder: Decoder,
}

impl Model for PackedRing {
    ghost use Rattle.std.specs.Prelude.{◌<◌, true};
    ghost use Rattle.chains.specs.RingSeen.{RingSeen};
    ghost use Rattle.chains.specs.RingCore.{core_state};

    ghost Value = { RingSeen };

    ghost view = { λ r. record { state = core_state true r.core; decoder = r.decoder } };

    ghost invariant = { λ r. (r.core.taking.place < r.core.size) × (r.core.used.place < r.core.size) };
}

impl PackedRing {
    /// The ring of a queue at these positions, under the features that the driver accepted, in a RAM that begins at the
    /// guest-physical address 0. It takes no memory: the allocator is for the chains that it finds. It has decoded nothing, so
    /// what it keeps fits every RAM.
    pub fn new(alloc: Global, queue: &Queue, features: u64, positions: Positions) -> PackedRing
        requires layout { (state_of queue.now features 0 positions).is_packed ≡ true }
        requires state { MayRing (state_of queue.now features 0 positions) }
        ensures state { result.state ≡ state_of queue.now features 0 positions }
        ensures decoder { result.decoder ≡ empty_decoder 0 }
        ensures fits { (ram : Memory) → Fits result.decoder ram }
    {
        PackedRing::new_at(alloc, queue, features, 0, positions)
    }

    /// As `new`, in a RAM that begins at the guest-physical address `base`. An area of a queue that is not ready may lie anywhere:
    /// one below the base is taken to begin there.
    pub fn new_at(
        alloc: Global,
        queue: &Queue,
        features: u64,
        base: u64,
        positions: Positions,
    ) -> PackedRing
        requires layout { (state_of queue.now features base positions).is_packed ≡ true }
        requires state { MayRing (state_of queue.now features base positions) }
        ensures state { result.state ≡ state_of queue.now features base positions }
        ensures decoder { result.decoder ≡ empty_decoder 0 }
        ensures fits { (ram : Memory) → Fits result.decoder ram }
    {
        let queue = Queue {
            descriptors: queue.descriptors.max(base),
            driver: queue.driver.max(base),
            device: queue.device.max(base),
            ..*queue
        };
        PackedRing::of(RingCore::new(alloc, &queue, features, base, positions))
    }

    /// The ring of this core, which has decoded nothing.
    pub fn of(core: RingCore) -> PackedRing
        requires slots { (core.taking.place < core.size) × (core.used.place < core.size) }
        ensures state { result.state ≡ core_state true core }
        ensures decoder { result.decoder ≡ empty_decoder 0 }
        ensures fits { (ram : Memory) → Fits result.decoder ram }
    {
        PackedRing {
            core,
            decoder: Decoder::new(),
        }
    }

    /// Makes it the ring of this core, in place. What it keeps stays: each descriptor is kept with its index in RAM, so it may be the
    /// core of another queue.
    pub fn renew(&mut self, core: RingCore)
        requires slots { (core.taking.place < core.size) × (core.used.place < core.size) }
        ensures { self.new ≡ record { state = core_state true core; decoder = self.old.decoder } }
    {
        self.core = core;
    }

    /// Keeps no descriptor any more.
    pub fn forget(&mut self)
        ensures ring { self.new ≡ record { state = self.old.state; decoder = empty_decoder self.old.decoder.decoded } }
        ensures fits { (ram : Memory) → Fits self.new.decoder ram }
    {
        self.decoder.clear();
    }

    /// The first piece of RAM that a look lacks, where these pieces are held, if it lacks one.
    pub fn lacks(&self, ram: &Ram, held: &[Piece]) -> Option<Piece>
        requires { HasAreas (length ram.now.bytes) self.now.state }
        ensures { TellsLacking held.now ram.now.bytes (look_pieces ram.now.bytes self.now.state) result }
    {
        lacks_packed(&self.core, ram, held)
    }

    /// Whether the driver asks for an interrupt for a chain of `slots` slots at the used position, by what it holds in
    /// RAM now.
    #[tactic(auto, unfolding(chains::specs::Publish::is_packed_due))]
    fn is_due(&self, slots: u16, ram: &Ram) -> bool
        requires { HasAreas (length ram.now.bytes) self.now.state }
        ensures { result ≡ is_packed_due self.now.state slots ram.now.bytes }
    {
        ram.recall();
        let core = &self.core;
        let flags = ram.u16_at(core.driver + FLAGS) % FLAG_VALUES;
        if flags == DISABLE {
            return false;
        }
        if core.has_event_index() && flags == DESC {
            return is_covered(ram.u16_at(core.driver), core.used, slots, core.size);
        }
        true
    }
}

impl Ring for PackedRing {
    ghost state = { λ r. r.state };

    ghost decoder = { λ r. r.decoder };

    fn next(&mut self, ram: &Ram) -> Result<Next, NoMemory> {
        let mut chain = Chain::new(self.core.alloc);
        match self.next_into(ram, &mut chain) {
            NextKind::Empty => Ok(Next::Empty),
            NextKind::Malformed => Ok(Next::Malformed),
            NextKind::Chain => Ok(Next::Chain(chain)),
            NextKind::NoMemory => Err(NoMemory),
        }
    }

    #[inline(always)]
    fn next_into(&mut self, ram: &Ram, chain: &mut Chain) -> NextKind {
        ram.recall();
        let taking = self.core.taking;
        let table = self.core.descriptors;
        let first = self.decoder.read(ram, true, table, taking.place, true);
        if !is_available(&first, taking.wrap) {
            return NextKind::Empty;
        }
        NextKind::of(find(&self.core, &mut self.decoder, ram, first, chain))
    }

    fn take(&mut self, chain: &Chain) {
        self.core.taking = going_on(self.core.taking, chain.slots, self.core.size);
    }

    #[inline(always)]
    fn publish<L: TouchLog>(
        &mut self,
        id: u16,
        slots: u16,
        len: u32,
        wrote: bool,
        ram: &mut Ram,
        log: &mut L,
    ) -> bool {
        ram.recall();
        let used = self.core.used;
        let entry = self.core.descriptors + DESCRIPTOR_SIZE * used.place as u64;
        let bytes = used_bytes(len, id, used_flags(wrote, used.wrap));
        ram.put_in_page(entry + LENGTH, &bytes, log);
        let is_due = self.is_due(slots, ram);
        self.core.used = going_on(used, slots, self.core.size);
        is_due
    }

    #[tactic(auto, unfolding(chains::specs::Publish::packed_note))]
    fn note_empty<L: TouchLog>(&mut self, ram: &mut Ram, log: &mut L) {
        ram.recall();
        if self.core.has_event_index() {
            ram.put(self.core.device, &asking_at(self.core.taking), log);
        }
    }

    fn decoded(&self) -> u64 {
        self.decoder.decoded()
    }

    fn positions(&self) -> Positions {
        self.core.positions()
    }
}

/// Whether the driver has made a descriptor available to a device whose wrap counter this is.
fn is_available(descriptor: &Descriptor, wrap: bool) -> bool
    ensures { IsTrue result ↔ IsAvailable wrap descriptor.now }
{
    descriptor.avail_flag == wrap && descriptor.used_flag != wrap
}

/// The flags of a used descriptor.
fn used_flags(wrote: bool, wrap: bool) -> u16
    ensures { result ≡ bit_if wrote WRITE + bit_if wrap AVAIL + bit_if wrap USED }
{
    let write = if wrote { WRITE } else { 0 };
    let both = if wrap { AVAIL | USED } else { 0 };
    write + both
}

/// Length, id and flags of a used descriptor.
fn used_bytes(len: u32, id: u16, flags: u16) -> [u8; 8]
    ensures { result ≡ little_bytes 4 len ++ little_bytes 2 id ++ little_bytes 2 flags }
{
    let mut bytes = [0; 8];
    LittleEndian::write_u32(&mut bytes[0..4], len);
    LittleEndian::write_u16(&mut bytes[4..6], id);
    LittleEndian::write_u16(&mut bytes[6..8], flags);
    bytes
}
