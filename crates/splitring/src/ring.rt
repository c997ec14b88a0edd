//! A split ring.

mod word;

ghost use Rattle.std.specs.Prelude.{◌≡◌, ◌+◌, ◌++◌, ◌≤◌, false, length};
ghost use Rattle.guestmem.specs.Memory.{Memory};
ghost use Rattle.chains.specs.Decoder.{Fits, HasDecoded, empty_decoder};
ghost use Rattle.chains.specs.Footprint.{look_pieces};
ghost use Rattle.chains.specs.Lacking.{TellsLacking};
ghost use Rattle.chains.specs.RingCore.{core_state};
ghost use Rattle.chains.specs.State.{state_of, MayRing, HasAreas};
ghost use Rattle.chains.specs.SplitChain.{available_index};
ghost use Rattle.chains.specs.Publish.{is_split_due};
ghost use Rattle.byteorder.specs.Endian.{little_bytes};

use crate::slot::slot_of;
use crate::table::find;
use byteorder::{ByteOrder, LittleEndian};
use chains::{
    Chain, Decoder, Next, NextKind, NoChain, Piece, Positions, Ring, RingCore, lacks_split,
};
use guestmem::{NoMemory, Ram, TouchLog};
use mmio::Queue;
use std::alloc::Global;
use std::marker::Model;

/// The offset of the index in the driver's and the device's area, after the flags.
const INDEX: u64 = 2;

/// The offset of the ring in both areas. The event index follows it.
const RING: u64 = 4;

/// The bytes of a head in the available ring.
const HEAD_SIZE: u64 = 2;

/// The bytes of an id and a length in the used ring.
const ELEMENT_SIZE: u64 = 8;

/// The flag by which a driver asks for no interrupts (VIRTIO 1.2, 2.7.7).
const NO_INTERRUPT: u16 = 1;

/// A ring in the split layout.
#[derive(Drop)]
pub struct SplitRing {
    core: RingCore,
    decoder: Decoder,
}

impl Model for SplitRing {
    ghost use Rattle.std.specs.Prelude.{false};
    ghost use Rattle.chains.specs.RingSeen.{RingSeen};
    ghost use Rattle.chains.specs.RingCore.{core_state};

    ghost Value = { RingSeen };

    ghost view = { λ r. record { state = core_state false r.core; decoder = r.decoder } };
}

impl SplitRing {
    ghost use Rattle.chains.specs.Gives.{ChainGives};

    /// The ring of a queue at these positions, under the features that the driver accepted, in a RAM that begins at the
    /// guest-physical address 0. It takes no memory: the allocator is for the chains that it finds. It has decoded nothing, so
    /// what it keeps fits every RAM.
    pub fn new(alloc: Global, queue: &Queue, features: u64, positions: Positions) -> SplitRing
        requires layout { (state_of queue.now features 0 positions).is_packed ≡ false }
        requires state { MayRing (state_of queue.now features 0 positions) }
        ensures state { result.state ≡ state_of queue.now features 0 positions }
        ensures decoder { result.decoder ≡ empty_decoder 0 }
        ensures fits { (ram : Memory) → Fits result.decoder ram }
    {
        SplitRing::new_at(alloc, queue, features, 0, positions)
    }

    /// As `new`, in a RAM that begins at the guest-physical address `base`. An area of a queue that is not ready may lie anywhere:
    /// one below the base is taken to begin there.
    pub fn new_at(
        alloc: Global,
        queue: &Queue,
        features: u64,
        base: u64,
        positions: Positions,
    ) -> SplitRing
        requires layout { (state_of queue.now features base positions).is_packed ≡ false }
        requires state { MayRing (state_of queue.now features base positions) }
        ensures state { result.state ≡ state_of queue.now features base positions }
        ensures decoder { result.decoder ≡ empty_decoder 0 }
        ensures fits { (ram : Memory) → Fits result.decoder ram }
    {
        let queue = Queue {
            descriptors: queue.descriptors.max(base),
            driver: queue.driver.max(base),
            device: queue.device.max(base),
            ..*queue
        };
        SplitRing::of(RingCore::new(alloc, &queue, features, base, positions))
    }

    /// The ring of this core, which has decoded nothing.
    pub fn of(core: RingCore) -> SplitRing
        ensures state { result.state ≡ core_state false core }
        ensures decoder { result.decoder ≡ empty_decoder 0 }
        ensures fits { (ram : Memory) → Fits result.decoder ram }
    {
        SplitRing {
            core,
            decoder: Decoder::new(),
        }
    }

    /// Makes it the ring of this core, in place. What it keeps stays: each descriptor is kept with its index in RAM, so it may be the
    /// core of another queue.
    pub fn renew(&mut self, core: RingCore)
        ensures { self.new ≡ record { state = core_state false core; decoder = self.old.decoder } }
    {
        self.core = core;
    }

    /// Keeps no descriptor any more.
    pub fn forget(&mut self)
        ensures ring { self.new ≡ record { state = self.old.state; decoder = empty_decoder self.old.decoder.decoded } }
        ensures fits { (ram : Memory) → Fits self.new.decoder ram }
    {
        self.decoder.clear();
    }

    /// The first piece of RAM that a look lacks, where these pieces are held, if it lacks one.
    pub fn lacks(&self, ram: &Ram, held: &[Piece]) -> Option<Piece>
        requires { HasAreas (length ram.now.bytes) self.now.state }
        ensures { TellsLacking held.now ram.now.bytes (look_pieces ram.now.bytes self.now.state) result }
    {
        lacks_split(&self.core, ram, held)
    }

    /// Fills in the chain at the taking position, if there is one. `available` is the driver's index, which is not that
    /// position.
    #[inline(always)]
    fn fill_chain(&mut self, ram: &Ram, available: u16, chain: &mut Chain) -> Result<(), NoChain>
        requires areas { HasAreas (length ram.now.bytes) self.old.state }
        requires available { available ≡ available_index ram.now.bytes self.old.state }
        requires fits { Fits self.old.decoder ram.now }
        ensures gives { ChainGives ram.now.bytes self.old.state chain.new result }
        ensures state { self.new.state ≡ self.old.state }
        ensures decoded { HasDecoded self.old.decoder self.new.decoder ram.now (self.old.state.size + 1) }
    {
        ram.recall();
        let core = &self.core;
        // More chains than there are slots.
        if available.wrapping_sub(core.taking.place) > core.size {
            return Err(NoChain::Malformed);
        }
        let slot = slot_of(core.taking.place, core.size);
        let head = ram.u16_at(core.driver + RING + HEAD_SIZE * slot as u64);
        find(core, &mut self.decoder, ram, head, chain)?;
        chain.id = head;
        chain.slots = 1;
        Ok(())
    }

    /// Whether the driver asks for an interrupt at the used index, by what it holds in RAM now.
    #[tactic(auto, unfolding(chains::specs::Publish::is_split_due))]
    fn is_due(&self, ram: &Ram) -> bool
        requires { HasAreas (length ram.now.bytes) self.now.state }
        ensures { result ≡ is_split_due self.now.state ram.now.bytes }
    {
        ram.recall();
        let core = &self.core;
        if core.has_event_index() {
            let event = ram.u16_at(core.driver + RING + HEAD_SIZE * core.size as u64);
            return event == core.used.place;
        }
        ram.u16_at(core.driver) & NO_INTERRUPT != NO_INTERRUPT
    }
}

impl Ring for SplitRing {
    ghost state = { λ r. r.state };

    ghost decoder = { λ r. r.decoder };

    fn next(&mut self, ram: &Ram) -> Result<Next, NoMemory> {
        let mut chain = Chain::new(self.core.alloc);
        match self.next_into(ram, &mut chain) {
            NextKind::Empty => Ok(Next::Empty),
            NextKind::Malformed => Ok(Next::Malformed),
            NextKind::Chain => Ok(Next::Chain(chain)),
            NextKind::NoMemory => Err(NoMemory),
        }
    }

    #[inline(always)]
    fn next_into(&mut self, ram: &Ram, chain: &mut Chain) -> NextKind {
        ram.recall();
        let available = ram.u16_at(self.core.driver + INDEX);
        if available == self.core.taking.place {
            return NextKind::Empty;
        }
        NextKind::of(self.fill_chain(ram, available, chain))
    }

    fn take(&mut self, _chain: &Chain) {
        self.core.taking.place = self.core.taking.place.wrapping_add(1);
    }

    #[inline(always)]
    fn publish<L: TouchLog>(
        &mut self,
        id: u16,
        _slots: u16,
        len: u32,
        _wrote: bool,
        ram: &mut Ram,
        log: &mut L,
    ) -> bool {
        ram.recall();
        let slot = slot_of(self.core.used.place, self.core.size);
        let element = self.core.device + RING + ELEMENT_SIZE * slot as u64;
        ram.put(element, &element_bytes(id, len), log);
        let next = self.core.used.place.wrapping_add(1);
        ram.put_in_page(self.core.device + INDEX, &index_bytes(next), log);
        let is_due = self.is_due(ram);
        self.core.used.place = next;
        is_due
    }

    #[tactic(auto, unfolding(chains::specs::Publish::split_note))]
    fn note_empty<L: TouchLog>(&mut self, ram: &mut Ram, log: &mut L) {
        ram.recall();
        if self.core.has_event_index() {
            let event = self.core.device + RING + ELEMENT_SIZE * self.core.size as u64;
            ram.put(event, &index_bytes(self.core.taking.place), log);
        }
    }

    fn decoded(&self) -> u64 {
        self.decoder.decoded()
    }

    fn positions(&self) -> Positions {
        self.core.positions()
    }
}

/// The bytes of an entry of the used ring.
fn element_bytes(id: u16, len: u32) -> [u8; 8]
    ensures { result ≡ little_bytes 4 id ++ little_bytes 4 len }
{
    let mut bytes = [0; 8];
    LittleEndian::write_u32(&mut bytes[0..4], id as u32);
    LittleEndian::write_u32(&mut bytes[4..8], len);
    bytes
}

fn index_bytes(index: u16) -> [u8; 2]
    ensures { result ≡ little_bytes 2 index }
{
    let mut bytes = [0; 2];
    LittleEndian::write_u16(&mut bytes, index);
    bytes
}
