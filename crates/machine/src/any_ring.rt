//! A ring of the layout that the driver's features name.
//!
//! The layout is named by feature bit 34, which is fixed while a queue is ready; devices are generic over `Ring` and see
//! neither. This type keeps the ring of a queue and is no `Ring` itself: each of its calls would tell the layout apart again.

mod storing;

ghost use Rattle.std.specs.Prelude.{◌≡◌, ◌<◌, ◌≤◌, ◌^◌, ℕ, List, take, true, false, length, None};
ghost use Rattle.chains.specs.Footprint.{event_piece, look_pieces, quiet_word};
ghost use Rattle.chains.specs.Lacking.{TellsLacking};
ghost use Rattle.chains.specs.Gives.{Gives, GivesBounded};
ghost use Rattle.chains.specs.Publish.{after_take, is_interrupt_due};
ghost use Rattle.chains.specs.RingCore.{core_state};
ghost use Rattle.guestmem.specs.Memory.{Memory};
ghost use Rattle.chains.specs.Decoder.{Fits};
ghost use Rattle.chains.specs.State.{AreAbove, HasAreas, MayRing, state_of};
ghost use Rattle.mmio.specs.Bits.{has};
ghost use Rattle.mmio.specs.declared.constants.TheConstants.{RING_PACKED};
ghost use Rattle.machine.specs.Asked.{IsWordAt};
ghost use Rattle.machine.specs.Rings.{emptied};
ghost use Rattle.machine.specs.AnyRing.{ring_in, decoder_in, is_packed_in};

use chains::{Chain, NextKind, Piece, Positions, Ring, RingCore, Site};
use guestmem::Ram;
use mmio::{Queue, RING_PACKED};
use packedring::PackedRing;
use splitring::SplitRing;
use std::alloc::Global;

/// A ring of either layout.
#[derive(Drop)]
pub(crate) enum AnyRing {
    Split(SplitRing),
    Packed(PackedRing),
}

impl AnyRing {
    /// A ring of no queue yet, which keeps nothing. It takes no memory.
    pub fn new(alloc: Global) -> AnyRing
        ensures { (ram : Memory) → Fits (decoder_in result) ram }
    {
        let queue = Queue {
            size: 1,
            descriptors: 0,
            driver: 0,
            device: 0,
            is_ready: false,
            is_notified: false,
        };
        AnyRing::Split(SplitRing::new(alloc, &queue, 0, Positions::FIRST))
    }

    /// Makes it the ring of a queue at these positions, in the layout that the features name: RING_PACKED names the packed one (VIRTIO 1.2, 6).
    /// What it keeps of descriptors stays, unless the layout is another one. The core is made where its layout is known: made before that,
    /// it would be kept in memory for `turn`.
    #[inline(always)]
    pub fn renew(&mut self, site: Site, queue: &Queue, features: u64, positions: Positions)
        requires may { MayRing (state_of queue.now features site.base positions) }
        requires above { AreAbove site.base queue.now }
        ensures ring { ring_in self.new ≡ state_of queue.now features site.base positions }
        ensures kept { is_packed_in self.old ≡ has features RING_PACKED → decoder_in self.new ≡ decoder_in self.old }
        ensures fits { (ram : Memory) → Fits (decoder_in self.old) ram → Fits (decoder_in self.new) ram }
    {
        let is_packed = features & RING_PACKED == RING_PACKED;
        match self {
            AnyRing::Split(ring) if !is_packed => ring.renew(RingCore::new(
                site.alloc, queue, features, site.base, positions,
            )),
            AnyRing::Packed(ring) if is_packed => ring.renew(RingCore::new(
                site.alloc, queue, features, site.base, positions,
            )),
            _ => self.turn(RingCore::new(site.alloc, queue, features, site.base, positions)),
        }
    }

    /// Makes it a ring that keeps nothing, of the layout that the features name. That is seldom: a driver chooses its layout once.
    #[cold]
    #[inline(never)]
    fn turn(&mut self, core: RingCore)
        requires { MayRing (core_state (has core.features RING_PACKED) core) }
        ensures ring { ring_in self.new ≡ core_state (has core.features RING_PACKED) core }
        ensures fits { (ram : Memory) → Fits (decoder_in self.new) ram }
    {
        if core.features & RING_PACKED == RING_PACKED {
            *self = AnyRing::Packed(PackedRing::of(core));
        } else {
            *self = AnyRing::Split(SplitRing::of(core));
        }
    }

    /// Keeps no descriptor any more.
    pub fn forget(&mut self)
        ensures ring { self.new ≡ emptied self.old }
        ensures fits { (ram : Memory) → Fits (decoder_in self.new) ram }
    {
        match self {
            AnyRing::Split(ring) => ring.forget(),
            AnyRing::Packed(ring) => ring.forget(),
        }
    }

    /// The first piece of RAM that a look lacks, where these pieces are held, if it lacks one.
    pub fn lacks(&self, ram: &Ram, held: &[Piece]) -> Option<Piece>
        requires { HasAreas (length ram.now.bytes) (ring_in self.now) }
        ensures { TellsLacking held.now ram.now.bytes (look_pieces ram.now.bytes (ring_in self.now)) result }
    {
        match self {
            AnyRing::Split(ring) => ring.lacks(ram, held),
            AnyRing::Packed(ring) => ring.lacks(ram, held),
        }
    }

    /// What is at the taking position, with the chain filled in (`Ring::next_into`).
    pub fn next_into(&mut self, ram: &Ram, chain: &mut Chain) -> NextKind
        requires areas { HasAreas (length ram.now.bytes) (ring_in self.old) }
        requires fits { Fits (decoder_in self.old) ram.now }
        ensures gives { Gives ram.now.bytes (ring_in self.old) result chain.new }
        ensures bounded { GivesBounded (length ram.now.bytes) (ring_in self.old) result chain.new }
        ensures ring { ring_in self.new ≡ ring_in self.old }
    {
        match self {
            AnyRing::Split(ring) => ring.next_into(ram, chain),
            AnyRing::Packed(ring) => ring.next_into(ram, chain),
        }
    }

    /// Takes the chain that was found (`Ring::take`).
    pub fn take(&mut self, chain: &Chain)
        requires slots { chain.now.slots ≤ (ring_in self.old).size }
        ensures { ring_in self.new ≡ after_take (ring_in self.old) chain.now.slots }
    {
        match self {
            AnyRing::Split(ring) => ring.take(chain),
            AnyRing::Packed(ring) => ring.take(chain),
        }
    }

    /// Where the driver's word about interrupts lies.
    pub fn word(&self) -> Piece
        requires near { (ring_in self.now).driver < 2 ^ 63 }
        ensures { result ≡ event_piece (ring_in self.now) }
    {
        match self {
            AnyRing::Split(ring) => ring.word(),
            AnyRing::Packed(ring) => ring.word(),
        }
    }

    /// A word that asks for no interrupt for what is published next, in as many bytes as the word has.
    pub fn quiet(&self) -> [u8; 4]
        ensures { take (event_piece (ring_in self.now)).count result ≡ quiet_word (ring_in self.now) }
    {
        match self {
            AnyRing::Split(ring) => ring.quiet(),
            AnyRing::Packed(ring) => ring.quiet(),
        }
    }

    /// Whether this word of the driver asks for an interrupt for a chain of `slots` slots that is published at the used position.
    pub fn is_asked(&self, slots: u16, word: [u8; 4]) -> bool
        ensures { (ram : List ℕ) → IsWordAt ram (event_piece (ring_in self.now)) word → result ≡ is_interrupt_due (ring_in self.now) slots ram }
    {
        match self {
            AnyRing::Split(ring) => ring.is_asked(word),
            AnyRing::Packed(ring) => ring.is_asked(slots, word),
        }
    }
}
