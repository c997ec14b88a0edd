//! The driver's word about interrupts, which a step that publishes a chain reads last, after all that it writes.
//!
//! A host that makes the step beside the guest (`Parked::step_over`) takes this value before it, and so knows where the word lies, which word
//! asks for nothing, and, once the true word was read, whether that asks for an interrupt.

ghost use Rattle.std.specs.Prelude.{◌≡◌, ◌<◌, ◌^◌, ℕ, IsTrue, List, take};
ghost use Rattle.chains.specs.Footprint.{KnowsPiece, event_piece, quiet_word};
ghost use Rattle.chains.specs.Publish.{is_interrupt_due};
ghost use Rattle.machine.specs.AnyRing.{ring_in};
ghost use Rattle.machine.specs.Asked.{IsWordAt};
ghost use Rattle.machine.specs.Opening.{TellsShared};
ghost use Rattle.machine.specs.Stored.{indexes_of};

use crate::any_ring::AnyRing;
use crate::sharing::pieces_meet;
use chains::{Piece, is_held};
use std::marker::Model;

/// What a step publishes, if it publishes a chain: the ring as it is then, and the slots of the chain.
#[derive(Drop)]
pub struct Asking {
    ring: AnyRing,
    slots: u16,
}

impl Model for Asking {
    ghost use Rattle.std.specs.Prelude.{◌<◌, ◌^◌};
    ghost use Rattle.machine.specs.AnyRing.{ring_in};
    ghost use Rattle.machine.specs.Footprint.{Publishing};

    ghost Value = { Publishing };

    ghost view = { λ a. record { ring = ring_in a.ring; slots = a.slots } };

    ghost invariant = { λ a. (ring_in a.ring).driver < 2 ^ 63 };
}

impl Asking {
    /// What a step publishes that publishes a chain of `slots` slots on this ring.
    pub(crate) fn new(ring: AnyRing, slots: u16) -> Asking
        requires near { (ring_in ring).driver < 2 ^ 63 }
        ensures { result ≡ record { ring = ring_in ring; slots = slots } }
    {
        Asking { ring, slots }
    }

    /// The piece of RAM in which the word lies. Once the step has published its chain, and all that it wrote is stored, the word is to be
    /// read there, and it is the last that the step reads.
    pub fn word(&self) -> Piece
        ensures { result ≡ event_piece self.now.ring }
    {
        self.ring.word()
    }

    /// Whether a byte of the word lies in one of these pieces. Where it lies in one of those that are held, the step reads it beside all else:
    /// so the quiet word cannot be put there.
    pub fn shares(&self, held: &[Piece]) -> bool
        ensures { TellsShared (indexes_of held.now) (event_piece self.now.ring) result }
    {
        pieces_meet(held, self.ring.word())
    }

    /// Whether the whole word lies in one of the pieces that are held. Then the step over the window is closed at once.
    pub fn is_held(&self, held: &[Piece]) -> bool
        ensures { IsTrue result → KnowsPiece held.now (event_piece self.now.ring) }
    {
        is_held(held, self.ring.word())
    }

    /// A word that asks for no interrupt, in as many bytes as the piece of the word has.
    pub fn quiet(&self) -> [u8; 4]
        ensures { take (event_piece self.now.ring).count result ≡ quiet_word self.now.ring }
    {
        self.ring.quiet()
    }

    /// Whether this word asks for an interrupt for the chain that the step published. The word is in as many bytes as its piece has; those
    /// after them make no difference.
    pub fn is_due(&self, word: [u8; 4]) -> bool
        ensures { (ram : List ℕ) → IsWordAt ram (event_piece self.now.ring) word → result ≡ is_interrupt_due self.now.ring self.now.slots ram }
    {
        self.ring.is_asked(self.slots, word)
    }
}
