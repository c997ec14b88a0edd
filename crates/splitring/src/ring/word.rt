//! The driver's word about interrupts, and the places that a step writes, apart from the step: for a host whose guest runs, which reads the
//! one and stores the others by itself.

ghost use Rattle.std.specs.Prelude.{◌≡◌, ◌+◌, ◌*◌, ◌%◌, ◌/◌, ◌<◌, ◌^◌, ℕ, List, [], ◌∷◌, None, Some, slice_index, take, false, if◌then◌else◌};
ghost use Rattle.chains.specs.Footprint.{event_piece, quiet_word};
ghost use Rattle.chains.specs.Publish.{is_interrupt_due};

use super::{ELEMENT_SIZE, HEAD_SIZE, INDEX, NO_INTERRUPT, RING, SplitRing};
use crate::slot::slot_of;
use chains::Piece;

impl SplitRing {
    /// Where the driver's word about interrupts lies (VIRTIO 1.2, 2.7.7): used_event with event indexes, else the flags.
    pub fn word(&self) -> Piece
        requires near { self.now.state.driver < 2 ^ 63 }
        ensures { result ≡ event_piece self.now.state }
    {
        let core = &self.core;
        if core.has_event_index() {
            return Piece {
                at: core.driver + RING + HEAD_SIZE * core.size as u64,
                count: 2,
            };
        }
        Piece {
            at: core.driver,
            count: 2,
        }
    }

    /// A word that asks for no interrupt for what is published next, in the first bytes of the result.
    #[tactic(auto, unfolding(chains::specs::Footprint::quiet_word))]
    pub fn quiet(&self) -> [u8; 4]
        ensures { take (event_piece self.now.state).count result ≡ quiet_word self.now.state }
    {
        if self.core.has_event_index() {
            let next = self.core.used.place.wrapping_add(1);
            return [(next % 256) as u8, (next / 256) as u8, 0, 0];
        }
        [1, 0, 0, 0]
    }

    /// Whether this word of the driver, in the first two bytes, asks for an interrupt for a chain that is published at the used index.
    pub fn is_asked(&self, word: [u8; 4]) -> bool
        ensures { (ram : List ℕ) (slots : ℕ) → ((k : ℕ) → k < (event_piece self.now.state).count → slice_index ram ((event_piece self.now.state).at + k) ≡ slice_index word k) → result ≡ is_interrupt_due self.now.state slots ram }
    {
        let first = number_of(word[0], word[1]);
        if self.core.has_event_index() {
            return first == self.core.used.place;
        }
        first & NO_INTERRUPT != NO_INTERRUPT
    }

    /// The pieces of RAM that publishing a chain writes, in the order in which they are to be stored: the element, and then the index.
    pub fn stores(&self) -> (Piece, Piece)
        requires near { self.now.state.device < 2 ^ 63 }
        ensures layout { self.now.state.is_packed ≡ false }
        ensures element { result.0 ≡ record { at = self.now.state.device + 4 + 8 * (self.now.state.used.place % self.now.state.size); count = 8 } }
        ensures index { result.1 ≡ record { at = self.now.state.device + 2; count = 2 } }
    {
        let core = &self.core;
        let slot = slot_of(core.used.place, core.size);
        let element = Piece {
            at: core.device + RING + ELEMENT_SIZE * slot as u64,
            count: ELEMENT_SIZE,
        };
        let index = Piece {
            at: core.device + INDEX,
            count: 2,
        };
        (element, index)
    }

    /// The piece of RAM in which the note of an empty queue is written, with event indexes.
    pub fn note(&self) -> Option<Piece>
        requires near { self.now.state.device < 2 ^ 63 }
        ensures layout { self.now.state.is_packed ≡ false }
        ensures note { result ≡ (if self.now.state.has_event_index then Some (record { at = self.now.state.device + 4 + 8 * self.now.state.size; count = 2 }) else None) }
    {
        let core = &self.core;
        if !core.has_event_index() {
            return None;
        }
        Some(Piece {
            at: core.device + RING + ELEMENT_SIZE * core.size as u64,
            count: 2,
        })
    }
}

/// The number in two bytes, the lower one first.
fn number_of(low: u8, high: u8) -> u16
    ensures { result ≡ low + 256 * high }
{
    low as u16 + 256 * high as u16
}
