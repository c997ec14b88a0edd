//! The driver's word about interrupts, and the places that a step writes, apart from the step: for a host whose guest runs, which reads the
//! one and stores the others by itself.

ghost use Rattle.std.specs.Prelude.{◌≡◌, ◌+◌, ◌*◌, ◌<◌, ◌^◌, ℕ, List, None, Some, slice_index, take, true, if◌then◌else◌};
ghost use Rattle.chains.specs.Footprint.{event_piece, quiet_word};
ghost use Rattle.chains.specs.Publish.{is_interrupt_due};

use super::{LENGTH, PackedRing};
use crate::events::{AREA_SIZE, DESC, DISABLE, FLAG_VALUES, is_covered};
use chains::{DESCRIPTOR_SIZE, Piece};

impl PackedRing {
    /// Where the driver's word about interrupts lies: its event suppression structure (VIRTIO 1.2, 2.8.14).
    pub fn word(&self) -> Piece
        ensures { result ≡ event_piece self.now.state }
    {
        Piece {
            at: self.core.driver,
            count: AREA_SIZE as u64,
        }
    }

    /// A word that asks for no interrupt.
    #[tactic(auto, unfolding(chains::specs::Footprint::quiet_word))]
    pub fn quiet(&self) -> [u8; AREA_SIZE]
        ensures { take (event_piece self.now.state).count result ≡ quiet_word self.now.state }
    {
        let _core = &self.core;
        [0, 0, 1, 0]
    }

    /// Whether this word of the driver asks for an interrupt for a chain of `slots` slots that is published at the used position.
    pub fn is_asked(&self, slots: u16, word: [u8; AREA_SIZE]) -> bool
        ensures { (ram : List ℕ) → ((k : ℕ) → k < (event_piece self.now.state).count → slice_index ram ((event_piece self.now.state).at + k) ≡ slice_index word k) → result ≡ is_interrupt_due self.now.state slots ram }
    {
        let core = &self.core;
        let flags = number_of(word[2], word[3]) % FLAG_VALUES;
        if flags == DISABLE {
            return false;
        }
        if !core.has_event_index() {
            return true;
        }
        if flags != DESC {
            return true;
        }
        is_covered(number_of(word[0], word[1]), core.used, slots, core.size)
    }

    /// The piece of RAM that publishing a chain writes: length, id and flags, which are to be stored at once.
    pub fn stores(&self) -> Piece
        requires near { self.now.state.descriptors < 2 ^ 63 }
        ensures layout { self.now.state.is_packed ≡ true }
        ensures used { result ≡ record { at = self.now.state.descriptors + DESCRIPTOR_SIZE * self.now.state.used.place + 8; count = 8 } }
    {
        let core = &self.core;
        Piece {
            at: core.descriptors + DESCRIPTOR_SIZE * core.used.place as u64 + LENGTH,
            count: 8,
        }
    }

    /// The piece of RAM in which the note of an empty queue is written, with event indexes.
    pub fn note(&self) -> Option<Piece>
        ensures layout { self.now.state.is_packed ≡ true }
        ensures note { result ≡ (if self.now.state.has_event_index then Some (record { at = self.now.state.device; count = 4 }) else None) }
    {
        let core = &self.core;
        if !core.has_event_index() {
            return None;
        }
        Some(Piece {
            at: core.device,
            count: AREA_SIZE as u64,
        })
    }
}

/// The number in two bytes, the lower one first.
fn number_of(low: u8, high: u8) -> u16
    ensures { result ≡ low + 256 * high }
{
    low as u16 + 256 * high as u16
}
