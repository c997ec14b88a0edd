//! Where a step on a ring writes last: a note, or what it publishes.

ghost use Rattle.std.specs.Prelude.{◌≡◌, ◌+◌, ◌<◌, ◌^◌, ◌++◌, ℕ, length, take};
ghost use Rattle.std.specs.Int.{bytes_low_first};
ghost use Rattle.chains.specs.Publish.{bit_if};
ghost use Rattle.chains.specs.State.{HasAreas, MayRing};
ghost use Rattle.machine.specs.AnyRing.{ring_in};
ghost use Rattle.machine.specs.Stored.{note_pieces, published_pieces};
ghost use Rattle.machine.specs.Writing.{AreNear, in_two, note_bytes};

use super::AnyRing;
use crate::stores::NO_BYTES;
use chains::{Piece, Position, Ring};

impl AnyRing {
    /// The pieces that publishing a chain writes, in order: one in a packed ring, two in a split one.
    pub fn stores(&self) -> [Piece; 2]
        requires descriptors { (ring_in self.now).descriptors < 2 ^ 63 }
        requires device { (ring_in self.now).device < 2 ^ 63 }
        ensures is { result ≡ in_two (published_pieces (ring_in self.now)) }
        ensures near { AreNear result }
    {
        match self {
            AnyRing::Split(ring) => {
                let _positions = ring.positions();
                let (element, index) = ring.stores();
                [element, index]
            }
            AnyRing::Packed(ring) => {
                let _positions = ring.positions();
                [ring.stores(), NO_BYTES]
            }
        }
    }

    /// The piece that the note of an empty queue writes, if there is one.
    pub fn note(&self) -> [Piece; 2]
        requires areas { (len : ℕ) × (len < 2 ^ 63) × HasAreas len (ring_in self.now) }
        ensures is { result ≡ in_two (note_pieces (ring_in self.now)) }
        ensures near { AreNear result }
    {
        let note = match self {
            AnyRing::Split(ring) => ring.note(),
            AnyRing::Packed(ring) => ring.note(),
        };
        match note {
            Some(piece) => [piece, NO_BYTES],
            None => [NO_BYTES; 2],
        }
    }

    /// The bytes of that note, if there is one, in the first bytes of the result.
    pub fn note_bytes(&self) -> [u8; 4]
        requires may { MayRing (ring_in self.now) }
        requires areas { (len : ℕ) × (len < 2 ^ 63) × HasAreas len (ring_in self.now) }
        ensures { take (length (note_bytes (ring_in self.now))) result ≡ note_bytes (ring_in self.now) }
    {
        match self {
            AnyRing::Split(ring) => {
                let _note = ring.note();
                split_note(ring.positions().taking)
            }
            AnyRing::Packed(ring) => {
                let _note = ring.note();
                packed_note(ring.positions().taking)
            }
        }
    }

    /// Whether the driver accepted event indexes: a note is written where a queue is empty.
    pub fn has_event_index(&self) -> bool
        requires areas { (len : ℕ) × (len < 2 ^ 63) × HasAreas len (ring_in self.now) }
        ensures { result ≡ (ring_in self.now).has_event_index }
    {
        match self {
            AnyRing::Split(ring) => ring.note().is_some(),
            AnyRing::Packed(ring) => ring.note().is_some(),
        }
    }
}

/// The note of a split ring, in the first two bytes: the taking position (VIRTIO 1.2, 2.7.10).
fn split_note(taking: Position) -> [u8; 4]
    ensures { take 2 result ≡ bytes_low_first 0 2 taking.place }
{
    let [low, high] = taking.place.to_le_bytes();
    [low, high, 0, 0]
}

/// The note of a packed ring: the taking position as offset and wrap counter, and the flags 2, which ask for a notification there
/// (VIRTIO 1.2, 2.8.10 and 2.8.14).
fn packed_note(taking: Position) -> [u8; 4]
    requires { taking.place < 32768 }
    ensures { result ≡ bytes_low_first 0 2 (taking.place + bit_if taking.wrap 32768) ++ bytes_low_first 0 2 2 }
{
    let wrap = if taking.wrap { WRAP } else { 0 };
    let [low, high] = (taking.place + wrap).to_le_bytes();
    [low, high, 2, 0]
}

/// The bit of the wrap counter in the note of a packed ring.
const WRAP: u16 = 0x8000;
