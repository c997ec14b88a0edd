//! What a step writes into RAM, known before it is made: by this and the answer, a host that makes the step beside the guest
//! (`Parked::step_over`) stores the writes from the window into RAM, one piece after another.

ghost use Rattle.std.specs.Prelude.{◌≡◌, ◌+◌, ◌<◌, ◌≤◌, ◌^◌, ℕ, List, [], drop, length, take, if◌then◌else◌};
ghost use Rattle.chains.specs.Places.{places};
ghost use Rattle.chains.specs.Publish.{after_take};
ghost use Rattle.machine.specs.AnyRing.{ring_in};
ghost use Rattle.machine.specs.Opening.{TellsShared, reach_of};
ghost use Rattle.machine.specs.Stepped.{reply_in};
ghost use Rattle.machine.specs.Stored.{indexes_of};
ghost use Rattle.machine.specs.Writing.{AreNear, IsApartAtEnd, IsHeldIn, IsNext, chain_places, in_two, last_of, last_pieces, no_bytes, note_in, places_of, request_places, second_look, segments_of, unit_places, writes_of, writing_in};

use crate::any_ring::AnyRing;
use crate::sharing::{pieces_meet, segments_meet};
use crate::stepped::Stepped;
use crate::stores::parts::{part_from, rest_from};
use blk::{ID_SIZE, Kind, Request, SECTOR_SIZE};
use chains::{Chain, Piece, Seg};
use std::marker::Model;

mod parts;

/// What determines the writes of a step, beside its answer.
#[derive(Drop)]
pub(crate) enum Target {
    /// It writes nothing.
    Nothing,

    /// A queue that is empty, and the piece by which it is.
    Empty(Piece),

    /// The chain at the taking position of a queue.
    Chain(Chain),

    /// A request that is advanced, without what the device reads of it.
    Request(Request),
}

/// What a step writes into RAM, by its answer.
#[derive(Drop)]
pub struct Stores {
    base: u64,
    ring: AnyRing,
    target: Target,
}

impl Model for Stores {
    ghost use Rattle.machine.specs.AnyRing.{ring_in};
    ghost use Rattle.machine.specs.Writing.{IsHeldIn, Writing, writing_in};

    ghost Value = { Writing };

    ghost view = { λ s. writing_in (ring_in s.ring) s.target };

    ghost invariant = { λ s. IsHeldIn s.base (writing_in (ring_in s.ring) s.target) };
}

/// Bytes of the writable segments: `count` of them, from number `skip`.
#[derive(Clone, Copy)]
struct Span {
    skip: u64,
    count: u64,
}

impl Stores {
    /// What determines the writes of a step on this ring, as it is before a chain is taken, in a RAM with this base.
    pub(crate) fn new(base: u64, ring: AnyRing, target: Target) -> Stores
        requires { IsHeldIn base (writing_in (ring_in ring) target) }
        ensures { result ≡ writing_in (ring_in ring) target }
    {
        Stores { base, ring, target }
    }

    /// The next piece to copy from the window into RAM, where the first `from` bytes that a step with this answer writes are stored. `None`
    /// says that all are. What the step publishes comes last: the used element and the used index, or length, id and flags of a packed
    /// descriptor, are pieces of their own. Each has to be visible to the guest only after all before it is.
    pub fn next(&self, stepped: Stepped, from: u64) -> Option<Piece>
        ensures bytes { (sent : List ℕ) → IsNext (indexes_of (writes_of self.now (reply_in stepped sent))) from result }
        ensures end { (sent : List ℕ) → IsApartAtEnd (length (places_of self.now (reply_in stepped sent))) (last_of self.now (reply_in stepped sent)) from result }
    {
        let span = self.span(stepped);
        if from < span.count {
            return part_from(
                self.base,
                self.segments(),
                span.skip + from,
                span.count - from,
            );
        }
        rest_from(self.last(stepped), from - span.count)
    }

    /// Whether a byte of this piece lies in a writable segment of the chain or the request, or in what the step writes last: whatever its
    /// answer, the step writes into no other byte. Where it may write into the driver's word (`Asking::word`), the word is to be read before
    /// the step, as any piece, and the step is closed at once.
    pub fn may_write(&self, piece: Piece) -> bool
        ensures { TellsShared (indexes_of (reach_of self.now)) piece result }
    {
        if segments_meet(self.base, self.segments(), piece) {
            return true;
        }
        pieces_meet(self.ends().as_slice(), piece)
    }

    /// The bytes of the note by which a step that finds its queue empty asks the driver for a notification, as many as its piece has: the one
    /// that `next` returns for `Stepped::Idle`. A host stores them before it makes that step, and then looks again (`second_look`).
    pub fn note(&self) -> [u8; 4]
        ensures { take (length (note_in self.now)) result ≡ note_in self.now }
    {
        match self.target {
            Target::Empty(_) => self.ring.note_bytes(),
            Target::Nothing | Target::Chain(_) | Target::Request(_) => [0; 4],
        }
    }

    /// The piece to read again once the note of an empty queue is stored: the driver's index, or the descriptor at the taking position. If
    /// it is as in the window, the step may be made, and is the machine's step at that moment. If it has changed, no step is to be made, and
    /// the host asks again which pieces are lacking. Without this look a kick could be lost. `None` says that the step writes no note.
    pub fn second_look(&self) -> Option<Piece>
        ensures { result ≡ second_look self.now }
    {
        match self.target {
            Target::Empty(first) if self.ring.has_event_index() => Some(first),
            _ => None,
        }
    }

    /// The writable segments into which the step may write.
    fn segments(&self) -> &[Seg]
        ensures { result.now ≡ segments_of self.now }
    {
        match &self.target {
            Target::Chain(chain) => chain.writable.as_slice(),
            Target::Request(request) => request.writable.as_slice(),
            Target::Nothing | Target::Empty(_) => &[],
        }
    }

    /// The bytes of them that a step with this answer writes.
    fn span(&self, stepped: Stepped) -> Span
        ensures places { (sent : List ℕ) → places_of self.now (reply_in stepped sent) ≡ take result.count (drop result.skip (places (segments_of self.now))) }
        ensures inside { result.skip + result.count ≤ length (places (segments_of self.now)) }
        ensures few { result.skip + result.count < 2 ^ 64 }
    {
        match &self.target {
            Target::Chain(chain) => span_of_chain(chain, stepped),
            Target::Request(request) => span_of_request(request, stepped),
            Target::Nothing | Target::Empty(_) => Span { skip: 0, count: 0 },
        }
    }

    /// The pieces that such a step writes last.
    fn last(&self, stepped: Stepped) -> [Piece; 2]
        ensures is { (sent : List ℕ) → result ≡ in_two (last_of self.now (reply_in stepped sent)) }
        ensures near { AreNear result }
    {
        if self.writes_last(stepped) {
            return self.ends();
        }
        [NO_BYTES; 2]
    }

    /// Whether such a step writes what the step may write last.
    fn writes_last(&self, stepped: Stepped) -> bool
        ensures { (sent : List ℕ) → last_of self.now (reply_in stepped sent) ≡ (if result then last_pieces self.now else []) }
    {
        match self.target {
            Target::Nothing => false,
            Target::Empty(_) => match stepped {
                Stepped::Idle => true,
                _ => false,
            },
            Target::Chain(_) => stepped.has_published(),
            Target::Request(_) => match stepped {
                Stepped::Completed(_) => true,
                _ => false,
            },
        }
    }

    /// The pieces that the step may write last: a note, or what is published.
    fn ends(&self) -> [Piece; 2]
        ensures is { result ≡ in_two (last_pieces self.now) }
        ensures near { AreNear result }
    {
        match self.target {
            Target::Nothing => [NO_BYTES; 2],
            Target::Empty(_) => self.ring.note(),
            Target::Chain(_) | Target::Request(_) => self.ring.stores(),
        }
    }
}

/// A piece of no bytes.
pub(crate) const NO_BYTES: Piece = Piece { at: 0, count: 0 };

/// The bytes of a chain that a step with this answer writes.
fn span_of_chain(chain: &Chain, stepped: Stepped) -> Span
    ensures places { (sent : List ℕ) → chain_places chain.now (reply_in stepped sent) ≡ take result.count (drop result.skip (places chain.now.writable)) }
    ensures inside { result.skip + result.count ≤ length (places chain.now.writable) }
    ensures few { result.skip + result.count < 2 ^ 64 }
{
    match stepped {
        Stepped::Completed(len) => span_in(chain.writable.total_len(), 0, len as u64),
        _ => Span { skip: 0, count: 0 },
    }
}

/// The bytes of a request's chain that a step with this answer writes.
fn span_of_request(request: &Request, stepped: Stepped) -> Span
    ensures places { (sent : List ℕ) → request_places request.now (reply_in stepped sent) ≡ take result.count (drop result.skip (places request.now.writable)) }
    ensures inside { result.skip + result.count ≤ length (places request.now.writable) }
    ensures few { result.skip + result.count < 2 ^ 64 }
{
    let total = request.writable.total_len();
    match stepped {
        Stepped::Moved => span_of_unit(request),
        Stepped::Completed(_) => span_in(total, total.saturating_sub(1), 1),
        _ => Span { skip: 0, count: 0 },
    }
}

/// The bytes that the next unit of a request writes.
fn span_of_unit(request: &Request) -> Span
    ensures places { unit_places request.now.kind request.now ≡ take result.count (drop result.skip (places request.now.writable)) }
    ensures inside { result.skip + result.count ≤ length (places request.now.writable) }
    ensures few { result.skip + result.count < 2 ^ 64 }
{
    let total = request.writable.total_len();
    match request.kind {
        Kind::In => span_in(
            total,
            SECTOR_SIZE as u64 * request.done as u64,
            SECTOR_SIZE as u64,
        ),
        Kind::GetId => span_in(total, 0, ID_SIZE as u64),
        Kind::Refused | Kind::Out | Kind::Flush | Kind::Zero => Span { skip: 0, count: 0 },
    }
}

/// Of `total` bytes those of `count` bytes, from the one of number `skip` on, that are there.
fn span_in(total: u64, skip: u64, count: u64) -> Span
    ensures same { (at : List ℕ) → length at ≡ total → take result.count (drop result.skip at) ≡ take count (drop skip at) }
    ensures inside { result.skip + result.count ≤ total }
{
    if skip >= total {
        return Span { skip: 0, count: 0 };
    }
    Span {
        skip,
        count: count.min(total - skip),
    }
}
