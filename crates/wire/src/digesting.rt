//! Sinks that close a stream by the digest of what they took.

ghost use Rattle.std.specs.Prelude.{◌≡◌, List, ℕ};
ghost use Rattle.sha2.specs.Hashers.{Holds256};
ghost use Rattle.sha2.specs.Sha256.{sha256};

use crate::sink::{Sink, SinkFault};
use crate::writing::encode_commit;
use sha2::{Digest, Sha256};
use std::mem;

/// A sink that closes a stream by the digest of what it took. Who digests, and when, is its own affair: one that keeps its bytes may do it
/// later than at the `put`, at the latest when the stream is closed, or be told the digest after that.
pub trait Digesting: Sink {
    ghost use Rattle.wire.specs.Sinks.{Seals};

    /// Appends the record that closes a stream: the digest of what was put since it was begun. Whatever it does to the digest, nothing more
    /// belongs to that stream.
    fn seal(&mut self) -> Result<(), SinkFault>
        ensures { Seals (Self.sum self.old) (Self.state self.old) result (Self.state self.new) };
}

/// Any sink, and the digest of what was put into it: each byte is digested as it is put.
#[derive(Drop)]
pub struct Eager<S: Sink> {
    sink: S,
    taken: Sha256,
}

impl<S: Sink> Eager<S> {
    ghost use Rattle.std.specs.Prelude.{◌≡◌, List, ℕ, []};
    ghost use Rattle.sha2.specs.Sha256.{sha256};
    ghost use Rattle.wire.specs.Sinks.{Covers};

    /// Over this sink. It takes no memory.
    #[tactic(auto, using(crate::proofs::Sinks::begun))]
    pub fn new(sink: S) -> Eager<S>
        ensures state { ⟦<Eager<S> as Sink>⟧.state result ≡ S.state sink }
        ensures begun { Covers (⟦<Eager<S> as Sink>⟧.sum result) [] }
    {
        Eager {
            sink,
            taken: Sha256::new(),
        }
    }

    /// Replaces the sink, and returns the old one. The digest continues.
    pub fn replace(&mut self, sink: S) -> S
        ensures old { S.state result ≡ ⟦<Eager<S> as Sink>⟧.state self.old }
        ensures new { ⟦<Eager<S> as Sink>⟧.state self.new ≡ S.state sink }
        ensures sum { ⟦<Eager<S> as Sink>⟧.sum self.new ≡ ⟦<Eager<S> as Sink>⟧.sum self.old }
    {
        mem::replace(&mut self.sink, sink)
    }

    /// The digest of what was put.
    #[tactic(auto, using(crate::proofs::Sinks::digested))]
    pub fn digest(&mut self) -> [u8; 32]
        ensures rest { ⟦<Eager<S> as Sink>⟧.state self.new ≡ ⟦<Eager<S> as Sink>⟧.state self.old }
        ensures digest { (bytes : List ℕ) → Covers (⟦<Eager<S> as Sink>⟧.sum self.old) bytes → result ≡ sha256 bytes }
    {
        digest_so_far(&self.taken)
    }

    /// The sink, with all that was put into it.
    pub fn into_inner(self) -> S
        ensures { S.state result ≡ ⟦<Eager<S> as Sink>⟧.state self }
    {
        let Eager { sink, taken: _ } = self;
        sink
    }
}

impl<S: Sink> Sink for Eager<S> {
    ghost use Rattle.wire.specs.Sinks.{prompt};

    ghost state = { λ s. S.state s.sink };

    ghost sum = { λ s. prompt s.taken };

    #[tactic(auto, using(crate::proofs::Sinks::took))]
    fn put(&mut self, bytes: &[u8]) -> Result<(), SinkFault> {
        self.sink.put(bytes)?;
        self.taken.update(bytes);
        Ok(())
    }

    fn flush(&mut self) -> Result<(), SinkFault> {
        self.sink.flush()
    }
}

impl<S: Sink> Digesting for Eager<S> {
    #[tactic(auto, using(crate::proofs::Sinks::sealed))]
    fn seal(&mut self) -> Result<(), SinkFault> {
        let digest = self.digest();
        encode_commit(&digest, self)
    }
}

/// The digest of what the hasher took. It may take more afterwards.
pub(crate) fn digest_so_far(taken: &Sha256) -> [u8; 32]
    ensures { (bytes : List ℕ) → Holds256 taken.now bytes → result ≡ sha256 bytes }
{
    let Ok(copy) = taken.clone() else {
        unreachable!()
    };
    copy.finalize()
}

/// A sink that keeps nothing and never fails. It is not honest. Within an `Eager` it makes a digest alone.
#[derive(Drop)]
pub struct Nowhere {
    flushed: bool,
}

impl Nowhere {
    ghost use Rattle.std.specs.Prelude.{◌≡◌, None, false};
    ghost use Rattle.wire.specs.Sinks.{over_writer};

    /// A sink that is not flushed yet.
    pub fn new() -> Nowhere
        ensures { ⟦<Nowhere as Sink>⟧.state result ≡ over_writer None 0 false }
    {
        Nowhere { flushed: false }
    }
}

impl Sink for Nowhere {
    ghost use Rattle.std.specs.Prelude.{None};
    ghost use Rattle.wire.specs.Sinks.{over_writer};

    ghost state = { λ s. over_writer None 0 s.flushed };

    fn put(&mut self, _bytes: &[u8]) -> Result<(), SinkFault> {
        self.flushed = false;
        Ok(())
    }

    fn flush(&mut self) -> Result<(), SinkFault> {
        self.flushed = true;
        Ok(())
    }
}
