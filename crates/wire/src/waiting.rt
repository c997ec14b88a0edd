//! A sink whose bytes wait until they are taken, and are digested no sooner than they must.
//!
//! A slow reader makes no call fail: a put fails only if memory is refused. Taking n bytes costs O(n), amortized;
//! the memory can hold up to twice what waits.
//!
//! Bytes are taken by a copy, and not lent: no clause can say which bytes lie behind a pointer that is handed out while the sink
//! owns them, nor until when they stay. The clauses of `take` say which bytes came, and which still wait.

ghost use Rattle.std.specs.Prelude.{◌≡◌, ◌++◌, List, ℕ, Some, [], drop, false, length, min, take};
ghost use Rattle.sha2.specs.Sha256.{sha256};
ghost use Rattle.wire.specs.Sinks.{Covers, Takes, over_writer};

use crate::digesting::{Digesting, digest_so_far};
use crate::sink::{Sink, SinkFault};
use crate::writing::encode_commit;
use sha2::{Digest, Sha256};
use std::alloc::Global;
use std::marker::Model;

/// How many bytes may wait undigested.
const UNDIGESTED_MAX: usize = 1 << 20;

/// Bytes that wait until they are taken. Those already taken are still at the front of the vector. When more bytes come, the
/// taken ones are removed if they are at least as many as those that wait. So no more bytes are ever moved than were taken.
///
/// A put only copies. Bytes are digested as they are taken, and what still waits when the digest is asked for is digested then. Where a
/// reader takes nothing for long, a put digests the first bytes, so that no more than `UNDIGESTED_MAX` are left to a stop.
#[derive(Drop)]
pub struct Waiting {
    bytes: Vec<u8>,
    gone: usize,
    // The bytes up to here are digested: all that are gone, and maybe more.
    seen: usize,
    digest: Sha256,
    failed: u64,
    flushed: bool,
}

impl Model for Waiting {
    ghost use Rattle.std.specs.Prelude.{◌≤◌, Some, drop, length};
    ghost use Rattle.wire.specs.Sinks.{lagging, over_writer};
    ghost use Rattle.wire.specs.Lagging.{IsWaiting, WaitingSeen};

    ghost Value = { WaitingSeen };

    ghost view = { λ w. record { out = over_writer (Some (drop w.gone w.bytes.items)) w.failed w.flushed; sum = lagging w.digest (drop w.seen w.bytes.items) } };

    ghost invariant = { λ w. IsWaiting w.bytes.items w.gone w.seen };
}

impl Waiting {
    /// No bytes yet. It takes no memory.
    #[tactic(auto, using(crate::proofs::Sinks::begun))]
    pub fn new(alloc: Global) -> Waiting
        ensures empty { result.out ≡ over_writer (Some []) 0 false }
        ensures digest { Covers result.sum [] }
    {
        Waiting {
            bytes: Vec::new(alloc),
            gone: 0,
            seen: 0,
            digest: Sha256::new(),
            failed: 0,
            flushed: false,
        }
    }

    /// Takes the first of the bytes, as many as the buffer holds, and returns their count. The count of failures begins anew.
    #[tactic(auto, using(crate::proofs::Lagging::caught_up))]
    pub fn take(&mut self, buf: &mut [u8]) -> usize
        ensures count { result ≡ min (length buf.old) (length self.old.out.held) }
        ensures taken { buf.new ≡ take result self.old.out.held ++ drop result buf.old }
        ensures left { self.new.out ≡ over_writer (Some (drop result self.old.out.held)) 0 false }
        ensures digest { Takes self.old.sum [] self.new.sum }
    {
        let start = self.gone;
        let count = buf.len().min(self.bytes.len() - start);
        let end = start + count;
        buf[..count].copy_from_slice(&self.bytes[start..end]);
        let seen = end.max(self.seen);
        self.digest.update(&self.bytes[self.seen..seen]);
        self.seen = seen;
        self.gone = end;
        self.failed = 0;
        self.flushed = false;
        count
    }

    /// Begins the digest anew: it is the one of what is put from here on.
    #[tactic(auto, using(crate::proofs::Lagging::begun_anew))]
    pub fn begin(&mut self)
        ensures rest { self.new.out ≡ self.old.out }
        ensures begun { Covers self.new.sum [] }
    {
        self.digest = Sha256::new();
        self.seen = self.bytes.len();
    }

    /// The digest of what was put since it was begun.
    #[tactic(auto, using(crate::proofs::Lagging::digested))]
    pub fn digest(&mut self) -> [u8; 32]
        ensures rest { self.new.out ≡ self.old.out }
        ensures digest { (bytes : List ℕ) → Covers self.old.sum bytes → result ≡ sha256 bytes }
    {
        self.digest.update(&self.bytes[self.seen..]);
        self.seen = self.bytes.len();
        digest_so_far(&self.digest)
    }

    /// Digests the first of the bytes, where more than `UNDIGESTED_MAX` would wait for it.
    #[tactic(auto, using(crate::proofs::Lagging::caught_up))]
    fn keep_up(&mut self)
        ensures out { self.new.out ≡ self.old.out }
        ensures digest { Takes self.old.sum [] self.new.sum }
    {
        let late = self.bytes.len().saturating_sub(UNDIGESTED_MAX);
        let end = late.max(self.seen);
        self.digest.update(&self.bytes[self.seen..end]);
        self.seen = end;
    }

    /// Removes the bytes that were taken, if they are at least as many as those that wait.
    fn let_go(&mut self)
        ensures { self.new ≡ self.old }
    {
        let gone = self.gone;
        if gone >= self.bytes.len() - gone {
            drop(self.bytes.drain(..gone));
            self.seen -= gone;
            self.gone = 0;
        }
    }
}

impl Sink for Waiting {
    ghost state = { λ w. w.out };

    ghost sum = { λ w. w.sum };

    #[tactic(auto, using(crate::proofs::Lagging::came, crate::proofs::Lagging::then_none))]
    fn put(&mut self, bytes: &[u8]) -> Result<(), SinkFault> {
        self.let_go();
        self.flushed = false;
        match self.bytes.extend_from_slice(bytes) {
            Ok(()) => {
                self.keep_up();
                Ok(())
            }
            Err(_) => {
                self.failed = self.failed.wrapping_add(1);
                Err(SinkFault)
            }
        }
    }

    fn flush(&mut self) -> Result<(), SinkFault> {
        self.flushed = true;
        Ok(())
    }
}

impl Digesting for Waiting {
    #[tactic(auto, using(crate::proofs::Sinks::sealed))]
    fn seal(&mut self) -> Result<(), SinkFault> {
        let digest = self.digest();
        encode_commit(&digest, self)
    }
}
