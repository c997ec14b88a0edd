//! A sink whose bytes wait until they are taken, and which digests nothing: whoever takes them does, and tells the digest.
//!
//! A stream is closed by `seal` as ever. The record of the digest is then owed: as a sink it holds it already, and it can be taken once the
//! digest was told. So the digest is made where and when the host likes, of the very bytes that it took.
//!
//! A slow reader makes no call fail: a put fails only if memory is refused, or once the stream is closed. Taking n bytes costs O(n),
//! amortized; the memory can hold up to twice what waits.

ghost use Rattle.std.specs.Prelude.{◌≡◌, ◌++◌, ◌+◌, ◌%◌, ◌^◌, IsErr, [], drop, false, length, min, take, true};
ghost use Rattle.sha2.specs.Sha256.{sha256};
ghost use Rattle.wire.specs.Records.{commit, spelled_record};
ghost use Rattle.wire.specs.Telling.{Gains, IsTold, IsToldBy};

use crate::digesting::Digesting;
use crate::past::{Added, Past};
use crate::record_head::{COMMIT_RECORD, COMMIT_TAG};
use crate::sink::{Sink, SinkFault};
use std::alloc::Global;
use std::marker::Model;

/// Bytes that wait until they are taken, as in a `Waiting`, and whose digest is told.
#[derive(Drop)]
pub struct Told {
    bytes: Vec<u8>,
    gone: usize,
    // All that was put.
    past: Past,
    // The record of the digest comes after the bytes, and the digest was not told yet. The vector has room for it.
    owed: bool,
    failed: u64,
    flushed: bool,
}

impl Model for Told {
    ghost use Rattle.std.specs.Prelude.{◌≡◌, ◌+◌, ◌≤◌, drop, length, true, vec_capacity, vec_len};
    ghost use Rattle.wire.specs.Telling.{ToldSeen};
    ghost use Rattle.wire.specs.declared.record_head.TheConstants.{COMMIT_RECORD};

    ghost Value = { ToldSeen };

    ghost view = { λ w. record { ready = drop w.gone w.bytes.items; owed = w.owed; past = w.past.bytes; failures = w.failed; is_flushed = w.flushed } };

    ghost invariant = { λ w. (w.gone ≤ length w.bytes.items) × (w.owed ≡ true → vec_len w.bytes + COMMIT_RECORD ≤ vec_capacity w.bytes) };
}

impl Told {
    /// No bytes yet. It takes no memory.
    pub fn new(alloc: Global) -> Told
        ensures { result ≡ record { ready = []; owed = false; past = []; failures = 0; is_flushed = false } }
    {
        Told {
            bytes: Vec::new(alloc),
            gone: 0,
            past: Past::new(),
            owed: false,
            failed: 0,
            flushed: false,
        }
    }

    /// Takes the first of the bytes, as many as the buffer holds, and returns their count. The record of the digest is among them once it was
    /// told. The count of failures begins anew.
    pub fn take(&mut self, buf: &mut [u8]) -> usize
        ensures count { result ≡ min (length buf.old) (length self.old.ready) }
        ensures taken { buf.new ≡ take result self.old.ready ++ drop result buf.old }
        ensures left { self.new ≡ record self.old { ready = drop result self.old.ready; failures = 0; is_flushed = false } }
    {
        let start = self.gone;
        let count = buf.len().min(self.bytes.len() - start);
        let end = start + count;
        buf[..count].copy_from_slice(&self.bytes[start..end]);
        self.gone = end;
        self.failed = 0;
        self.flushed = false;
        count
    }

    /// Whether the digest is still to be told.
    pub fn owes(&self) -> bool
        ensures { result ≡ self.now.owed }
    {
        self.owed
    }

    /// The digest of all that was put, once the stream was closed and while its record is owed. What it holds as a sink is the same after it;
    /// now all of it can be taken. It takes no memory: the record's is there since the stream was closed.
    #[tactic(auto, using(crate::proofs::ToldSinks::told_right))]
    pub fn tell(&mut self, digest: &[u8; 32])
        requires owed { self.old.owed ≡ true }
        requires digest { digest.now ≡ sha256 self.old.past }
        ensures { IsTold self.old self.new }
    {
        self.tell_on_trust(digest)
    }

    /// As `tell`, for a caller who cannot prove whose digest it is: nobody compares it here. The record that closes the stream has this one, and
    /// whoever receives the stream refuses a wrong one.
    pub fn tell_on_trust(&mut self, digest: &[u8; 32])
        requires owed { self.old.owed ≡ true }
        ensures { IsToldBy digest.now self.old self.new }
    {
        let record = commit_bytes(digest);
        let Ok(()) = self.bytes.extend_from_slice(&record) else {
            unreachable!()
        };
        self.past = self.past.then(&Added { bytes: &record });
        self.owed = false;
    }

    /// Removes the bytes that were taken, if they are at least as many as those that wait.
    fn let_go(&mut self)
        requires { self.old.owed ≡ false }
        ensures { self.new ≡ self.old }
    {
        let gone = self.gone;
        if gone >= self.bytes.len() - gone {
            drop(self.bytes.drain(..gone));
            self.gone = 0;
        }
    }

    /// Adds bytes that can be taken.
    fn gain(&mut self, bytes: &[u8]) -> Result<(), SinkFault>
        requires { self.old.owed ≡ false }
        ensures { Gains self.old bytes.now result self.new }
    {
        self.flushed = false;
        match self.bytes.extend_from_slice(bytes) {
            Ok(()) => {
                self.past = self.past.then(&Added { bytes });
                Ok(())
            }
            Err(_) => {
                self.failed = self.failed.wrapping_add(1);
                Err(SinkFault)
            }
        }
    }

    /// Counts a failure.
    fn fail(&mut self) -> Result<(), SinkFault>
        ensures answer { IsErr result }
        ensures failures { self.new ≡ record self.old { failures = (self.old.failures + 1) % 2 ^ 64 } }
    {
        self.failed = self.failed.wrapping_add(1);
        Err(SinkFault)
    }
}

impl Sink for Told {
    ghost use Rattle.wire.specs.Telling.{out_of, sum_of};

    ghost state = { out_of };

    ghost sum = { sum_of };

    #[tactic(auto, using(crate::proofs::ToldSinks::came, crate::proofs::ToldSinks::came_not, crate::proofs::ToldSinks::remembers, crate::proofs::ToldSinks::took_not))]
    fn put(&mut self, bytes: &[u8]) -> Result<(), SinkFault> {
        if self.owed {
            self.flushed = false;
            return self.fail();
        }
        self.let_go();
        self.gain(bytes)
    }

    fn flush(&mut self) -> Result<(), SinkFault> {
        self.flushed = true;
        Ok(())
    }
}

impl Digesting for Told {
    #[tactic(auto, using(crate::proofs::ToldSinks::sealed, crate::proofs::ToldSinks::not_sealed))]
    fn seal(&mut self) -> Result<(), SinkFault> {
        self.flushed = false;
        if self.owed {
            return self.fail();
        }
        let Ok(()) = self.bytes.reserve(COMMIT_RECORD) else {
            return self.fail();
        };
        self.owed = true;
        Ok(())
    }
}

/// The record of the digest.
#[tactic(auto, unfolding(crate::specs::Records::spelled_record))]
fn commit_bytes(digest: &[u8; 32]) -> [u8; COMMIT_RECORD]
    ensures { result ≡ spelled_record (commit digest.now) }
{
    let mut record = [COMMIT_TAG; COMMIT_RECORD];
    record[1..].copy_from_slice(digest);
    record
}
