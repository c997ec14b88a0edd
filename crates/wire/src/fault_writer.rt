//! A sink that fails by a plan.

ghost use Rattle.std.specs.Prelude.{◌≡◌, IsErr, None, false};
ghost use Rattle.wire.specs.Sinks.{Appends, Flushes};
ghost use Rattle.wire.specs.FaultWriter.{IsFlushed, IsPut, sink_of};

use crate::sink::{Sink, SinkFault};
use std::marker::Model;

/// Fails after `take` bytes: the put that exceeds the limit writes what fits and fails, and so does every later one, also an empty one.
/// Its flush fails by the plan alone, or as that of the sink below. It is for tests of what a host does when a stream can't be
/// written.
///
/// It is honest where the sink below is. Until it fails by its plan it fails where the sink below fails.
#[derive(Drop)]
pub struct FaultWriter<S: Sink> {
    inner: S,
    room: Option<u64>,
    flush_fails: bool,
    failures: u64,
    is_flushed: bool,
}

impl<S: Sink> Model for FaultWriter<S> {
    ghost use Rattle.wire.specs.FaultWriter.{FaultWriterState};

    ghost Value = { FaultWriterState };

    ghost view = { λ w. record { inner = S.state w.inner; room = w.room; flush_fails = w.flush_fails; failures = w.failures; is_flushed = w.is_flushed } };
}

impl<S: Sink> FaultWriter<S> {
    ghost use Rattle.std.specs.Prelude.{◌≡◌, ◌+◌, ◌%◌, ◌^◌, IsErr, Some, false};

    /// A sink over this one that takes `take` bytes in all, and whose flush fails if `flush_fails`. It takes no memory.
    pub fn new(inner: S, take: u64, flush_fails: bool) -> FaultWriter<S>
        ensures { result ≡ record { inner = S.state inner; room = Some take; flush_fails = flush_fails; failures = 0; is_flushed = false } }
    {
        FaultWriter {
            inner,
            room: Some(take),
            flush_fails,
            failures: 0,
            is_flushed: false,
        }
    }

    /// The sink below, with what it took.
    pub fn into_inner(self) -> S
        ensures { S.state result ≡ self.inner }
    {
        let FaultWriter {
            inner,
            room: _,
            flush_fails: _,
            failures: _,
            is_flushed: _,
        } = self;
        inner
    }

    /// Counts a failure.
    fn fail(&mut self) -> Result<(), SinkFault>
        ensures answer { IsErr result }
        ensures failures { self.new ≡ record self.old { failures = (self.old.failures + 1) % 2 ^ 64 } }
    {
        self.failures = self.failures.wrapping_add(1);
        Err(SinkFault)
    }
}

impl<S: Sink> Sink for FaultWriter<S> {
    ghost state = { sink_of };

    fn put(&mut self, bytes: &[u8]) -> Result<(), SinkFault>
        ensures appends { Appends (sink_of self.old) bytes.now result (sink_of self.new) }
        ensures unflushed { (sink_of self.new).is_flushed ≡ false }
        ensures planned { IsPut self.old bytes.now result self.new }
    {
        self.is_flushed = false;
        let Some(room) = self.room else {
            return self.fail();
        };
        let len = bytes.len() as u64;
        if len > room {
            self.room = None;
            let (front, _) = bytes.split_at(room as usize);
            // The put fails anyway.
            let _ = self.inner.put(front);
            return self.fail();
        }
        self.room = Some(room - len);
        match self.inner.put(bytes) {
            Ok(()) => Ok(()),
            Err(_) => self.fail(),
        }
    }

    fn flush(&mut self) -> Result<(), SinkFault>
        ensures flushed { Flushes (sink_of self.old) result (sink_of self.new) }
        ensures planned { IsFlushed self.old result self.new }
    {
        if self.flush_fails || self.inner.flush().is_err() {
            self.is_flushed = false;
            return self.fail();
        }
        self.is_flushed = true;
        Ok(())
    }
}
