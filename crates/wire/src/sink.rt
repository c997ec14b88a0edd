//! Where a stream is written to.
//!
//! A sink keeps itself whether it is flushed: std's contract of a writer counts no flushes, so that `WriteSink::flush` calls
//! the writer's is not proved.

use std::io::Write;
use thiserror::Error;

/// A sink failed. What it then holds is not specified.
#[derive(Clone, Copy, Debug, Drop, PartialEq, Eq, Error)]
#[error("write error")]
pub struct SinkFault;

/// A destination for bytes. It holds bytes, it has a count of its failures modulo 2^64, it is honest or not, and it is
/// flushed or not. An honest sink stays honest and holds, after a `put` that succeeds, what it held and then the bytes
/// given. After a failure its bytes and its honesty are not specified. It is flushed exactly if the last call was a
/// `flush` that succeeded.
///
/// An `impl` gives `put`, `flush` and `state`. One that closes a stream by a digest (`Digesting`) says by `sum` which bytes that is the
/// digest of; any other leaves `sum` out, and then the clause `takes` says nothing.
pub trait Sink {
    ghost use Rattle.std.specs.Prelude.{◌≡◌, OnOk, false};
    ghost use Rattle.wire.specs.Sinks.{SinkState, Appends, Digested, Flushes, Takes, undigested};

    /// The bytes that it holds, the count of its failures, whether it is honest, and whether it is flushed.
    ghost state: { Self → SinkState };

    /// Which of the bytes that were put into it are digested, or are to be. Most sinks digest nothing, and leave this out.
    ghost sum: { Self → Digested } = { λ _. undigested };

    /// Takes all the bytes, after those that it holds.
    fn put(&mut self, bytes: &[u8]) -> Result<(), SinkFault>
        ensures appends { Appends (state self.old) bytes.now result (state self.new) }
        ensures takes { OnOk result (Takes (sum self.old) bytes.now (sum self.new)) }
        ensures unflushed { (state self.new).is_flushed ≡ false };

    /// Passes all that it took on to its destination.
    fn flush(&mut self) -> Result<(), SinkFault>
        ensures { Flushes (state self.old) result (state self.new) };
}

/// A sink over a writer. It is honest if the writer says which bytes it holds.
#[derive(Drop)]
pub struct WriteSink<W> {
    writer: W,
    failed: u64,
    flushed: bool,
}

impl<W: Write> WriteSink<W> {
    ghost use Rattle.std.specs.Prelude.{◌≡◌, false};
    ghost use Rattle.wire.specs.Sinks.{over_writer};

    /// A sink over this writer, which has not failed and is not flushed yet. It takes no memory.
    pub fn new(writer: W) -> WriteSink<W>
        ensures { ⟦<WriteSink<W> as Sink>⟧.state result ≡ over_writer (W.contents writer) 0 false }
    {
        WriteSink {
            writer,
            failed: 0,
            flushed: false,
        }
    }

    /// The writer, with all that was put into it.
    pub fn into_inner(self) -> W
        ensures { ⟦<WriteSink<W> as Sink>⟧.state self ≡ over_writer (W.contents result) (⟦<WriteSink<W> as Sink>⟧.state self).failures (⟦<WriteSink<W> as Sink>⟧.state self).is_flushed }
    {
        let WriteSink {
            writer,
            failed: _,
            flushed: _,
        } = self;
        writer
    }
}

impl<W: Write> Sink for WriteSink<W> {
    ghost use Rattle.wire.specs.Sinks.{over_writer};

    ghost state = { λ s. over_writer (W.contents s.writer) s.failed s.flushed };

    #[tactic(auto, using(crate::proofs::Sinks::appended, crate::proofs::Sinks::kept))]
    fn put(&mut self, bytes: &[u8]) -> Result<(), SinkFault> {
        self.flushed = false;
        match self.writer.write_all(bytes) {
            Ok(()) => Ok(()),
            Err(_) => {
                self.failed = self.failed.wrapping_add(1);
                Err(SinkFault)
            }
        }
    }

    #[tactic(auto, using(crate::proofs::Sinks::kept))]
    fn flush(&mut self) -> Result<(), SinkFault> {
        match self.writer.flush() {
            Ok(()) => {
                self.flushed = true;
                Ok(())
            }
            Err(_) => {
                self.flushed = false;
                self.failed = self.failed.wrapping_add(1);
                Err(SinkFault)
            }
        }
    }
}
